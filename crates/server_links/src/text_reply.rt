use resp2_wire::Reply;

/// What comes in answer to a request for a text.
#[derive(Drop)]
pub enum TextReply {
    /// A text that is longer than an argument may be.
    Text(Vec<u8>),
    /// Any other reply.
    Other(Reply),
}
