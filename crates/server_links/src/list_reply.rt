use byte_texts::TextList;
use resp2_wire::Reply;

/// What comes in answer to a request for a list.
#[derive(Drop)]
pub enum ListReply {
    /// The texts of a list that has more of them than an array has otherwise, in their order.
    Texts(TextList),
    /// Any other reply.
    Other(Reply),
}
