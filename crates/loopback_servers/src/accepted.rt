/// What an acceptor did: how many connections it accepted or failed to accept, and whether workers were left to serve
/// them.
#[derive(Clone, Copy)]
pub(crate) struct Accepted {
    pub count: u64,
    pub served: bool,
}
