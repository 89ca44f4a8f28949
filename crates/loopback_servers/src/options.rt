/// How a cluster is served: so many nodes, of which the first `even` share the slots, at the ports from `base_port` on.
#[derive(Clone, Copy, Debug, PartialEq, Eq)]
pub struct ServeOptions {
    pub nodes: u8,
    pub even: u8,
    pub base_port: u16,
    /// The threads that serve sessions: 1 to 32.
    pub workers: u8,
    /// The connections that are accepted at each node; at 0 there is no end.
    pub connections: u32,
    /// Whether sessions tell of what clients of a Redis Cluster ask beside their commands.
    pub answers_clients: bool,
}
