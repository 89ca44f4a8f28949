//! What a plan leaves a node.
use byte_texts::Text;
use key_slots::NodeId;

/// How many slots a node has before a plan, and how many after it.
#[derive(Clone, Copy, Debug, PartialEq, Eq)]
pub struct NodeChange {
    pub node: NodeId,
    pub before: u32,
    pub after: u32,
}

/// What the server of a node tells of itself (the page of INFO). A figure that it does not tell is none.
#[derive(Drop)]
pub struct NodeServer {
    pub node: NodeId,
    /// The IP address at which the others reach it.
    pub host: Text,
    pub port: u16,
    /// Its ID: 40 hexadecimal digits.
    pub name: Text,
    /// How many keys it has, in all slots.
    pub keys: Option<u64>,
    /// The bytes that its values and tables take (`used_memory`).
    pub used_memory: Option<u64>,
    /// The bytes that they may take (`maxmemory`), of which 0 is no limit.
    pub max_memory: Option<u64>,
}
