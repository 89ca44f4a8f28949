//! What moves from one node to another.
use key_slots::NodeId;

/// How many slots are the source's before a plan and the target's after it, and how many keys these hold.
#[derive(Clone, Copy, Debug, PartialEq, Eq)]
pub struct PairChange {
    pub source: NodeId,
    pub target: NodeId,
    pub slots: u32,
    /// The number that the slots' owners counted before the plan; at most 2^64 - 1.
    pub keys: u64,
}
