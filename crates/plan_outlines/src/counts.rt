//! How many commands a plan stands for.

/// How many commands of each kind there are.
#[derive(Clone, Copy, Debug, PartialEq, Eq)]
pub struct CommandCounts {
    /// SETSLOT IMPORTING.
    pub importing: u32,
    /// SETSLOT MIGRATING.
    pub migrating: u32,
    /// The keys of a slot, listed and moved.
    pub drain: u32,
    /// SETSLOT NODE.
    pub node: u32,
    /// SETSLOT STABLE.
    pub stable: u32,
}

/// What a plan moves where slots hold as many keys as were counted. Where a number would be above 2^64 - 1, it is that.
#[derive(Clone, Copy, Debug, PartialEq, Eq)]
pub struct KeyLoad {
    /// The keys of the slots, for each move.
    pub keys: u64,
    /// The calls that the plan takes: one for each SETSLOT, one for each drain, two for each batch.
    pub calls: u64,
}
