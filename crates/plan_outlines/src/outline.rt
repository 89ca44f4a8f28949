//! What a plan comes to.
use crate::counts::{CommandCounts, KeyLoad};
use crate::nodes::NodeChange;
use crate::pairs::PairChange;
use crate::ranges::{RangeChange, SlotRun};

/// What a legal plan comes to, where it starts from these owners.
#[derive(Drop)]
pub struct PlanOutline {
    /// The slots in ascending order, each in one range, as few ranges as there can be.
    pub ranges: Vec<RangeChange>,
    /// All nodes, in ascending order.
    pub nodes: Vec<NodeChange>,
    /// The pairs of nodes between which slots move, those with the most slots first.
    pub pairs: Vec<PairChange>,
    pub counts: CommandCounts,
    /// How many keys a batch has at least and at most; both are 0 where nothing is drained.
    pub least_batch: u16,
    pub most_batch: u16,
    /// Slots that are drained twice or more.
    pub moved_again: Vec<SlotRun>,
    /// Slots that are drained, and have the same owner after the plan as before it.
    pub moved_back: Vec<SlotRun>,
    /// How many slots stand open at the same time, at most.
    pub most_open: u32,
    /// What is known of keys, where servers were asked.
    pub load: Option<KeyLoad>,
}
