//! What a plan comes to, as it is explained and drawn: the owners before and after, what moves between which nodes, and
//! what the plan's commands amount to. The changes between two tables of owners are made here: the ranges of slots,
//! what each node has, and what moves between which nodes. A table has the owner of each slot, from slot 0 on. The
//! crates above make the other values, and print them.
#![tactic(auto)]

mod changed_nodes;
mod changed_pairs;
mod changed_ranges;
mod counting;
mod counts;
mod laws;
mod nodes;
mod outline;
mod pairs;
mod ranges;

pub use changed_nodes::node_changes;
pub use changed_pairs::pair_changes;
pub use changed_ranges::range_changes;
pub use counts::{CommandCounts, KeyLoad};
pub use laws::{nodes_hold_all_slots, ranges_cover_all_slots};
pub use nodes::{NodeChange, NodeServer};
pub use outline::PlanOutline;
pub use pairs::PairChange;
pub use ranges::{RangeChange, SlotRun};
