//! A node's table of owners and marks, and its verdict on the keys of a command.
#![tactic(auto)]

mod fault;
mod judging;
mod mark_row;
mod slot_table;
mod verdict;

pub use fault::SlotFault;
pub use judging::{judge, judge_at};
pub use mark_row::MarkRow;
pub use slot_table::SlotTable;
pub use verdict::Verdict;
