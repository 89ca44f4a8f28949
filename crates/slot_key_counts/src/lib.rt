//! How many keys the slots of a cluster of servers have, as its nodes count them.
#![tactic(auto)]

mod batches;
mod counting;
mod key_table;
mod laws;
mod moved;
mod questions;
mod rounds;

pub use counting::{keys_at, keys_of_slot};
pub use key_table::KeyTable;
pub use laws::batches_are_small;
pub use moved::key_counts;
pub use questions::{AskedNodes, SlotQuestions};
pub use rounds::ask_all;
