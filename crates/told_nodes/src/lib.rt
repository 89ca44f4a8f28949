//! What a node tells on CLUSTER NODES is what is read of it.
#![tactic(auto)]

mod laws;

pub use laws::{told_nodes_are_read, told_tables_stay_so};
