//! The nodes of a cluster with the names that their servers give themselves, as lists and as a table of fixed size.
#![tactic(auto)]

mod name_table;
mod node_name;
mod node_names;

pub use name_table::NameTable;
pub use node_name::NodeName;
pub use node_names::{NodeNames, are_below, has_name, has_node};
