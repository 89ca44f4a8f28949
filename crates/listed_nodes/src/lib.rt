//! What a server answers to CLUSTER NODES, read exactly (the page of CLUSTER NODES): a line for each node that the
//! server knows, with its own marks in the line of itself.
#![tactic(auto)]

mod address;
mod name;
mod node_line;
mod slot_word;

pub use address::MAX_HOST;
pub use name::is_name;
pub use node_line::{NodeLine, NodeLines, line_in, nodes_in};
pub use slot_word::{SlotWord, SlotWords, slot_word_in};
