//! What a node tells a client of the cluster out of its own table: CLUSTER NODES, CLUSTER SHARDS and CLUSTER INFO.
#![tactic(auto)]

mod node_lines;
mod putting;
mod shards;
mod state_lines;

pub use node_lines::nodes_text;
pub use shards::shards_reply;
pub use state_lines::state_text;

#[cfg(test)]
mod tests;
