//! The keys of a node with their values, in one ordered map for each slot.
#![tactic(auto)]

mod key_map;
mod keyspace;
mod slot_keys;
mod writing;

pub use keyspace::Keyspace;
