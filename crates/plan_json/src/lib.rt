//! What a plan comes to, and why one is refused, as lines of JSON.
#![tactic(auto)]

mod lines;
mod members;
mod node_values;
mod outline_values;
mod pair_values;
mod slot_values;
#[cfg(test)]
mod tests;

pub use lines::{json, refusal_json};
