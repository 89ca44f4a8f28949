//! What is printed of each master of a survey: its line, and what it tells of its slots, its keys and its replicas.
#![tactic(auto)]

mod details;
mod masters;

pub use details::Details;
pub use masters::master_lines;
