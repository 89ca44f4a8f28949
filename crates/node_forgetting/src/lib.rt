//! The command by which all other nodes of a cluster forget a master that has no slots any more (CLUSTER FORGET).
#![tactic(auto)]

mod answering;
mod countdown;
mod forgetting;
mod hold;
mod holding;
mod leaving;
mod other_nodes;
mod telling;
mod told_nodes;

pub use countdown::Countdown;
pub use forgetting::forget_answer;
pub use hold::Hold;
