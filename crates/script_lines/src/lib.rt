//! The lines of a rehearsal's script: what each is, or its fault.
#![tactic(auto)]

mod fault;
mod first_line;
mod line;
mod migration;
mod named;
mod reading;
mod setting;
mod sizes;
mod verb;
mod words;

pub use fault::{Halt, ScriptFault};
pub use first_line::sizes_of;
pub use line::Line;
pub use sizes::ClusterSizes;
