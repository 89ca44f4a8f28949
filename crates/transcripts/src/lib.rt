//! What a rehearsal prints: replies, administrators' commands, and what becomes of a plan, with the status that it
//! leaves.
#![tactic(auto)]

mod calls;
mod printing;
mod run_lines;
mod transcript;
mod verdict;

pub use run_lines::{RunProgress, stop_reason};
pub use transcript::Transcript;
pub use verdict::verify_and_report;
