//! The phase of each slot as the servers of a Redis Cluster show it: open slots, what they lack, and the plan that
//! closes them.
#![tactic(auto)]

mod key_counts;
mod looking;
mod opening;
mod phase_fault;
mod phases;
mod printing;
mod rests;
mod resume_fault;
mod resuming;
mod route;
mod server_phase;
mod stranded;
mod strange;
mod strange_slot;
mod strangeness;
mod told_first;

pub use key_counts::KeyCounts;
pub use opening::open_survey;
pub use phase_fault::PhaseFault;
pub use phases::{next_open, phase_at};
pub use printing::put_phase_lines;
pub use rests::REST_BATCH;
pub use resume_fault::ResumeFault;
pub use resuming::resumed_plan;
pub use route::Route;
pub use server_phase::ServerPhase;
pub use stranded::put_stranded_lines;
pub use strange_slot::StrangeSlot;
pub use strangeness::Strangeness;
