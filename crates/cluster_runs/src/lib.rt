//! The commands that change a cluster of real servers: apply and resume.
#![tactic(auto)]

mod advice;
mod apply;
mod attempt;
mod batches;
mod emptied;
mod file_identity;
mod log_files;
mod looking;
mod one_run;
mod operator;
mod patience;
mod prepared;
mod preparing;
mod rests;
mod resume;
mod runs;
mod settled_rests;
mod settling;
mod shell_words;
mod stop_files;
mod targets;
mod trouble;

pub use apply::apply_plan;
pub use resume::resume_plan;
