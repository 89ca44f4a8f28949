//! A file with a survey of a clean cluster, as it is printed with the ranges of the slots of each master: its servers,
//! and the owners of all slots.
#![tactic(auto)]

mod covering;
mod file_fault;
mod lines;
mod numbering;
mod reading;
mod survey;

pub use file_fault::FileFault;
pub use survey::{FileSurvey, survey_in};
