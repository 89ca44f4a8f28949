//! What the servers of a Redis Cluster say of it, as one survey: each node's owners of the slots, and its marks.
#![tactic(auto)]

mod agreement;
mod fault;
mod gone;
mod knowing;
mod marks;
mod named_book;
mod owners;
mod server_row;
mod server_survey;
mod surveying;
mod tables;
mod told_epochs;
mod view;

pub use fault::SurveyFault;
pub use gone::{is_gone, is_present};
pub use knowing::place_of_name;
pub use server_survey::ServerSurvey;
pub use surveying::{Surveyed, survey_of};
