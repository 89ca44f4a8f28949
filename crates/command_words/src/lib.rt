//! The program's command line: what its words ask for.
#![tactic(auto)]

mod addresses;
mod arguments;
mod clusters;
mod command_line;
mod environment;
mod faults;
mod forgetting;
mod ids;
mod planning;
mod resuming;
mod serving;
mod showing;
mod sizes;
mod slot_counts;
mod start_kind;
mod starts;
mod surveying;
mod texts;
mod usage;

pub use command_line::parse;
pub use environment::{takes_cluster, with_cluster};
pub use faults::OptionFault;
pub use sizes::Sizes;
pub use usage::{
    ApplyWords, ClusterWords, DrainWords, ExplainWords, ForgetWords, LogStart, RebalanceWords,
    ReshardWords, ResumeWords, ServeWords, SlotCount, Start, SurveyWords, Usage,
};
