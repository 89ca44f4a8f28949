//! What is asked of a cluster of real servers, and changes nothing there: it is found and surveyed, a plan is verified
//! at it, and planners start from its owners.
#![tactic(auto)]

mod credentials;
mod endings;
mod expected;
mod finding;
mod link_counts;
mod mentioned;
mod naming;
mod naming_fault;
mod no_cluster;
mod owners;
mod password_file;
mod plan_reading;
mod refusal;
mod returning;
mod showing;
mod stranded;
mod survey;
mod survey_file;
mod system;
mod table_counts;
mod verify;
mod verify_plainly;

pub use credentials::{CredentialFault, Variable, copy_of, credentials_given};
pub use endings::{out_of_memory, report, show};
pub use finding::{AGREEING, ASKING, Servers, Sockets, find_cluster, unfound};
pub use naming::named_plan;
pub use naming_fault::NamingFault;
pub use no_cluster::{NoCluster, open_slots};
pub use owners::owners_at_start;
pub use password_file::PasswordFileFault;
pub use plan_reading::{names_listed, plan_from, plan_in, plan_of};
pub use refusal::{Refusal, refused, report_refusal};
pub use returning::check_returning;
pub use stranded::tell_stranded;
pub use survey::survey_cluster;
pub use system::System;
pub use verify::verify_at;
pub use verify_plainly::verify_plainly;
