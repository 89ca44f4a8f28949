//! Plans that move slots between nodes: read, verified, armed and run through an administrator's port.
#![tactic(auto)]

mod armed;
mod command_fault;
mod laws;
mod left;
mod listed_keys;
mod node_set;
mod plan_check;
mod plan_state;
mod progress;
mod rules;
mod running;
mod slot_state;
mod stop_cause;
mod telling;
mod verifier;
mod verify_fault;
mod watching;

pub use armed::{ArmFault, ArmedPlan};
pub use laws::{
    calls_of_plans_are_sent, calls_of_watched_plans_are_sent, plans_that_are_done_were_carried_out,
    plans_that_are_left_sent_a_prefix, plans_that_run_on_are_spelt,
};
pub use plan_language::{Line, ParseCause, ParseFault, Plan, PlanCommand, batch_in, parse};
pub use plan_semantics::Order;
pub use plan_state::PlanState;
pub use progress::Progress;
pub use running::{DonePlan, Finish, RunningPlan, StoppedPlan, Taken};
pub use stop_cause::StopCause;
pub use verifier::{VerifiedPlan, verify, verify_open};
pub use verify_fault::{CommandPlace, VerifyFault};
pub use watching::Watcher;
