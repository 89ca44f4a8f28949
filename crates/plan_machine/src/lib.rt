//! Plans that move slots between nodes: read, verified, armed and run, also over worlds, and what holds of their runs.
#![tactic(auto)]

mod laws;
mod over_world;

pub use laws::plans_run_over_worlds_take_their_cost;
pub use over_world::run_over_world;
pub use plan_runner::{
    ArmFault, ArmedPlan, CommandPlace, DonePlan, Finish, Line, Order, ParseCause, ParseFault, Plan,
    PlanCommand, PlanState, Progress, RunningPlan, StopCause, StoppedPlan, Taken, VerifiedPlan,
    VerifyFault, Watcher, batch_in, calls_of_plans_are_sent, calls_of_watched_plans_are_sent,
    parse, plans_that_are_done_were_carried_out, plans_that_are_left_sent_a_prefix,
    plans_that_run_on_are_spelt, verify, verify_open,
};
pub use reshard_theorem::{
    clients_see_one_store, headline, headline_over_threads, headline_over_trails, plans_go_on,
    prefixes_are_driven, quiet_plans_move_their_slots,
};
