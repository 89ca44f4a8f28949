//! Rehearsals: scripts that are played line by line on a cluster in memory, with what each line prints.
#![tactic(auto)]

mod answering;
mod last_call;
mod laws;
mod opening;
mod plan_armed;
mod plan_reading;
mod resuming;
mod script;
mod seat_free;
mod stage;

pub use laws::{
    abandoned_plans_leave_open_worlds, armed_plans_are_carried_out, done_plans_leave_clean_worlds,
    headline_since_arming, unmarked_worlds_are_clean,
};
pub use script::rehearse;
