//! The theorem on live resharding, over the definitions alone: what holds of every run that a legal plan drives.
//!
//! Start at specs/Headline: `Headline` is the statement, and specs/ServerHeadline has it for servers. Of the proofs
//! each line stands on those above it:
//!
//! | Files of proofs/ | Subject |
//! |---|---|
//! | Keys, Listing, Split, Verdicts, Slotwise, Shown | keys, listings, contents over nodes, verdicts, worlds by slots |
//! | Served, Asks, Answered, Driven, Unrolled, Unique | replies of a node, runs that a plan drives |
//! | Phases, Counting, Tables | a slot's phases and what holds in each, rounds of a drain, tables |
//! | Base, Turns, Servers | the invariant, what each command does to a phase, what servers may reply |
//! | Admins, Clients, HonestClients, Stops | one event keeps the invariant, and where a run stops |
//! | Whole, Begins, Opens, Gains, HonestRuns | whole runs, where they begin, and what a source gains |
//! | Nexts, Prefixes, Retargets, Spending | the next call, beginnings of a run, a slot that moves twice, costs |
//! | Clauses, Exactly, Limits | the seven clauses, exact costs without clients |
//! | Quietly, QuietCosts, Stages, Landed | runs without clients, several plans, what a world itself replies |
//! | Threads, SurveyedStages | trails of threads, plans that were verified for surveys |
#![tactic(auto)]

mod laws;
mod server_laws;

pub use laws::{
    asks_stand, clean_worlds_are_open, clients_see_one_store, driven_step_by_step, headline,
    headline_over_plans, headline_over_surveys, headline_over_threads, headline_over_trails,
    listings_are_answered, plans_go_on, prefixes_are_driven, quiet_plans_cost_what_the_store_says,
    quiet_plans_move_their_slots, stopped_runs_leave_open_worlds, surveys_show_phases,
};
pub use server_laws::{
    asks_stand_at_servers, headline_over_plans_at_servers, headline_over_servers,
    headline_over_surveys_at_servers, plans_go_on_at_servers,
    quiet_plans_take_their_cost_at_servers, runs_are_server_runs, server_prefixes_are_driven,
    stopped_servers_leave_open_worlds,
};
