//! What a plan comes to, as a value of `plan_outlines`: the owners that it leaves, and what its commands amount to; and
//! how much it moves, and which nodes it empties.
#![tactic(auto)]

mod batches;
mod counts;
mod drains;
mod emptying;
mod expanding;
mod finals;
mod laws;
mod load;
mod load_laws;
mod opening;
mod outlining;
mod runs;
mod zeros;

pub use batches::{least_batch, most_batch};
pub use counts::command_counts;
pub use drains::{moved_again, moved_back};
pub use emptying::is_emptied;
pub use expanding::expand;
pub use finals::{final_owners, owners_before};
pub use laws::{
    batches_have_bounds, legal_plans_close, legal_plans_tell_nodes, open_slots_are_counted,
    owners_are_final, runs_are_of_marks,
};
pub use load::PlanLoad;
pub use load_laws::emptied_nodes_lose_their_last_slot;
pub use opening::most_open;
pub use outlining::outline;
