//! The planners: an operator names a goal, and gets the plan of moves that reaches it, which is legal.
#![tactic(auto)]

mod blank_plan;
mod draining;
mod exchange;
mod giving;
mod grouping;
mod held;
mod laws;
mod moved_range;
mod planner_fault;
mod rebalancing;
mod resharding;
mod resuming;
mod shares;
mod slot_list;
mod starts;
mod transfer;

pub use draining::drain;
pub use laws::{
    planned_drains_are_legal, planned_rebalances_are_legal, planned_reshards_are_legal,
};
pub use planner_fault::PlannerFault;
pub use rebalancing::rebalance;
pub use resharding::reshard;
pub use resuming::resume;
