//! What holds of the runs of plans at servers, where these are as a world that a survey showed: the headline, and that
//! a world which was settled is open.
#![tactic(auto)]

mod at_servers;
mod laws;

pub use at_servers::apply_at_servers;
pub use laws::{
    applied_plans_have_the_headline, plans_run_in_one_go_have_the_headline, settled_worlds_are_open,
};
