//! What plans mean: which are legal, which owners they leave, what they cost, and which calls they stand for. The
//! definitions are in specs/, over those of `cluster_admin`.
#![tactic(auto)]

mod laws;
mod order;

pub use laws::{plans_are_spelt_by_unrolling, plans_leave_tables, plans_of_owned_moves_are_legal};
pub use order::Order;
