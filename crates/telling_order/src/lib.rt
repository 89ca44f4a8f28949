//! In which order the nodes are told of a slot's new owner, once its target and its source know it: in any.
//!
//! Start at specs/AnyOrder (plans that tell in another order) and specs/SeenCalls (what is seen of such a plan). Of the
//! proofs each line stands on those above it:
//!
//! | Files of proofs/ | Subject |
//! |---|---|
//! | Blocks, Orders, Owners, StillLeft, Unrollings | neighbouring commands, orders, owners, what is left at a stop |
//! | Swaps, Parts, Costs | two commands in the other order: parts, legality and costs |
//! | Plans, Once | plans in another order, and nodes that are told in one go |
//! | OneGo, SeenCalls | runs in one go, and what is seen of a plan |
#![tactic(auto)]

mod laws;

pub use laws::{
    headline_in_any_order, others_are_told_in_any_order, runs_stop_in_one_go,
    seen_calls_have_the_headline,
};
