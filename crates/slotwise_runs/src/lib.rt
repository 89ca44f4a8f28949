//! The headline slot by slot: in whatever order the slots of a plan are moved, also several at once.
//!
//! Start at specs/Seen (what is seen of each slot) and specs/Headline. Of the proofs each line stands on those above
//! it:
//!
//! | Files of proofs/ | Subject |
//! |---|---|
//! | Fronts, Parts | beginnings of runs, and the part of one slot |
//! | Calls, Rests, Sums | the calls of one slot, what is left of a part, sums over slots |
//! | Keeping, Ends, Cases | each event keeps the invariant of its slot, ends, and cases |
//! | Spends | costs, slot by slot |
//! | Headline, Runs, Schedules | the headline, worlds and trails, and that each schedule is a run |
#![tactic(auto)]

mod laws;

pub use laws::{each_schedule_is_a_run, headline_in_any_order_of_slots, what_is_seen_of_each_slot};
