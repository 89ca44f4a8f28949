//! What a plan does, shown before it runs: explained on a page or as JSON, or drawn; and what is there, drawn.
#![tactic(auto)]

mod counting;
mod drawing;
mod explaining;
mod going_on;
mod looking;
mod now;
mod preview;
mod refusing;
mod standing;
mod telling;
mod verdicts;

pub use drawing::draw_plan;
pub use explaining::explain_plan;
pub use now::draw_now;
