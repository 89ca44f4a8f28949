use crate::progress::Progress;
use crate::stop_cause::StopCause;

/// A plan's state once a reply is taken, with the number of replies taken where it ends. It is what contracts say of a
/// plan; `Taken` and `Finish` are its forms that hold the seat.
#[derive(Drop)]
pub enum PlanState {
    Running(Progress),
    Done(u64),
    Stopped(StopCause, u64),
}
