//! How far a plan is after a step.
ghost use Rattle.std.specs.Prelude.{◌≡◌};
ghost use Rattle.plan_runner.specs.Advancing.{plan_of};
ghost use Rattle.server_runs.specs.Steps.{state_after, told_after};

use crate::run_end::RunEnd;
use crate::slot_owner::SlotOwner;
use plan_runner::{RunningPlan, Taken};
use redis_servers::ServersSeat;

/// What a step makes of a plan: it continues, after a command that told another node of this owner, if one did; or it
/// is over.
pub(crate) enum Step {
    On(RunningPlan<ServersSeat>, Option<SlotOwner>),
    Over(RunEnd),
}

impl Step {
    /// The plan as the replies have left it, after a command that told another node of this owner, if one did.
    pub(crate) fn of(taken: Taken<ServersSeat>, told: Option<SlotOwner>) -> Self
        ensures state { state_after result ≡ plan_of taken }
        ensures told { told_after told result }
    {
        match taken {
            Taken::Running(plan) => Self::On(plan, told),
            Taken::Done(done) => {
                let spent = done.cost_so_far();
                drop(done.into_seat());
                Self::Over(RunEnd::Done(spent))
            }
            Taken::Stopped(stopped) => {
                let spent = stopped.cost_so_far();
                let (seat, cause) = stopped.into_parts();
                drop(seat);
                Self::Over(RunEnd::Stopped(cause, spent))
            }
        }
    }
}

/// Lets the plan go, with its seat.
pub(crate) fn let_go(taken: Taken<ServersSeat>) {
    match taken {
        Taken::Running(plan) => {
            let (seat, _) = plan.abandon().into_parts();
            drop(seat);
        }
        Taken::Done(done) => drop(done.into_seat()),
        Taken::Stopped(stopped) => {
            let (seat, _) = stopped.into_parts();
            drop(seat);
        }
    }
}
