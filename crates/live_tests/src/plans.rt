//! A plan over a running cluster, which takes so many turns and is given up then.
ghost use Rattle.std.specs.Prelude.{◌≡◌, ◌<◌, length, IfErr, IfOk};
ghost use Rattle.live_tests.specs.Sittings.{Continues};
ghost use Rattle.live_tests.specs.Turns.{Fits};
ghost use Rattle.plan_runner.specs.Advancing.{plan_of, seat_of};
ghost use Rattle.plan_runner.specs.Leaving.{HasSent};
ghost use Rattle.plan_runner.specs.ProgressView.{at_start};
ghost use Rattle.plan_runner.specs.Verifying.{commands_of};
ghost use Rattle.plan_semantics.specs.Surveyed.{node_count};

use cluster_node::AdminReply;
use cluster_world::AdminCall;
use key_slots::OwnerTable;
use live_cluster::{AdminSeat, ClusterBrand, LiveCluster, LivePort};
use plan_runner::{RunningPlan, StopCause, Taken, VerifiedPlan, parse, verify};
use std::alloc::Global;
use std::sync::Wait;

/// Moves the slot of the key `b` from node 0 to node 1.
const MOVE: &[u8] = b"reshard-plan 1\nmove 3300 from n0 to n1 by 10\nend\n";

/// How many commands that takes where one to ten keys are there.
const COMMANDS: u64 = 8;

/// The plan, from the even split of three nodes.
pub(crate) fn plan(alloc: Global) -> Option<VerifiedPlan> {
    let plan = parse(alloc, MOVE).ok()?;
    let owners = OwnerTable::even(alloc, 3, 3).ok()?;
    verify(plan, &owners).ok()
}

/// How a plan was left.
#[derive(Drop)]
pub(crate) enum Left {
    /// The cluster was not as the plan was verified for.
    NotArmed,
    Done,
    Stopped(StopCause),
    /// What was to come between its commands did not come.
    Late,
}

/// What an administrator's seat has done: how many calls, and whether one of them was refused.
#[derive(Clone, Copy)]
pub(crate) struct Seen {
    pub(crate) calls: u64,
    pub(crate) is_refused: bool,
}

fn is_refused(call: &AdminCall) -> bool {
    matches!(call.reply, AdminReply::Refused(_))
}

/// What the seat has done so far.
pub(crate) fn seen_by<B: ClusterBrand>(seat: &AdminSeat<B>) -> Seen {
    Seen {
        calls: seat.calls().len() as u64,
        is_refused: seat.calls().iter().any(is_refused),
    }
}

/// Whether the plan was given up after so many commands, or done where these are all, and none was refused.
pub(crate) fn is_left(left: &Left, seen: Seen, commands: u64) -> bool {
    let is_as_wanted = if commands == COMMANDS {
        matches!(left, Left::Done)
    } else {
        matches!(left, Left::Stopped(StopCause::Abandoned))
    };
    is_as_wanted && seen.calls == commands && !seen.is_refused
}

/// The plan armed by the seat and started, to take at most so many replies. The seat comes back where the cluster is
/// not as the plan was verified for.
pub(crate) fn start<B: ClusterBrand, R: Wait>(
    rt: &R,
    cluster: &LiveCluster<B>,
    plan: VerifiedPlan,
    seat: AdminSeat<B>,
    most: u64,
) -> Result<RunningPlan<AdminSeat<B>>, AdminSeat<B>>
    requires { 0 < most }
    ensures nodes { IfOk result (λ p. length B.setup.opening.nodes ≡ p.progress.nodes) }
    ensures progress { IfOk result
        (λ p. p.progress ≡ at_start (node_count plan.survey) (commands_of plan.plan plan.survey) most) }
    ensures seat { IfOk result (λ p. p.seat ≡ seat) }
    ensures back { IfErr result (λ s. s ≡ seat) }
{
    let port = LivePort { cluster, rt };
    match plan.arm(&port, seat) {
        Ok(armed) => Ok(armed.start(most)),
        Err(refused) => Err(refused.1),
    }
}

/// The plan's turn, if it runs.
pub(crate) fn turn<B: ClusterBrand, R: Wait>(
    rt: &R,
    cluster: &LiveCluster<B>,
    taken: Taken<AdminSeat<B>>,
) -> Taken<AdminSeat<B>>
    requires { Fits taken (length B.setup.opening.nodes) }
    ensures fits { Fits result (length B.setup.opening.nodes) }
    ensures continues { Continues taken result }
{
    let mut port = LivePort { cluster, rt };
    match taken {
        Taken::Running(plan) => plan.advance(&mut port),
        Taken::Done(done) => Taken::Done(done),
        Taken::Stopped(stopped) => Taken::Stopped(stopped),
    }
}

/// So many turns of the plan.
pub(crate) fn take_turns<B: ClusterBrand, R: Wait>(
    rt: &R,
    cluster: &LiveCluster<B>,
    plan: RunningPlan<AdminSeat<B>>,
    turns: u64,
) -> Taken<AdminSeat<B>>
    requires { length B.setup.opening.nodes ≡ plan.progress.nodes }
    ensures fits { Fits result (length B.setup.opening.nodes) }
    ensures sent { HasSent plan.progress plan.seat (seat_of result) (plan_of result) }
{
    let mut taken = Taken::Running(plan);
    for _ in 0..turns {
        taken = turn(rt, cluster, taken);
    }
    taken
}

/// Gives the plan up, if it runs. The seat comes back.
pub(crate) fn leave<B: ClusterBrand>(taken: Taken<AdminSeat<B>>) -> (AdminSeat<B>, Left)
    ensures { result.0 ≡ seat_of taken }
{
    match taken {
        Taken::Running(plan) => {
            let (seat, cause) = plan.abandon().into_parts();
            (seat, Left::Stopped(cause))
        }
        Taken::Done(done) => (done.into_seat(), Left::Done),
        Taken::Stopped(stopped) => {
            let (seat, cause) = stopped.into_parts();
            (seat, Left::Stopped(cause))
        }
    }
}
