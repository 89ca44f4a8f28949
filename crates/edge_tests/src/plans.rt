//! Plans for the tests, over a world.
ghost use Rattle.std.specs.Prelude.{◌≡◌, length, IfSome};
ghost use Rattle.edge_tests.specs.Turns.{Fits};

use cluster_world::{World, WorldSeat};
use key_slots::OwnerTable;
use plan_runner::{Finish, RunningPlan, Taken, VerifiedPlan, parse, verify};
use std::alloc::Global;

/// Moves the slot of the key `b` from node 0 to node 1: eight commands where the key is there.
pub(crate) const THERE: &[u8] = b"reshard-plan 1\nmove 3300 from n0 to n1 by 10\nend\n";

/// Takes the slot back.
pub(crate) const BACK: &[u8] = b"reshard-plan 1\nmove 3300 from n1 to n0 by 10\nend\n";

/// The plan, armed by the seat and started, if it can be.
pub(crate) fn start(
    alloc: Global,
    text: &[u8],
    owners: &OwnerTable,
    world: &World,
    seat: WorldSeat,
) -> Option<RunningPlan<WorldSeat>>
    ensures { IfSome result (λ p. length world.now.nodes ≡ p.progress.nodes) }
{
    match verified(alloc, text, owners) {
        Some(plan) => arm(plan, world, seat),
        None => {
            drop(seat);
            None
        }
    }
}

/// The plan of this text, if it can be run from these owners.
pub(crate) fn verified(alloc: Global, text: &[u8], owners: &OwnerTable) -> Option<VerifiedPlan> {
    let plan = parse(alloc, text).ok()?;
    verify(plan, owners).ok()
}

/// The plan, armed by the seat and started, if the world is as the plan was verified for.
pub(crate) fn arm(
    plan: VerifiedPlan,
    world: &World,
    seat: WorldSeat,
) -> Option<RunningPlan<WorldSeat>>
    ensures { IfSome result (λ p. length world.now.nodes ≡ p.progress.nodes) }
{
    match plan.arm(world, seat) {
        Ok(armed) => Some(armed.start(u64::MAX)),
        Err(refused) => {
            drop(refused);
            None
        }
    }
}

/// The plan's turn, if it runs.
pub(crate) fn plan_turn(taken: Taken<WorldSeat>, world: &mut World) -> Taken<WorldSeat>
    requires { Fits taken world.old }
    ensures fits { Fits result world.new }
    ensures count { length world.new.nodes ≡ length world.old.nodes }
{
    match taken {
        Taken::Running(plan) => plan.advance(world),
        Taken::Done(done) => Taken::Done(done),
        Taken::Stopped(stopped) => Taken::Stopped(stopped),
    }
}

/// Gives the plan up, if it runs. The seat comes back.
pub(crate) fn leave(taken: Taken<WorldSeat>) -> WorldSeat {
    match taken {
        Taken::Running(plan) => plan.abandon().into_parts().0,
        Taken::Done(done) => done.into_seat(),
        Taken::Stopped(stopped) => stopped.into_parts().0,
    }
}

/// What is left of the plan. It gives the seat back where the plan was done.
pub(crate) fn finish(taken: Taken<WorldSeat>, world: &mut World) -> Option<WorldSeat>
    requires { Fits taken world.old }
    ensures count { length world.new.nodes ≡ length world.old.nodes }
{
    match taken {
        Taken::Running(plan) => match plan.run(world) {
            Finish::Done(done) => Some(done.into_seat()),
            Finish::Stopped(stopped) => {
                drop(stopped.into_parts());
                None
            }
        },
        Taken::Done(done) => Some(done.into_seat()),
        Taken::Stopped(stopped) => {
            drop(stopped.into_parts());
            None
        }
    }
}
