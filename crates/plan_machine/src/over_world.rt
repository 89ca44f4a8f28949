ghost use Rattle.std.specs.Prelude.{◌≡◌, length};
ghost use Rattle.cluster_world.specs.Steps.{by_call};
ghost use Rattle.cluster_world.specs.Ports.{IsAdminFault};
ghost use Rattle.plan_runner.specs.Advancing.{Runs, end_of, last_seat};
ghost use Rattle.plan_machine.specs.Quiet.{EndsQuietly};

use cluster_world::{World, WorldSeat};
use plan_runner::{Finish, RunningPlan};

/// QuietReshard: runs the plan over a world until it is done or stopped, with no client between its commands.
pub fn run_over_world(plan: RunningPlan<WorldSeat>, world: &mut World) -> Finish<WorldSeat>
    requires { length world.old.nodes ≡ plan.progress.nodes }
    ensures runs { Runs (record { moves = by_call; fails = IsAdminFault })
        (record { port = world.old; calls = plan.seat }) (record { port = world.new; calls = last_seat result })
        plan.progress (end_of result) }
    ensures quiet { EndsQuietly world.old world.new plan.progress plan.seat (last_seat result) (end_of result) }
{
    plan.run(world)
}
