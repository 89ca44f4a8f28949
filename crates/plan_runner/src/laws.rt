ghost use Rattle.plan_runner.specs.Finishing.{DoneIsSpelled, DoneIsUnrolled};
ghost use Rattle.plan_runner.specs.Leaving.{ComesOn, LeftIsPrefix, ListedIsPrefix, RunningIsSpelled, RunsAreSent};
ghost use Rattle.plan_runner.specs.Leaving.{StepsAreSent, WatchedRunsAreSent, WatchedStepsAreSent};
ghost use Rattle.plan_runner.specs.Taking.{TakingSpells};

use crate::watching::Watcher;
use cluster_admin::AdminPort;

/// The calls of a plan that ran to its end are a whole unrolling of it.
pub fn plans_that_are_done_were_carried_out()
    ensures spelled { DoneIsSpelled }
    ensures unrolled { DoneIsUnrolled }
{}

/// What is left of a plan that runs on after a reply is what is left by the definition of driven runs.
pub fn plans_that_run_on_are_spelt()
    ensures { TakingSpells }
{}

/// The calls of a plan that is left anywhere, done, stopped, given up or running, are a prefix of an unrolling of it,
/// and none follows a refused one; but for a last call that asked for a list of keys and got none, which no run has.
/// While the plan runs, what it has left is what they leave, and it may be taken on from there.
pub fn plans_that_are_left_sent_a_prefix()
    ensures left { LeftIsPrefix }
    ensures listed { ListedIsPrefix }
    ensures running { RunningIsSpelled }
    ensures then { ComesOn }
{}

/// What `advance` and `run` put to the end of the seat's list are the calls by which the plan came to where it is.
pub fn calls_of_plans_are_sent<P: AdminPort>()
    ensures steps { StepsAreSent (record { moves = P.moves; fails = P.fails }) }
    ensures runs { RunsAreSent (record { moves = P.moves; fails = P.fails }) }
{}

/// So it is of a plan that is watched, which may be given up.
pub fn calls_of_watched_plans_are_sent<P: AdminPort, W: Watcher>()
    ensures steps { WatchedStepsAreSent (record {
      moves = P.moves;
      fails = P.fails;
      sees = W.sees;
      hears = W.hears;
      misses = W.misses;
    }) }
    ensures runs { WatchedRunsAreSent (record {
      moves = P.moves;
      fails = P.fails;
      sees = W.sees;
      hears = W.hears;
      misses = W.misses;
    }) }
{}
