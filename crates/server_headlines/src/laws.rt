//! What the runs of plans at servers amount to.
ghost use Rattle.server_headlines.specs.ServersInOneGo.{RunsInOneGoHaveTheHeadline};
ghost use Rattle.server_headlines.specs.ServersRuns.{AppliedIsRun};
ghost use Rattle.server_headlines.specs.Worlds.{SettledIsOpen};

use byte_streams::{ByteIn, ByteOut};
use plan_runner::Watcher;
use redis_servers::Pause;

/// What [`server_runs::apply`] did at servers is a run of the plan there, whatever they answered: its calls are a
/// beginning of what the plan stands for, in its order, and none follows a refusal. So the headline holds of it,
/// whatever honest clients did meanwhile, where servers answer as the definitions let them.
pub fn applied_plans_have_the_headline<
    I: ByteIn + Drop,
    O: ByteOut + Drop,
    P: Pause + Drop,
    W: Watcher,
>()
    ensures { AppliedIsRun (record { gave = I.gave; took = O.took }) W.sees W.hears W.misses P }
{}

/// A world that is open but for stale copies at the targets, of keys that their sources hold too, is open once each
/// such key went from its source to its target in place of the copy. The store stays the same: no write is lost, and no
/// old value comes back.
pub fn settled_worlds_are_open()
    ensures { SettledIsOpen }
{}

/// The headline holds of what [`server_runs::apply_in_one_go`] did, also where servers met calls that were sent
/// together in another order.
pub fn plans_run_in_one_go_have_the_headline<I: ByteIn + Drop, O: ByteOut + Drop, P: Pause + Drop>()
    ensures { RunsInOneGoHaveTheHeadline (record { gave = I.gave; took = O.took }) P }
{}
