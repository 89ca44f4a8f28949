ghost use Rattle.std.specs.Prelude.{◌≡◌, ◌≢◌, []};
ghost use Rattle.plan_language.specs.Lines.{IsVersion};
ghost use Rattle.reshard_planner.specs.Blank.{plan_for};

use key_slots::NODES;
use node_names::NodeNames;
use plan_language::Plan;
use std::alloc::Global;

/// The plan without lines by the rules of this version, for a cluster of so many nodes. Where there are at most eight,
/// it has no names; where there are more, it lists none yet, and the caller puts them in.
pub(crate) fn blank_plan(alloc: Global, version: u8, nodes: u8) -> Plan
    requires version { IsVersion version }
    requires rules { version ≢ 2 }
    ensures { result ≡ plan_for version nodes [] }
{
    if nodes <= NODES {
        Plan::of_version(alloc, version)
    } else {
        Plan::of_names(version, NodeNames::new(alloc))
    }
}
