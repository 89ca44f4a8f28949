//! The texts of plans that the planners make from an even split.
ghost use Rattle.std.specs.Prelude.{◌≤◌, ◌<◌, length};
ghost use Rattle.std.specs.List.{All};

use key_slots::{NodeId, OwnerTable};
use plan_language::print;
use reshard_planner::{PlannerFault, rebalance, reshard};
use std::alloc::Global;

/// The text of the plan that moves slots of an even split.
pub(crate) fn reshard_text(
    alloc: Global,
    nodes: u8,
    sources: &[NodeId],
    target: NodeId,
    count: u16,
) -> Result<Vec<u8>, PlannerFault>
    requires some { 1 ≤ nodes }
    requires most { nodes ≤ 8 }
    requires sources { All (λ s. s < nodes) sources.now }
    requires target { target < nodes }
    requires count { count ≤ 16384 }
{
    let owners = OwnerTable::even(alloc, nodes, nodes)?;
    let plan = reshard(alloc, &owners, sources, target, count, 10)?;
    Ok(print(alloc, &plan)?)
}

/// The text of the plan that rebalances an even split over the first nodes.
pub(crate) fn rebalance_text(
    alloc: Global,
    even: u8,
    weights: &[u16],
    threshold: u8,
    use_empty: bool,
) -> Result<Vec<u8>, PlannerFault>
    requires some { 1 ≤ even }
    requires even { even ≤ length weights.now }
    requires most { length weights.now ≤ 8 }
    requires light { All (λ w. w ≤ 1000) weights.now }
    requires per_cent { threshold ≤ 100 }
{
    let owners = OwnerTable::even(alloc, weights.len() as u8, even)?;
    let plan = rebalance(alloc, &owners, weights, threshold, use_empty, 10)?;
    Ok(print(alloc, &plan)?)
}
