//! Nodes that give all of their slots away.
ghost use Rattle.std.specs.Prelude.{◌≡◌, ℕ, ◌≤◌, ◌<◌, IfOk, List, MatchResult, length, slice_index};
ghost use Rattle.std.specs.List.{All};
ghost use Rattle.cluster_admin.specs.Phases.{closed_by};
ghost use Rattle.plan_language.specs.Lines.{plan_commands};
ghost use Rattle.plan_semantics.specs.Plans.{Legal};
ghost use Rattle.reshard_planner.specs.Answers.{Gives, drain_answer};
ghost use Rattle.reshard_planner.specs.Draining.{IsDrain, are_mixed, emptied, filled, least};
ghost use Rattle.reshard_planner.specs.Exchanges.{IsAnsweredBy, IsRefused};
ghost use Rattle.reshard_planner.specs.Holding.{held as held_by};
ghost use Rattle.reshard_planner.specs.Starts.{Lists};

use crate::exchange::Exchange;
use crate::held::{PerNode, held_by_node};
use crate::planner_fault::PlannerFault;
use crate::rebalancing::excess;
use crate::resharding::{is_source, source_weights};
use crate::shares::sum_over;
use key_slots::{NodeId, OwnerTable};
use plan_language::Plan;
use std::alloc::Global;

/// A plan by which the sources give all of their slots to the targets, and no other slot moves. Each slot in turn is
/// counted for the target that has the fewest by then, so a target that was given one holds at most one slot more than
/// any other target. A node that is named twice counts once. A batch is 1 to 1,000 keys. Of more than eight nodes the
/// plan lists no names yet: the caller puts them in. Looks at each target once for each slot that moves.
pub fn drain(
    alloc: Global,
    owners: &OwnerTable,
    sources: &[NodeId],
    targets: &[NodeId],
    batch: u16,
) -> Result<Plan, PlannerFault>
    requires targets_exist { All (λ t. t < owners.now.nodes) targets.now }
    requires some_keys { 1 ≤ batch }
    requires most_keys { batch ≤ 1000 }
    ensures exact { Gives owners.now.nodes result (drain_answer owners.now sources.now targets.now batch) }
    ensures legal { IfOk result
        (λ plan. Legal plan.version (plan_commands owners.now.nodes plan.lines)
        (closed_by owners.now.owners) owners.now.nodes) }
    ensures drains { IfOk result (λ plan. IsDrain owners.now sources.now targets.now plan.lines) }
{
    let exchange = drain_exchange(owners, sources, targets)?;
    Ok(exchange.plan(alloc, owners, batch)?)
}

/// What each source gives, and what each target takes.
fn drain_exchange(
    owners: &OwnerTable,
    sources: &[NodeId],
    targets: &[NodeId],
) -> Result<Exchange, PlannerFault>
    requires targets_exist { All (λ t. t < owners.now.nodes) targets.now }
    ensures { MatchResult result
        (λ e. IsAnsweredBy owners.now (drain_answer owners.now sources.now targets.now) e.gives e.takes)
        (IsRefused (drain_answer owners.now sources.now targets.now)) }
{
    if sources.is_empty() {
        return Err(PlannerFault::NoSource);
    }
    let [target, others @ ..] = targets else {
        return Err(PlannerFault::NoTarget);
    };
    if are_mixed(sources, targets) {
        return Err(PlannerFault::TargetIsSource);
    }
    let nodes = owners.nodes();
    let held = held_by_node(owners);
    let weights = source_weights(&held, sources);
    let total = sum_over(&weights, nodes);
    let quotas = filled(emptied(&held, sources), total, *target, others);
    Ok(Exchange {
        gives: excess(&held, &quotas, nodes),
        takes: excess(&quotas, &held, nodes),
    })
}

/// Whether one of the targets is a source.
fn are_mixed(sources: &[NodeId], targets: &[NodeId]) -> bool
    ensures { result ≡ are_mixed sources.now targets.now }
{
    targets.iter().any(|target| is_source(sources, *target))
}

/// How many slots each node holds, and 0 for a source.
fn emptied(held: &PerNode, sources: &[NodeId]) -> PerNode
    ensures holds { (owners : List ℕ) → Lists (held_by owners) 255 held.now
        → Lists (emptied owners sources.now) 255 result }
{
    let mut emptied = *held;
    for source in sources {
        emptied[usize::from(source.get())] = 0;
    }
    emptied
}

/// So many slots are dealt out among the target and the others, each to the node that holds least by then.
fn filled(emptied: PerNode, count: usize, target: NodeId, others: &[NodeId]) -> PerNode
    requires few { count ≤ 16384 }
    requires small { (node : ℕ) → node < 255 → slice_index emptied node ≤ 16384 }
    requires target { target < 255 }
    requires others { All (λ t. t < 255) others.now }
    ensures { (holds : ℕ → ℕ) → Lists holds 255 emptied → Lists (filled holds target others.now count) 255 result }
{
    let mut quotas = emptied;
    for _ in 0..count {
        let node = least(&quotas, target, others);
        quotas[usize::from(node.get())] += 1;
    }
    quotas
}

/// The node that holds least of the target and the others, the first such one.
fn least(quotas: &PerNode, target: NodeId, others: &[NodeId]) -> NodeId
    ensures { result ≡ least (λ node. slice_index quotas.now node) target others.now }
{
    let mut least = target;
    for other in others {
        if quotas[usize::from(other.get())] < quotas[usize::from(least.get())] {
            least = *other;
        }
    }
    least
}
