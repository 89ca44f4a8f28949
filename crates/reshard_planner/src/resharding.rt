ghost use Rattle.std.specs.Prelude.{◌≡◌, ℕ, ◌≤◌, ◌<◌, IfOk, List, MatchResult};
ghost use Rattle.std.specs.List.{All};
ghost use Rattle.cluster_admin.specs.Phases.{closed_by};
ghost use Rattle.plan_language.specs.Lines.{plan_commands};
ghost use Rattle.plan_semantics.specs.Plans.{among, Legal};
ghost use Rattle.reshard_planner.specs.Answers.{Gives, reshard_answer};
ghost use Rattle.reshard_planner.specs.Exchanges.{IsAnsweredBy, IsRefused};
ghost use Rattle.reshard_planner.specs.Holding.{held as held_by};
ghost use Rattle.reshard_planner.specs.Laws.{moved_count};
ghost use Rattle.reshard_planner.specs.Shares.{source_weight};
ghost use Rattle.reshard_planner.specs.Starts.{Lists};

use crate::exchange::Exchange;
use crate::held::{PerNode, held_by_node, nothing};
use crate::planner_fault::PlannerFault;
use crate::shares::{Scale, sum_over};
use key_slots::{NodeId, OwnerTable};
use plan_language::Plan;
use std::alloc::Global;

/// PlannersExact: a plan that moves `count` slots from the sources to the target, each source's lowest ones. What a
/// source gives is in proportion to what it holds, and all they give is exactly `count`. A source that is named twice
/// counts once. The count is at most 16,384, and a batch is 1 to 1,000 keys. Of more than eight nodes the plan lists no
/// names yet: the caller puts them in.
pub fn reshard(
    alloc: Global,
    owners: &OwnerTable,
    sources: &[NodeId],
    target: NodeId,
    count: u16,
    batch: u16,
) -> Result<Plan, PlannerFault>
    requires sources_exist { All (λ s. s < owners.now.nodes) sources.now }
    requires target_exists { target < owners.now.nodes }
    requires few { count ≤ 16384 }
    requires some_keys { 1 ≤ batch }
    requires most_keys { batch ≤ 1000 }
    ensures exact { Gives owners.now.nodes result (reshard_answer owners.now sources.now target count batch) }
    ensures legal { IfOk result
        (λ plan. Legal plan.version (plan_commands owners.now.nodes plan.lines)
        (closed_by owners.now.owners) owners.now.nodes) }
    ensures moves { IfOk result (λ plan. moved_count (plan_commands owners.now.nodes plan.lines) ≡ count) }
{
    let exchange = source_exchange(owners, sources, target, count)?;
    Ok(exchange.plan(alloc, owners, batch)?)
}

/// What each source gives, all to the target.
fn source_exchange(
    owners: &OwnerTable,
    sources: &[NodeId],
    target: NodeId,
    count: u16,
) -> Result<Exchange, PlannerFault>
    requires target_exists { target < owners.now.nodes }
    requires few { count ≤ 16384 }
    ensures { MatchResult result
        (λ e. IsAnsweredBy owners.now (reshard_answer owners.now sources.now target count) e.gives e.takes)
        (IsRefused (reshard_answer owners.now sources.now target count)) }
{
    if sources.is_empty() {
        return Err(PlannerFault::NoSource);
    }
    let nodes = owners.nodes();
    let weights = source_weights(&held_by_node(owners), sources);
    let total = usize::from(count);
    let whole = sum_over(&weights, nodes);
    if whole < total {
        return Err(PlannerFault::TooMany);
    }
    if is_source(sources, target) {
        return Err(PlannerFault::TargetIsSource);
    }
    let mut gives = nothing();
    if total > 0 {
        let scale = Scale {
            total,
            half: 0,
            whole,
        };
        gives = scale.shares(&weights, nodes);
    }
    let mut takes = nothing();
    takes[usize::from(target.get())] = total;
    Ok(Exchange { gives, takes })
}

/// Whether the node is one of the sources.
pub(crate) fn is_source(sources: &[NodeId], node: NodeId) -> bool
    ensures { result ≡ among node sources.now }
{
    sources.iter().any(|source| node == *source)
}

/// How many slots each source holds, and 0 for another node.
pub(crate) fn source_weights(held: &PerNode, sources: &[NodeId]) -> PerNode
    ensures { (owners : List ℕ) → Lists (held_by owners) 255 held.now
        → Lists (source_weight owners sources.now) 255 result }
{
    let mut weights = nothing();
    for source in sources {
        let node = usize::from(source.get());
        weights[node] = held[node];
    }
    weights
}
