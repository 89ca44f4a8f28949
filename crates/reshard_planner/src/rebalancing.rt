ghost use Rattle.std.specs.Prelude.{◌≡◌, ℕ, ◌-◌, ◌≤◌, ◌<◌, ◌||◌, if◌then◌else◌, IfOk};
ghost use Rattle.std.specs.Prelude.{List, length, MatchResult, nat_lt, slice_index, true};
ghost use Rattle.std.specs.List.{All};
ghost use Rattle.cluster_admin.specs.Phases.{closed_by};
ghost use Rattle.plan_language.specs.Lines.{plan_commands};
ghost use Rattle.plan_semantics.specs.Plans.{Legal};
ghost use Rattle.reshard_planner.specs.Answers.{Gives, rebalance_answer, is_off, quotas};
ghost use Rattle.reshard_planner.specs.Exchanges.{IsAnsweredBy, IsRefused};
ghost use Rattle.reshard_planner.specs.Holding.{held as held_by};
ghost use Rattle.reshard_planner.specs.Laws.{IsRebalancing};
ghost use Rattle.reshard_planner.specs.Quotas.{is_beyond, is_unbalanced, node_weight};
ghost use Rattle.reshard_planner.specs.Starts.{Lists};

use crate::exchange::Exchange;
use crate::held::{PerNode, held_by_node, nothing};
use crate::planner_fault::PlannerFault;
use crate::shares::{Scale, sum_over};
use key_slots::{OwnerTable, SLOTS};
use plan_language::Plan;
use std::alloc::Global;

/// PlannersExact: a plan by which each node comes to hold its quota, which is in proportion to its weight, with as few
/// moves as can be. Where no node is off its quota by more than `threshold` per cent of it, the plan is empty. Nodes
/// without slots take part only with `use_empty`. There is a weight for each node, at most 1,000; the threshold is at
/// most 100, and a batch is 1 to 1,000 keys. Of more than eight nodes the plan lists no names yet: the caller puts them
/// in.
pub fn rebalance(
    alloc: Global,
    owners: &OwnerTable,
    weights: &[u16],
    threshold: u8,
    use_empty: bool,
    batch: u16,
) -> Result<Plan, PlannerFault>
    requires one_each { length weights.now ≡ owners.now.nodes }
    requires light { All (λ w. w ≤ 1000) weights.now }
    requires per_cent { threshold ≤ 100 }
    requires some_keys { 1 ≤ batch }
    requires most_keys { batch ≤ 1000 }
    ensures exact { Gives owners.now.nodes result (rebalance_answer owners.now weights.now threshold use_empty batch) }
    ensures legal { IfOk result
        (λ plan. Legal plan.version (plan_commands owners.now.nodes plan.lines)
        (closed_by owners.now.owners) owners.now.nodes) }
    ensures fewest { is_off owners.now weights.now threshold use_empty ≡ true
        → IfOk result (λ plan. IsRebalancing owners.now (quotas owners.now weights.now use_empty) plan.lines) }
{
    let exchange = quota_exchange(owners, weights, threshold, use_empty)?;
    Ok(exchange.plan(alloc, owners, batch)?)
}

/// What each node holds above its quota, and what it lacks.
fn quota_exchange(
    owners: &OwnerTable,
    weights: &[u16],
    threshold: u8,
    use_empty: bool,
) -> Result<Exchange, PlannerFault>
    requires one_each { length weights.now ≡ owners.now.nodes }
    requires light { All (λ w. w ≤ 1000) weights.now }
    requires per_cent { threshold ≤ 100 }
    ensures { MatchResult result
        (λ e. IsAnsweredBy owners.now (rebalance_answer owners.now weights.now threshold use_empty) e.gives e.takes)
        (IsRefused (rebalance_answer owners.now weights.now threshold use_empty)) }
{
    let nodes = owners.nodes();
    let held = held_by_node(owners);
    let node_weights = node_weights(&held, weights, use_empty);
    let whole = sum_over(&node_weights, nodes);
    if whole == 0 {
        return Err(PlannerFault::NoWeight);
    }
    let scale = Scale {
        total: SLOTS,
        half: whole / 2,
        whole,
    };
    let quotas = scale.shares(&node_weights, nodes);
    if !is_unbalanced(threshold, &held, &quotas, nodes) {
        return Ok(Exchange {
            gives: nothing(),
            takes: nothing(),
        });
    }
    Ok(Exchange {
        gives: excess(&held, &quotas, nodes),
        takes: excess(&quotas, &held, nodes),
    })
}

/// The weights of the nodes that take part, and 0 for another node.
fn node_weights(held: &PerNode, weights: &[u16], use_empty: bool) -> PerNode
    requires few { length weights.now ≤ 255 }
    ensures { (owners : List ℕ) → Lists (held_by owners) 255 held.now
        → Lists (node_weight owners weights.now use_empty) (length weights.now) result }
{
    let mut node_weights = nothing();
    for (node, weight) in weights.iter().enumerate() {
        node_weights[node] = weight_of(use_empty, held[node], *weight);
    }
    node_weights
}

/// The weight of a node that holds so many slots, or 0 where it does not take part.
fn weight_of(use_empty: bool, held: usize, weight: u16) -> usize
    ensures { result ≡ (if use_empty || nat_lt 0 held then weight else 0) }
{
    if use_empty || held > 0 {
        usize::from(weight)
    } else {
        0
    }
}

/// Whether some node is off its quota by more than so many per cent of it.
fn is_unbalanced(threshold: u8, held: &PerNode, quotas: &PerNode, nodes: u8) -> bool
    requires held { (node : ℕ) → node < nodes → slice_index held.now node ≤ 16384 }
    requires quotas { (node : ℕ) → node < nodes → slice_index quotas.now node ≤ 16384 }
    ensures { result ≡ is_unbalanced threshold (λ node. slice_index held.now node)
        (λ node. slice_index quotas.now node) nodes }
{
    let mut found = false;
    for node in 0..usize::from(nodes) {
        found |= is_beyond(threshold, held[node], quotas[node]);
    }
    found
}

/// Whether what a node holds is off its quota by more than so many per cent of that.
fn is_beyond(threshold: u8, held: usize, quota: usize) -> bool
    requires held { held ≤ 16384 }
    requires quota { quota ≤ 16384 }
    ensures { result ≡ is_beyond threshold held quota }
{
    usize::from(threshold) * quota < 100 * held.abs_diff(quota)
}

/// What the number of each of the first nodes is above the other one.
pub(crate) fn excess(numbers: &PerNode, others: &PerNode, nodes: u8) -> PerNode
    ensures { Lists (λ node. slice_index numbers.now node - slice_index others.now node) nodes result }
{
    let mut excess = nothing();
    for node in 0..usize::from(nodes) {
        excess[node] = numbers[node].saturating_sub(others[node]);
    }
    excess
}
