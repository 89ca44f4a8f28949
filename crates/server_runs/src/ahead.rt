//! Which nodes a plan tells next of a slot's owner.
ghost use Rattle.std.specs.Prelude.{◌≡◌, ◌≢◌, ◌<◌, ℕ, List, [], ◌∷◌, ◌++◌, cond, false, map, length, IfSome, Some};
ghost use Rattle.cluster_admin.specs.declared.admin.AdminCommand.TheVariants.{SetNode};
ghost use Rattle.cluster_admin.specs.Phases.{among};
ghost use Rattle.plan_runner.specs.Advancing.{plan_of};
ghost use Rattle.plan_semantics.specs.Orders.{sending};
ghost use Rattle.server_runs.specs.InOneGo.{TakesFrom, told_call};
ghost use Rattle.server_runs.specs.Steps.{AreAhead, PutsNext, owner_told_by};

use crate::slot_owner::SlotOwner;
use cluster_admin::AdminReply;
use key_slots::NodeId;
use plan_runner::{RunningPlan, Taken};
use redis_servers::ServersSeat;

/// Of which owner the next command tells another node, if it does.
pub(crate) fn next_owner_told(plan: &RunningPlan<ServersSeat>) -> Option<SlotOwner>
    ensures { result ≡ owner_told_by (sending plan.now.progress.rest plan.now.progress.listed) }
{
    match plan.next() {
        Some(order) => SlotOwner::of(order),
        None => None,
    }
}

/// Takes an OK of each node that the plan tells next of the owner, as if it had answered so, and puts these nodes
/// after those that are there: so many at most, and each of them one of the cluster's, and there once.
pub(crate) fn take_told(
    ahead: Taken<ServersSeat>,
    owned: &SlotOwner,
    nodes: u8,
    left: u8,
    told: &mut Vec<NodeId>,
) -> Taken<ServersSeat>
    requires { AreAhead nodes owned.now told.old.items }
    ensures ahead { AreAhead nodes owned.now told.new.items }
    ensures took { (more : List ℕ) × (told.new.items ≡ told.old.items ++ more)
        × TakesFrom (plan_of ahead) (map (told_call owned.now) more) (plan_of result) }
{
    match ahead {
        Taken::Running(plan) => {
            if !put_next(&plan, owned, nodes, left, told) {
                return Taken::Running(plan);
            }
            take_told(plan.take(AdminReply::Ok), owned, nodes, left - 1, told)
        }
        Taken::Done(done) => Taken::Done(done),
        Taken::Stopped(stopped) => Taken::Stopped(stopped),
    }
}

/// Puts the node that the plan tells next after those that are there, if there is one, some may be left, and there is
/// memory for it.
fn put_next(
    plan: &RunningPlan<ServersSeat>,
    owned: &SlotOwner,
    nodes: u8,
    left: u8,
    told: &mut Vec<NodeId>,
) -> bool
    requires { AreAhead nodes owned.now told.old.items }
    ensures { PutsNext (sending plan.now.progress.rest plan.now.progress.listed) nodes owned.now left told.old.items
        told.new.items result }
{
    if left == 0 {
        return false;
    }
    match node_ahead(plan, owned, nodes, told.as_slice()) {
        Some(node) => put(told, node),
        None => false,
    }
}

/// Puts the node after the others, if there is memory for it.
fn put(told: &mut Vec<NodeId>, node: NodeId) -> bool
    ensures { told.new.items ≡ cond result (told.old.items ++ node ∷ []) told.old.items }
{
    told.push(node).is_ok()
}

/// The node that the next command tells of the owner, if that is another node of the cluster, and none of those told.
pub(crate) fn node_ahead(
    plan: &RunningPlan<ServersSeat>,
    owned: &SlotOwner,
    nodes: u8,
    told: &[NodeId],
) -> Option<NodeId>
    ensures next { IfSome result (λ n. sending plan.now.progress.rest plan.now.progress.listed
        ≡ Some (record { node = n; command = SetNode owned.now.slot owned.now.owner })) }
    ensures other { IfSome result (λ n. n ≢ owned.now.owner) }
    ensures within { IfSome result (λ n. n < nodes) }
    ensures new { IfSome result (λ n. among n told.now ≡ false) }
{
    let order = plan.next()?;
    let next = SlotOwner::of(order)?;
    if next.slot.get() != owned.slot.get() || next.owner.get() != owned.owner.get() {
        return None;
    }
    if order.node.get() >= nodes || is_among(order.node, told) {
        return None;
    }
    Some(order.node)
}

fn is_among(node: NodeId, nodes: &[NodeId]) -> bool
    ensures { result ≡ among node nodes.now }
{
    nodes.iter().any(|other| node.get() == other.get())
}
