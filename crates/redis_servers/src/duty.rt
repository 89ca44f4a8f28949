//! What servers have to show before a command goes out, and after it was done.
ghost use Rattle.std.specs.Prelude.{◌≡◌, ◌<◌, IfOk, length};
ghost use Rattle.redis_servers.specs.Duties.{duties_after, duties_before, has_role, news_at, owner_if, taken_if};

use crate::run_history::RunHistory;
use byte_texts::Memory;
use cluster_admin::{AdminCommand, Survey};
use key_slots::{NodeId, Slot};
use std::alloc::Global;

/// What one or two servers have to show.
#[derive(Clone, Copy)]
pub enum Duty {
    /// The second server tells the config epoch of the first one as that does itself.
    KnowsEpoch(NodeId, NodeId),
    /// The server claims no slot that another one took over from it, and has heard of no two config epochs that are the
    /// same.
    HasNews(NodeId),
    /// The server is a master.
    IsMaster(NodeId),
    /// The server is a master that owns the slot.
    OwnsSlot(NodeId, Slot),
    /// The server is a master, or this slot was its last one.
    IsStillMaster(NodeId, Slot),
    /// The first server's list shows the slot at the second one.
    ShowsOwner(NodeId, Slot, NodeId),
}

/// What has to be shown before the command goes to the node. A server that claims a slot with a lower config epoch than
/// another one gives the slot back, and deletes its keys; and after a failover of the source its new master may have
/// acknowledged writes to the slot. Where the run waits for news, a node has heard that the source owns a slot before
/// it is to import that from there: an importing node that reads an older packet of the source, which does not claim
/// the slot, takes it for its own at once (Valkey).
pub(crate) fn duties_before(
    alloc: Global,
    history: &RunHistory,
    survey: &Survey,
    waits_for_news: bool,
    node: NodeId,
    command: &AdminCommand,
) -> Result<Vec<Duty>, Memory>
    requires { length history.now.receivers ≡ length survey.now.rows }
    ensures { IfOk result (λ v. v.items ≡ duties_before waits_for_news history.now survey.now node command.now) }
{
    match command {
        AdminCommand::SetNode(slot, owner) if *owner == node => {
            let mut duties = news_at(alloc, history, survey.nodes(), node)?;
            if let Some(source) = history.source(survey, *slot) {
                if has_role(survey.nodes(), node, source) {
                    duties.push(Duty::IsMaster(source))?;
                }
            }
            Ok(duties)
        }
        AdminCommand::Importing(slot, source) => {
            owner_if(alloc, waits_for_news, node, *slot, *source)
        }
        _ => Ok(Vec::new(alloc)),
    }
}

/// That the node shows the slot's owner, if that is wanted.
fn owner_if(
    alloc: Global,
    wanted: bool,
    node: NodeId,
    slot: Slot,
    owner: NodeId,
) -> Result<Vec<Duty>, Memory>
    ensures { IfOk result (λ v. v.items ≡ owner_if wanted node slot owner) }
{
    if wanted {
        Ok(vec![in alloc; Duty::ShowsOwner(node, slot, owner)]?)
    } else {
        Ok(Vec::new(alloc))
    }
}

/// What has to be shown after the node has done the command.
pub(crate) fn duties_after(
    alloc: Global,
    history: &RunHistory,
    survey: &Survey,
    node: NodeId,
    command: &AdminCommand,
) -> Result<Vec<Duty>, Memory>
    ensures { IfOk result (λ v. v.items ≡ duties_after history.now survey.now node command.now) }
{
    match command {
        AdminCommand::SetNode(slot, owner) if *owner == node => {
            taken_if(
                alloc,
                survey.nodes(),
                node,
                *slot,
                history.source(survey, *slot),
            )
        }
        _ => Ok(Vec::new(alloc)),
    }
}

/// What is to be known of other servers' claims before this node makes one.
fn news_at(
    alloc: Global,
    history: &RunHistory,
    nodes: u8,
    target: NodeId,
) -> Result<Vec<Duty>, Memory>
    requires { length history.now.receivers ≡ nodes }
    ensures { IfOk result (λ v. v.items ≡ news_at history.now target) }
{
    let mut duties = Vec::new(alloc);
    if !history.is_chained(target) {
        return Ok(duties);
    }
    for number in 0..nodes {
        let source = NodeId::of(number);
        if history.is_receiver(source) && source != target {
            duties.push(Duty::KnowsEpoch(source, target))?;
        }
    }
    duties.push(Duty::HasNews(target))?;
    Ok(duties)
}

/// That the target has the slot, and that its source has not failed over meanwhile.
fn taken_if(
    alloc: Global,
    nodes: u8,
    target: NodeId,
    slot: Slot,
    source: Option<NodeId>,
) -> Result<Vec<Duty>, Memory>
    ensures { IfOk result (λ v. v.items ≡ taken_if nodes target slot source) }
{
    match source {
        Some(source) if has_role(nodes, target, source) => {
            let owns = Duty::OwnsSlot(target, slot);
            let stays = Duty::IsStillMaster(source, slot);
            Ok(vec![in alloc; owns, stays]?)
        }
        _ => Ok(Vec::new(alloc)),
    }
}

/// Whether the source is another of so many servers.
fn has_role(nodes: u8, target: NodeId, source: NodeId) -> bool
    ensures { result ≡ has_role nodes target source }
{
    source.get() < nodes && source != target
}
