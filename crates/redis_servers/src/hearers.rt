//! The servers that are to hear of a slot's new owner.
ghost use Rattle.std.specs.Prelude.{◌≡◌, ◌++◌, ◌==◌, IfOk, OnOk, not};
ghost use Rattle.redis_servers.specs.Hearers.{hearer_if, hearers_after, hearers_from};

use byte_texts::Memory;
use cluster_admin::{AdminCommand, Survey};
use key_slots::{NodeId, Slot};
use std::alloc::Global;

/// A server that is to hear over the bus who owns a slot now.
#[derive(Clone, Copy)]
pub(crate) struct Hearer {
    pub node: NodeId,
    pub slot: Slot,
    pub owner: NodeId,
}

/// Who is to hear of the new owner after the node has done the command. Where the run waits for news, that are all
/// other servers, before one of them is notified: if a packet that the owner sent earlier reaches a server that was
/// notified already, that one notes that the owner does not claim the slot, and a later claim of any other server wins
/// there (Redis 7.0).
pub(crate) fn hearers_after(
    alloc: Global,
    survey: &Survey,
    waits_for_news: bool,
    node: NodeId,
    command: &AdminCommand,
) -> Result<Vec<Hearer>, Memory>
    ensures { IfOk result (λ v. v.items ≡ hearers_after waits_for_news survey.now node command.now) }
{
    let mut hearers = Vec::new(alloc);
    match command {
        AdminCommand::SetNode(slot, owner) if waits_for_news && *owner == node => {
            add_hearers(&mut hearers, survey, node, *slot)?;
        }
        _ => {}
    }
    Ok(hearers)
}

/// Each server but the target.
fn add_hearers(
    hearers: &mut Vec<Hearer>,
    survey: &Survey,
    target: NodeId,
    slot: Slot,
) -> Result<(), Memory>
    ensures { OnOk result (hearers.new.items ≡ hearers.old.items ++ hearers_from slot target 0 survey.now.rows) }
{
    for number in 0..survey.nodes() {
        add_hearer(hearers, NodeId::of(number), target, slot)?;
    }
    Ok(())
}

/// The node, unless it is the target.
fn add_hearer(
    hearers: &mut Vec<Hearer>,
    node: NodeId,
    target: NodeId,
    slot: Slot,
) -> Result<(), Memory>
    ensures { OnOk result (hearers.new.items ≡ hearers.old.items ++ hearer_if (not (node == target)) node slot target) }
{
    if node != target {
        hearers.push(Hearer {
            node,
            slot,
            owner: target,
        })?;
    }
    Ok(())
}
