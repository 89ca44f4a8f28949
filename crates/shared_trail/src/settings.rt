//! The administrator's SETSLOT and GETKEYSINSLOT at a locked node.
ghost use Rattle.std.specs.Prelude.{◌≡◌, ◌<◌, ◌++◌, ◌∷◌, [], cond, is_some, IfOk, OnOk, OnErr, take};
ghost use Rattle.cluster_node.specs.Administration.{node_if_accepted, reply_if_accepted, IsSetting, reply_or};
ghost use Rattle.cluster_node.specs.Administration.{setting_fault};
ghost use Rattle.cluster_admin.specs.Commands.{IsListing};
ghost use Rattle.cluster_admin.specs.declared.admin.AdminCommand.TheVariants.{KeysIn};
ghost use Rattle.cluster_admin.specs.declared.admin.AdminReply.TheVariants.{Keys};
ghost use Rattle.slot_keyspace.specs.Listing.{keys_of};
ghost use Rattle.cluster_world.specs.declared.event.Event.TheVariants.{Admin};
ghost use Rattle.shared_trail.specs.declared.view.Part.TheVariants.{Calls};
ghost use Rattle.shared_trail.specs.Local.{calls_in};

use crate::brand::ClusterBrand;
use crate::client_calls::{note, reserve_place};
use crate::locked_node::LockedNode;
use crate::locked_trail::LockedTrail;
use crate::seat_table::{Holder, SeatTable};
use crate::seats::AdminSeat;
use crate::spinning::spin_then_lock;
use byte_texts::Memory;
use cluster_node::{AdminCommand, AdminReply, Node};
use cluster_world::{AdminCall, Event};
use key_slots::{NodeId, Slot};
use std::alloc::Global;
use std::sync::{Mutex, Wait};

/// A command of the administrator at the node N, which changes that node alone. What is copied of the command, and of a
/// listing, is copied before the trail is locked, and the call goes into the seat's list when it is no longer.
pub fn set_on<B: ClusterBrand, const N: u8, R: Wait>(
    rt: &R,
    table: &SeatTable<B>,
    trail: &Mutex<LockedTrail<B>>,
    locked: &mut LockedNode<B, N>,
    seat: &mut AdminSeat<B>,
    node: NodeId,
    command: AdminCommand,
) -> Result<AdminReply, Memory>
    requires node { node ≡ N }
    requires setting { IsSetting command }
    ensures call { IfOk result
        (λ r. seat.new ≡ seat.old ++ record { node = N; command = command; reply = r } ∷ []) }
    ensures err { OnErr result (seat.new ≡ seat.old) }
{
    let alloc = reserve_place(&mut seat.calls)?;
    let (answer, reply) = set_or_list(
        rt,
        table,
        trail,
        locked,
        alloc,
        &mut seat.holder,
        node,
        &command,
    )?;
    seat.calls.push_reserved(AdminCall {
        node,
        command,
        reply,
    });
    Ok(answer)
}

/// The command with its event on the trail: the reply, and it once more for the seat's list.
fn set_or_list<B: ClusterBrand, const N: u8, R: Wait>(
    rt: &R,
    table: &SeatTable<B>,
    trail: &Mutex<LockedTrail<B>>,
    locked: &mut LockedNode<B, N>,
    alloc: Global,
    maker: &mut Holder<B>,
    node: NodeId,
    command: &AdminCommand,
) -> Result<(AdminReply, AdminReply), Memory>
    requires node { node ≡ N }
    requires setting { IsSetting command.now }
    requires maker { maker.old ≡ (32, Calls (calls_in maker.old.1)) }
    ensures twice { IfOk result (λ p. p.1 ≡ p.0) }
    ensures maker { IfOk result
        (λ p. maker.new ≡ (32, Calls (calls_in maker.old.1 ++ Admin N command.now p.0 ∷ []))) }
    ensures err { OnErr result (maker.new ≡ maker.old) }
{
    if let AdminCommand::KeysIn(slot, count) = command {
        return list(rt, table, trail, locked, alloc, maker, node, *slot, *count);
    }
    let copy = command.try_copy(alloc)?;
    set(rt, table, trail, locked, alloc, maker, node, copy)
}

/// GETKEYSINSLOT, which leaves the node as it is.
fn list<B: ClusterBrand, const N: u8, R: Wait>(
    rt: &R,
    table: &SeatTable<B>,
    trail: &Mutex<LockedTrail<B>>,
    locked: &mut LockedNode<B, N>,
    alloc: Global,
    maker: &mut Holder<B>,
    node: NodeId,
    slot: Slot,
    count: u16,
) -> Result<(AdminReply, AdminReply), Memory>
    requires node { node ≡ N }
    requires maker { maker.old ≡ (32, Calls (calls_in maker.old.1)) }
    ensures twice { IfOk result (λ p. p.1 ≡ p.0) }
    ensures maker { IfOk result
        (λ p. maker.new ≡ (32, Calls (calls_in maker.old.1 ++ Admin N (KeysIn slot count) p.0 ∷ []))) }
    ensures err { OnErr result (maker.new ≡ maker.old) }
{
    let (answer, second, third) = list_thrice(&mut locked.node, alloc, slot, count)?;
    let event = Event::Admin {
        node,
        command: AdminCommand::KeysIn(slot, count),
        reply: second,
    };
    note(rt, table, trail, locked, maker, event)?;
    Ok((answer, third))
}

/// The listing three times.
#[tactic(auto, unfolding(
// the first refusal, and the answer where there is none
cluster_node::specs::Administration::setting_fault, cluster_node::specs::Administration::reply_if_accepted,
// the node after it
cluster_node::specs::Administration::node_if_accepted))]
fn list_thrice(
    node: &mut Node,
    alloc: Global,
    slot: Slot,
    count: u16,
) -> Result<(AdminReply, AdminReply, AdminReply), Memory>
    ensures reply { IfOk result (λ p. p.0 ≡ Keys (take count (keys_of node.old.node.held slot))) }
    ensures copies { IfOk result (λ p. (p.1 ≡ p.0) × (p.2 ≡ p.0)) }
    ensures same { node.new ≡ node.old }
{
    set_thrice(node, alloc, &AdminCommand::KeysIn(slot, count))
}

/// SETSLOT, with its event on the trail, which is locked for that long and no longer.
fn set<B: ClusterBrand, const N: u8, R: Wait>(
    rt: &R,
    table: &SeatTable<B>,
    trail: &Mutex<LockedTrail<B>>,
    locked: &mut LockedNode<B, N>,
    alloc: Global,
    maker: &mut Holder<B>,
    node: NodeId,
    command: AdminCommand,
) -> Result<(AdminReply, AdminReply), Memory>
    requires node { node ≡ N }
    requires setting { IsSetting command }
    requires maker { maker.old ≡ (32, Calls (calls_in maker.old.1)) }
    ensures twice { IfOk result (λ p. p.1 ≡ p.0) }
    ensures maker { IfOk result
        (λ p. maker.new ≡ (32, Calls (calls_in maker.old.1 ++ Admin N command p.0 ∷ []))) }
    ensures err { OnErr result (maker.new ≡ maker.old) }
{
    let mut trail = spin_then_lock(rt, trail);
    set_locked(table, &mut *trail, locked, alloc, maker, node, command)
}

fn set_locked<B: ClusterBrand, const N: u8>(
    table: &SeatTable<B>,
    trail: &mut LockedTrail<B>,
    locked: &mut LockedNode<B, N>,
    alloc: Global,
    maker: &mut Holder<B>,
    node: NodeId,
    command: AdminCommand,
) -> Result<(AdminReply, AdminReply), Memory>
    requires node { node ≡ N }
    requires setting { IsSetting command }
    requires maker { maker.old ≡ (32, Calls (calls_in maker.old.1)) }
    ensures twice { IfOk result (λ p. p.1 ≡ p.0) }
    ensures maker { IfOk result
        (λ p. maker.new ≡ (32, Calls (calls_in maker.old.1 ++ Admin N command p.0 ∷ []))) }
    ensures err { OnErr result (maker.new ≡ maker.old) }
{
    trail.reserve()?;
    let (answer, second, third) = set_thrice(&mut locked.node, alloc, &command)?;
    let event = Event::Admin {
        node,
        command,
        reply: second,
    };
    trail.record::<N>(table, &locked.node, &mut locked.holder, maker, event);
    Ok((answer, third))
}

/// The command at the node, with its reply three times: only a listing is a reply whose copy takes memory, and that
/// leaves the node as it is.
fn set_thrice(
    node: &mut Node,
    alloc: Global,
    command: &AdminCommand,
) -> Result<(AdminReply, AdminReply, AdminReply), Memory>
    requires { IsSetting command.now }
    ensures reply { IfOk result
        (λ p. p.0
        ≡ reply_or (setting_fault node.old.me node.old.nodes node.old.node command.now)
        (reply_if_accepted node.old.node command.now)) }
    ensures copies { IfOk result (λ p. (p.1 ≡ p.0) × (p.2 ≡ p.0)) }
    ensures ok { OnOk result
        (node.new
        ≡ record node.old {
          node = cond
              (is_some (setting_fault node.old.me node.old.nodes node.old.node command.now)) node.old.node
              (node_if_accepted node.old.me node.old.node command.now);
        }) }
    ensures err { OnErr result (node.new ≡ node.old) }
{
    let reply = node.admin(command)?;
    let (second, third) = copied(alloc, &reply)?;
    Ok((reply, second, third))
}

fn copied(alloc: Global, reply: &AdminReply) -> Result<(AdminReply, AdminReply), Memory>
    ensures same { IfOk result (λ p. (p.0 ≡ reply.now) × (p.1 ≡ reply.now)) }
    ensures memory { OnErr result (IsListing reply.now) }
{
    let first = reply.try_copy(alloc)?;
    let second = reply.try_copy(alloc)?;
    Ok((first, second))
}
