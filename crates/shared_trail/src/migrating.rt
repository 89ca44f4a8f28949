//! MIGRATE between two locked nodes, and the MIGRATEs that no second node sees.
ghost use Rattle.std.specs.Prelude.{◌≡◌, ◌≢◌, ◌+◌, ◌<◌, ◌++◌, ◌∷◌, [], IfOk, OnOk, OnErr, length, nat_lt, false};
ghost use Rattle.std.specs.Prelude.{true, ◌⊎◌, vec_len, vec_capacity, option_map};
ghost use Rattle.slot_keyspace.specs.Batches.{batch_of};
ghost use Rattle.cluster_admin.specs.Commands.{AreMovable, IsListing};
ghost use Rattle.cluster_node.specs.Exporting.{IsExport};
ghost use Rattle.cluster_admin.specs.declared.admin.AdminCommand.TheVariants.{Migrate};
ghost use Rattle.cluster_admin.specs.declared.admin.AdminReply.TheVariants.{Refused};
ghost use Rattle.cluster_admin.specs.declared.admin.AdminFault.TheVariants.{UnknownNode, SameNode};
ghost use Rattle.cluster_world.specs.declared.event.Event.TheVariants.{Admin};
ghost use Rattle.shared_trail.specs.declared.view.Part.TheVariants.{Calls};
ghost use Rattle.shared_trail.specs.Local.{IsShared, calls_in};

use crate::brand::ClusterBrand;
use crate::client_calls::{note, reserve_place};
use crate::locked_node::LockedNode;
use crate::locked_trail::LockedTrail;
use crate::seat_table::{Holder, SeatTable};
use crate::seats::AdminSeat;
use crate::spinning::spin_then_lock;
use byte_texts::{Memory, Text};
use cluster_node::{AdminCommand, AdminFault, AdminReply, KeyList, Node, refused_by_target};
use cluster_world::{AdminCall, Event};
use key_slots::{NodeId, slot_of};
use std::sync::{Mutex, Wait};

/// A MIGRATE that was prepared at its source: the command, for its event, and the frame of the keys that are there.
#[derive(Drop)]
struct Transfer {
    from: NodeId,
    keys: KeyList,
    to: NodeId,
    frame: Option<Vec<u8>>,
}

/// The keys whose frame was made at the source go to the target, all or none. A refusal, and out of memory, leave both
/// as they are.
fn move_keys(
    source: &mut Node,
    target: &mut Node,
    keys: &[Text],
    frame: Option<Vec<u8>>,
) -> Result<AdminReply, Memory>
    requires movable { AreMovable keys.now }
    requires frame { IsExport (batch_of source.old.node.held keys.now) (option_map (λ v. v.items) frame) }
    requires apart { source.old.me ≢ target.old.me }
    ensures shared { IfOk result
        (λ r. IsShared source.old.base_port source.old.nodes source.old.me target.old.me source.old.node target.old.node
        (Admin source.old.me (Migrate keys.now target.old.me) r) source.new.node target.new.node) }
    ensures source { source.new ≡ record source.old { node = source.new.node } }
    ensures target { target.new ≡ record target.old { node = target.new.node } }
    ensures brief { IfOk result (λ r. IsListing r → ⊥) }
    ensures err { OnErr result ((source.new ≡ source.old) × (target.new ≡ target.old)) }
{
    let Some(frame) = frame else {
        return Ok(AdminReply::NoKey);
    };
    match target.admit(slot_of(keys[0].get()), frame.as_slice()) {
        Ok(()) => {
            source.forget(keys);
            Ok(AdminReply::Ok)
        }
        Err(fault) => refused_by_target(fault),
    }
}

/// A reply that is no listing once more, which takes no memory.
fn again(reply: &AdminReply) -> AdminReply
    requires { IsListing reply.now → ⊥ }
    ensures { result ≡ reply.now }
{
    match reply {
        AdminReply::Ok => AdminReply::Ok,
        AdminReply::NoKey => AdminReply::NoKey,
        AdminReply::Keys(_) => unreachable!(),
        AdminReply::Refused(fault) => AdminReply::Refused(*fault),
    }
}

/// A copy of the keys, with a place in the administrator's list.
fn reserve_keys(calls: &mut Vec<AdminCall>, keys: &KeyList) -> Result<KeyList, Memory>
    ensures calls { calls.new.items ≡ calls.old.items }
    ensures place { OnOk result (vec_len calls.new < vec_capacity calls.new) }
    ensures copy { IfOk result (λ k. k ≡ keys.now) }
{
    let alloc = reserve_place(calls)?;
    keys.try_copy(alloc)
}

/// MIGRATE of the keys from the node N to the node M. The command is copied, and the frame is made, before the trail is
/// locked, and the call goes into the seat's list when it is no longer.
pub fn move_on<B: ClusterBrand, const N: u8, const M: u8, R: Wait>(
    rt: &R,
    table: &SeatTable<B>,
    trail: &Mutex<LockedTrail<B>>,
    source: &mut LockedNode<B, N>,
    target: &mut LockedNode<B, M>,
    seat: &mut AdminSeat<B>,
    from: NodeId,
    keys: KeyList,
    to: NodeId,
) -> Result<AdminReply, Memory>
    requires apart { N ≢ M }
    requires places { (from ≡ N) × (to ≡ M) }
    requires movable { AreMovable keys }
    ensures call { IfOk result
        (λ r. seat.new ≡ seat.old ++ record { node = N; command = Migrate keys M; reply = r } ∷ []) }
    ensures err { OnErr result (seat.new ≡ seat.old) }
{
    let copy = reserve_keys(&mut seat.calls, &keys)?;
    let frame = source.node.export(keys.get())?;
    let transfer = Transfer {
        from,
        keys: copy,
        to,
        frame,
    };
    let answer = transfer_on(rt, table, trail, source, target, &mut seat.holder, transfer)?;
    let reply = again(&answer);
    seat.calls.push_reserved(AdminCall {
        node: from,
        command: AdminCommand::Migrate(keys, to),
        reply,
    });
    Ok(answer)
}

/// Moves the keys by their frame, with the event on the trail, which is locked for that long and no longer.
fn transfer_on<B: ClusterBrand, const N: u8, const M: u8, R: Wait>(
    rt: &R,
    table: &SeatTable<B>,
    trail: &Mutex<LockedTrail<B>>,
    source: &mut LockedNode<B, N>,
    target: &mut LockedNode<B, M>,
    maker: &mut Holder<B>,
    transfer: Transfer,
) -> Result<AdminReply, Memory>
    requires apart { N ≢ M }
    requires places { (transfer.from ≡ N) × (transfer.to ≡ M) }
    requires movable { AreMovable transfer.keys }
    requires frame { IsExport (batch_of source.old.node.held transfer.keys)
        (option_map (λ v. v.items) transfer.frame) }
    requires maker { maker.old ≡ (32, Calls (calls_in maker.old.1)) }
    ensures brief { IfOk result (λ r. IsListing r → ⊥) }
    ensures maker { IfOk result
        (λ r. maker.new ≡ (32, Calls (calls_in maker.old.1 ++ Admin N (Migrate transfer.keys M) r ∷ []))) }
    ensures err { OnErr result (maker.new ≡ maker.old) }
{
    let mut trail = spin_then_lock(rt, trail);
    transfer_locked(table, &mut *trail, source, target, maker, transfer)
}

fn transfer_locked<B: ClusterBrand, const N: u8, const M: u8>(
    table: &SeatTable<B>,
    trail: &mut LockedTrail<B>,
    source: &mut LockedNode<B, N>,
    target: &mut LockedNode<B, M>,
    maker: &mut Holder<B>,
    transfer: Transfer,
) -> Result<AdminReply, Memory>
    requires apart { N ≢ M }
    requires places { (transfer.from ≡ N) × (transfer.to ≡ M) }
    requires movable { AreMovable transfer.keys }
    requires frame { IsExport (batch_of source.old.node.held transfer.keys)
        (option_map (λ v. v.items) transfer.frame) }
    requires maker { maker.old ≡ (32, Calls (calls_in maker.old.1)) }
    ensures brief { IfOk result (λ r. IsListing r → ⊥) }
    ensures maker { IfOk result
        (λ r. maker.new ≡ (32, Calls (calls_in maker.old.1 ++ Admin N (Migrate transfer.keys M) r ∷ []))) }
    ensures err { OnErr result (maker.new ≡ maker.old) }
{
    trail.reserve()?;
    let Transfer {
        from,
        keys,
        to,
        frame,
    } = transfer;
    let answer = move_keys(&mut source.node, &mut target.node, keys.get(), frame)?;
    let event = Event::Admin {
        node: from,
        command: AdminCommand::Migrate(keys, to),
        reply: again(&answer),
    };
    trail.record_both::<N, M>(
        table,
        &source.node,
        &mut source.holder,
        &target.node,
        &mut target.holder,
        maker,
        event,
    );
    Ok(answer)
}

/// MIGRATE at the node N to the node itself or to no node is refused, and no second node sees it.
pub fn refuse_on<B: ClusterBrand, const N: u8, R: Wait>(
    rt: &R,
    table: &SeatTable<B>,
    trail: &Mutex<LockedTrail<B>>,
    locked: &mut LockedNode<B, N>,
    seat: &mut AdminSeat<B>,
    from: NodeId,
    keys: KeyList,
    to: NodeId,
    fault: AdminFault,
) -> Result<AdminReply, Memory>
    requires place { from ≡ N }
    requires fault { ((nat_lt to (length B.setup.opening.nodes) ≡ false) × (fault ≡ UnknownNode))
        ⊎ ((nat_lt to (length B.setup.opening.nodes) ≡ true) × (to ≡ from) × (fault ≡ SameNode)) }
    ensures call { IfOk result
        (λ r. seat.new ≡ seat.old ++ record { node = N; command = Migrate keys to; reply = r } ∷ []) }
    ensures err { OnErr result (seat.new ≡ seat.old) }
{
    let copy = reserve_keys(&mut seat.calls, &keys)?;
    let event = Event::Admin {
        node: from,
        command: AdminCommand::Migrate(copy, to),
        reply: AdminReply::Refused(fault),
    };
    note(rt, table, trail, locked, &mut seat.holder, event)?;
    seat.calls.push_reserved(AdminCall {
        node: from,
        command: AdminCommand::Migrate(keys, to),
        reply: AdminReply::Refused(fault),
    });
    Ok(AdminReply::Refused(fault))
}
