//! A client's commands at a locked node.
//!
//! Where a call that runs out of memory leaves a command, a change or an event behind, it is dropped by name: a proof
//! sees one call there, and not each of the value's forms.
ghost use Rattle.std.specs.Prelude.{◌≡◌, ◌+◌, ◌<◌, ◌++◌, ◌∷◌, [], IfOk, OnOk, OnErr, length};
ghost use Rattle.std.specs.Prelude.{vec_len, vec_capacity};
ghost use Rattle.cluster_node.specs.Changing.{IsPrepared, reply_in};
ghost use Rattle.cluster_world.specs.declared.event.Event.TheVariants.{Client};
ghost use Rattle.shared_trail.specs.declared.view.Part.TheVariants.{Calls};
ghost use Rattle.shared_trail.specs.Serving.{IsServedBy};
ghost use Rattle.shared_trail.specs.Local.{IsLocal, calls_in};
ghost use Rattle.shared_trail.specs.Trails.{caller, IsNamed};

use crate::brand::ClusterBrand;
use crate::locked_node::LockedNode;
use crate::locked_trail::LockedTrail;
use crate::seat_table::{Holder, SeatTable};
use crate::seats::ClientSeat;
use crate::spinning::spin_then_lock;
use byte_texts::Memory;
use cluster_node::NodeChange;
use cluster_world::Event;
use key_slots::NodeId;
use resp2_wire::Reply;
use std::alloc::Global;
use std::sync::{Mutex, Wait};
use store_commands::Command;

/// A place in a seat's list, and the list's allocator.
pub(crate) fn reserve_place<T>(calls: &mut Vec<T>) -> Result<Global, Memory>
    ensures calls { calls.new.items ≡ calls.old.items }
    ensures place { OnOk result (vec_len calls.new < vec_capacity calls.new) }
{
    calls.reserve(1)?;
    Ok(*calls.allocator())
}

/// The event twice: for the trail, and for the seat.
pub(crate) fn twice(alloc: Global, event: Event) -> Result<(Event, Event), Memory>
    ensures { IfOk result (λ p. (p.0 ≡ event) × (p.1 ≡ event)) }
{
    match event.try_copy(alloc) {
        Ok(copy) => Ok((event, copy)),
        Err(fault) => {
            drop(event);
            Err(fault)
        }
    }
}

/// A copy of the reply, with a place in a seat's list and the list's allocator.
pub(crate) fn reserve_copy(calls: &mut Vec<Event>, reply: &Reply) -> Result<(Global, Reply), Memory>
    ensures calls { calls.new.items ≡ calls.old.items }
    ensures place { OnOk result (vec_len calls.new < vec_capacity calls.new) }
    ensures copy { IfOk result (λ p. p.1 ≡ reply.now) }
{
    let alloc = reserve_place(calls)?;
    let copy = reply.try_copy(alloc)?;
    Ok((alloc, copy))
}

/// A client's command that was prepared at a node: what it does there, and its event.
#[derive(Drop)]
struct Prepared {
    change: NodeChange,
    event: Event,
}

/// The event of a client's call, for the trail and for the seat's list, which gets a place for it.
fn call_events(
    calls: &mut Vec<Event>,
    seat: u8,
    node: NodeId,
    asking: bool,
    command: Command,
    reply: &Reply,
) -> Result<(Event, Event), Memory>
    ensures calls { calls.new.items ≡ calls.old.items }
    ensures place { OnOk result (vec_len calls.new < vec_capacity calls.new) }
    ensures events { IfOk result
        (λ p. (p.0 ≡ Client seat node asking command reply.now) × (p.1 ≡ Client seat node asking command reply.now)) }
{
    match reserve_copy(calls, reply) {
        Ok((alloc, reply)) => {
            let event = Event::Client {
                seat,
                node,
                asking,
                command,
                reply,
            };
            twice(alloc, event)
        }
        Err(fault) => {
            drop(command);
            Err(fault)
        }
    }
}

/// A client's command at the node N, which was prepared there. What is copied is copied before the trail is locked, and
/// the event goes into the seat's list when it is no longer.
pub fn call_on<B: ClusterBrand, const N: u8, R: Wait>(
    rt: &R,
    table: &SeatTable<B>,
    trail: &Mutex<LockedTrail<B>>,
    locked: &mut LockedNode<B, N>,
    seat: &mut ClientSeat<B>,
    node: NodeId,
    asking: bool,
    command: Command,
    change: NodeChange,
) -> Result<Reply, Memory>
    requires node { node ≡ N }
    requires prepared { IsPrepared locked.old asking command change }
    ensures call { IfOk result
        (λ r. seat.new ≡ (seat.old.0, seat.old.1 ++ Client seat.old.0 N asking command r ∷ [])) }
    ensures err { OnErr result (seat.new ≡ seat.old) }
{
    // Reading the node gives the proof what is always true of it.
    let _node = &locked.node;
    let reply = change.reply();
    match call_events(&mut seat.calls, seat.number, node, asking, command, reply) {
        Ok((event, copy)) => {
            let prepared = Prepared { change, event };
            match serve(rt, table, trail, locked, &mut seat.holder, prepared) {
                Ok(answer) => {
                    seat.calls.push_reserved(copy);
                    Ok(answer)
                }
                Err(fault) => {
                    drop(copy);
                    Err(fault)
                }
            }
        }
        Err(fault) => {
            drop(change);
            Err(fault)
        }
    }
}

/// Does what was prepared, with its event on the trail, which is locked for that long and no longer.
fn serve<B: ClusterBrand, const N: u8, R: Wait>(
    rt: &R,
    table: &SeatTable<B>,
    trail: &Mutex<LockedTrail<B>>,
    locked: &mut LockedNode<B, N>,
    maker: &mut Holder<B>,
    prepared: Prepared,
) -> Result<Reply, Memory>
    requires served { IsServedBy B.setup.opening.base_port (length B.setup.opening.nodes) N locked.old.node
        prepared.event prepared.change }
    requires named { IsNamed prepared.event }
    requires maker { maker.old ≡ (caller prepared.event, Calls (calls_in maker.old.1)) }
    ensures reply { IfOk result (λ r. r ≡ reply_in prepared.change) }
    ensures maker { OnOk result
        (maker.new ≡ (caller prepared.event, Calls (calls_in maker.old.1 ++ prepared.event ∷ []))) }
    ensures err { OnErr result (maker.new ≡ maker.old) }
{
    let mut trail = spin_then_lock(rt, trail);
    serve_locked(table, &mut *trail, locked, maker, prepared)
}

#[tactic(auto, using(crate::proofs::Locally::served_node))]
fn serve_locked<B: ClusterBrand, const N: u8>(
    table: &SeatTable<B>,
    trail: &mut LockedTrail<B>,
    locked: &mut LockedNode<B, N>,
    maker: &mut Holder<B>,
    prepared: Prepared,
) -> Result<Reply, Memory>
    requires served { IsServedBy B.setup.opening.base_port (length B.setup.opening.nodes) N locked.old.node
        prepared.event prepared.change }
    requires named { IsNamed prepared.event }
    requires maker { maker.old ≡ (caller prepared.event, Calls (calls_in maker.old.1)) }
    ensures reply { IfOk result (λ r. r ≡ reply_in prepared.change) }
    ensures maker { OnOk result
        (maker.new ≡ (caller prepared.event, Calls (calls_in maker.old.1 ++ prepared.event ∷ []))) }
    ensures err { OnErr result (maker.new ≡ maker.old) }
{
    let Prepared { change, event } = prepared;
    if let Err(fault) = trail.reserve() {
        drop(change);
        drop(event);
        return Err(fault);
    }
    match locked.node.commit(change) {
        Ok(reply) => {
            trail.record::<N>(table, &locked.node, &mut locked.holder, maker, event);
            Ok(reply)
        }
        Err(fault) => {
            drop(event);
            Err(fault)
        }
    }
}

/// Puts an event on the trail that leaves the node as it is. The trail is locked for that long and no longer.
pub(crate) fn note<B: ClusterBrand, const N: u8, R: Wait>(
    rt: &R,
    table: &SeatTable<B>,
    trail: &Mutex<LockedTrail<B>>,
    locked: &mut LockedNode<B, N>,
    maker: &mut Holder<B>,
    event: Event,
) -> Result<(), Memory>
    requires local { IsLocal B.setup.opening.base_port (length B.setup.opening.nodes) N locked.old.node event
        locked.old.node }
    requires named { IsNamed event }
    requires maker { maker.old ≡ (caller event, Calls (calls_in maker.old.1)) }
    ensures maker { OnOk result (maker.new ≡ (caller event, Calls (calls_in maker.old.1 ++ event ∷ []))) }
    ensures err { OnErr result (maker.new ≡ maker.old) }
{
    let mut trail = spin_then_lock(rt, trail);
    note_locked(table, &mut *trail, locked, maker, event)
}

fn note_locked<B: ClusterBrand, const N: u8>(
    table: &SeatTable<B>,
    trail: &mut LockedTrail<B>,
    locked: &mut LockedNode<B, N>,
    maker: &mut Holder<B>,
    event: Event,
) -> Result<(), Memory>
    requires local { IsLocal B.setup.opening.base_port (length B.setup.opening.nodes) N locked.old.node event
        locked.old.node }
    requires named { IsNamed event }
    requires maker { maker.old ≡ (caller event, Calls (calls_in maker.old.1)) }
    ensures maker { OnOk result (maker.new ≡ (caller event, Calls (calls_in maker.old.1 ++ event ∷ []))) }
    ensures err { OnErr result (maker.new ≡ maker.old) }
{
    match trail.reserve() {
        Ok(()) => {
            trail.record::<N>(table, &locked.node, &mut locked.holder, maker, event);
            Ok(())
        }
        Err(fault) => {
            drop(event);
            Err(fault)
        }
    }
}
