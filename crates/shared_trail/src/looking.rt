//! A client's CLUSTER SLOTS at a locked node. What a call that fails leaves behind is dropped by name, as in
//! `client_calls`.
ghost use Rattle.std.specs.Prelude.{◌≡◌, ◌<◌, ◌++◌, ◌∷◌, [], IfOk, OnOk, OnErr};
ghost use Rattle.std.specs.Prelude.{vec_len, vec_capacity};
ghost use Rattle.cluster_node.specs.Nodes.{look_reply};
ghost use Rattle.cluster_world.specs.declared.event.Event.TheVariants.{Look};

use crate::brand::ClusterBrand;
use crate::client_calls::{note, reserve_copy, twice};
use crate::locked_node::LockedNode;
use crate::locked_trail::LockedTrail;
use crate::seat_table::SeatTable;
use crate::seats::ClientSeat;
use byte_texts::Memory;
use cluster_world::Event;
use key_slots::NodeId;
use resp2_wire::Reply;
use std::sync::{Mutex, Wait};

/// CLUSTER SLOTS at the node N.
pub fn look_on<B: ClusterBrand, const N: u8, R: Wait>(
    rt: &R,
    table: &SeatTable<B>,
    trail: &Mutex<LockedTrail<B>>,
    locked: &mut LockedNode<B, N>,
    seat: &mut ClientSeat<B>,
    node: NodeId,
    reply: Reply,
) -> Result<Reply, Memory>
    requires node { node ≡ N }
    requires reply { reply ≡ look_reply locked.old.base_port locked.old.node }
    ensures call { IfOk result (λ r. seat.new ≡ (seat.old.0, seat.old.1 ++ Look seat.old.0 N r ∷ [])) }
    ensures err { OnErr result (seat.new ≡ seat.old) }
{
    match record_look(rt, table, trail, locked, seat, node, &reply) {
        Ok(()) => Ok(reply),
        Err(fault) => {
            drop(reply);
            Err(fault)
        }
    }
}

/// The look, with its event on the trail and then in the seat's list.
#[tactic(auto, using(crate::proofs::Locally::look_here))]
fn record_look<B: ClusterBrand, const N: u8, R: Wait>(
    rt: &R,
    table: &SeatTable<B>,
    trail: &Mutex<LockedTrail<B>>,
    locked: &mut LockedNode<B, N>,
    seat: &mut ClientSeat<B>,
    node: NodeId,
    reply: &Reply,
) -> Result<(), Memory>
    requires node { node ≡ N }
    requires reply { reply.now ≡ look_reply locked.old.base_port locked.old.node }
    ensures call { OnOk result
        (seat.new ≡ (seat.old.0, seat.old.1 ++ Look seat.old.0 N reply.now ∷ [])) }
    ensures err { OnErr result (seat.new ≡ seat.old) }
{
    // Reading the node gives the proof what is always true of it.
    let _node = &locked.node;
    let (event, copy) = look_events(&mut seat.calls, seat.number, node, reply)?;
    match note(rt, table, trail, locked, &mut seat.holder, event) {
        Ok(()) => {
            seat.calls.push_reserved(copy);
            Ok(())
        }
        Err(fault) => {
            drop(copy);
            Err(fault)
        }
    }
}

/// The event of a look, for the trail and for the seat's list, which gets a place for it.
fn look_events(
    calls: &mut Vec<Event>,
    seat: u8,
    node: NodeId,
    reply: &Reply,
) -> Result<(Event, Event), Memory>
    ensures calls { calls.new.items ≡ calls.old.items }
    ensures place { OnOk result (vec_len calls.new < vec_capacity calls.new) }
    ensures events { IfOk result (λ p. (p.0 ≡ Look seat node reply.now) × (p.1 ≡ Look seat node reply.now)) }
{
    let (alloc, reply) = reserve_copy(calls, reply)?;
    twice(alloc, Event::Look { seat, node, reply })
}
