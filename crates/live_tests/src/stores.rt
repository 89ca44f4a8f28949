//! One store that is given what the nodes of a cluster served, and whether the nodes hold that store.
use crate::holdings::{has, keys_in};
use crate::replies::{is_same, is_unserved};
use byte_texts::Text;
use cluster_world::{Event, Trail, World};
use key_slots::{NodeId, OwnerTable, Slot};
use resp2_wire::Reply;
use std::alloc::Global;
use store_commands::Command;

/// The only node of a store.
const ALONE: u8 = 0;

/// Whether the store answers what the event says, where the event's command was served.
fn serves(store: &mut World, event: &Event) -> Option<bool> {
    match event {
        Event::Client { command, reply, .. } => {
            if is_unserved(reply) {
                return Some(true);
            }
            let again = ask(store, NodeId::of(ALONE), command)?;
            Some(is_same(reply, &again))
        }
        _ => Some(true),
    }
}

/// What the node answers to the command with ASKING.
fn ask(world: &mut World, node: NodeId, command: &Command) -> Option<Reply> {
    if node.get() >= world.nodes() {
        return None;
    }
    world.client(node, true, command).ok()
}

/// One undivided store that was given each command that the trail's events served, in their order. None where it
/// answered one of them in another way than the event says.
pub(crate) fn store_of(alloc: Global, trail: &Trail) -> Option<World> {
    let owners = OwnerTable::even(alloc, 1, 1).ok()?;
    let (mut store, seat) = World::open(alloc, owners, 7000).ok()?;
    drop(seat);
    for event in trail.events() {
        if !serves(&mut store, event)? {
            return None;
        }
    }
    Some(store)
}

/// How many keys of the slot all nodes hold together.
fn count_in(nodes: &mut World, slot: Slot) -> Option<usize> {
    let mut count: usize = 0;
    for number in 0..nodes.nodes() {
        count = count.saturating_add(keys_in(nodes, NodeId::of(number), slot)?.len());
    }
    Some(count)
}

/// Whether some node holds the key, and each node that does has this value of it.
fn is_held(
    nodes: &mut World,
    slot: Slot,
    key: &Text,
    get: &Command,
    value: &Reply,
) -> Option<bool> {
    let mut is_found = false;
    for number in 0..nodes.nodes() {
        let node = NodeId::of(number);
        if has(keys_in(nodes, node, slot)?.get(), key) {
            if !is_same(&ask(nodes, node, get)?, value) {
                return Some(false);
            }
            is_found = true;
        }
    }
    Some(is_found)
}

/// Whether the nodes hold as many keys of the slot as the store, and each of the store's with its value: so each is at
/// one node, and there are no others.
pub(crate) fn is_same_slot(
    alloc: Global,
    nodes: &mut World,
    store: &mut World,
    slot: Slot,
) -> Option<bool> {
    let wanted = keys_in(store, NodeId::of(ALONE), slot)?;
    if count_in(nodes, slot)? != wanted.len() {
        return Some(false);
    }
    for key in wanted.get() {
        let get = Command::get(key.try_copy(alloc).ok()?);
        let value = ask(store, NodeId::of(ALONE), &get)?;
        if !is_held(nodes, slot, key, &get, &value)? {
            return Some(false);
        }
    }
    Some(true)
}

/// Whether all nodes together hold exactly the store, each key at one node. All values are to be texts.
pub(crate) fn is_one_store(alloc: Global, nodes: &mut World, store: &mut World) -> Option<bool> {
    for number in 0..16384 {
        if !is_same_slot(alloc, nodes, store, Slot::of(number))? {
            return Some(false);
        }
    }
    Some(true)
}
