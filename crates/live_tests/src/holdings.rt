//! Which keys of a slot a node of a world holds, and what a node that hands a slot over gains of it.
use crate::events::{opened, replays};
use byte_texts::Text;
use cluster_node::{AdminCommand, AdminReply, KeyList};
use cluster_world::{Event, Trail, World};
use key_slots::{NodeId, Slot};
use std::alloc::Global;

/// How many keys a listing has at most.
const MOST: u16 = 1_000;

/// The first keys of the slot that the node holds.
pub(crate) fn keys_in(world: &mut World, node: NodeId, slot: Slot) -> Option<KeyList> {
    if node.get() >= world.nodes() {
        return None;
    }
    let command = AdminCommand::KeysIn(slot, MOST);
    listed(world.command(node, &command).ok()?)
}

fn listed(reply: AdminReply) -> Option<KeyList> {
    match reply {
        AdminReply::Keys(keys) => Some(keys),
        _ => None,
    }
}

pub(crate) fn has(keys: &[Text], wanted: &Text) -> bool {
    keys.iter().any(|key| key.get() == wanted.get())
}

fn is_part_of(keys: &[Text], others: &[Text]) -> bool {
    keys.iter().all(|key| has(others, key))
}

/// Whether the source is told to hand the slot over, and does not refuse.
fn hands_over(event: &Event, slot: Slot, source: NodeId) -> bool {
    match event {
        Event::Admin {
            node,
            command,
            reply,
        } => *node == source && is_migrating(command, slot) && matches!(reply, AdminReply::Ok),
        _ => false,
    }
}

fn is_migrating(command: &AdminCommand, slot: Slot) -> bool {
    matches!(command, AdminCommand::Migrating(given, _) if *given == slot)
}

fn is_within(keys: &KeyList, before: &Option<KeyList>) -> bool {
    match before {
        Some(before) => is_part_of(keys.get(), before.get()),
        None => true,
    }
}

/// Whether the source gains no key of the slot once it hands it over, at any event of the trail.
pub(crate) fn gains_nothing(
    alloc: Global,
    trail: &Trail,
    slot: Slot,
    source: NodeId,
) -> Option<bool> {
    let mut world = opened(alloc, trail)?;
    let mut before: Option<KeyList> = None;
    for event in trail.events() {
        if !replays(alloc, &mut world, event)? {
            return Some(false);
        }
        let keys = keys_in(&mut world, source, slot)?;
        if !is_within(&keys, &before) {
            return Some(false);
        }
        if before.is_some() || hands_over(event, slot, source) {
            before = Some(keys);
        }
    }
    Some(true)
}
