//! The slot 3300 of a world of three nodes: its keys, and its owners.
ghost use Rattle.std.specs.Prelude.{◌≡◌, length};

use crate::commands::set_in_slot;
use cluster_admin::{AdminCommand, AdminReply};
use cluster_world::World;
use key_slots::{NodeId, OwnerTable, Slot};
use redirect_client::Client;
use std::alloc::Global;

/// A client that believes in the even split sets the key of this number, and follows its redirections.
fn set_key(alloc: Global, world: &mut World, number: u64) -> Option<()>
    ensures { length world.new.nodes ≡ length world.old.nodes }
{
    let command = set_in_slot(alloc, number)?;
    let owners = OwnerTable::even(alloc, 3, 3).ok()?;
    if owners.nodes() > world.nodes() {
        return None;
    }
    let mut client = Client::new(owners, 7000);
    drop(client.execute(world, &command));
    Some(())
}

/// So many keys of the slot are set, from the one of this number on.
pub(crate) fn set_keys(alloc: Global, world: &mut World, first: u64, count: u64)
    ensures { length world.new.nodes ≡ length world.old.nodes }
{
    for number in 0..count {
        let _done = set_key(alloc, world, first.wrapping_add(number));
    }
}

/// How many keys of the slot the node has: 1,000 at most.
pub(crate) fn keys_at(world: &mut World, node: u8) -> u64 {
    if node >= world.nodes() {
        return 0;
    }
    let command = AdminCommand::KeysIn(Slot::of(3300), 1_000);
    match world.command(NodeId::of(node), &command) {
        Ok(reply) => count_in(&reply),
        Err(_) => 0,
    }
}

fn count_in(reply: &AdminReply) -> u64 {
    match reply {
        AdminReply::Keys(keys) => keys.len() as u64,
        _ => 0,
    }
}

/// The even split, but for the slot, which is the node's.
pub(crate) fn moved_to(alloc: Global, node: u8) -> Option<OwnerTable> {
    let mut owners = OwnerTable::even(alloc, 3, 3).ok()?;
    if node < owners.nodes() {
        owners.set(Slot::of(3300), NodeId::of(node));
    }
    Some(owners)
}
