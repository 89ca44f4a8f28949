use anyhow::anyhow;
use byte_streams::{MemoryIn, MemoryOut};
use cluster_node::AdminCommand;
use cluster_world::World;
use key_slots::{NodeId, OwnerTable, Slot};
use node_session::serve_session;
use std::alloc::Global;

/// How a session with these bytes ends at a cluster of one node, how many bytes were written, and these in hexadecimal.
pub fn session(alloc: Global, bytes: &[u8]) -> anyhow::Result<String> {
    let (world, seat) = World::open(alloc, OwnerTable::even(alloc, 1, 1)?, 7000)?;
    drop(seat);
    serve(alloc, world, NodeId::of(0), bytes)
}

/// A session at node 1 of three, which imports the slot 3300 from node 0.
pub fn importing_session(alloc: Global, bytes: &[u8]) -> anyhow::Result<String> {
    let (mut world, seat) = World::open(alloc, OwnerTable::even(alloc, 3, 3)?, 7000)?;
    drop(seat);
    let node = NodeId::of(1);
    if node.get() >= world.nodes() {
        return Err(anyhow!("there is no node 1"));
    }
    let command = AdminCommand::Importing(Slot::of(3300), NodeId::of(0));
    drop(world.command(node, &command)?);
    serve(alloc, world, node, bytes)
}

fn serve(alloc: Global, world: World, node: NodeId, bytes: &[u8]) -> anyhow::Result<String> {
    let mut world = world;
    if node.get() >= world.nodes() {
        return Err(anyhow!("there is no such node"));
    }
    let mut reader = MemoryIn::new(bytes, false);
    let mut writer = MemoryOut::new(alloc, usize::MAX);
    let (end, sent) = serve_session(alloc, &mut reader, &mut writer, &mut world, node);
    let written = hex::encode(alloc, writer.bytes.as_slice())?;
    Ok(format!(in alloc; "{end:?} {sent} {written}")?)
}
