//! A world of three nodes.
use byte_texts::Memory;
use cluster_world::World;
use key_slots::OwnerTable;
use std::alloc::Global;

/// Three nodes with an even split: node 0 owns the slot of `b`, 3300.
pub(crate) fn three_nodes(alloc: Global) -> Result<World, Memory> {
    let (world, seat) = World::open(alloc, OwnerTable::even(alloc, 3, 3)?, 7000)?;
    drop(seat);
    Ok(world)
}
