//! The plan that closes what stands open.
ghost use Rattle.cluster_admin.specs.Commands.{IsCommand};

use cluster_node::AdminCommand;
use cluster_world::World;
use key_slots::{NodeId, OwnerTable, Slot};
use std::alloc::Global;

/// The nodes, of which the first owns all slots.
const NODES: u8 = 8;

/// Surveys a world in which so many slots go from the first node to the second, and plans their rests, so many times.
/// Returns how many commands the plan stands for.
pub fn resume_often(alloc: Global, slots: usize, times: usize) -> anyhow::Result<u64> {
    let (mut world, seat) = World::open(alloc, OwnerTable::even(alloc, NODES, 1)?, 7000)?;
    drop(seat);
    open_slots(&mut world, slots)?;
    let mut commands = 0;
    for _ in 0..times {
        commands = rests(alloc, &world)?;
    }
    Ok(commands)
}

fn open_slots(world: &mut World, slots: usize) -> anyhow::Result<()> {
    let (source, target) = (NodeId::of(0), NodeId::of(1));
    for number in 0..16_384u16 {
        if usize::from(number) < slots {
            let slot = Slot::of(number);
            administer(world, target, AdminCommand::Importing(slot, source))?;
            administer(world, source, AdminCommand::Migrating(slot, target))?;
        }
    }
    Ok(())
}

fn administer(world: &mut World, node: NodeId, command: AdminCommand) -> anyhow::Result<()>
    requires { IsCommand command }
{
    if node.get() < world.nodes() {
        drop(world.command(node, &command)?);
    }
    Ok(())
}

fn rests(alloc: Global, world: &World) -> anyhow::Result<u64> {
    let survey = world.survey()?;
    let plan = reshard_planner::resume(alloc, &survey, 10)?;
    Ok(u64::from(plan.expanded_len(NODES)))
}
