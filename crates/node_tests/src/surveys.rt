//! Tests of surveys: in which phase a slot is seen, and when a survey is the world's.
ghost use Rattle.cluster_admin.specs.Commands.{IsCommand};

use crate::clusters::three_nodes;
use byte_texts::Memory;
use cluster_node::AdminCommand;
use cluster_world::{Phase, World};
use key_slots::{NodeId, Slot};
use std::process::Abort;
use std::test::Fail;

/// What a survey sees of slot 3300, which is node 0's at first, after one command more.
fn seen_after(
    rt: &impl Abort,
    world: &mut World,
    node: u8,
    command: AdminCommand,
) -> Result<Option<Phase>, Memory>
    requires { IsCommand command }
{
    assert!(rt; node < world.nodes());
    drop(world.command(NodeId::of(node), &command)?);
    Ok(world.survey()?.phase_of(Slot::of(3300)))
}

/// Each command of a move leads to the next phase.
#[test]
fn a_slot_goes_from_phase_to_phase(rt: HostRuntime) -> Result<(), Fail> {
    let mut world = three_nodes(rt.alloc())?;
    let slot = Slot::of(3300);
    let source = NodeId::of(0);
    let target = NodeId::of(1);
    let importing = AdminCommand::Importing(slot, source);
    let seen = seen_after(&rt, &mut world, 1, importing)?;
    assert!(rt; seen == Some(Phase::Importing { source, target }));
    let migrating = AdminCommand::Migrating(slot, target);
    let seen = seen_after(&rt, &mut world, 0, migrating)?;
    assert!(rt; seen == Some(Phase::Migrating { source, target }));
    let seen = seen_after(&rt, &mut world, 1, AdminCommand::SetNode(slot, target))?;
    assert!(rt; seen == Some(Phase::TargetTold { source, target }));
    let seen = seen_after(&rt, &mut world, 0, AdminCommand::SetNode(slot, target))?;
    assert!(rt; seen == Some(Phase::SourceTold { source, target }));
    let seen = seen_after(&rt, &mut world, 2, AdminCommand::SetNode(slot, target))?;
    assert!(rt; seen == Some(Phase::Closed(target)));
    Ok(())
}

/// A migrating mark without an importing one is no phase, and SETSLOT STABLE takes it away.
#[test]
fn a_mark_alone_is_no_phase(rt: HostRuntime) -> Result<(), Fail> {
    let mut world = three_nodes(rt.alloc())?;
    let slot = Slot::of(3300);
    let before = world.survey()?;
    let migrating = AdminCommand::Migrating(slot, NodeId::of(1));
    let seen = seen_after(&rt, &mut world, 0, migrating)?;
    assert!(rt; seen == None);
    assert!(rt; !world.survey()?.is_open());
    assert!(rt; !world.matches(&before));
    let seen = seen_after(&rt, &mut world, 0, AdminCommand::Stable(slot))?;
    assert!(rt; seen == Some(Phase::Closed(NodeId::of(0))));
    assert!(rt; world.survey()?.is_open());
    assert!(rt; world.matches(&before));
    Ok(())
}
