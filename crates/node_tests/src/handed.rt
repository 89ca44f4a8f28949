//! Commands that are handed over to a port.
use crate::clusters::three_nodes;
use crate::requests::request_of;
use cluster_node::AdminCommand;
use cluster_world::{Event, NodeCount, NodePort, RecordedWorld};
use key_slots::{NodeId, OwnerTable, Slot};
use resp2_wire::Reply;
use std::alloc::Global;
use std::test::Fail;
use store_commands::Command;

/// The command that the words are.
fn command(alloc: Global, words: &str) -> Result<Command, Fail> {
    let request = request_of(alloc, words).ok_or("no request")?;
    Ok(Command::read(alloc, request)?)
}

fn is_ok(reply: &Reply) -> bool {
    match reply {
        Reply::Simple(text) => text.get() == b"OK".as_slice(),
        _ => false,
    }
}

/// Whether this is what stands on the trail: a client's command of one key at node 0, with ASKING, that went well.
fn is_kept(events: &[Event]) -> bool {
    match events {
        [
            Event::Client {
                seat,
                node,
                asking,
                command,
                reply,
            },
        ] => *seat == 0 && node.get() == 0 && *asking && command.keys().len() == 1 && is_ok(reply),
        _ => false,
    }
}

/// A recorded world keeps the command that it takes over, as it was sent.
#[test]
fn a_recorded_world_takes_a_command_over(rt: HostRuntime) -> Result<(), Fail> {
    let alloc = rt.alloc();
    let (mut recorded, seat) = RecordedWorld::open(alloc, OwnerTable::even(alloc, 3, 3)?, 7000)?;
    drop(seat);
    let node = NodeId::of(0);
    assert!(rt; node.get() < recorded.nodes());
    let reply = recorded.send_owned(node, true, command(alloc, "SET b 1")?)?;
    recorded.put(reply);
    assert!(rt; is_kept(recorded.events()));
    Ok(())
}

/// A port that keeps no commands sends one that is handed over as one that is lent: here with ASKING, without which
/// node 1, to which the slot comes, would send it on.
#[test]
fn a_world_sends_a_command_that_is_handed_over(rt: HostRuntime) -> Result<(), Fail> {
    let alloc = rt.alloc();
    let mut world = three_nodes(alloc)?;
    let node = NodeId::of(1);
    assert!(rt; node.get() < world.nodes());
    let importing = AdminCommand::Importing(Slot::of(3300), NodeId::of(0));
    drop(world.command(node, &importing)?);
    assert!(rt; node.get() < world.nodes());
    let reply = world.send_owned(node, true, command(alloc, "SET b 1")?)?;
    assert!(rt; is_ok(&reply));
    Ok(())
}
