//! Tests of `cluster_world` and `cluster_node`.
ghost use Rattle.cluster_admin.specs.Commands.{IsCommand};

use crate::clusters::three_nodes;
use crate::requests::request_of;
use byte_texts::{Memory, Text};
use cluster_node::{AdminCommand, AdminReply, KeyList};
use cluster_world::{Action, Event, World};
use key_slots::{NodeId, Slot};
use resp2_wire::Reply;
use std::alloc::Global;
use std::process::Abort;
use std::test::Fail;
use store_commands::Command;

/// One step at a node: the administrator's.
fn administer(
    rt: &impl Abort,
    world: &mut World,
    node: NodeId,
    command: AdminCommand,
) -> Result<(), Memory>
    requires { IsCommand command }
{
    assert!(rt; node.get() < world.nodes());
    drop(world.command(node, &command)?);
    Ok(())
}

/// The command that the words are.
fn command(alloc: Global, words: &str) -> Result<Command, Fail> {
    let request = request_of(alloc, words).ok_or("no request")?;
    Ok(Command::read(alloc, request)?)
}

/// What node 0 answers to a client's command.
fn ask(rt: &impl Abort, world: &mut World, command: &Command) -> Result<Reply, Memory> {
    let node = NodeId::of(0);
    assert!(rt; node.get() < world.nodes());
    world.client(node, false, command)
}

fn shown(reply: &Reply) -> &[u8] {
    match reply {
        Reply::Simple(text) | Reply::Error(text) => text.get(),
        _ => b"other",
    }
}

#[test]
fn a_client_sets_a_key(rt: HostRuntime) -> Result<(), Fail> {
    let mut world = three_nodes(rt.alloc())?;
    let reply = ask(&rt, &mut world, &command(rt.alloc(), "SET b 1")?)?;
    assert!(rt; shown(&reply) == b"OK".as_slice());
    Ok(())
}

/// While a slot moves, a client that asks for a key that is not there is sent to where the slot goes.
#[test]
fn a_client_is_sent_on(rt: HostRuntime) -> Result<(), Fail> {
    let mut world = three_nodes(rt.alloc())?;
    let migrating = AdminCommand::Migrating(Slot::of(3300), NodeId::of(1));
    administer(&rt, &mut world, NodeId::of(0), migrating)?;
    let reply = ask(&rt, &mut world, &command(rt.alloc(), "GET b")?)?;
    assert!(rt; shown(&reply) == b"ASK 3300 127.0.0.1:7001".as_slice());
    Ok(())
}

fn is_reply(event: &Event, wanted: &[u8]) -> bool {
    match event {
        Event::Client { reply, .. } => shown(reply) == wanted,
        _ => false,
    }
}

/// One step at node 0: a client's.
fn step(rt: &impl Abort, world: &mut World, command: Command) -> Result<Event, Memory> {
    let node = NodeId::of(0);
    assert!(rt; node.get() < world.nodes());
    world.step(Action::Client {
        seat: 0,
        node,
        asking: false,
        command,
    })
}

/// A copy answers as the event does.
fn is_copied(alloc: Global, event: &Event, wanted: &[u8]) -> Result<bool, Memory> {
    let copy = event.try_copy(alloc)?;
    Ok(is_reply(event, wanted) && is_reply(&copy, wanted))
}

#[test]
fn copies_an_event(rt: HostRuntime) -> Result<(), Fail> {
    let alloc = rt.alloc();
    let mut world = three_nodes(alloc)?;
    let event = step(&rt, &mut world, command(alloc, "SET b 1")?)?;
    assert!(rt; is_copied(alloc, &event, b"OK")?);
    Ok(())
}

/// How many keys the event's command and its reply have together.
fn keys_in(event: &Event) -> usize {
    match event {
        Event::Admin {
            command: AdminCommand::Migrate(named, _),
            reply: AdminReply::Keys(listed),
            ..
        } => named.get().len().saturating_add(listed.get().len()),
        _ => 0,
    }
}

fn one_key(alloc: Global) -> Result<KeyList, Memory> {
    let key = Text::from_slice(alloc, b"b")?;
    let mut keys = KeyList::new(alloc);
    keys.push(key)?;
    Ok(keys)
}

/// An event that names these keys, and lists those.
fn event_of(named: KeyList, listed: KeyList) -> Event {
    Event::Admin {
        node: NodeId::of(0),
        command: AdminCommand::Migrate(named, NodeId::of(1)),
        reply: AdminReply::Keys(listed),
    }
}

/// How many keys the event's copy has.
fn keys_copied(alloc: Global, event: &Event) -> Result<usize, Memory> {
    Ok(keys_in(&event.try_copy(alloc)?))
}

#[test]
fn copies_keys_of_an_event(rt: HostRuntime) -> Result<(), Memory> {
    let alloc = rt.alloc();
    let named = one_key(alloc)?;
    let event = event_of(named, one_key(alloc)?);
    assert!(rt; keys_copied(alloc, &event)? == 2);
    Ok(())
}
