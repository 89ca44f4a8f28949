//! Tests of a client over a world: which sends it makes there.
ghost use Rattle.std.specs.Prelude.{◌≡◌, ◌<◌, ◌≤◌, length};
ghost use Rattle.cluster_admin.specs.Commands.{IsCommand};

use crate::commands::{get_b, set_b};
use crate::plans::{THERE, finish, start};
use byte_texts::Memory;
use cluster_admin::{AdminCommand, NodeCount, PortFault};
use cluster_world::{NodePort, World, WorldSeat};
use key_slots::{NodeId, OwnerTable, Slot};
use plan_runner::Taken;
use redirect_client::Client;
use resp2_wire::Reply;
use std::alloc::Global;
use std::process::Abort;
use std::test::Fail;
use store_commands::Command;

/// A client's use in a few lines: it is told of the nodes once, and then executes commands through a port to them.
#[test]
fn a_client_gets_what_it_set(rt: HostRuntime) -> Result<(), Fail> {
    let alloc = rt.alloc();
    let owners = OwnerTable::even(alloc, 3, 3)?;
    let (mut port, _seat) = World::open(alloc, owners.try_copy()?, 7000)?;
    assert!(rt; owners.nodes() <= port.nodes());
    let mut client = Client::new(owners, 7000);
    drop(reply_of(&mut client, &mut port, set_b(alloc))?);
    let reply = reply_of(&mut client, &mut port, get_b(alloc))?;
    assert!(rt; is_text(&reply, b"1"));
    Ok(())
}

/// The client's reply to the command, if there is one.
fn reply_of(client: &mut Client, port: &mut World, command: Option<Command>) -> Result<Reply, Fail>
    requires { client.old.owners.nodes ≤ length port.old.nodes }
    ensures { client.new.owners.nodes ≤ length port.new.nodes }
{
    let Some(command) = command else {
        return Err(Fail::from("no command"));
    };
    Ok(client.execute(port, &command)?)
}

/// Whether the reply is this text.
fn is_text(reply: &Reply, wanted: &[u8]) -> bool {
    matches!(reply, Reply::Bulk(text) if text.get() == wanted)
}

fn is_null(reply: &Reply) -> bool {
    matches!(reply, Reply::Null)
}

/// A world that writes down which nodes a client called, with whether ASKING came before: four sends at most.
#[derive(Drop)]
struct Watched {
    world: World,
    log: [(u8, bool); 4],
    sends: usize,
}

impl Watched {
    fn new(world: World) -> Self
        ensures { result.world ≡ world }
    {
        Self {
            world,
            log: [(0, false); 4],
            sends: 0,
        }
    }

    /// Whether these are the sends that were made.
    fn was_sent(&self, wanted: &[(u8, bool)]) -> bool {
        self.sends == wanted.len()
            && self
                .log
                .iter()
                .zip(wanted.iter())
                .all(|(sent, wanted)| *sent == *wanted)
    }
}

impl NodeCount for Watched {
    ghost count = { λ x. length x.world.nodes };

    fn nodes(&self) -> u8 {
        self.world.nodes()
    }
}

impl NodePort for Watched {
    ghost sends = { λ x s y. Unit {0} };

    ghost failures = { λ _. 0 };

    fn send(&mut self, node: NodeId, asking: bool, command: &Command) -> Result<Reply, PortFault> {
        if self.sends < 4 {
            self.log[self.sends] = (node.get(), asking);
        }
        self.sends = self.sends.saturating_add(1);
        self.world.send(node, asking, command)
    }

    fn look(&mut self, node: NodeId) -> Result<Reply, PortFault> {
        NodePort::look(&mut self.world, node)
    }
}

/// A client with the even split sends GET b, whose slot is 3300, over the world: its reply, and whether its sends were
/// these.
fn send_get(alloc: Global, world: World, wanted: &[(u8, bool)]) -> Result<(Reply, bool), Fail>
    requires { length world.nodes ≡ 3 }
{
    let mut port = Watched::new(world);
    let mut client = Client::new(OwnerTable::even(alloc, 3, 3)?, 7000);
    let command = get_b(alloc).ok_or("no command")?;
    let reply = client.execute(&mut port, &command)?;
    Ok((reply, port.was_sent(wanted)))
}

/// The world once the plan has run, in which node 0 first had the key.
fn world_after_plan(
    alloc: Global,
    owners: &OwnerTable,
    seat: WorldSeat,
    world: World,
) -> Result<World, Fail> {
    let mut world = world;
    let command = set_b(alloc).ok_or("no command")?;
    let _set = world.client(NodeId::of(0), false, &command)?;
    let Some(plan) = start(alloc, THERE, owners, &world, seat) else {
        return Err(Fail::from("the plan does not start"));
    };
    match finish(Taken::Running(plan), &mut world) {
        Some(seat) => {
            drop(seat);
            Ok(world)
        }
        None => Err(Fail::from("the plan stopped")),
    }
}

/// Where the slot has moved, the client that believes in the old owner is sent to the new one.
#[test]
fn a_client_after_a_plan(rt: HostRuntime) -> Result<(), Fail> {
    let alloc = rt.alloc();
    let owners = OwnerTable::even(alloc, 3, 3)?;
    let (world, seat) = World::open(alloc, owners.try_copy()?, 7000)?;
    let world = world_after_plan(alloc, &owners, seat, world)?;
    assert!(rt; world.nodes() == 3);
    let (reply, was_sent) = send_get(alloc, world, &[(0, false), (1, false)])?;
    assert!(rt; is_text(&reply, b"1"));
    assert!(rt; was_sent);
    Ok(())
}

/// One step of the administrator at a node.
fn administer(
    rt: &impl Abort,
    world: &mut World,
    node: NodeId,
    command: AdminCommand,
) -> Result<(), Memory>
    requires { IsCommand command }
{
    assert!(rt; node.get() < world.nodes());
    drop(world.command(node, &command)?);
    Ok(())
}

/// While both marks stand, the client asks the target for a key that is not at the source.
#[test]
fn a_client_between_two_marks(rt: HostRuntime) -> Result<(), Fail> {
    let alloc = rt.alloc();
    let (mut world, _seat) = World::open(alloc, OwnerTable::even(alloc, 3, 3)?, 7000)?;
    let (slot, source, target) = (Slot::of(3300), NodeId::of(0), NodeId::of(1));
    administer(
        &rt,
        &mut world,
        target,
        AdminCommand::Importing(slot, source),
    )?;
    administer(
        &rt,
        &mut world,
        source,
        AdminCommand::Migrating(slot, target),
    )?;
    assert!(rt; world.nodes() == 3);
    let (reply, was_sent) = send_get(alloc, world, &[(0, false), (1, true)])?;
    assert!(rt; is_null(&reply));
    assert!(rt; was_sent);
    Ok(())
}
