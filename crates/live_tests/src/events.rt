//! The events of a trail, by a world that takes the same steps.
ghost use Rattle.std.specs.Prelude.{IfSome};
ghost use Rattle.cluster_admin.specs.Commands.{IsCommand};

use crate::replies::{is_same, is_same_admin};
use byte_texts::Text;
use cluster_node::{AdminCommand, AdminReply};
use cluster_world::{Event, Trail, World};
use key_slots::NodeId;
use resp2_wire::Reply;
use script_lines::Line;
use std::alloc::Global;
use store_commands::Command;

/// The MIGRATE of these keys, as a line of a script says it.
fn migrate_again(
    alloc: Global,
    nodes: u8,
    node: NodeId,
    keys: &[Text],
    target: NodeId,
) -> Option<AdminCommand>
    ensures { IfSome result IsCommand }
{
    let mut line = Vec::new(alloc);
    line.extend_from_slice(b"migrate").ok()?;
    for key in keys {
        line.push(b' ').ok()?;
        line.extend_from_slice(key.get()).ok()?;
    }
    let way = format!(in alloc; " at n{} to n{}", node.get(), target.get()).ok()?;
    line.extend_from_slice(way.as_bytes()).ok()?;
    match Line::read(alloc, nodes, line.as_slice()) {
        Ok(Line::Admin { node: _, command }) => Some(command),
        _ => None,
    }
}

fn command_again(
    alloc: Global,
    nodes: u8,
    node: NodeId,
    command: &AdminCommand,
) -> Option<AdminCommand>
    ensures { IfSome result IsCommand }
{
    match command {
        AdminCommand::Importing(slot, source) => Some(AdminCommand::Importing(*slot, *source)),
        AdminCommand::Migrating(slot, target) => Some(AdminCommand::Migrating(*slot, *target)),
        AdminCommand::SetNode(slot, owner) => Some(AdminCommand::SetNode(*slot, *owner)),
        AdminCommand::Stable(slot) => Some(AdminCommand::Stable(*slot)),
        AdminCommand::KeysIn(slot, count) => Some(AdminCommand::KeysIn(*slot, *count)),
        AdminCommand::Migrate(keys, target) => migrate_again(
            alloc,
            nodes,
            node,
            keys.get(),
            *target,
        ),
    }
}

fn replays_client(
    world: &mut World,
    node: NodeId,
    asking: bool,
    command: &Command,
    reply: &Reply,
) -> Option<bool> {
    if node.get() >= world.nodes() {
        return Some(false);
    }
    let again = world.client(node, asking, command).ok()?;
    Some(is_same(reply, &again))
}

fn replays_admin(
    world: &mut World,
    node: NodeId,
    command: &AdminCommand,
    reply: &AdminReply,
) -> Option<bool>
    requires { IsCommand command.now }
{
    if node.get() >= world.nodes() {
        return Some(false);
    }
    let again = world.command(node, command).ok()?;
    Some(is_same_admin(reply, &again))
}

/// Whether the world answers the call of this event as the event says.
pub(crate) fn replays(alloc: Global, world: &mut World, event: &Event) -> Option<bool> {
    match event {
        Event::Client {
            seat: _,
            node,
            asking,
            command,
            reply,
        } => replays_client(world, *node, *asking, command, reply),
        Event::Admin {
            node,
            command,
            reply,
        } => {
            let command = command_again(alloc, world.nodes(), *node, command)?;
            replays_admin(world, *node, &command, reply)
        }
        Event::Look { .. } => Some(false),
    }
}

/// A world as the trail's was opened.
pub(crate) fn opened(alloc: Global, trail: &Trail) -> Option<World> {
    let owners = trail.owners().try_copy().ok()?;
    let (world, seat) = World::open(alloc, owners, trail.base_port()).ok()?;
    drop(seat);
    Some(world)
}

/// How many events from the first on are those of a world that takes the same steps. Commands are to be on texts, and
/// no event may be a look.
pub(crate) fn replayed(alloc: Global, trail: &Trail) -> Option<usize> {
    let mut world = opened(alloc, trail)?;
    let mut count: usize = 0;
    for event in trail.events() {
        if !replays(alloc, &mut world, event)? {
            return Some(count);
        }
        count = count.saturating_add(1);
    }
    Some(count)
}
