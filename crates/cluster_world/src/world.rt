ghost use Rattle.std.specs.Prelude.{◌≡◌, ◌<◌, ◌≤◌, [], length, IfOk, OnOk, OnErr};
ghost use Rattle.std.specs.FinMap as finite;
ghost use Rattle.cluster_node.specs.Nodes.{client_reply, client_node, look_reply};
ghost use Rattle.cluster_node.specs.Memory.{ClientTakesMemory};
ghost use Rattle.cluster_world.specs.Worlds.{World, node_at, change_node};
ghost use Rattle.cluster_world.specs.Cleanness.{Clean};
ghost use Rattle.cluster_world.specs.WorldView.{AreNodes, new_world, world_of};
ghost use Rattle.cluster_world.specs.Steps.{MayTakeMemory, Step, action_of, node_of, IsCall};

use crate::event::{Action, Event};
use crate::world_seat::WorldSeat;
use byte_texts::Memory;
use cluster_node::Node;
use key_slots::{NodeId, OwnerTable};
use resp2_wire::Reply;
use std::alloc::Global;
use std::marker::Model;
use store_commands::Command;

/// A cluster of nodes without locks: 1 to 255, numbered from 0.
pub struct World {
    base_port: u16,
    pub(crate) nodes: Vec<Node>,
}

/// Written out, so that a proof sees one call where such a value is dropped.
impl Drop for World {
    fn drop(self) {
        let Self {
            base_port: _,
            nodes,
        } = self;
        drop(nodes);
    }
}

impl Model for World {
    ghost use Rattle.cluster_world.specs.Worlds.{World, world_code};
    ghost use Rattle.cluster_world.specs.WorldView.{AreNodes, world_of};

    ghost Value = { World };

    ghost coded = { world_code };

    ghost view = { λ w. world_of w.base_port w.nodes.items };

    ghost invariant = { λ w. AreNodes w.base_port w.nodes.items };
}

impl World {
    /// Nodes with this table, which hold nothing, and the administrator's seat. The first node's port is `base_port`,
    /// at most 65,528, and each other's is higher by its number.
    pub fn open(
        alloc: Global,
        owners: OwnerTable,
        base_port: u16,
    ) -> Result<(Self, WorldSeat), Memory>
        requires { base_port ≤ 65528 }
        ensures world { IfOk result (λ p. p.0 ≡ new_world base_port owners.nodes owners.owners) }
        ensures seat { IfOk result (λ p. p.1 ≡ []) }
    {
        let count = owners.nodes();
        let mut nodes = Vec::with_capacity(alloc, usize::from(count))?;
        for number in 0..count {
            nodes.push(Node::open(alloc, NodeId::of(number), owners.try_copy()?, base_port)?)?;
        }
        Ok((Self { base_port, nodes }, WorldSeat::new(alloc)))
    }

    /// How many nodes there are.
    pub fn nodes(&self) -> u8
        ensures value { result ≡ length self.now.nodes }
        ensures least { 1 ≤ result }
        ensures most { result ≤ 255 }
    {
        self.nodes.len() as u8
    }

    /// The port of the first node.
    pub fn base_port(&self) -> u16
        ensures value { result ≡ self.now.base_port }
        ensures most { result ≤ 65528 }
    {
        self.base_port
    }

    /// The nodes, in order. Takes no memory.
    pub fn into_nodes(self) -> Vec<Node>
        ensures nodes { AreNodes self.base_port result.items }
        ensures world { world_of self.base_port result.items ≡ self }
    {
        let Self {
            base_port: _,
            nodes,
        } = self;
        nodes
    }

    /// The world of these nodes. Takes no memory.
    pub fn of_nodes(base_port: u16, nodes: Vec<Node>) -> Self
        requires { AreNodes base_port nodes.items }
        ensures { result ≡ world_of base_port nodes.items }
    {
        Self { base_port, nodes }
    }

    /// A client's command at the node. Where memory runs out nothing is changed.
    pub fn client(&mut self, node: NodeId, asking: bool, command: &Command) -> Result<Reply, Memory>
        requires { node < length self.old.nodes }
        ensures reply { IfOk result
            (λ r. r ≡ client_reply self.old.base_port node (node_at self.old node) asking command.now) }
        ensures ok { OnOk result
            (self.new ≡ change_node self.old node (client_node node (node_at self.old node) asking command.now)) }
        ensures err { OnErr result (self.new ≡ self.old) }
        ensures memory { OnErr result
            (ClientTakesMemory self.old.base_port node (node_at self.old node) asking command.now) }
    {
        self.nodes[usize::from(node.get())].client(asking, command)
    }

    /// NodeExact: takes one step: a client's command, its look, or the administrator's command, of which the event has
    /// the reply. Where memory runs out nothing is changed, and there is no event.
    pub fn step(&mut self, action: Action) -> Result<Event, Memory>
        requires call { IsCall action }
        requires there { node_of action < length self.old.nodes }
        ensures ok { IfOk result (λ e. (action_of e ≡ action) × Step self.old e self.new) }
        ensures err { OnErr result (self.new ≡ self.old) }
        ensures memory { OnErr result (MayTakeMemory self.old action) }
    {
        match action {
            Action::Client {
                seat,
                node,
                asking,
                command,
            } => {
                let reply = self.client(node, asking, &command)?;
                Ok(Event::Client {
                    seat,
                    node,
                    asking,
                    command,
                    reply,
                })
            }
            Action::Admin { node, command } => {
                let reply = self.command(node, &command)?;
                Ok(Event::Admin {
                    node,
                    command,
                    reply,
                })
            }
            Action::Look { seat, node } => {
                let reply = self.look(node)?;
                Ok(Event::Look { seat, node, reply })
            }
        }
    }
}
