ghost use Rattle.std.specs.Prelude.{◌≡◌, ◌<◌, ◌↔◌, IsTrue, IfOk, OnOk, OnErr, length};
ghost use Rattle.cluster_world.specs.Cleanness.{IsUnmarked};
ghost use Rattle.cluster_admin.specs.Commands.{IsCommand};
ghost use Rattle.cluster_world.specs.Commanding.{admin_reply, admin_after};
ghost use Rattle.cluster_world.specs.Ports.{IsAdminFault};
ghost use Rattle.cluster_world.specs.Steps.{by_call};
ghost use Rattle.cluster_world.specs.Worlds.{survey_of};

use crate::node_port::NodePort;
use crate::world::World;
use crate::world_seat::WorldSeat;
use byte_texts::Memory;
use cluster_admin::{AdminCall, AdminPort, NodeCount, PortFault, Survey};
use cluster_node::{AdminCommand, AdminReply};
use key_slots::{NodeId, OwnerTable};
use resp2_wire::Reply;
use std::alloc::Global;
use store_commands::Command;

impl NodeCount for World {
    ghost count = { λ w. length w.nodes };

    fn nodes(&self) -> u8 {
        self.nodes()
    }
}

/// The client of the seat 0.
impl NodePort for World {
    ghost use Rattle.cluster_world.specs.Ports.{IsSent};

    ghost sends = { IsSent };

    ghost failures = { λ _. 0 };

    fn send(&mut self, node: NodeId, asking: bool, command: &Command) -> Result<Reply, PortFault> {
        Ok(self.client(node, asking, command)?)
    }

    fn look(&mut self, node: NodeId) -> Result<Reply, PortFault> {
        Ok(World::look(self, node)?)
    }
}

impl AdminPort for World {
    type Seat = WorldSeat;

    ghost use Rattle.cluster_admin.specs.declared.port_fault.PortFault.TheVariants.{Memory};

    ghost calls = { λ s. s };

    ghost fits = { λ w s. Unit {0} };

    ghost moves = { by_call };

    ghost fails = { IsAdminFault };

    ghost clean_gives = { λ w owners clean. IsTrue clean ↔ IsUnmarked w owners };

    ghost survey_gives = { λ w calls v. v ≡ survey_of w };

    ghost survey_fails = { λ w f. f ≡ Memory };

    ghost matches_gives = { λ w calls v same. IsTrue same ↔ (survey_of w ≡ v) };

    /// The place in the seat's list is taken first, so the call that was done can be put there.
    fn admin(
        &mut self,
        seat: &mut WorldSeat,
        node: NodeId,
        command: AdminCommand,
    ) -> Result<AdminReply, PortFault> {
        seat.calls.reserve(1)?;
        let (answer, reply) = self.command_twice(*seat.calls.allocator(), node, &command)?;
        let call = AdminCall {
            node,
            command,
            reply,
        };
        seat.calls.push_reserved(call);
        Ok(answer)
    }

    fn is_clean(&self, owners: &OwnerTable) -> bool {
        self.is_clean(owners)
    }

    fn survey(&self, _seat: &mut WorldSeat) -> Result<Survey, PortFault> {
        Ok(World::survey(self)?)
    }

    fn matches(&self, _seat: &mut WorldSeat, survey: &Survey) -> bool {
        World::matches(self, survey)
    }
}

impl World {
    /// The administrator's command at the node, with its reply twice: only a listing is a reply whose copy takes
    /// memory, and that leaves the world as it is.
    fn command_twice(
        &mut self,
        alloc: Global,
        node: NodeId,
        command: &AdminCommand,
    ) -> Result<(AdminReply, AdminReply), Memory>
        requires there { node < length self.old.nodes }
        requires command { IsCommand command.now }
        ensures reply { IfOk result (λ p. p.0 ≡ admin_reply self.old node command.now) }
        ensures copy { IfOk result (λ p. p.1 ≡ p.0) }
        ensures ok { OnOk result (self.new ≡ admin_after self.old node command.now) }
        ensures count { length self.new.nodes ≡ length self.old.nodes }
        ensures err { OnErr result (self.new ≡ self.old) }
    {
        let reply = self.command(node, command)?;
        let copy = reply.try_copy(alloc)?;
        Ok((reply, copy))
    }

    /// Whether every node has this table and no mark stands. Takes no memory.
    fn is_clean(&self, owners: &OwnerTable) -> bool
        ensures { IsTrue result ↔ IsUnmarked self.now owners.now }
    {
        if self.nodes() != owners.nodes() {
            return false;
        }
        for node in &self.nodes {
            if !node.is_clean(owners) {
                return false;
            }
        }
        true
    }
}
