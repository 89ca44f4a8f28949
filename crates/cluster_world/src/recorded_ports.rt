ghost use Rattle.std.specs.Prelude.{◌≡◌, ◌<◌, ◌↔◌, IsTrue, IfOk, OnOk, OnErr, length};
ghost use Rattle.cluster_admin.specs.Commands.{IsCommand, IsListing};
ghost use Rattle.cluster_world.specs.Cleanness.{IsUnmarked};
ghost use Rattle.cluster_world.specs.Commanding.{admin_reply, admin_after};
ghost use Rattle.cluster_world.specs.RecordedPorts.{AreReplies};
ghost use Rattle.cluster_world.specs.Worlds.{survey_of};

use crate::event::Event;
use crate::node_port::NodePort;
use crate::recorded::{RecordedWorld, Sent};
use crate::world::World;
use crate::world_seat::WorldSeat;
use byte_texts::Memory;
use cluster_admin::{AdminCall, AdminPort, NodeCount, PortFault, Survey};
use cluster_node::{AdminCommand, AdminReply};
use key_slots::{NodeId, OwnerTable};
use resp2_wire::Reply;
use std::alloc::Global;
use store_commands::Command;

impl NodeCount for RecordedWorld {
    ghost count = { λ r. length r.world.nodes };

    fn nodes(&self) -> u8 {
        self.kept.world.nodes()
    }
}

/// The client of the seat 0. Its call waits for `put`, for which a place on the trail is reserved first.
impl NodePort for RecordedWorld {
    ghost use Rattle.cluster_world.specs.RecordedPorts.{IsHeld};

    ghost sends = { IsHeld };

    ghost failures = { λ _. 0 };

    fn send(&mut self, node: NodeId, asking: bool, command: &Command) -> Result<Reply, PortFault> {
        let recorded = &mut *self.kept;
        recorded.trail.reserve()?;
        let sent = Sent::Command {
            node,
            asking,
            command: command.try_copy(recorded.alloc)?,
        };
        let reply = recorded.world.client(node, asking, command)?;
        recorded.sent = Some(sent);
        Ok(reply)
    }

    fn send_owned(
        &mut self,
        node: NodeId,
        asking: bool,
        mut command: Command,
    ) -> Result<Reply, PortFault> {
        let recorded = &mut *self.kept;
        recorded.trail.reserve()?;
        // The trail keeps the command for good, and is not to keep the room of whoever made it.
        command.shrink_to_fit();
        let reply = recorded.world.client(node, asking, &command)?;
        recorded.sent = Some(Sent::Command {
            node,
            asking,
            command,
        });
        Ok(reply)
    }

    fn look(&mut self, node: NodeId) -> Result<Reply, PortFault> {
        let recorded = &mut *self.kept;
        recorded.trail.reserve()?;
        let reply = recorded.world.look(node)?;
        recorded.sent = Some(Sent::Look(node));
        Ok(reply)
    }
}

impl AdminPort for RecordedWorld {
    type Seat = WorldSeat;

    ghost use Rattle.cluster_world.specs.RecordedPorts.{by_call, KeepsAll};
    ghost use Rattle.cluster_admin.specs.declared.port_fault.PortFault.TheVariants.{Memory};

    ghost calls = { λ s. s };

    ghost fits = { λ r s. Unit {0} };

    ghost moves = { by_call };

    ghost fails = { KeepsAll };

    ghost clean_gives = { λ r owners clean. IsTrue clean ↔ IsUnmarked r.world owners };

    ghost survey_gives = { λ r calls v. v ≡ survey_of r.world };

    ghost survey_fails = { λ r f. f ≡ Memory };

    ghost matches_gives = { λ r calls v same. IsTrue same ↔ (survey_of r.world ≡ v) };

    /// The places on the trail and in the seat's list are taken first, so the call that was done can be put there.
    fn admin(
        &mut self,
        seat: &mut WorldSeat,
        node: NodeId,
        command: AdminCommand,
    ) -> Result<AdminReply, PortFault> {
        let recorded = &mut *self.kept;
        recorded.trail.reserve()?;
        seat.calls.reserve(1)?;
        let kept = command.try_copy(recorded.alloc)?;
        let Replies {
            answer,
            of_the_trail,
            of_the_seat,
        } = replies_to(&mut recorded.world, recorded.alloc, node, &command)?;
        recorded.sent = None;
        let event = Event::Admin {
            node,
            command: kept,
            reply: of_the_trail,
        };
        recorded.trail.push(event);
        let call = AdminCall {
            node,
            command,
            reply: of_the_seat,
        };
        match seat.calls.push(call) {
            Ok(()) => Ok(answer),
            Err(_) => unreachable!(),
        }
    }

    fn is_clean(&self, owners: &OwnerTable) -> bool {
        AdminPort::is_clean(&self.kept.world, owners)
    }

    fn survey(&self, _seat: &mut WorldSeat) -> Result<Survey, PortFault> {
        Ok(self.kept.world.survey()?)
    }

    fn matches(&self, _seat: &mut WorldSeat, survey: &Survey) -> bool {
        self.kept.world.matches(survey)
    }
}

/// The reply to a command of the administrator: the answer, and the copies of it that the trail and the seat keep.
#[derive(Drop)]
struct Replies {
    answer: AdminReply,
    of_the_trail: AdminReply,
    of_the_seat: AdminReply,
}

/// The administrator's command at the node, with its reply three times: only a listing is a reply whose copies take
/// memory, and that leaves the world as it is.
fn replies_to(
    world: &mut World,
    alloc: Global,
    node: NodeId,
    command: &AdminCommand,
) -> Result<Replies, Memory>
    requires there { node < length world.old.nodes }
    requires command { IsCommand command.now }
    ensures replies { IfOk result (AreReplies (admin_reply world.old node command.now)) }
    ensures ok { OnOk result (world.new ≡ admin_after world.old node command.now) }
    ensures count { length world.new.nodes ≡ length world.old.nodes }
    ensures err { OnErr result (world.new ≡ world.old) }
{
    let answer = world.command(node, command)?;
    match copies_of(&answer, alloc) {
        Ok((of_the_trail, of_the_seat)) => Ok(Replies {
            answer,
            of_the_trail,
            of_the_seat,
        }),
        Err(memory) => Err(memory),
    }
}

/// Two copies of a reply. Only those of a listing take memory.
fn copies_of(reply: &AdminReply, alloc: Global) -> Result<(AdminReply, AdminReply), Memory>
    ensures same { IfOk result (λ p. (p.0 ≡ reply.now) × (p.1 ≡ reply.now)) }
    ensures memory { OnErr result (IsListing reply.now) }
{
    Ok((reply.try_copy(alloc)?, reply.try_copy(alloc)?))
}
