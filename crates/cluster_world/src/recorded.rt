ghost use Rattle.std.specs.Prelude.{◌≡◌, ◌≤◌, ◌<◌, ◌+◌, [], length, IfOk};
ghost use Rattle.cluster_world.specs.WorldView.{new_world};
ghost use Rattle.cluster_world.specs.Recorded.{IsFirstNumber, IsRecord, begun, first_owners, put, sent_event};

use crate::event::Event;
use crate::honesty::first_dishonest;
use crate::trail::Trail;
use crate::world::World;
use crate::world_seat::WorldSeat;
use byte_texts::Memory;
use key_slots::{NodeId, OwnerTable};
use resp2_wire::Reply;
use std::alloc::Global;
use std::marker::Model;
use store_commands::Command;

/// What a client sent to a node that has answered, before the event is put on the trail with the reply.
pub enum Sent {
    /// A command, with ASKING or without.
    Command {
        node: NodeId,
        asking: bool,
        command: Command,
    },
    /// CLUSTER SLOTS.
    Look(NodeId),
}

impl Sent {
    /// The event of the call with its reply. The client has the seat 0.
    fn event(self, reply: Reply) -> Event
        ensures { result ≡ sent_event self reply }
    {
        match self {
            Self::Command {
                node,
                asking,
                command,
            } => Event::Client {
                seat: 0,
                node,
                asking,
                command,
                reply,
            },
            Self::Look(node) => Event::Look {
                seat: 0,
                node,
                reply,
            },
        }
    }
}

/// Written out, so that a proof sees one call where such a value is dropped.
impl Drop for Sent {
    fn drop(self) {
        match self {
            Self::Command {
                node: _,
                asking: _,
                command,
            } => drop(command),
            Self::Look(_) => {}
        }
    }
}

/// A world with the trail of its events, from its opening on.
///
/// A client's reply is not copied: the trail takes it over once it was printed, and has a place for it until then.
pub struct RecordedWorld {
    // In a place of its own: a rehearsal hands the world on from line to line, and so hands on one pointer.
    pub(crate) kept: Box<WorldAndTrail>,
}

/// Written out, so that a proof sees one call where such a value is dropped.
impl Drop for RecordedWorld {
    fn drop(self) {
        let Self { kept } = self;
        drop(kept);
    }
}

impl Model for RecordedWorld {
    ghost use Rattle.cluster_world.specs.Recorded.{Recorded, recorded_code};

    ghost Value = { Recorded };

    ghost coded = { recorded_code };

    ghost view = { λ r. r.kept.value };
}

/// The parts of a recorded world.
pub(crate) struct WorldAndTrail {
    pub(crate) alloc: Global,
    pub(crate) world: World,
    pub(crate) trail: Trail,
    pub(crate) sent: Option<Sent>,
}

/// Written out, so that a proof sees one call where such a value is dropped.
impl Drop for WorldAndTrail {
    fn drop(self) {
        let Self {
            alloc: _,
            world,
            trail,
            sent,
        } = self;
        drop(world);
        drop(trail);
        drop(sent);
    }
}

impl Model for WorldAndTrail {
    ghost use Rattle.cluster_world.specs.Trails.{opening};
    ghost use Rattle.cluster_world.specs.Recorded.{Recorded, HasRoom, recorded_code};

    ghost Value = { Recorded };

    ghost coded = { recorded_code };

    ghost view = { λ r. record { world = r.world; first = opening r.trail; events = r.trail.events; sent = r.sent } };

    ghost invariant = { λ r. HasRoom r.sent r.trail.room };
}

impl RecordedWorld {
    /// Nodes with this table, which hold nothing, with an empty trail, and the administrator's seat.
    pub fn open(
        alloc: Global,
        owners: OwnerTable,
        base_port: u16,
    ) -> Result<(Self, WorldSeat), Memory>
        requires { base_port ≤ 65528 }
        ensures recorded { IfOk result (λ p. p.0 ≡ begun (new_world base_port owners.nodes owners.owners)) }
        ensures kept { IfOk result (λ p. IsRecord p.0) }
        ensures seat { IfOk result (λ p. p.1 ≡ []) }
    {
        let _nodes = owners.nodes();
        let (world, _) = World::open(alloc, owners.try_copy()?, base_port)?;
        let recorded = WorldAndTrail {
            alloc,
            world,
            trail: Trail::open(alloc, owners, base_port),
            sent: None,
        };
        let kept = Box::new(alloc, recorded)?;
        Ok((Self { kept }, WorldSeat::new(alloc)))
    }

    /// The owners of all slots, as node 0 sees them.
    pub fn first_owners(&self) -> &OwnerTable
        ensures { result.now ≡ first_owners self.now }
    {
        let _nodes = self.kept.world.nodes();
        self.kept.world.owners(NodeId::of(0))
    }

    /// The events, in order.
    pub fn events(&self) -> &[Event]
        ensures { result.now ≡ self.now.events }
    {
        self.kept.trail.events()
    }

    /// Puts the call that was answered last on the trail, with its reply, if it is no event there yet. Takes no memory.
    pub fn put(&mut self, reply: Reply)
        ensures { self.new ≡ put self.old reply }
    {
        let recorded = &mut *self.kept;
        if let Some(sent) = recorded.sent.take() {
            recorded.trail.push(sent.event(reply));
        }
    }

    /// The number, from 1, of the first event that is not honest.
    pub fn first_dishonest(&self, alloc: Global) -> Result<Option<u64>, Memory>
        requires { IsRecord self.now }
        ensures { IfOk result (IsFirstNumber self.now) }
    {
        let trail = &self.kept.trail;
        match first_dishonest(alloc, trail)? {
            None => Ok(None),
            Some(place) => Ok(Some(number_of(place, trail.events()))),
        }
    }
}

/// The number, from 1, of the event at the place.
fn number_of(place: usize, events: &[Event]) -> u64
    requires { place < length events.now }
    ensures { result ≡ place + 1 }
{
    let count = events.len();
    prove!(place < count);
    place as u64 + 1
}
