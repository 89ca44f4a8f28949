ghost use Rattle.std.specs.Prelude.{◌≡◌, ◌≤◌, ◌<◌, ◌++◌, ◌∷◌, [], OnOk, OnErr};
ghost use Rattle.cluster_world.specs.Trails.{HasSame};

use crate::event::Event;
use byte_texts::Memory;
use key_slots::OwnerTable;
use std::alloc::Global;
use std::marker::Model;

/// What happened in a cluster: the owner table and the port that it was opened with, and its events in order. It keeps
/// every event, so it grows with each.
///
/// A place for an event is reserved before the event is made, so that an event that happened can always be kept.
pub struct Trail {
    owners: OwnerTable,
    base_port: u16,
    events: Vec<Event>,
}

/// Written out, so that a proof sees one call where such a value is dropped.
impl Drop for Trail {
    fn drop(self) {
        let Self {
            owners,
            base_port: _,
            events,
        } = self;
        drop(owners);
        drop(events);
    }
}

impl Model for Trail {
    ghost use Rattle.std.specs.Prelude.{◌≤◌, ◌-◌, vec_len, vec_capacity};
    ghost use Rattle.cluster_world.specs.Trails.{Trail, trail_code};

    ghost Value = { Trail };

    ghost coded = { trail_code };

    ghost view = { λ t. record {
      owners = t.owners;
      base_port = t.base_port;
      events = t.events.items;
      room = vec_capacity t.events - vec_len t.events;
    } };

    ghost invariant = { λ t. t.base_port ≤ 65528 };
}

impl Trail {
    /// The trail of a cluster that was opened with this table and this port and in which nothing happened. Takes no
    /// memory. The port is at most 65,528.
    pub fn open(alloc: Global, owners: OwnerTable, base_port: u16) -> Self
        requires { base_port ≤ 65528 }
        ensures { HasSame result owners base_port [] }
    {
        Self {
            owners,
            base_port,
            events: Vec::new(alloc),
        }
    }

    /// A place for one event more. Where memory runs out the trail is as it was.
    pub fn reserve(&mut self) -> Result<(), Memory>
        ensures kept { HasSame self.new self.old.owners self.old.base_port self.old.events }
        ensures ok { OnOk result (0 < self.new.room) }
        ensures err { OnErr result (self.new.room ≡ self.old.room) }
    {
        self.events.reserve(1)
    }

    /// Puts the event at the end, in a place that was reserved. Takes no memory.
    pub fn push(&mut self, event: Event)
        requires { 0 < self.old.room }
        ensures { HasSame self.new self.old.owners self.old.base_port (self.old.events ++ event ∷ []) }
    {
        self.events.push_reserved(event);
    }

    /// The events, in order.
    pub fn events(&self) -> &[Event]
        ensures { result.now ≡ self.now.events }
    {
        self.events.as_slice()
    }

    /// The owner table that the cluster was opened with.
    pub fn owners(&self) -> &OwnerTable
        ensures { result.now ≡ self.now.owners }
    {
        &self.owners
    }

    /// The port of the first node.
    pub fn base_port(&self) -> u16
        ensures value { result ≡ self.now.base_port }
        ensures most { result ≤ 65528 }
    {
        self.base_port
    }
}
