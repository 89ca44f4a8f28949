//! The seats as callers have them.
ghost use Rattle.std.specs.Prelude.{◌≡◌, ◌<◌, ◌∷◌, [], map, false};
ghost use Rattle.shared_trail.specs.Seats.{event_of};
ghost use Rattle.shared_trail.specs.declared.view.Part.TheVariants.{Calls};
ghost use Rattle.shared_trail.specs.Trails.{among, calls_of};

use crate::brand::ClusterBrand;
use crate::locked_trail::LockedTrail;
use crate::seat_table::{Holder, SeatTable};
use cluster_world::{AdminCall, Event};
use std::alloc::Global;
use std::marker::Model;

/// A client's seat. Contracts see it as its number and its calls with their replies.
pub struct ClientSeat<B: ClusterBrand> {
    pub(crate) number: u8,
    pub(crate) calls: Vec<Event>,
    pub(crate) holder: Holder<B>,
}

/// Written out, so that a proof sees one call where such a value is dropped.
impl<B: ClusterBrand> Drop for ClientSeat<B> {
    fn drop(self) {
        let Self {
            number: _,
            calls,
            holder,
        } = self;
        drop(calls);
        drop(holder);
    }
}

impl<B: ClusterBrand> Model for ClientSeat<B> {
    ghost use Rattle.std.specs.Prelude.{◌≡◌, ◌<◌, ℕ, List};
    ghost use Rattle.std.specs.Coded.{coded×, coded_list, coded_ℕ};
    ghost use Rattle.cluster_world.specs.declared.event.Event.{Event};
    ghost use Rattle.cluster_world.specs.contracts.event.Event as the_event;
    ghost use Rattle.shared_trail.specs.declared.view.Part.TheVariants.{Calls};

    ghost Value = { ℕ × List Event };

    ghost coded = { coded× coded_ℕ (coded_list the_event.the_row.coded) };

    ghost view = { λ s. (s.number, s.calls.items) };

    ghost invariant = { λ s. (s.holder ≡ (s.number, Calls s.calls.items)) × (s.number < 32) };
}

/// The administrator's seat. Contracts see it as its calls with their replies.
pub struct AdminSeat<B: ClusterBrand> {
    pub(crate) calls: Vec<AdminCall>,
    pub(crate) holder: Holder<B>,
}

/// Written out, so that a proof sees one call where such a value is dropped.
impl<B: ClusterBrand> Drop for AdminSeat<B> {
    fn drop(self) {
        let Self { calls, holder } = self;
        drop(calls);
        drop(holder);
    }
}

impl<B: ClusterBrand> Model for AdminSeat<B> {
    ghost use Rattle.std.specs.Prelude.{◌≡◌, ℕ, List, map};
    ghost use Rattle.std.specs.Coded.{coded_list};
    ghost use Rattle.cluster_admin.specs.declared.call.AdminCall.{AdminCall};
    ghost use Rattle.cluster_admin.specs.contracts.call.AdminCall as the_call;
    ghost use Rattle.shared_trail.specs.declared.view.Part.TheVariants.{Calls};
    ghost use Rattle.shared_trail.specs.Seats.{event_of};

    ghost Value = { List AdminCall };

    ghost coded = { coded_list the_call.the_row.coded };

    ghost view = { λ s. s.calls.items };

    ghost invariant = { λ s. s.holder ≡ (32, Calls (map event_of s.calls.items)) };
}

impl<B: ClusterBrand> ClientSeat<B> {
    /// The seat of this number, with no call.
    pub fn new(alloc: Global, number: u8, holder: Holder<B>) -> ClientSeat<B>
        requires holder { holder ≡ (number, Calls []) }
        requires number { number < 32 }
        ensures { result ≡ (number, []) }
    {
        ClientSeat {
            number,
            calls: Vec::new(alloc),
            holder,
        }
    }

    /// The seat's number, from 0.
    pub fn number(&self) -> u8
        ensures { result ≡ self.now.0 }
    {
        self.number
    }

    /// The calls that were answered, with their replies, in the order made.
    pub fn calls(&self) -> &[Event]
        ensures { result.now ≡ self.now.1 }
    {
        self.calls.as_slice()
    }

    /// Gives the seat up, once. Its list is its part of the trail.
    pub fn settle(self, table: &SeatTable<B>, trail: &mut LockedTrail<B>)
        ensures events { trail.new.events ≡ trail.old.events }
        ensures gone { trail.new.gone ≡ self.0 ∷ trail.old.gone }
        ensures first { among self.0 trail.old.gone ≡ false }
        ensures number { self.0 < 32 }
        ensures seat { calls_of self.0 trail.old.events ≡ self.1 }
    {
        let ClientSeat {
            number: _,
            calls: _,
            holder,
        } = self;
        trail.settle_caller(table, holder);
    }
}

impl<B: ClusterBrand> AdminSeat<B> {
    /// The seat, with no call.
    pub fn new(alloc: Global, holder: Holder<B>) -> AdminSeat<B>
        requires { holder ≡ (32, Calls []) }
        ensures { result ≡ [] }
    {
        AdminSeat {
            calls: Vec::new(alloc),
            holder,
        }
    }

    /// The calls that were answered, with their replies, in the order made.
    pub fn calls(&self) -> &[AdminCall]
        ensures { result.now ≡ self.now }
    {
        self.calls.as_slice()
    }

    /// Gives the seat up. Its list is its part of the trail.
    pub fn settle(self, table: &SeatTable<B>, trail: &mut LockedTrail<B>)
        ensures events { trail.new.events ≡ trail.old.events }
        ensures seat { calls_of 32 trail.old.events ≡ map event_of self }
    {
        let AdminSeat { calls: _, holder } = self;
        trail.settle_caller(table, holder);
    }
}
