//! The table of one word to which all seats belong, and the steps on it. What a step does is a fact about plain data.
ghost use Rattle.std.specs.Prelude.{◌≡◌, ◌<◌, ◌∷◌, [], length, Some, false};
ghost use mathlib.Core.Option.{some};
ghost use lib.ListN.{get_elem?};
ghost use Rattle.shared_trail.specs.Rule.{with_flight, with_event, with_part, with_seat, without_seat, part_after};
ghost use Rattle.shared_trail.specs.Rule.{opening_ledger, IsSound};
ghost use Rattle.shared_trail.specs.Setups.{IsUnused};
ghost use Rattle.shared_trail.specs.Trails.{among};

use crate::brand::ClusterBrand;
use crate::rule::{Begins, Deals, Ends, Pair, SeatRule, Settles, Shows, Takes};
use crate::setup::ClusterSetup;
use crate::view::{Ledger, Part, View};
use atomic_table::{Badge, Seat, Table};
use cluster_world::{Event, Trail, World};
use std::alloc::Global;
use std::marker::{Model, PhantomData};
use std::mem;

/// The one word that ties the nodes, the trail and the callers. Its value carries nothing: a step is made on it by a
/// seat, and changes what that seat knows.
pub struct SeatTable<B: ClusterBrand> {
    table: Table<Event, View, World, SeatRule, Global>,
    of: PhantomData<B>,
    ghost named: { table.shared.table_id ≡ B.setup.table },
    ghost keyed: { table.shared.key ≡ B.setup.opening },
    ghost worded: { 0 < table.shared.table_id.words },
}

/// Written out, so that a proof sees one call where such a value is dropped.
impl<B: ClusterBrand> Drop for SeatTable<B> {
    fn drop(self) {
        let Self { table, of: _ } = self;
        drop(table);
    }
}

/// The trail's seat. Contracts see it as what it knows.
pub struct Keeper<B: ClusterBrand> {
    pass: Seat<Event, View>,
    of: PhantomData<B>,
}

/// Written out, so that a proof sees one call where such a value is dropped.
impl<B: ClusterBrand> Drop for Keeper<B> {
    fn drop(self) {
        let Self { pass, of: _ } = self;
        drop(pass);
    }
}

impl<B: ClusterBrand> Model for Keeper<B> {
    ghost use Rattle.std.specs.Prelude.{◌≡◌, []};
    ghost use Rattle.shared_trail.specs.declared.view.Ledger.{Ledger};
    ghost use Rattle.shared_trail.specs.contracts.view.Ledger as the_ledger;

    ghost Value = { Ledger };

    ghost coded = { the_ledger.the_row.coded };

    ghost use Rattle.shared_trail.specs.Rule.{keeper, ledger_of};

    ghost view = { λ s. ledger_of s.pass.me.0 };

    ghost invariant = { λ s. (s.pass.table_id ≡ B.setup.table) × (s.pass.me ≡ (keeper (ledger_of s.pass.me.0), [])) };
}

/// The seat of a node or of a caller. Contracts see it as its number and what it knows.
#[derive(Drop)]
pub struct Holder<B: ClusterBrand> {
    badge: Badge<View>,
    of: PhantomData<B>,
}

impl<B: ClusterBrand> Model for Holder<B> {
    ghost use Rattle.std.specs.Prelude.{◌≡◌, ℕ, [], ◌∷◌};
    ghost use Rattle.shared_trail.specs.declared.view.Part.{Part};
    ghost use Rattle.shared_trail.specs.contracts.view.Part as the_part;
    ghost use Rattle.std.specs.Coded.{coded×, coded_ℕ};

    ghost Value = { ℕ × Part };

    ghost coded = { coded× coded_ℕ the_part.the_row.coded };

    ghost use Rattle.shared_trail.specs.Rule.{holder, part_in};

    ghost view = { λ s. part_in s.badge.views };

    ghost invariant = { λ s. (s.badge.table_id ≡ B.setup.table)
        × (s.badge.views ≡ holder (part_in s.badge.views).0 (part_in s.badge.views).1 ∷ []) };
}

impl<B: ClusterBrand> SeatTable<B> {
    /// The table of the setup, the trail's seat, and what is to be put under locks.
    pub fn of_setup(setup: ClusterSetup) -> (Self, Keeper<B>, World, Trail)
        requires { setup ≡ B.setup }
        ensures keeper { result.1 ≡ opening_ledger B.setup.opening 0 }
        ensures world { result.2 ≡ B.setup.opening }
        ensures trail { IsUnused B.setup.opening B.setup.owners result.3 }
    {
        let ClusterSetup {
            table,
            pass,
            world,
            trail,
        } = setup;
        let table = SeatTable {
            table,
            of: PhantomData,
        };
        let keeper = Keeper {
            pass,
            of: PhantomData,
        };
        (table, keeper, world, trail)
    }

    /// Makes the next seat.
    pub fn deal(&self, keeper: &mut Keeper<B>) -> Holder<B>
        requires place { keeper.old.made < length keeper.old.parts }
        requires none { keeper.old.gone ≡ [] }
        ensures keeper { keeper.new ≡ with_seat keeper.old }
        ensures number { result.0 ≡ keeper.old.made }
        ensures part { get_elem? keeper.old.parts keeper.old.made ≡ some result.1 }
    {
        self.table.shared.load::<Deals>(&mut keeper.pass, 0);
        let pass = self.table.shared.split_seat::<Pair>(&mut keeper.pass);
        Holder {
            badge: pass.into_badge(),
            of: PhantomData,
        }
    }

    /// Puts the event in flight.
    pub fn begin(&self, keeper: &mut Keeper<B>, event: &Event)
        ensures { keeper.new ≡ with_flight event.now keeper.old }
    {
        self.table
            .shared
            .compare_exchange_with::<Begins>(&mut keeper.pass, 0, 0, 0, event);
    }

    /// The seat takes the event in flight.
    pub fn take(&self, keeper: &mut Keeper<B>, holder: &mut Holder<B>, event: &Event)
        requires { keeper.old.flight ≡ Some event.now }
        ensures was { get_elem? keeper.old.parts holder.old.0 ≡ some holder.old.1 }
        ensures part { holder.new ≡ (holder.old.0, part_after event.now keeper.old.world holder.old.0 holder.old.1) }
        ensures ledger { keeper.new ≡ with_part holder.new.0 holder.new.1 keeper.old }
    {
        let other = mem::replace(&mut holder.badge, Badge::blank()).into_seat();
        self.table.shared.join_seat::<Pair>(&mut keeper.pass, other);
        self.table.shared.load::<Takes>(&mut keeper.pass, 0);
        let pass = self.table.shared.split_seat::<Pair>(&mut keeper.pass);
        holder.badge = pass.into_badge();
    }

    /// What the seat knows is what the trail says of it.
    pub fn show(&self, keeper: &mut Keeper<B>, holder: Holder<B>)
        ensures same { keeper.new ≡ keeper.old }
        ensures part { get_elem? keeper.old.parts holder.0 ≡ some holder.1 }
    {
        let other = holder.badge.into_seat();
        self.table.shared.join_seat::<Pair>(&mut keeper.pass, other);
        self.table.shared.load::<Shows>(&mut keeper.pass, 0);
        self.table.shared.split_seat::<Pair>(&mut keeper.pass);
    }

    /// What the seat knows is what the trail says of it. Both stay.
    pub fn confirm(&self, keeper: &mut Keeper<B>, holder: &mut Holder<B>)
        ensures keeper { keeper.new ≡ keeper.old }
        ensures holder { holder.new ≡ holder.old }
        ensures part { get_elem? keeper.old.parts holder.old.0 ≡ some holder.old.1 }
    {
        let other = mem::replace(&mut holder.badge, Badge::blank()).into_seat();
        self.table.shared.join_seat::<Pair>(&mut keeper.pass, other);
        self.table.shared.load::<Shows>(&mut keeper.pass, 0);
        let pass = self.table.shared.split_seat::<Pair>(&mut keeper.pass);
        holder.badge = pass.into_badge();
    }

    /// The seat is given back. What it knows is what the trail says of it, and it was not given back before.
    pub fn settle(&self, keeper: &mut Keeper<B>, holder: Holder<B>)
        ensures ledger { keeper.new ≡ without_seat holder.0 keeper.old }
        ensures part { get_elem? keeper.old.parts holder.0 ≡ some holder.1 }
        ensures first { among holder.0 keeper.old.gone ≡ false }
    {
        let other = holder.badge.into_seat();
        self.table.shared.join_seat::<Pair>(&mut keeper.pass, other);
        self.table.shared.load::<Settles>(&mut keeper.pass, 0);
    }

    /// The event in flight stands on the trail.
    pub fn end(&self, keeper: &mut Keeper<B>, event: &Event)
        requires flight { keeper.old.flight ≡ Some event.now }
        requires sound { IsSound B.setup.opening (with_event event.now keeper.old) }
        ensures { keeper.new ≡ with_event event.now keeper.old }
    {
        self.table.shared.load::<Ends>(&mut keeper.pass, 0);
    }
}
