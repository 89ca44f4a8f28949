//! What lies under the trail's lock.
ghost use Rattle.std.specs.Prelude.{◌≡◌, ◌≢◌, ℕ, ◌+◌, ◌<◌, ◌++◌, ◌∷◌, [], OnOk, OnErr, length, false};
ghost use Rattle.cluster_world.specs.Earning.{world_after};
ghost use Rattle.cluster_world.specs.Worlds.{node_at};
ghost use Rattle.shared_trail.specs.declared.view.Part.TheVariants.{Calls, State};
ghost use Rattle.shared_trail.specs.Rule.{opening_ledger};
ghost use Rattle.shared_trail.specs.Setups.{IsOpened, IsUnused};
ghost use Rattle.shared_trail.specs.Trails.{caller, IsNamed, IsTrail, calls_of, among};
ghost use Rattle.shared_trail.specs.Local.{IsLocal, IsShared, calls_in, state_in};

use crate::brand::ClusterBrand;
use crate::seat_table::{Holder, Keeper, SeatTable};
use byte_texts::Memory;
use cluster_node::Node;
use cluster_world::{Event, Trail};
use std::marker::Model;

/// The trail with its seat, and no event in flight. Contracts see it as the events, how many places are reserved, and
/// the numbers of the seats that were given back.
pub struct LockedTrail<B: ClusterBrand> {
    trail: Trail,
    keeper: Keeper<B>,
}

/// Written out, so that a proof sees one call where such a value is dropped.
impl<B: ClusterBrand> Drop for LockedTrail<B> {
    fn drop(self) {
        let Self { trail, keeper } = self;
        drop(trail);
        drop(keeper);
    }
}

impl<B: ClusterBrand> Model for LockedTrail<B> {
    ghost use Rattle.std.specs.Prelude.{◌≡◌, ◌+◌, length};
    ghost use Rattle.shared_trail.specs.TrailView.{TrailView, trail_view_code};
    ghost use Rattle.shared_trail.specs.Trails.{IsTrail};
    ghost use Rattle.shared_trail.specs.Rule.{quiet_ledger};
    ghost use Rattle.shared_trail.specs.Setups.{IsOpened};

    ghost Value = { TrailView };

    ghost coded = { trail_view_code };

    ghost view = { λ t. record {
      events = t.trail.events;
      room = t.trail.room;
      gone = t.keeper.gone;
    } };

    ghost invariant = { λ t. (t.keeper
        ≡ quiet_ledger B.setup.opening t.trail.events (33 + length B.setup.opening.nodes) t.keeper.gone)
        × IsTrail B.setup.opening t.trail.events
        × (t.trail.owners ≡ B.setup.owners)
        × (t.trail.base_port ≡ B.setup.opening.base_port)
        × IsOpened B.setup.opening B.setup.owners };
}

impl<B: ClusterBrand> LockedTrail<B> {
    /// A trail with no event, of a cluster that was just opened.
    pub fn new(trail: Trail, keeper: Keeper<B>) -> Self
        requires keeper { keeper ≡ opening_ledger B.setup.opening (33 + length B.setup.opening.nodes) }
        requires trail { IsUnused B.setup.opening B.setup.owners trail }
        ensures events { result.events ≡ [] }
        ensures gone { result.gone ≡ [] }
    {
        LockedTrail { trail, keeper }
    }

    /// A place for one event more.
    pub fn reserve(&mut self) -> Result<(), Memory>
        ensures events { self.new.events ≡ self.old.events }
        ensures ok { OnOk result (0 < self.new.room) }
    {
        self.trail.reserve()
    }

    /// Puts an event of one node on the trail: the node, which the event has changed already, takes it, and its caller
    /// does.
    pub fn record<const N: u8>(
        &mut self,
        table: &SeatTable<B>,
        node: &Node,
        holder: &mut Holder<B>,
        maker: &mut Holder<B>,
        event: Event,
    )
        requires room { 0 < self.old.room }
        requires named { IsNamed event }
        requires holder { holder.old ≡ (33 + N, State (state_in holder.old.1)) }
        requires maker { maker.old ≡ (caller event, Calls (calls_in maker.old.1)) }
        requires local { IsLocal B.setup.opening.base_port (length B.setup.opening.nodes) N
            (state_in holder.old.1) event node.now.node }
        ensures events { self.new.events ≡ self.old.events ++ event ∷ [] }
        ensures holder { holder.new ≡ (33 + N, State node.now.node) }
        ensures maker { maker.new ≡ (caller event, Calls (calls_in maker.old.1 ++ event ∷ [])) }
    {
        table.begin(&mut self.keeper, &event);
        table.take(&mut self.keeper, holder, &event);
        table.take(&mut self.keeper, maker, &event);
        table.end(&mut self.keeper, &event);
        self.trail.push(event);
    }

    /// Puts an event of two nodes on the trail, which it has changed already.
    pub fn record_both<const N: u8, const M: u8>(
        &mut self,
        table: &SeatTable<B>,
        source: &Node,
        source_holder: &mut Holder<B>,
        target: &Node,
        target_holder: &mut Holder<B>,
        maker: &mut Holder<B>,
        event: Event,
    )
        requires apart { N ≢ M }
        requires room { 0 < self.old.room }
        requires named { IsNamed event }
        requires source { source_holder.old ≡ (33 + N, State (state_in source_holder.old.1)) }
        requires target { target_holder.old ≡ (33 + M, State (state_in target_holder.old.1)) }
        requires maker { maker.old ≡ (caller event, Calls (calls_in maker.old.1)) }
        requires shared { IsShared B.setup.opening.base_port (length B.setup.opening.nodes) N M
            (state_in source_holder.old.1) (state_in target_holder.old.1) event source.now.node target.now.node }
        ensures events { self.new.events ≡ self.old.events ++ event ∷ [] }
        ensures source { source_holder.new ≡ (33 + N, State source.now.node) }
        ensures target { target_holder.new ≡ (33 + M, State target.now.node) }
        ensures maker { maker.new ≡ (caller event, Calls (calls_in maker.old.1 ++ event ∷ [])) }
    {
        table.begin(&mut self.keeper, &event);
        table.take(&mut self.keeper, target_holder, &event);
        table.take(&mut self.keeper, source_holder, &event);
        table.take(&mut self.keeper, maker, &event);
        table.end(&mut self.keeper, &event);
        self.trail.push(event);
    }

    /// What a caller's seat has is its part of the trail. It is given back by that, once.
    pub fn settle_caller(&mut self, table: &SeatTable<B>, maker: Holder<B>)
        requires maker { maker ≡ (maker.0, Calls (calls_in maker.1)) }
        requires low { maker.0 < 33 }
        ensures events { self.new.events ≡ self.old.events }
        ensures gone { self.new.gone ≡ maker.0 ∷ self.old.gone }
        ensures first { among maker.0 self.old.gone ≡ false }
        ensures calls { calls_of maker.0 self.old.events ≡ calls_in maker.1 }
    {
        table.settle(&mut self.keeper, maker);
    }

    /// What a node's seat has is that node at the trail's end.
    pub fn settle_node<const N: u8>(&mut self, table: &SeatTable<B>, holder: Holder<B>)
        requires { holder ≡ (33 + N, State (state_in holder.1)) }
        ensures same { self.new ≡ self.old }
        ensures there { N < length (world_after B.setup.opening self.old.events).nodes }
        ensures node { node_at (world_after B.setup.opening self.old.events) N ≡ state_in holder.1 }
    {
        table.show(&mut self.keeper, holder);
    }

    /// What a node's seat has is that node at the trail's end. Both stay.
    pub fn confirm_node<const N: u8>(&mut self, table: &SeatTable<B>, holder: &mut Holder<B>)
        requires { holder.old ≡ (33 + N, State (state_in holder.old.1)) }
        ensures same { self.new ≡ self.old }
        ensures holder { holder.new ≡ holder.old }
        ensures node { node_at (world_after B.setup.opening self.old.events) N ≡ state_in holder.old.1 }
        ensures run { IsTrail B.setup.opening self.old.events }
    {
        table.confirm(&mut self.keeper, holder);
    }

    /// What a caller's seat has is its part of the trail. Both stay.
    pub fn confirm_caller(&mut self, table: &SeatTable<B>, maker: &mut Holder<B>)
        requires maker { maker.old ≡ (maker.old.0, Calls (calls_in maker.old.1)) }
        requires low { maker.old.0 < 33 }
        ensures same { self.new ≡ self.old }
        ensures maker { maker.new ≡ maker.old }
        ensures calls { calls_of maker.old.0 self.old.events ≡ calls_in maker.old.1 }
    {
        table.confirm(&mut self.keeper, maker);
    }

    /// The trail, which is a run from the opening.
    pub fn into_trail(self) -> Trail
        ensures events { result.events ≡ self.events }
        ensures run { IsTrail B.setup.opening self.events }
        ensures owners { result.owners ≡ B.setup.owners }
        ensures port { result.base_port ≡ B.setup.opening.base_port }
        ensures opened { IsOpened B.setup.opening B.setup.owners }
    {
        let Self { trail, keeper: _ } = self;
        trail
    }
}
