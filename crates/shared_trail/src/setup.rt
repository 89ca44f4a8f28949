ghost use Rattle.std.specs.Prelude.{◌≡◌, ◌≤◌, IfOk, length};
ghost use Rattle.cluster_world.specs.WorldView.{new_world};
ghost use Rattle.shared_trail.specs.Setups.{IsUnused};

use crate::rule::SeatRule;
use crate::view::View;
use atomic_table::{Seat, Table};
use byte_texts::Memory;
use cluster_world::{Event, Trail, World};
use key_slots::OwnerTable;
use std::alloc::Global;
use std::marker::Model;

/// A cluster before it is opened: its nodes, its empty trail, and the table of its seats.
///
/// It is made before the brand is picked, since what the brand stands for is this value: `day::<Brand, _>(.., setup)`
/// calls a function `day<B: ClusterBrand, ..>(.., setup: ClusterSetup)` that requires `setup ≡ B.setup`, and that can
/// so call `LiveCluster::<B>::open`.
#[derive(Drop)]
pub struct ClusterSetup {
    pub(crate) table: Table<Event, View, World, SeatRule, Global>,
    pub(crate) pass: Seat<Event, View>,
    pub(crate) world: World,
    pub(crate) trail: Trail,
}

impl Model for ClusterSetup {
    ghost use Rattle.std.specs.Prelude.{◌≡◌, ◌<◌, []};
    ghost use Rattle.shared_trail.specs.Rule.{first_view};
    ghost use Rattle.shared_trail.specs.Setups.{Setup, IsUnused, setup_code};

    ghost Value = { Setup };

    ghost coded = { setup_code };

    ghost view = { λ s. record {
      table = s.table.shared.table_id;
      opening = s.world;
      owners = s.trail.owners;
    } };

    ghost invariant = { λ s. (s.pass.table_id ≡ s.table.shared.table_id)
        × (0 < s.table.shared.table_id.words)
        × (s.table.shared.key ≡ s.world)
        × (s.pass.me ≡ (first_view s.table.shared.key, []))
        × IsUnused s.world s.trail.owners s.trail };
}

impl ClusterSetup {
    /// Nodes with this table, which hold nothing. The first node's port is `base_port`, at most 65,528, and each
    /// other's is higher by its number.
    pub fn new(alloc: Global, owners: OwnerTable, base_port: u16) -> Result<Self, Memory>
        requires { base_port ≤ 65528 }
        ensures opening { IfOk result (λ s. s.opening ≡ new_world base_port owners.nodes owners.owners) }
        ensures owners { IfOk result (λ s. s.owners ≡ owners) }
    {
        let (world, seat) = World::open(alloc, owners.try_copy()?, base_port)?;
        drop(seat);
        let trail = Trail::open(alloc, owners, base_port);
        Self::with_table(alloc, world, trail)
    }

    /// How many nodes there are.
    pub fn nodes(&self) -> u8
        ensures value { result ≡ length self.now.opening.nodes }
        ensures least { 1 ≤ result }
        ensures most { result ≤ 255 }
    {
        self.world.nodes()
    }

    fn with_table(alloc: Global, world: World, trail: Trail) -> Result<Self, Memory>
        requires { IsUnused world trail.owners trail }
        ensures opening { IfOk result (λ s. s.opening ≡ world) }
        ensures owners { IfOk result (λ s. s.owners ≡ trail.owners) }
    {
        let (table, pass) = Table::of_words(alloc, &[0], &world)?;
        Ok(Self {
            table,
            pass,
            world,
            trail,
        })
    }
}
