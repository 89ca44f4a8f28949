//! How a running cluster is closed: every seat is shown to the trail's.
ghost use Rattle.std.specs.Prelude.{◌≡◌, ℕ, ◌<◌, ◌≤◌, [], length};
ghost use Rattle.std.specs.List.{All};
ghost use Rattle.cluster_world.specs.AdminCalls.{calls};
ghost use Rattle.cluster_world.specs.Earning.{world_after};
ghost use Rattle.cluster_world.specs.Steps.{Run};
ghost use Rattle.cluster_world.specs.Trails.{opening};
ghost use Rattle.cluster_world.specs.WorldView.{AreNodes, world_of};
ghost use Rattle.shared_trail.specs.Trails.{IsTrail, calls_of};
ghost use Rattle.live_cluster.specs.Returns.{back_after, numbers_of, AreFirst, AreHandedIn};

use crate::cluster::{Cluster, LiveCluster};
use cluster_world::{Trail, World};
use shared_trail::{AdminSeat, ClientSeat, ClusterBrand, LockedTrail, SeatTable};

/// What a closed cluster leaves: the trail, which is a run from the opening on, the nodes at its end, and how many
/// client seats were given, which are numbered from 0.
#[derive(Drop)]
pub struct ClosedTrail {
    pub trail: Trail,
    pub nodes: World,
    pub given: u8,
}

/// Each seat's list is its part of the trail, and each comes back for the first time.
fn close_seats<B: ClusterBrand>(
    table: &SeatTable<B>,
    trail: &mut LockedTrail<B>,
    seats: Vec<ClientSeat<B>>,
)
    ensures events { trail.new.events ≡ trail.old.events }
    ensures gone { trail.new.gone ≡ back_after (numbers_of seats.items) trail.old.gone }
    ensures first { AreFirst (numbers_of seats.items) trail.old.gone }
    ensures low { All (λ s. s.0 < 32) seats.items }
    ensures seats { All (λ s. calls_of s.0 trail.old.events ≡ s.1) seats.items }
{
    for seat in seats {
        seat.settle(table, trail);
    }
}

impl<B: ClusterBrand> LiveCluster<B> {
    /// Takes all back, also where some seats that were given are not handed in. The trail is a run from the opening,
    /// the seats are different ones of those that were given, the list of each is its part of the trail, and the nodes
    /// are those that the run leaves. Takes no memory, and waits for nobody.
    pub fn close(self, seats: Vec<ClientSeat<B>>, admin: AdminSeat<B>) -> ClosedTrail
        ensures owners { result.trail.owners ≡ B.setup.owners }
        ensures port { result.trail.base_port ≡ B.setup.opening.base_port }
        ensures run { Run (opening result.trail) result.trail.events result.nodes }
        ensures named { IsTrail B.setup.opening result.trail.events }
        ensures seats { AreHandedIn result.trail.events result.given seats.items }
        ensures admin { calls result.trail.events ≡ admin }
    {
        let Cluster {
            of: _,
            table,
            locks,
            trail,
            free_seats,
            free_admin_seat: _,
            mut row,
            count: _,
            base_port,
        } = self;
        let mut trail = trail.into_inner();
        let (left, given) = free_seats.into_inner().into_parts();
        close_seats(&table, &mut trail, left);
        close_seats(&table, &mut trail, seats);
        admin.settle(&table, &mut trail);
        locks.close(&table, &mut trail, &mut row);
        ClosedTrail {
            trail: trail.into_trail(),
            nodes: World::of_nodes(base_port, row),
            given,
        }
    }
}
