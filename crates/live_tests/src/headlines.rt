//! The headline at a closed cluster: what closing and searching tell is what the theorem asks for.
ghost use Rattle.std.specs.Prelude.{◌≡◌, IfSome};
ghost use Rattle.live_tests.specs.Sittings.{HoldsOfPlans};
ghost use Rattle.plan_semantics.specs.Listed.{AreListed};

use cluster_world::first_dishonest;
use live_cluster::{AdminSeat, ClientSeat, ClosedTrail, ClusterBrand, LiveCluster};
use plan_machine::headline_over_trails;
use reshard_theorem::listings_are_answered;
use std::alloc::Global;

/// Closes a cluster. Where no event of its trail is found dishonest, the headline holds of whatever plans its
/// administrator sent, one after the other, each verified for the survey where the one before it stopped, whatever
/// threads did at the same time. Each listing was answered with a list of keys.
pub fn close_with_headline<B: ClusterBrand>(
    alloc: Global,
    cluster: LiveCluster<B>,
    seats: Vec<ClientSeat<B>>,
    admin: AdminSeat<B>,
) -> Option<ClosedTrail>
    ensures owners { IfSome result (λ c. c.trail.owners ≡ B.setup.owners) }
    ensures plans { IfSome result (λ c. HoldsOfPlans B.setup.owners admin c.trail) }
    ensures listed { IfSome result (λ c. AreListed admin) }
{
    headline_over_trails();
    listings_are_answered();
    let closed = cluster.close(seats, admin);
    // Asking for the number of nodes gives the proof what is always true of a table.
    let _nodes = closed.trail.owners().nodes();
    match first_dishonest(alloc, &closed.trail) {
        Ok(None) => Some(closed),
        _ => None,
    }
}
