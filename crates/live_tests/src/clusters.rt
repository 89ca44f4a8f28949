//! A cluster of three nodes, and calls at its nodes.
ghost use Rattle.std.specs.Prelude.{◌≡◌};

use byte_texts::Memory;
use key_slots::{NODES, NodeId, OwnerTable};
use live_cluster::{ClientSeat, ClusterBrand, ClusterSetup, Gate, LiveCluster};
use std::alloc::Global;
use std::sync::Wait;
use store_commands::Command;

/// Three nodes with an even split: node 0 owns the slot of `b`, 3300.
pub fn three_nodes(alloc: Global) -> Result<ClusterSetup, Memory> {
    ClusterSetup::new(alloc, OwnerTable::even(alloc, 3, 3)?, 7000)
}

/// The running cluster of the setup, if it has a lock for each node.
pub fn open_cluster<B: ClusterBrand>(alloc: Global, setup: ClusterSetup) -> Option<LiveCluster<B>>
    requires { setup ≡ B.setup }
{
    if setup.nodes() > NODES {
        return None;
    }
    LiveCluster::<B>::open(alloc, setup).ok()
}

/// The command at the node, if there is such a node, after ASKING where that is so. The seat comes back.
pub fn call_at<B: ClusterBrand, R: Wait, G: Gate>(
    rt: &R,
    cluster: &LiveCluster<B>,
    mut seat: ClientSeat<B>,
    (node, asking): (u8, bool),
    command: Option<Command>,
    gate: &G,
) -> ClientSeat<B> {
    let Some(command) = command else {
        return seat;
    };
    if node < cluster.nodes() {
        drop(cluster.call(rt, &mut seat, NodeId::of(node), asking, command, gate));
    }
    seat
}
