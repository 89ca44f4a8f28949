//! Nodes that are read while they are locked: a reader sees what the calls before have made, and is no call.
ghost use Rattle.std.specs.Prelude.{◌≡◌};

use crate::clusters::{call_at, open_cluster, three_nodes};
use crate::commands::set_b;
use cluster_node::Node;
use cluster_world::PortFault;
use key_slots::{NodeId, Slot};
use live_cluster::{ClusterBrand, ClusterSetup, LiveCluster, NodeReader, Open};
use resp2_wire::Reply;
use std::alloc::Global;
use std::marker::Brand;
use std::sync::Wait;
use std::test::Fail;

/// Tells whether a node holds one key of the slot: 1 or 0.
#[derive(Clone, Copy)]
struct Held {
    slot: Slot,
}

impl NodeReader for Held {
    ghost use Rattle.std.specs.Prelude.{⊤};

    ghost tells = { λ _ _ _. ⊤ };

    fn read(&self, node: &Node) -> Result<Reply, PortFault> {
        if node.count_in(self.slot) == 1 {
            Ok(Reply::Number(1))
        } else {
            Ok(Reply::Number(0))
        }
    }
}

/// Whether the node, if there is one, is told to hold one key of the slot of `b`.
fn holds_b<B: ClusterBrand, R: Wait>(rt: &R, cluster: &LiveCluster<B>, node: u8) -> Option<bool> {
    if node >= cluster.nodes() {
        return None;
    }
    let held = Held {
        slot: Slot::of(3300),
    };
    let told = cluster.read(rt, NodeId::of(node), &held);
    match &told {
        Ok(Reply::Number(count)) => Some(*count == 1),
        _ => None,
    }
}

/// Whether `b`, which is set at node 0, is told of there after that and not before, and never at node 1, and one event
/// comes of it.
fn read_around_set<B: ClusterBrand, R: Wait>(
    rt: &R,
    alloc: Global,
    setup: ClusterSetup,
) -> Option<bool>
    requires { setup ≡ B.setup }
{
    let cluster = open_cluster::<B>(alloc, setup)?;
    let admin = cluster.admin_seat(rt).ok()?;
    let seat = cluster.client_seat(rt).ok()?;
    let before = holds_b(rt, &cluster, 0)?;
    let seat = call_at(rt, &cluster, seat, (0, false), set_b(alloc), &Open);
    let after = holds_b(rt, &cluster, 0)?;
    let other = holds_b(rt, &cluster, 1)?;
    let closed = cluster.close(vec![in alloc; seat].ok()?, admin);
    Some(!before && after && !other && closed.trail.events().len() == 1)
}

/// The key is told of at its node once it is set, and the one event is that of the SET.
#[test]
fn a_node_is_read_as_it_is(rt: HostRuntime) -> Result<(), Fail> {
    let setup = three_nodes(rt.alloc())?;
    let found = read_around_set::<Brand, _>(&rt, rt.alloc(), setup);
    assert!(rt; found == Some(true));
    Ok(())
}
