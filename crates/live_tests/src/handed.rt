//! A command that is handed over to a running cluster's client.
ghost use Rattle.std.specs.Prelude.{◌≡◌};

use crate::clusters::{open_cluster, three_nodes};
use crate::commands::set_b;
use cluster_world::{Event, NodeCount, NodePort};
use key_slots::NodeId;
use live_cluster::{ClientSeat, ClosedTrail, ClusterBrand, ClusterSetup, LiveClient, LiveCluster};
use resp2_wire::Reply;
use std::alloc::Global;
use std::marker::Brand;
use std::sync::Wait;
use std::test::Fail;

/// SET b at node 0, with ASKING, through a client that takes the command over.
fn hand_over<B: ClusterBrand, R: Wait>(
    rt: &R,
    alloc: Global,
    cluster: &LiveCluster<B>,
    seat: ClientSeat<B>,
) -> Option<ClientSeat<B>> {
    let node = NodeId::of(0);
    let mut client = LiveClient::new(rt, alloc, cluster, seat);
    if node.get() >= client.nodes() {
        return None;
    }
    drop(client.send_owned(node, true, set_b(alloc)?).ok()?);
    Some(client.into_seat())
}

/// A cluster at which that was done, once it is closed.
fn closed_after<B: ClusterBrand, R: Wait>(
    rt: &R,
    alloc: Global,
    setup: ClusterSetup,
) -> Option<ClosedTrail>
    requires { setup ≡ B.setup }
{
    let cluster = open_cluster::<B>(alloc, setup)?;
    let admin = cluster.admin_seat(rt).ok()?;
    let seat = hand_over(rt, alloc, &cluster, cluster.client_seat(rt).ok()?)?;
    let seats = vec![in alloc; seat].ok()?;
    Some(cluster.close(seats, admin))
}

fn is_ok(reply: &Reply) -> bool {
    match reply {
        Reply::Simple(text) => text.get() == b"OK".as_slice(),
        _ => false,
    }
}

/// Whether the command alone stands on the trail, as it was sent.
fn is_kept(events: &[Event]) -> bool {
    match events {
        [
            Event::Client {
                seat,
                node,
                asking,
                command,
                reply,
            },
        ] => *seat == 0 && node.get() == 0 && *asking && command.keys().len() == 1 && is_ok(reply),
        _ => false,
    }
}

#[test]
fn a_command_is_taken_over(rt: HostRuntime) -> Result<(), Fail> {
    let alloc = rt.alloc();
    let setup = three_nodes(alloc)?;
    let closed = closed_after::<Brand, _>(&rt, alloc, setup).ok_or("no cluster")?;
    assert!(rt; is_kept(closed.trail.events()));
    Ok(())
}
