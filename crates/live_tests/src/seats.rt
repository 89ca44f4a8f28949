//! What the seats of a running cluster are: how many there are, what their lists have, and that a close wants none.
ghost use Rattle.std.specs.Prelude.{◌≡◌};

use crate::clusters::{call_at, open_cluster, three_nodes};
use crate::commands::{get_b, is_one, set_b};
use cluster_node::{AdminCommand, AdminReply};
use cluster_world::Event;
use key_slots::{NodeId, Slot};
use live_cluster::{
    AdminSeat, ClientSeat, ClosedTrail, ClusterBrand, ClusterSetup, LiveCluster, NoSeat, Open,
    SeatTaken,
};
use std::alloc::Global;
use std::marker::Brand;
use std::sync::Wait;
use std::test::Fail;

/// How many client seats can still be given.
fn seats_left<B: ClusterBrand, R: Wait>(rt: &R, cluster: &LiveCluster<B>) -> u64 {
    let mut count = 0;
    for _ in 0..40u64 {
        count = one_more(count, cluster.client_seat(rt).is_ok());
    }
    count
}

fn one_more(count: u64, given: bool) -> u64 {
    if given {
        return count.wrapping_add(1);
    }
    count
}

fn are_refused<B: ClusterBrand, R: Wait>(rt: &R, cluster: &LiveCluster<B>) -> bool {
    matches!(cluster.client_seat(rt), Err(NoSeat))
        && matches!(cluster.admin_seat(rt), Err(SeatTaken))
}

/// All seats are given, and none of the clients' is handed in. How many were given, whether more are refused, and how
/// many the closed cluster counts.
fn none_handed_in<B: ClusterBrand, R: Wait>(
    rt: &R,
    alloc: Global,
    setup: ClusterSetup,
) -> Option<(u64, bool, u8)>
    requires { setup ≡ B.setup }
{
    let cluster = open_cluster::<B>(alloc, setup)?;
    let admin = cluster.admin_seat(rt).ok()?;
    let given = seats_left(rt, &cluster);
    let refused = are_refused(rt, &cluster);
    let closed = cluster.close(Vec::new(alloc), admin);
    Some((given, refused, closed.given))
}

/// The 33rd client seat is refused, and so is a second one of the administrator.
#[test]
fn seats_are_refused(rt: HostRuntime) -> Result<(), Fail> {
    let alloc = rt.alloc();
    let setup = three_nodes(alloc)?;
    let found = none_handed_in::<Brand, _>(&rt, alloc, setup);
    assert!(rt; matches!(found, Some((32, true, 32))));
    Ok(())
}

fn is_get(event: &Event) -> bool {
    match event {
        Event::Client {
            seat,
            asking,
            reply,
            ..
        } => *seat == 1 && !*asking && is_one(reply),
        _ => false,
    }
}

/// Whether the trail has two events, of which the second alone is the GET that was answered.
fn is_set_then_get(closed: &ClosedTrail) -> bool {
    match closed.trail.events() {
        [first, second] => !is_get(first) && is_get(second) && closed.given == 3,
        _ => false,
    }
}

/// SET b and then GET b by one seat of three that were given, which alone is handed in.
fn set_then_get<B: ClusterBrand, R: Wait>(
    rt: &R,
    alloc: Global,
    setup: ClusterSetup,
) -> Option<bool>
    requires { setup ≡ B.setup }
{
    let cluster = open_cluster::<B>(alloc, setup)?;
    drop(cluster.client_seat(rt));
    let seat = cluster.client_seat(rt).ok()?;
    drop(cluster.client_seat(rt));
    let admin = cluster.admin_seat(rt).ok()?;
    let seat = call_at(rt, &cluster, seat, (0, false), set_b(alloc), &Open);
    let seat = call_at(rt, &cluster, seat, (0, false), get_b(alloc), &Open);
    let seats = vec![in alloc; seat].ok()?;
    Some(is_set_then_get(&cluster.close(seats, admin)))
}

/// The value is answered, and the trail has both calls in this order.
#[test]
fn a_seat_gets_what_it_set(rt: HostRuntime) -> Result<(), Fail> {
    let alloc = rt.alloc();
    let setup = three_nodes(alloc)?;
    let found = set_then_get::<Brand, _>(&rt, alloc, setup);
    assert!(rt; matches!(found, Some(true)));
    Ok(())
}

/// The slot 3300 gets its two marks, and its keys are listed.
fn list_marked<B: ClusterBrand, R: Wait>(
    rt: &R,
    cluster: &LiveCluster<B>,
    admin: &mut AdminSeat<B>,
) -> Option<AdminReply> {
    if cluster.nodes() < 2 {
        return None;
    }
    let (source, target, slot) = (NodeId::of(0), NodeId::of(1), Slot::of(3300));
    drop(cluster.admin(rt, admin, target, AdminCommand::Importing(slot, source)));
    drop(cluster.admin(rt, admin, source, AdminCommand::Migrating(slot, target)));
    cluster
        .admin(rt, admin, source, AdminCommand::KeysIn(slot, 10))
        .ok()
}

fn is_b(reply: &AdminReply) -> bool {
    match reply {
        AdminReply::Keys(keys) => match keys.get() {
            [key] => key.get() == b"b".as_slice(),
            _ => false,
        },
        _ => false,
    }
}

/// CLUSTER SLOTS at the node, if there is such a node. The seat comes back.
fn look_at<B: ClusterBrand, R: Wait>(
    rt: &R,
    cluster: &LiveCluster<B>,
    mut seat: ClientSeat<B>,
    node: u8,
) -> ClientSeat<B> {
    if node < cluster.nodes() {
        drop(cluster.look(rt, &mut seat, NodeId::of(node)));
    }
    seat
}

/// `b` is set at node 0, its slot is marked, and its keys are listed. Whether `b` is the only one, and how many events
/// there are with a look.
fn list_b<B: ClusterBrand, R: Wait>(
    rt: &R,
    alloc: Global,
    setup: ClusterSetup,
) -> Option<(bool, usize)>
    requires { setup ≡ B.setup }
{
    let cluster = open_cluster::<B>(alloc, setup)?;
    let seat = cluster.client_seat(rt).ok()?;
    let mut admin = cluster.admin_seat(rt).ok()?;
    let seat = call_at(rt, &cluster, seat, (0, false), set_b(alloc), &Open);
    let listed = is_b(&list_marked(rt, &cluster, &mut admin)?);
    let seat = look_at(rt, &cluster, seat, 1);
    let seats = vec![in alloc; seat].ok()?;
    Some((listed, cluster.close(seats, admin).trail.events().len()))
}

/// The administrator's calls stand on the trail beside the client's.
#[test]
fn an_administrator_is_answered(rt: HostRuntime) -> Result<(), Fail> {
    let alloc = rt.alloc();
    let setup = three_nodes(alloc)?;
    let found = list_b::<Brand, _>(&rt, alloc, setup);
    assert!(rt; matches!(found, Some((true, 5))));
    Ok(())
}
