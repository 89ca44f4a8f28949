//! What is under a node's lock, and what is not: calls at two nodes overlap, and calls at one do not.
ghost use Rattle.std.specs.Prelude.{◌≡◌};

use crate::clusters::{call_at, open_cluster, three_nodes};
use crate::commands::{get_b, is_one, set_b};
use cluster_node::Node;
use live_cluster::{AdminSeat, ClientSeat, ClusterBrand, ClusterSetup, Gate, LiveCluster, Open};
use std::alloc::Global;
use std::marker::Brand;
use std::sync::Wait;
use std::sync::atomic::{AtomicU64, Ordering};
use std::test::Fail;
use std::thread;
use std::thread::Threads;

/// A cluster with two of its clients' seats, and the administrator's.
#[derive(Drop)]
struct Opened<B: ClusterBrand> {
    cluster: LiveCluster<B>,
    one: ClientSeat<B>,
    two: ClientSeat<B>,
    admin: AdminSeat<B>,
}

fn open<B: ClusterBrand, R: Wait>(rt: &R, alloc: Global, setup: ClusterSetup) -> Option<Opened<B>>
    requires { setup ≡ B.setup }
{
    let cluster = open_cluster::<B>(alloc, setup)?;
    let one = cluster.client_seat(rt).ok()?;
    let two = cluster.client_seat(rt).ok()?;
    let admin = cluster.admin_seat(rt).ok()?;
    Some(Opened {
        cluster,
        one,
        two,
        admin,
    })
}

/// Closes with both seats, and counts the events.
fn close<B: ClusterBrand>(
    alloc: Global,
    cluster: LiveCluster<B>,
    one: ClientSeat<B>,
    two: ClientSeat<B>,
    admin: AdminSeat<B>,
) -> Option<usize> {
    let seats = vec![in alloc; one, two].ok()?;
    Some(cluster.close(seats, admin).trail.events().len())
}

/// What was reached of the test: the gate is entered, the call at the other node is answered, and the node that is lent
/// answers `1`.
const ENTERED: u64 = 1;

const ANSWERED: u64 = 2;

const SEEN: u64 = 3;

/// Yields until this is reached, at most 1,000,000 turns.
fn wait_until(reached: &AtomicU64, wanted: u64) {
    for _ in 0..1_000_000u64 {
        if reached.load(Ordering::SeqCst) == wanted {
            break;
        }
        thread::yield_now();
    }
}

/// Whether the node answers `1` to GET b.
fn answers_one(alloc: Global, node: &Node) -> bool {
    let Some(command) = get_b(alloc) else {
        return false;
    };
    match node.prepare_client(false, &command) {
        Ok(change) => is_one(change.reply()),
        Err(_) => false,
    }
}

/// Waits in the gate until the call at the other node is answered. Then the node that is lent has to answer.
#[derive(Drop)]
struct Until<'a> {
    alloc: Global,
    reached: &'a AtomicU64,
}

impl<'a> Gate for Until<'a> {
    fn pass(&self, node: &Node) {
        self.reached.store(ENTERED, Ordering::SeqCst);
        wait_until(self.reached, ANSWERED);
        let answered = self.reached.load(Ordering::SeqCst) == ANSWERED;
        if answers_one(self.alloc, node) && answered {
            self.reached.store(SEEN, Ordering::SeqCst);
        }
    }
}

/// A call at node 1 once the gate is entered.
fn call_beside<B: ClusterBrand, R: Wait>(
    rt: &R,
    alloc: Global,
    cluster: &LiveCluster<B>,
    seat: ClientSeat<B>,
    reached: &AtomicU64,
) -> ClientSeat<B> {
    wait_until(reached, ENTERED);
    let seat = call_at(rt, cluster, seat, (1, false), get_b(alloc), &Open);
    reached.store(ANSWERED, Ordering::SeqCst);
    seat
}

/// A call at node 0 waits in its gate until one at node 1 is answered, which begins once the gate is entered.
fn overlap<B: ClusterBrand + Send + Sync, R: Threads + Wait + Sync>(
    rt: &R,
    alloc: Global,
    setup: ClusterSetup,
    reached: &AtomicU64,
) -> Option<usize>
    requires { setup ≡ B.setup }
{
    let Opened {
        cluster,
        one,
        two,
        admin,
    } = open::<B, R>(rt, alloc, setup)?;
    let one = call_at(rt, &cluster, one, (0, false), set_b(alloc), &Open);
    let lent = &cluster;
    let (one, two) = thread::join(
        rt,
        move || call_at(
            rt,
            lent,
            one,
            (0, false),
            get_b(alloc),
            &Until { alloc, reached },
        ),
        move || call_beside(rt, alloc, lent, two, reached),
    );
    close(alloc, cluster, one, two, admin)
}

#[test]
fn calls_at_two_nodes_overlap(rt: HostRuntime) -> Result<(), Fail> {
    let alloc = rt.alloc();
    let setup = three_nodes(alloc)?;
    let reached = AtomicU64::new(0);
    let events = overlap::<Brand, _>(&rt, alloc, setup, &reached);
    assert!(rt; matches!(events, Some(3)));
    assert!(rt; reached.load(Ordering::SeqCst) == SEEN);
    Ok(())
}

/// Says that it is in its gate, and looks for another that is in one, 1,000 turns.
#[derive(Drop)]
struct Meeting<'a> {
    inside: &'a AtomicU64,
    met: &'a AtomicU64,
}

impl<'a> Gate for Meeting<'a> {
    fn pass(&self, _node: &Node) {
        self.inside.fetch_add(1, Ordering::SeqCst);
        for _ in 0..1_000u64 {
            if self.inside.load(Ordering::SeqCst) != 1 {
                self.met.store(1, Ordering::SeqCst);
            }
            thread::yield_now();
        }
        self.inside.fetch_sub(1, Ordering::SeqCst);
    }
}

/// Two calls at node 0 look for each other in their gates.
fn meet<B: ClusterBrand + Send + Sync, R: Threads + Wait + Sync>(
    rt: &R,
    alloc: Global,
    setup: ClusterSetup,
    met: &AtomicU64,
) -> Option<usize>
    requires { setup ≡ B.setup }
{
    let Opened {
        cluster,
        one,
        two,
        admin,
    } = open::<B, R>(rt, alloc, setup)?;
    let lent = &cluster;
    let counter = AtomicU64::new(0);
    let inside = &counter;
    let (one, two) = thread::join(
        rt,
        move || call_at(
            rt,
            lent,
            one,
            (0, false),
            get_b(alloc),
            &Meeting { inside, met },
        ),
        move || call_at(
            rt,
            lent,
            two,
            (0, false),
            get_b(alloc),
            &Meeting { inside, met },
        ),
    );
    close(alloc, cluster, one, two, admin)
}

#[test]
fn calls_at_one_node_do_not(rt: HostRuntime) -> Result<(), Fail> {
    let alloc = rt.alloc();
    let setup = three_nodes(alloc)?;
    let met = AtomicU64::new(0);
    let events = meet::<Brand, _>(&rt, alloc, setup, &met);
    assert!(rt; matches!(events, Some(2)));
    assert!(rt; met.load(Ordering::SeqCst) == 0);
    Ok(())
}
