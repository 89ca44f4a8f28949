//! Four clients at work while a plan is given up after each of its commands.
ghost use Rattle.std.specs.Prelude.{◌≡◌, length, IfSome};
ghost use Rattle.cluster_world.specs.Trails.{IsRunFromOpening};
ghost use Rattle.live_tests.specs.Turns.{Fits};

use crate::clients::{Day, Orders, all_at_work, close, seats_of};
use crate::clusters::{open_cluster, three_nodes};
use crate::commands::CommandMix;
use crate::events::replayed;
use crate::holdings::gains_nothing;
use crate::plans::{Left, is_left, leave, plan, start, turn};
use crate::stores::{is_one_store, store_of};
use cluster_world::first_dishonest;
use key_slots::{NodeId, OwnerTable, Slot};
use live_cluster::{AdminSeat, ClusterBrand, ClusterSetup, LiveCluster};
use plan_runner::{Taken, VerifiedPlan};
use std::alloc::Global;
use std::marker::Brand;
use std::sync::Wait;
use std::sync::atomic::{AtomicU64, Ordering};
use std::test::Fail;
use std::thread;
use std::thread::Threads;

/// How many clients there are, what each sends, and how many commands are answered between two of the plan's.
const CLIENTS: u64 = 4;

const ORDERS: Orders = Orders {
    mix: CommandMix::Sets,
    rounds: 100,
};

const BETWEEN: u64 = 20;

/// Yields until so many commands were answered. False where they were not in ten million turns, which take seconds.
fn wait_for(answered: &AtomicU64, wanted: u64) -> bool {
    for _ in 0..10_000_000u64 {
        if answered.load(Ordering::SeqCst) >= wanted {
            return true;
        }
        thread::yield_now();
    }
    false
}

/// So many turns of the plan, with clients' commands between them. Then it is given up. It is
/// left as late where the clients' commands were waited for in vain.
fn advance<B: ClusterBrand, R: Wait>(
    rt: &R,
    cluster: &LiveCluster<B>,
    plan: VerifiedPlan,
    admin: AdminSeat<B>,
    answered: &AtomicU64,
    turns: u64,
) -> (AdminSeat<B>, Left) {
    match start(rt, cluster, plan, admin, 1_000_000) {
        Ok(plan) => {
            let mut taken = Taken::Running(plan);
            let mut waited = true;
            for number in 0..turns {
                waited = waited & wait_for(answered, number.saturating_mul(BETWEEN));
                taken = turn(rt, cluster, taken);
            }
            let (admin, left) = leave(taken);
            (admin, late_unless(waited, left))
        }
        Err(admin) => (admin, Left::NotArmed),
    }
}

fn late_unless(waited: bool, left: Left) -> Left {
    if waited { left } else { Left::Late }
}

fn pass_day<B: ClusterBrand + Send + Sync, R: Threads + Wait + Sync>(
    rt: &R,
    alloc: Global,
    setup: ClusterSetup,
    answered: &AtomicU64,
    turns: u64,
) -> Option<Day>
    requires { setup ≡ B.setup }
    ensures { IfSome result (λ d. IsRunFromOpening d.closed.trail) }
{
    let plan = plan(alloc)?;
    let owners = OwnerTable::even(alloc, 3, 3).ok()?;
    let cluster = open_cluster::<B>(alloc, setup)?;
    let seats = seats_of(rt, alloc, &cluster, CLIENTS)?;
    let admin = cluster.admin_seat(rt).ok()?;
    let lent = &cluster;
    let table = &owners;
    let ((admin, left), returned) = thread::join(
        rt,
        move || advance(rt, lent, plan, admin, answered, turns),
        move || all_at_work(rt, alloc, lent, seats, table, ORDERS, answered),
    );
    close(alloc, cluster, returned?, admin, left)
}

/// A day of three nodes whose plan takes so many turns.
fn pass<R: Threads + Wait + Sync>(rt: &R, alloc: Global, turns: u64) -> Option<Day>
    ensures { IfSome result (λ d. IsRunFromOpening d.closed.trail) }
{
    let setup = three_nodes(alloc).ok()?;
    let answered = AtomicU64::new(0);
    pass_day::<Brand, R>(rt, alloc, setup, &answered, turns)
}

/// Whether the trail is a run of all calls, and honest.
fn is_run(alloc: Global, day: &Day) -> bool
    requires { IsRunFromOpening day.now.closed.trail }
{
    day.closed.trail.events().len() == day.calls
        && replayed(alloc, &day.closed.trail) == Some(day.calls)
        && matches!(first_dishonest(alloc, &day.closed.trail), Ok(None))
}

/// Whether the replies are those of one store, which the nodes hold, and node 0 gains no key of the slot that it hands
/// over.
fn is_kept(alloc: Global, day: &mut Day) -> Option<bool> {
    let mut store = store_of(alloc, &day.closed.trail)?;
    let kept = is_one_store(alloc, &mut day.closed.nodes, &mut store)?;
    let gains = gains_nothing(alloc, &day.closed.trail, Slot::of(3300), NodeId::of(0))?;
    Some(kept && gains)
}

/// From no command to the eighth, which is the last.
#[test]
fn clients_work_while_a_plan_is_given_up(rt: HostRuntime) -> Result<(), Fail> {
    let alloc = rt.alloc();
    for turns in 0..9 {
        let Some(mut day) = pass(&rt, alloc, turns) else {
            return Err(Fail::from("out of memory"));
        };
        assert!(rt; is_left(&day.left, day.seen, turns));
        assert!(rt; is_run(alloc, &day));
        assert!(rt; matches!(is_kept(alloc, &mut day), Some(true)));
    }
    Ok(())
}
