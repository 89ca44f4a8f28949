//! Clients at work while a plan runs.
ghost use Rattle.std.specs.Prelude.{◌≡◌, ◌<◌, IfSome};
ghost use Rattle.cluster_world.specs.Trails.{IsRunFromOpening};

use crate::clients::{Day, Orders, all_at_work, close, seats_of};
use crate::clusters::open_cluster;
use crate::commands::CommandMix;
use crate::plans::{Left, start};
use cluster_world::first_dishonest;
use key_slots::OwnerTable;
use live_cluster::{AdminSeat, ClusterBrand, ClusterSetup, LiveCluster, LivePort};
use plan_runner::{Finish, VerifiedPlan, parse, verify};
use std::alloc::Global;
use std::marker::Brand;
use std::sync::Wait;
use std::sync::atomic::AtomicU64;
use std::test::Fail;
use std::thread;
use std::thread::Threads;

/// The plan of this text, if it can be run from these owners.
pub(crate) fn plan_of(alloc: Global, text: &[u8], owners: &OwnerTable) -> Option<VerifiedPlan> {
    let plan = parse(alloc, text).ok()?;
    verify(plan, owners).ok()
}

/// Runs the plan through the administrator's seat, to its end or until it took so many replies. The seat comes back.
pub(crate) fn run_plan<B: ClusterBrand, R: Wait>(
    rt: &R,
    cluster: &LiveCluster<B>,
    plan: VerifiedPlan,
    admin: AdminSeat<B>,
    most: u64,
) -> (AdminSeat<B>, Left)
    requires { 0 < most }
{
    let mut port = LivePort { cluster, rt };
    match start(rt, cluster, plan, admin, most) {
        Ok(plan) => match plan.run(&mut port) {
            Finish::Done(done) => (done.into_seat(), Left::Done),
            Finish::Stopped(stopped) => {
                let (seat, cause) = stopped.into_parts();
                (seat, Left::Stopped(cause))
            }
        },
        Err(admin) => (admin, Left::NotArmed),
    }
}

/// So many clients, each with so many commands, and a plan beside them.
pub(crate) fn pass_day<B: ClusterBrand + Send + Sync, R: Threads + Wait + Sync>(
    rt: &R,
    alloc: Global,
    setup: ClusterSetup,
    plan: VerifiedPlan,
    owners: &OwnerTable,
    clients: u64,
    rounds: u64,
) -> Option<Day>
    requires { setup ≡ B.setup }
    ensures { IfSome result (λ d. IsRunFromOpening d.closed.trail) }
{
    let cluster = open_cluster::<B>(alloc, setup)?;
    let seats = seats_of(rt, alloc, &cluster, clients)?;
    let admin = cluster.admin_seat(rt).ok()?;
    let lent = &cluster;
    let counter = AtomicU64::new(0);
    let answered = &counter;
    let orders = Orders {
        mix: CommandMix::Gets,
        rounds,
    };
    let ((admin, left), returned) = thread::join(
        rt,
        move || run_plan(rt, lent, plan, admin, 1_000_000),
        move || all_at_work(rt, alloc, lent, seats, owners, orders, answered),
    );
    close(alloc, cluster, returned?, admin, left)
}

/// Whether the plan was done, the trail is the calls of all seats, and each client was honest.
pub(crate) fn is_well(alloc: Global, day: &Day) -> bool
    requires { IsRunFromOpening day.now.closed.trail }
{
    matches!(day.left, Left::Done)
        && day.closed.trail.events().len() == day.calls
        && matches!(first_dishonest(alloc, &day.closed.trail), Ok(None))
}

/// Four clients send 1,000 commands each while 200 slots with some of their keys go from node 0 to node 1.
fn pass_short_day<R: Threads + Wait + Sync>(rt: &R, alloc: Global) -> Option<Day>
    ensures { IfSome result (λ d. IsRunFromOpening d.closed.trail) }
{
    let owners = OwnerTable::even(alloc, 3, 3).ok()?;
    let text: &[u8] = b"reshard-plan 1\nmove 0-199 from n0 to n1 by 10\nend\n";
    let plan = plan_of(alloc, text, &owners)?;
    let setup = ClusterSetup::new(alloc, owners.try_copy().ok()?, 7000).ok()?;
    pass_day::<Brand, R>(rt, alloc, setup, plan, &owners, 4, 1_000)
}

#[test]
fn clients_work_during_a_plan(rt: HostRuntime) -> Result<(), Fail> {
    let alloc = rt.alloc();
    let Some(day) = pass_short_day(&rt, alloc) else {
        return Err(Fail::from("out of memory"));
    };
    assert!(rt; is_well(alloc, &day));
    assert!(rt; day.closed.given == 4);
    Ok(())
}
