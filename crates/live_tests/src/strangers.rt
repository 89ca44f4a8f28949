//! A stranger asks without an ASK, between two commands of a plan.
ghost use Rattle.std.specs.Prelude.{◌≡◌, IfSome};
ghost use Rattle.cluster_world.specs.Trails.{IsRunFromOpening};

use crate::clusters::{call_at, open_cluster, three_nodes};
use crate::commands::{set_b, set_b_anew};
use crate::events::replayed;
use crate::plans::{Left, leave, plan, start, take_turns, turn};
use cluster_node::AdminFault;
use cluster_world::first_dishonest;
use live_cluster::{
    AdminSeat, ClientSeat, ClosedTrail, ClusterBrand, ClusterSetup, LiveCluster, Open,
};
use plan_runner::{StopCause, VerifiedPlan};
use std::alloc::Global;
use std::marker::Brand;
use std::sync::Wait;
use std::test::Fail;

/// After three commands of the plan the stranger sets `b` at node 1, with ASKING, and then the plan continues.
fn ask_between<B: ClusterBrand, R: Wait>(
    rt: &R,
    alloc: Global,
    cluster: &LiveCluster<B>,
    plan: VerifiedPlan,
    admin: AdminSeat<B>,
    stranger: ClientSeat<B>,
) -> (AdminSeat<B>, Left, ClientSeat<B>) {
    match start(rt, cluster, plan, admin, 1_000_000) {
        Ok(plan) => {
            let taken = take_turns(rt, cluster, plan, 3);
            let stranger = call_at(rt, cluster, stranger, (1, true), set_b_anew(alloc), &Open);
            let (admin, left) = leave(turn(rt, cluster, taken));
            (admin, left, stranger)
        }
        Err(admin) => (admin, Left::NotArmed, stranger),
    }
}

/// What a day left, and how its plan was left.
#[derive(Drop)]
struct Day {
    closed: ClosedTrail,
    left: Left,
}

/// `b` is set at node 0 by one seat, and the stranger has another.
fn pass_day<B: ClusterBrand, R: Wait>(rt: &R, alloc: Global, setup: ClusterSetup) -> Option<Day>
    requires { setup ≡ B.setup }
    ensures { IfSome result (λ d. IsRunFromOpening d.closed.trail) }
{
    let plan = plan(alloc)?;
    let cluster = open_cluster::<B>(alloc, setup)?;
    let client = cluster.client_seat(rt).ok()?;
    let stranger = cluster.client_seat(rt).ok()?;
    let admin = cluster.admin_seat(rt).ok()?;
    let client = call_at(rt, &cluster, client, (0, false), set_b(alloc), &Open);
    let (admin, left, stranger) = ask_between(rt, alloc, &cluster, plan, admin, stranger);
    let seats = vec![in alloc; client, stranger].ok()?;
    Some(Day {
        closed: cluster.close(seats, admin),
        left,
    })
}

/// The place of the first event that is not honest.
fn place(alloc: Global, day: &Day) -> Option<usize>
    requires { IsRunFromOpening day.now.closed.trail }
{
    first_dishonest(alloc, &day.closed.trail).ok()?
}

/// The plan's fourth command is refused, the trail is a run of six events, and the stranger's is found.
#[test]
fn a_stranger_is_found(rt: HostRuntime) -> Result<(), Fail> {
    let alloc = rt.alloc();
    let setup = three_nodes(alloc)?;
    let Some(day) = pass_day::<Brand, _>(&rt, alloc, setup) else {
        return Err(Fail::from("out of memory"));
    };
    assert!(rt;
        matches!(
            day.left,
            Left::Stopped(StopCause::Refused(4, AdminFault::Busy))
        )
    );
    assert!(rt; matches!(replayed(alloc, &day.closed.trail), Some(6)));
    assert!(rt; matches!(place(alloc, &day), Some(4)));
    Ok(())
}
