//! A plan that is given up after each of its commands, and what its seat can do then.
ghost use Rattle.std.specs.Prelude.{◌≡◌, IfSome};
ghost use Rattle.cluster_world.specs.Trails.{IsRunFromOpening};

use crate::clusters::{call_at, open_cluster, three_nodes};
use crate::commands::set_b;
use crate::days::run_plan;
use crate::events::replayed;
use crate::holdings::gains_nothing;
use crate::plans::{Left, Seen, is_left, leave, plan, seen_by, start, take_turns};
use crate::stores::{is_one_store, store_of};
use cluster_node::{AdminCommand, AdminFault, AdminReply};
use cluster_world::first_dishonest;
use key_slots::{NodeId, Slot};
use live_cluster::{
    AdminSeat, ClosedTrail, ClusterBrand, ClusterSetup, LiveCluster, LivePort, Open,
};
use plan_runner::{StopCause, VerifiedPlan};
use std::alloc::Global;
use std::marker::Brand;
use std::sync::Wait;
use std::test::Fail;

/// So many turns of the plan, which is then given up.
fn advance<B: ClusterBrand, R: Wait>(
    rt: &R,
    cluster: &LiveCluster<B>,
    plan: VerifiedPlan,
    admin: AdminSeat<B>,
    turns: u64,
) -> (AdminSeat<B>, Left) {
    match start(rt, cluster, plan, admin, 1_000_000) {
        Ok(plan) => leave(take_turns(rt, cluster, plan, turns)),
        Err(admin) => (admin, Left::NotArmed),
    }
}

/// `setslot 3300 importing n2 at n1` by the seat, which comes back.
fn import<B: ClusterBrand, R: Wait>(
    rt: &R,
    cluster: &LiveCluster<B>,
    mut admin: AdminSeat<B>,
) -> Option<(AdminSeat<B>, AdminReply)> {
    if cluster.nodes() < 2 {
        return None;
    }
    let command = AdminCommand::Importing(Slot::of(3300), NodeId::of(2));
    let reply = cluster.admin(rt, &mut admin, NodeId::of(1), command).ok()?;
    Some((admin, reply))
}

/// What a day left, how its plan was left, what its seat had done then, and what it was answered afterwards.
#[derive(Drop)]
struct Day {
    closed: ClosedTrail,
    left: Left,
    seen: Seen,
    answer: AdminReply,
}

/// `b` is set at node 0, and then the plan takes so many turns, or runs to its limit where no number is given.
fn pass_day<B: ClusterBrand, R: Wait>(
    rt: &R,
    alloc: Global,
    setup: ClusterSetup,
    turns: Option<u64>,
) -> Option<Day>
    requires { setup ≡ B.setup }
    ensures { IfSome result (λ d. IsRunFromOpening d.closed.trail) }
{
    let plan = plan(alloc)?;
    let cluster = open_cluster::<B>(alloc, setup)?;
    let client = cluster.client_seat(rt).ok()?;
    let admin = cluster.admin_seat(rt).ok()?;
    let client = call_at(rt, &cluster, client, (0, false), set_b(alloc), &Open);
    let (admin, left) = match turns {
        Some(turns) => advance(rt, &cluster, plan, admin, turns),
        None => run_plan(rt, &cluster, plan, admin, 3),
    };
    let seen = seen_by(&admin);
    let (admin, answer) = import(rt, &cluster, admin)?;
    let seats = vec![in alloc; client].ok()?;
    Some(Day {
        closed: cluster.close(seats, admin),
        left,
        seen,
        answer,
    })
}

/// Passes a day at three nodes, as [`pass_day`] does.
fn pass<R: Wait>(rt: &R, alloc: Global, turns: Option<u64>) -> Option<Day>
    ensures { IfSome result (λ d. IsRunFromOpening d.closed.trail) }
{
    let setup = three_nodes(alloc).ok()?;
    pass_day::<Brand, R>(rt, alloc, setup, turns)
}

/// Whether the trail is a run of all calls, and honest.
fn is_run(alloc: Global, day: &Day) -> bool
    requires { IsRunFromOpening day.now.closed.trail }
{
    let events = day.closed.trail.events().len();
    events as u64 == day.seen.calls.wrapping_add(2)
        && replayed(alloc, &day.closed.trail) == Some(events)
        && matches!(first_dishonest(alloc, &day.closed.trail), Ok(None))
}

/// Whether the replies are those of one store, which the nodes hold.
fn is_kept(alloc: Global, day: &mut Day) -> Option<bool> {
    let mut store = store_of(alloc, &day.closed.trail)?;
    is_one_store(alloc, &mut day.closed.nodes, &mut store)
}

/// Whether node 1 takes an importing mark up to its first command as the slot's owner, which is the sixth, and refuses
/// it from then on.
fn is_answered(day: &Day, turns: u64) -> bool {
    if turns < 6 {
        matches!(day.answer, AdminReply::Ok)
    } else {
        matches!(day.answer, AdminReply::Refused(AdminFault::AlreadyOwner))
    }
}

/// Whether node 0 gains no key of the slot that it hands over.
fn gains_none(alloc: Global, day: &Day) -> bool {
    gains_nothing(alloc, &day.closed.trail, Slot::of(3300), NodeId::of(0)) == Some(true)
}

/// From no command to the eighth, which is the last.
#[test]
fn plans_are_given_up_after_each_command(rt: HostRuntime) -> Result<(), Fail> {
    let alloc = rt.alloc();
    for turns in 0..9 {
        let Some(mut day) = pass(&rt, alloc, Some(turns)) else {
            return Err(Fail::from("out of memory"));
        };
        assert!(rt; is_left(&day.left, day.seen, turns));
        assert!(rt; is_answered(&day, turns));
        assert!(rt; is_run(alloc, &day));
        assert!(rt; gains_none(alloc, &day));
        assert!(rt; matches!(is_kept(alloc, &mut day), Some(true)));
    }
    Ok(())
}

/// A plan that may take three replies.
#[test]
fn a_plan_stops_at_its_limit(rt: HostRuntime) -> Result<(), Fail> {
    let Some(day) = pass(&rt, rt.alloc(), None) else {
        return Err(Fail::from("out of memory"));
    };
    assert!(rt; matches!(day.left, Left::Stopped(StopCause::Limit)));
    assert!(rt; day.seen.calls == 3);
    Ok(())
}
