//! A plan that is given up after each of its commands, and the plan of its rests, which closes what it left open.
ghost use Rattle.std.specs.Prelude.{◌≡◌, length, IfSome};
ghost use Rattle.cluster_world.specs.Trails.{IsRunFromOpening};

use crate::clusters::{open_cluster, three_nodes};
use crate::commands::set_in_slot;
use crate::days::plan_of;
use crate::events::replayed;
use crate::holdings::keys_in;
use crate::plans::{Left, leave, start, take_turns, turn};
use crate::stores::{is_same_slot, store_of};
use cluster_world::{Survey, first_dishonest};
use key_slots::{NodeId, OwnerTable, Slot};
use live_cluster::{
    AdminSeat, ClientSeat, ClosedTrail, ClusterBrand, ClusterSetup, LiveClient, LiveCluster,
};
use plan_runner::{RunningPlan, Taken, VerifiedPlan, verify_open};
use redirect_client::Client;
use reshard_planner::resume;
use std::alloc::Global;
use std::marker::Brand;
use std::sync::Wait;
use std::test::Fail;
use store_commands::Command;

/// Moves the slot 3300, with two keys at a time.
const MOVE: &[u8] = b"reshard-plan 1\nmove 3300 from n0 to n1 by 2\nend\n";

/// So many keys are there first.
const KEYS: u64 = 5;

/// How many commands the plan takes then: three pairs of a listing and a MIGRATE, a listing and five SETSLOTs.
const COMMANDS: u64 = 12;

/// So many turns the plan of the rests has, after each of which the client sets a key. It takes fewer.
const TURNS: u64 = 40;

/// The client, which believes in the first owners, executes the command, and follows its redirections.
fn write<B: ClusterBrand, R: Wait>(
    rt: &R,
    alloc: Global,
    cluster: &LiveCluster<B>,
    seat: ClientSeat<B>,
    command: Option<Command>,
) -> ClientSeat<B> {
    let (Some(command), Ok(owners)) = (command, OwnerTable::even(alloc, 3, 3)) else {
        return seat;
    };
    if owners.nodes() > cluster.nodes() {
        return seat;
    }
    let mut port = LiveClient::new(rt, alloc, cluster, seat);
    let mut client = Client::new(owners, 7000);
    drop(client.execute(&mut port, &command));
    port.into_seat()
}

/// The client sets so many keys of the slot, from the one of this number on.
fn write_keys<B: ClusterBrand, R: Wait>(
    rt: &R,
    alloc: Global,
    cluster: &LiveCluster<B>,
    mut seat: ClientSeat<B>,
    first: u64,
    count: u64,
) -> ClientSeat<B> {
    for number in 0..count {
        let command = set_in_slot(alloc, first.wrapping_add(number));
        seat = write(rt, alloc, cluster, seat, command);
    }
    seat
}

/// So many turns of the plan, which is then given up.
fn give_up<B: ClusterBrand, R: Wait>(
    rt: &R,
    cluster: &LiveCluster<B>,
    plan: VerifiedPlan,
    admin: AdminSeat<B>,
    turns: u64,
) -> (AdminSeat<B>, Left) {
    match start(rt, cluster, plan, admin, 1_000_000) {
        Ok(plan) => leave(take_turns(rt, cluster, plan, turns)),
        Err(admin) => (admin, Left::NotArmed),
    }
}

/// The plan that closes what the survey shows open.
fn plan_of_rests(alloc: Global, survey: &Survey) -> Option<VerifiedPlan> {
    match resume(alloc, survey, 2) {
        Ok(plan) => verify_open(plan, survey).ok(),
        Err(_) => None,
    }
}

/// Turns of the plan, after each of which the client sets a key that is new.
fn go_on<B: ClusterBrand, R: Wait>(
    rt: &R,
    alloc: Global,
    cluster: &LiveCluster<B>,
    plan: RunningPlan<AdminSeat<B>>,
    mut seat: ClientSeat<B>,
) -> (AdminSeat<B>, Left, ClientSeat<B>)
    requires { length B.setup.opening.nodes ≡ plan.progress.nodes }
{
    let mut taken = Taken::Running(plan);
    for number in 0..TURNS {
        taken = turn(rt, cluster, taken);
        seat = write_keys(rt, alloc, cluster, seat, number.wrapping_add(100), 1);
    }
    let (admin, left) = leave(taken);
    (admin, left, seat)
}

/// The plan of the rests is armed by the seat, at the cluster that was surveyed, and continues.
fn close_rests<B: ClusterBrand, R: Wait>(
    rt: &R,
    alloc: Global,
    cluster: &LiveCluster<B>,
    plan: VerifiedPlan,
    admin: AdminSeat<B>,
    seat: ClientSeat<B>,
) -> (AdminSeat<B>, Left, ClientSeat<B>) {
    match start(rt, cluster, plan, admin, 1_000_000) {
        Ok(plan) => go_on(rt, alloc, cluster, plan, seat),
        Err(admin) => (admin, Left::NotArmed, seat),
    }
}

/// What a day left, how the plan of the rests was left, and whether the cluster was clean under its owners then.
#[derive(Drop)]
struct Day {
    closed: ClosedTrail,
    left: Left,
    is_clean: bool,
}

/// Five keys are set, the plan takes so many turns and is given up, a key is set once more and another is new, and
/// then the plan of the rests runs.
fn pass_day<B: ClusterBrand, R: Wait>(
    rt: &R,
    alloc: Global,
    setup: ClusterSetup,
    turns: u64,
    owners: &OwnerTable,
) -> Option<Day>
    requires { setup ≡ B.setup }
    ensures { IfSome result (λ d. IsRunFromOpening d.closed.trail) }
{
    let plan = plan_of(alloc, MOVE, &OwnerTable::even(alloc, 3, 3).ok()?)?;
    let cluster = open_cluster::<B>(alloc, setup)?;
    let client = cluster.client_seat(rt).ok()?;
    let admin = cluster.admin_seat(rt).ok()?;
    let client = write_keys(rt, alloc, &cluster, client, 0, KEYS);
    let (mut admin, _left) = give_up(rt, &cluster, plan, admin, turns);
    let client = write_keys(rt, alloc, &cluster, client, KEYS - 1, 2);
    let survey = cluster.survey(rt, &mut admin).ok()?;
    let rests = plan_of_rests(alloc, &survey)?;
    let (admin, left, client) = close_rests(rt, alloc, &cluster, rests, admin, client);
    let is_clean = cluster.is_clean(rt, owners);
    let seats = vec![in alloc; client].ok()?;
    Some(Day {
        closed: cluster.close(seats, admin),
        left,
        is_clean,
    })
}

/// Passes a day at three nodes, as [`pass_day`] does.
fn pass<R: Wait>(rt: &R, alloc: Global, turns: u64, owners: &OwnerTable) -> Option<Day>
    ensures { IfSome result (λ d. IsRunFromOpening d.closed.trail) }
{
    let setup = three_nodes(alloc).ok()?;
    pass_day::<Brand, R>(rt, alloc, setup, turns, owners)
}

/// The node that owns the slot at the end: where no mark stood at the source, nothing continues.
fn last_owner(turns: u64) -> NodeId {
    if turns < 2 {
        NodeId::of(0)
    } else {
        NodeId::of(1)
    }
}

/// The first owners, but for the slot's last one.
fn last_owners(alloc: Global, turns: u64) -> Option<OwnerTable> {
    let mut owners = OwnerTable::even(alloc, 3, 3).ok()?;
    let owner = last_owner(turns);
    if owner.get() < owners.nodes() {
        owners.set(Slot::of(3300), owner);
    }
    Some(owners)
}

/// Whether the trail is an honest run.
fn is_run(alloc: Global, day: &Day) -> bool
    requires { IsRunFromOpening day.now.closed.trail }
{
    replayed(alloc, &day.closed.trail) == Some(day.closed.trail.events().len())
        && matches!(first_dishonest(alloc, &day.closed.trail), Ok(None))
}

/// Whether the last owner has each key that was set: the first five, the one that came between, and one for each turn.
fn has_all_keys(day: &mut Day, turns: u64) -> bool {
    match keys_in(&mut day.closed.nodes, last_owner(turns), Slot::of(3300)) {
        Some(keys) => keys.len() as u64 == KEYS + 1 + TURNS,
        None => false,
    }
}

/// Whether the replies are those of one store, of which the nodes hold the slot: there are no other keys.
fn is_kept(alloc: Global, day: &mut Day) -> Option<bool> {
    let mut store = store_of(alloc, &day.closed.trail)?;
    is_same_slot(alloc, &mut day.closed.nodes, &mut store, Slot::of(3300))
}

/// From no command to all.
#[test]
fn what_a_plan_left_open_is_closed(rt: HostRuntime) -> Result<(), Fail> {
    let alloc = rt.alloc();
    for turns in 0..=COMMANDS {
        let owners = last_owners(alloc, turns).ok_or("out of memory")?;
        let Some(mut day) = pass(&rt, alloc, turns, &owners) else {
            return Err(Fail::from("out of memory"));
        };
        assert!(rt; matches!(day.left, Left::Done), "after {turns}");
        assert!(rt; day.is_clean, "after {turns}");
        assert!(rt; is_run(alloc, &day), "after {turns}");
        assert!(rt; has_all_keys(&mut day, turns), "after {turns}");
        assert!(rt;
            matches!(is_kept(alloc, &mut day), Some(true)),
            "after {turns}"
        );
    }
    Ok(())
}
