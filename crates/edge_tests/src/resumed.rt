//! A plan over a world that is given up after each of its commands, and the plan of its rests, which closes what it
//! left open, while a client sets keys.
ghost use Rattle.std.specs.Prelude.{◌≡◌, length, IfSome};

use crate::plans::{arm, finish, leave, plan_turn, start};
use crate::slots::{keys_at, moved_to, set_keys};
use cluster_admin::AdminPort;
use cluster_world::{World, WorldSeat};
use key_slots::OwnerTable;
use plan_runner::{RunningPlan, Taken, VerifiedPlan, verify_open};
use reshard_planner::resume;
use std::alloc::Global;
use std::test::Fail;

/// Moves the slot 3300, with two keys at a time.
const MOVE: &[u8] = b"reshard-plan 1\nmove 3300 from n0 to n1 by 2\nend\n";

/// So many keys are there first.
const KEYS: u64 = 5;

/// How many commands the plan takes then: three pairs of a listing and a MIGRATE, a listing and five SETSLOTs.
const COMMANDS: u64 = 12;

/// So many turns the plan of the rests has, before each of which the client sets a key. It takes fewer.
const TURNS: u64 = 20;

/// The plan takes so many turns, and is given up.
fn give_up(plan: RunningPlan<WorldSeat>, world: &mut World, turns: u64) -> WorldSeat
    requires { length world.old.nodes ≡ plan.progress.nodes }
{
    let mut taken = Taken::Running(plan);
    for _ in 0..turns {
        taken = plan_turn(taken, world);
    }
    leave(taken)
}

/// The plan of the rests, before each of whose turns the client sets a key that is new. It gives the seat back where
/// the plan was done.
fn go_on(alloc: Global, plan: RunningPlan<WorldSeat>, world: &mut World) -> Option<WorldSeat>
    requires { length world.old.nodes ≡ plan.progress.nodes }
{
    let mut taken = Taken::Running(plan);
    for number in 0..TURNS {
        set_keys(alloc, world, number.wrapping_add(100), 1);
        taken = plan_turn(taken, world);
    }
    finish(taken, world)
}

/// The plan that closes what stands open in the world, armed by the seat and started.
fn start_rests(alloc: Global, world: &World, seat: WorldSeat) -> Option<RunningPlan<WorldSeat>>
    ensures { IfSome result (λ p. length world.now.nodes ≡ p.progress.nodes) }
{
    match plan_of_rests(alloc, world) {
        Some(plan) => arm(plan, world, seat),
        None => {
            drop(seat);
            None
        }
    }
}

fn plan_of_rests(alloc: Global, world: &World) -> Option<VerifiedPlan> {
    let survey = world.survey().ok()?;
    match resume(alloc, &survey, 2) {
        Ok(plan) => verify_open(plan, &survey).ok(),
        Err(_) => None,
    }
}

/// Five keys are set, the plan takes so many turns and is given up, a key is set once more and another is new, and then
/// the plan of the rests is done.
fn world_after(alloc: Global, turns: u64) -> Option<World> {
    let owners = OwnerTable::even(alloc, 3, 3).ok()?;
    let (mut world, seat) = World::open(alloc, owners.try_copy().ok()?, 7000).ok()?;
    set_keys(alloc, &mut world, 0, KEYS);
    let plan = start(alloc, MOVE, &owners, &world, seat)?;
    let seat = give_up(plan, &mut world, turns);
    set_keys(alloc, &mut world, KEYS - 1, 2);
    let plan = start_rests(alloc, &world, seat)?;
    drop(go_on(alloc, plan, &mut world)?);
    Some(world)
}

/// The node that owns the slot at the end: where no mark stood at the source, nothing continues.
fn last_owner(turns: u64) -> u8 {
    if turns < 2 { 0 } else { 1 }
}

/// From no command to all: the cluster is clean, and the last owner has each key that was set.
#[test]
fn what_a_plan_left_open_is_closed(rt: HostRuntime) -> Result<(), Fail> {
    let alloc = rt.alloc();
    for turns in 0..=COMMANDS {
        let mut world = world_after(alloc, turns).ok_or("the plan of the rests is not done")?;
        let owners = moved_to(alloc, last_owner(turns)).ok_or("out of memory")?;
        assert!(rt; AdminPort::is_clean(&world, &owners), "after {turns}");
        assert!(rt;
            keys_at(&mut world, last_owner(turns)) == KEYS + 1 + TURNS,
            "after {turns}"
        );
    }
    Ok(())
}
