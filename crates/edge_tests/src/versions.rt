//! A plan of version 2, in which a slot goes from node to node.
ghost use Rattle.std.specs.Prelude.{◌≡◌, length};

use crate::plans::{start, verified};
use crate::slots::{keys_at, moved_to, set_keys};
use cluster_admin::AdminPort;
use cluster_world::{World, WorldSeat};
use key_slots::OwnerTable;
use plan_machine::run_over_world;
use plan_runner::{Finish, RunningPlan};
use std::alloc::Global;
use std::test::Fail;

/// The slot 3300 continues from the node that it came to, with one key at a time.
const ON: &[u8] =
    b"reshard-plan 2\nmove 3300 from n0 to n1 by 1\nmove 3300 from n1 to n2 by 1\nend\n";

/// It comes to node 1 twice.
const AGAIN: &[u8] = b"reshard-plan 2\nmove 3300 from n0 to n1 by 1\nmove 3300 from n1 to n0 by 1\n\
    move 3300 from n0 to n1 by 1\nend\n";

/// So many keys are there.
const KEYS: u64 = 3;

/// How many replies the plan takes to its end, if it is done.
fn cost_of(plan: RunningPlan<WorldSeat>, world: &mut World) -> Option<u64>
    requires { length world.old.nodes ≡ plan.progress.nodes }
{
    match run_over_world(plan, world) {
        Finish::Done(done) => {
            let cost = done.cost_so_far();
            drop(done.into_seat());
            Some(cost)
        }
        Finish::Stopped(stopped) => {
            drop(stopped.into_parts());
            None
        }
    }
}

/// What the plan costs where the keys are there, and the world after it.
fn run(alloc: Global) -> Option<(World, u64)> {
    let owners = OwnerTable::even(alloc, 3, 3).ok()?;
    let (mut world, seat) = World::open(alloc, owners.try_copy().ok()?, 7000).ok()?;
    set_keys(alloc, &mut world, 0, KEYS);
    let plan = start(alloc, ON, &owners, &world, seat)?;
    let cost = cost_of(plan, &mut world)?;
    Some((world, cost))
}

/// Each move takes five SETSLOTs, a listing, and a listing and a MIGRATE for each key.
#[test]
fn a_slot_goes_on_from_where_it_came(rt: HostRuntime) -> Result<(), Fail> {
    let alloc = rt.alloc();
    let (mut world, cost) = run(alloc).ok_or("the plan is not done")?;
    assert!(rt; cost == 2 * (6 + 2 * KEYS));
    assert!(rt; keys_at(&mut world, 2) == KEYS);
    let owners = moved_to(alloc, 2).ok_or("out of memory")?;
    assert!(rt; AdminPort::is_clean(&world, &owners));
    Ok(())
}

/// Whether the plan of this text has a slot that comes to one node twice.
fn retargets(alloc: Global, text: &[u8]) -> Option<bool> {
    let owners = OwnerTable::even(alloc, 3, 3).ok()?;
    Some(verified(alloc, text, &owners)?.retargets())
}

#[test]
fn slots_that_come_to_a_node_twice_are_told(rt: HostRuntime) {
    assert!(rt; retargets(rt.alloc(), ON) == Some(false));
    assert!(rt; retargets(rt.alloc(), AGAIN) == Some(true));
}
