//! A long day of 32 clients, whose trail is taken once more by a world, step by step.
ghost use Rattle.std.specs.Prelude.{IfSome};
ghost use Rattle.cluster_world.specs.Trails.{IsRunFromOpening};

use crate::clients::Day;
use crate::days::{is_well, pass_day, plan_of};
use crate::events::replayed;
use key_slots::OwnerTable;
use live_cluster::ClusterSetup;
use std::alloc::Global;
use std::marker::Brand;
use std::sync::Wait;
use std::test::Fail;
use std::thread::Threads;

/// 32 clients at eight nodes send 31,250 commands each while 2,000 slots go from node 0 to node 1.
fn pass_long_day<R: Threads + Wait + Sync>(rt: &R, alloc: Global) -> Option<Day>
    ensures { IfSome result (λ d. IsRunFromOpening d.closed.trail) }
{
    let owners = OwnerTable::even(alloc, 8, 8).ok()?;
    let text: &[u8] = b"reshard-plan 1\nmove 0-1999 from n0 to n1 by 10\nend\n";
    let plan = plan_of(alloc, text, &owners)?;
    let setup = ClusterSetup::new(alloc, owners.try_copy().ok()?, 7000).ok()?;
    pass_day::<Brand, R>(rt, alloc, setup, plan, &owners, 32, 31_250)
}

#[test]
fn a_long_day_is_a_run(rt: HostRuntime) -> Result<(), Fail> {
    let alloc = rt.alloc();
    let Some(day) = pass_long_day(&rt, alloc) else {
        return Err(Fail::from("out of memory"));
    };
    assert!(rt; is_well(alloc, &day));
    assert!(rt; day.calls >= 1_000_000);
    assert!(rt; matches!(replayed(alloc, &day.closed.trail), Some(found) if found == day.calls));
    Ok(())
}
