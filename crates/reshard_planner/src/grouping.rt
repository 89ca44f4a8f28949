ghost use Rattle.std.specs.Prelude.{◌≡◌, ◌+◌, ◌≤◌, IfOk, OnOk, length};
ghost use Rattle.reshard_planner.specs.Answers.{first_version};
ghost use Rattle.plan_language.specs.Limits.{limits_of};
ghost use Rattle.std.specs.List.{AllByRecursion};
ghost use Rattle.reshard_planner.specs.Grouping.{plan_of};
ghost use Rattle.reshard_planner.specs.Writing.{IsBetween, IsOpen, open_slots, slots_written, TakesOn};

use crate::blank_plan::blank_plan;
use crate::moved_range::MovedRange;
use crate::transfer::Transfer;
use byte_texts::Memory;
use plan_language::Plan;
use std::alloc::Global;

/// The plan that makes the transfers in order, in a cluster of so many nodes: one line for each longest range of
/// consecutive slots that go the same way.
pub(crate) fn plan_of(
    alloc: Global,
    nodes: u8,
    transfers: &[Transfer],
    batch: u16,
) -> Result<Plan, Memory>
    requires few { length transfers.now ≤ 16384 }
    requires within { AllByRecursion (IsBetween nodes) transfers.now }
    requires some { 1 ≤ batch }
    requires most { batch ≤ 1000 }
    ensures { IfOk result (λ plan. plan ≡ first_version nodes (plan_of batch transfers.now)) }
{
    let mut plan = blank_plan(alloc, 1, nodes);
    let mut range = None;
    for transfer in transfers {
        range = Some(take_on(&mut plan, range, transfer, batch)?);
    }
    if let Some(range) = range {
        plan.push(range.line(batch))?;
    }
    Ok(plan)
}

/// The open range with one transfer more. Where that begins another range, the open one is written.
fn take_on(
    plan: &mut Plan,
    range: Option<MovedRange>,
    next: &Transfer,
    batch: u16,
) -> Result<MovedRange, Memory>
    requires order { IsOpen (limits_of plan.old.names).nodes range }
    requires room { slots_written plan.old.lines + open_slots range ≤ 16384 }
    requires some { 1 ≤ batch }
    requires most { batch ≤ 1000 }
    ensures taken { IfOk result
        (λ open_range. TakesOn batch plan.old.lines range next.now plan.new.lines open_range) }
    ensures version { OnOk result (plan.new.version ≡ plan.old.version) }
    ensures names { OnOk result (plan.new.names ≡ plan.old.names) }
{
    let Some(range) = range else {
        return Ok(MovedRange::of(next));
    };
    if let Some(longer) = range.with(next) {
        return Ok(longer);
    }
    plan.push(range.line(batch))?;
    Ok(MovedRange::of(next))
}
