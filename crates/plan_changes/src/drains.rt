//! Slots that are drained twice, or for nothing.
ghost use Rattle.std.specs.Prelude.{◌≡◌, ◌+◌, ◌<◌, ◌==◌, ◌&&◌, ℕ, IfOk, false, length, min, nat_le, slice_index};
ghost use Rattle.std.specs.Prelude.{slice_index_or};
ghost use Rattle.plan_changes.specs.Drains.{drain_count, drained, moved_again, moved_back};
ghost use Rattle.plan_changes.specs.Finals.{owners_after};

use crate::runs::runs_where;
use crate::zeros::zeros;
use byte_texts::Memory;
use key_slots::{NodeId, SLOTS};
use plan_language::PlanCommand;
use plan_outlines::SlotRun;
use std::alloc::Global;

/// The slots that these commands drain twice or more, in runs.
pub fn moved_again(alloc: Global, commands: &[PlanCommand]) -> Result<Vec<SlotRun>, Memory>
    ensures { IfOk result (λ v. v.items ≡ moved_again commands.now) }
{
    let times = drain_times(alloc, commands)?;
    let marks = marks_again(alloc, times.as_slice())?;
    runs_where(alloc, marks.as_slice())
}

/// The slots that these commands drain, and whose owner is the same before and after, in runs.
pub fn moved_back(
    alloc: Global,
    commands: &[PlanCommand],
    before: &[NodeId],
    after: &[NodeId],
) -> Result<Vec<SlotRun>, Memory>
    requires before { length before.now ≡ 16384 }
    requires width { length after.now ≡ 16384 }
    requires after { after.now ≡ owners_after commands.now before.now }
    ensures { IfOk result (λ v. v.items ≡ moved_back commands.now before.now) }
{
    let times = drain_times(alloc, commands)?;
    let marks = marks_back(alloc, times.as_slice(), before, after)?;
    runs_where(alloc, marks.as_slice())
}

/// How often each slot is drained, from slot 0 on, where 2 is twice or more.
fn drain_times(alloc: Global, commands: &[PlanCommand]) -> Result<Vec<u8>, Memory>
    ensures width { IfOk result (λ v. length v.items ≡ 16384) }
    ensures times { IfOk result
        (λ v. (s : ℕ) → s < 16384 → slice_index v.items s ≡ min (drain_count commands.now s) 2) }
{
    let mut times = zeros(alloc, SLOTS)?;
    for command in commands {
        count_drain(&mut times, command);
    }
    Ok(times)
}

/// Counts the command, if it is a drain.
fn count_drain(times: &mut Vec<u8>, command: &PlanCommand)
    requires { length times.old.items ≡ 16384 }
    ensures { times.new.items ≡ drained times.old.items command.now }
{
    if let PlanCommand::Drain { slot, .. } = *command {
        let place = usize::from(slot.get());
        times[place] = once_more(times[place]);
    }
}

/// One more, and twice at most.
fn once_more(times: u8) -> u8
    ensures { result ≡ min (times + 1) 2 }
{
    if times < 2 { times + 1 } else { 2 }
}

/// Marks what is drained twice.
fn marks_again(alloc: Global, times: &[u8]) -> Result<Vec<bool>, Memory>
    requires { length times.now ≡ 16384 }
    ensures { IfOk result (λ v. (length v.items ≡ 16384)
        × ((k : ℕ) → k < 16384 → slice_index_or v.items k false ≡ nat_le 2 (slice_index times.now k))) }
{
    let mut marks = Vec::with_capacity(alloc, times.len())?;
    for place in 0..times.len() {
        marks.push(times[place] >= 2)?;
    }
    Ok(marks)
}

/// Marks what is drained and has the same owner in both tables.
fn marks_back(
    alloc: Global,
    times: &[u8],
    before: &[NodeId],
    after: &[NodeId],
) -> Result<Vec<bool>, Memory>
    requires times { length times.now ≡ 16384 }
    requires before { length before.now ≡ 16384 }
    requires after { length after.now ≡ 16384 }
    ensures { IfOk result (λ v. (length v.items ≡ 16384)
        × ((k : ℕ) → k < 16384
        → slice_index_or v.items k false
        ≡ (nat_le 1 (slice_index times.now k) && slice_index after.now k == slice_index before.now k))) }
{
    let mut marks = Vec::with_capacity(alloc, times.len())?;
    for place in 0..times.len() {
        marks.push(is_back(times[place], before[place], after[place]))?;
    }
    Ok(marks)
}

/// Whether a slot was moved, so often, and has its owner again.
fn is_back(times: u8, before: NodeId, after: NodeId) -> bool
    ensures { result ≡ (nat_le 1 times && after == before) }
{
    times >= 1 && after == before
}
