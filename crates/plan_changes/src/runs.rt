//! Runs of marked slots.
ghost use Rattle.std.specs.Prelude.{◌≡◌, IfOk, OnOk, length, reverse};
ghost use Rattle.plan_changes.specs.Runs.{run_in_front, runs_from, with_mark};

use byte_texts::Memory;
use key_slots::Slot;
use plan_outlines::SlotRun;
use std::alloc::Global;

/// The runs of the slots that are marked, ascending, where there is a mark for each slot, from slot 0 on.
pub fn runs_where(alloc: Global, marks: &[bool]) -> Result<Vec<SlotRun>, Memory>
    requires { length marks.now ≡ 16384 }
    ensures { IfOk result (λ v. v.items ≡ runs_from 0 marks.now) }
{
    let mut later = Vec::new(alloc);
    for number in (0..16_384).rev() {
        put_if(&mut later, Slot::of(number), marks[usize::from(number)])?;
    }
    later.reverse();
    Ok(later)
}

/// Puts the slot in front of the runs, the last of which stands first, if it is marked.
fn put_if(later: &mut Vec<SlotRun>, slot: Slot, mark: bool) -> Result<(), Memory>
    ensures { OnOk result (reverse later.new.items ≡ with_mark slot mark (reverse later.old.items)) }
{
    if mark {
        put(later, slot)?;
    }
    Ok(())
}

/// Puts the slot in front of the runs.
fn put(later: &mut Vec<SlotRun>, slot: Slot) -> Result<(), Memory>
    ensures { OnOk result (reverse later.new.items ≡ run_in_front slot (reverse later.old.items)) }
{
    let alone = SlotRun {
        first: slot,
        last: slot,
    };
    let Some(next) = later.pop() else {
        later.push(alone)?;
        return Ok(());
    };
    if next.first.get() == slot.get() + 1 {
        later.push(SlotRun {
            first: slot,
            last: next.last,
        })?;
        return Ok(());
    }
    later.push(next)?;
    later.push(alone)?;
    Ok(())
}
