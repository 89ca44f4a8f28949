//! Which ranges of slots get another owner.
ghost use Rattle.std.specs.Prelude.{◌≡◌, ◌≤◌, ◌+◌, ◌*◌, ◌++◌, OnOk, length};
ghost use Rattle.std.specs.List.{flat_map};
ghost use Rattle.plan_pages.specs.Moves.{last_part, move_line, move_part, moves_heading, moves_section};
ghost use Rattle.plan_pages.specs.Moves.{range_column, slots_of};

use crate::putting::{fill, put, put_if_none, put_number, put_pair, put_right, put_slots};
use byte_texts::Memory;
use key_slots::Slot;
use plan_outlines::RangeChange;

/// Puts a line for each range whose owner changes.
#[tactic(auto, using(crate::proofs::NoLines::none_put))]
pub(crate) fn put_moves(out: &mut Vec<u8>, ranges: &[RangeChange]) -> Result<(), Memory>
    ensures text { OnOk result (out.new.items ≡ out.old.items ++ moves_section ranges.now) }
    ensures few { OnOk result (length out.new.items ≤ length out.old.items + (24 + 150 * length ranges.now)) }
{
    put_heading(out)?;
    let start = out.as_slice().len();
    put_lines(out, ranges)?;
    put_if_none(out, start)
}

#[tactic(auto, unfolding(crate::specs::Moves::moves_heading))]
fn put_heading(out: &mut Vec<u8>) -> Result<(), Memory>
    ensures text { OnOk result (out.new.items ≡ out.old.items ++ moves_heading) }
    ensures few { OnOk result (length out.new.items ≤ length out.old.items + 17) }
{
    put(out, b"\nwhat goes where\n")
}

fn put_lines(out: &mut Vec<u8>, ranges: &[RangeChange]) -> Result<(), Memory>
    ensures text { OnOk result (out.new.items ≡ out.old.items ++ flat_map move_part ranges.now) }
    ensures few { OnOk result (length out.new.items ≤ length out.old.items + 150 * length ranges.now) }
{
    for range in ranges {
        put_part(out, range)?;
    }
    Ok(())
}

#[tactic(auto, unfolding(crate::specs::Moves::move_part))]
fn put_part(out: &mut Vec<u8>, range: &RangeChange) -> Result<(), Memory>
    ensures text { OnOk result (out.new.items ≡ out.old.items ++ move_part range.now) }
    ensures few { OnOk result (length out.new.items ≤ length out.old.items + 150) }
{
    if !range.moves() {
        Ok(())
    } else {
        put_line(out, range)
    }
}

#[tactic(auto, unfolding(crate::specs::Moves::move_line))]
fn put_line(out: &mut Vec<u8>, range: &RangeChange) -> Result<(), Memory>
    ensures text { OnOk result (out.new.items ≡ out.old.items ++ move_line range.now) }
    ensures few { OnOk result (length out.new.items ≤ length out.old.items + 150) }
{
    put_range(out, range.first, range.last)?;
    put_slots(out, slots_of(range), 15)?;
    put(out, b"   ")?;
    put_pair(out, range.before, range.after)?;
    put(out, b"\n")
}

fn slots_of(range: &RangeChange) -> u32
    ensures { result ≡ slots_of range.now }
{
    u32::from(range.last.get().saturating_sub(range.first.get())) + 1
}

#[tactic(auto, using(crate::proofs::Columns::filled), unfolding(crate::specs::Moves::range_column))]
fn put_range(out: &mut Vec<u8>, first: Slot, last: Slot) -> Result<(), Memory>
    ensures text { OnOk result (out.new.items ≡ out.old.items ++ range_column first last) }
    ensures few { OnOk result (length out.new.items ≤ length out.old.items + 54) }
{
    put_right(out, u64::from(first.get()), 7)?;
    let start = out.as_slice().len();
    put_last(out, first, last)?;
    fill(out, start, 6)
}

/// Puts the last slot after a hyphen, unless it is the first.
pub(crate) fn put_last(out: &mut Vec<u8>, first: Slot, last: Slot) -> Result<(), Memory>
    ensures text { OnOk result (out.new.items ≡ out.old.items ++ last_part first last) }
    ensures few { OnOk result (length out.new.items ≤ length out.old.items + 21) }
{
    if first == last {
        return Ok(());
    }
    out.push(b'-')?;
    put_number(out, u64::from(last.get()))
}
