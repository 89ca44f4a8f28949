//! The ranges of slots that have one owner before and one after.
ghost use Rattle.std.specs.Prelude.{◌≡◌, ◌<◌, IfOk, ◌∷◌, length, reverse, slice_index};
ghost use Rattle.plan_outlines.specs.Changes.{change_ranges, in_front};

use crate::ranges::RangeChange;
use byte_texts::Memory;
use key_slots::{NodeId, Slot};
use std::alloc::Global;

/// The longest ranges of slots that have one owner in the first table and one in the second, ascending. Each slot is in
/// one of them, also where its owner stays.
pub fn range_changes(
    alloc: Global,
    before: &[NodeId],
    after: &[NodeId],
) -> Result<Vec<RangeChange>, Memory>
    requires before { length before.now ≡ 16384 }
    requires after { length after.now ≡ 16384 }
    ensures { IfOk result (λ v. v.items ≡ change_ranges before.now after.now) }
{
    let mut later = Vec::new(alloc);
    let mut first = one_slot(before, after, 16_383);
    for place in (0..16_383).rev() {
        first = joined(&mut later, first, one_slot(before, after, place))?;
    }
    later.push(first)?;
    later.reverse();
    Ok(later)
}

/// The range of this slot alone.
fn one_slot(before: &[NodeId], after: &[NodeId], place: u16) -> RangeChange
    requires place { place < 16384 }
    requires before { length before.now ≡ 16384 }
    requires after { length after.now ≡ 16384 }
    ensures { result ≡ record {
      first = place;
      last = place;
      before = slice_index before.now place;
      after = slice_index after.now place;
    } }
{
    let slot = Slot::of(place);
    RangeChange {
        first: slot,
        last: slot,
        before: before[usize::from(place)],
        after: after[usize::from(place)],
    }
}

/// The first of the ranges, where the range stands before the ones that are given: it is joined with the first of these
/// where both have the same owners, and else that one goes to the later ones, the last of which stands first.
fn joined(
    later: &mut Vec<RangeChange>,
    first: RangeChange,
    range: RangeChange,
) -> Result<RangeChange, Memory>
    ensures { IfOk result
        (λ r. r ∷ reverse later.new.items ≡ in_front range (first ∷ reverse later.old.items)) }
{
    if range.before == first.before && range.after == first.after {
        return Ok(RangeChange {
            last: first.last,
            ..range
        });
    }
    later.push(first)?;
    Ok(range)
}
