//! The owners of all slots, by ranges that are listed.
ghost use Rattle.std.specs.Prelude.{◌≡◌, ◌<◌, ◌≤◌, ◌&&◌, ◌==◌, ℕ, None, Some, IfErr, IfOk, IfSome, IsSomeAnd, OnOk};
ghost use Rattle.std.specs.Prelude.{if◌then◌else◌, nat_le};
ghost use Rattle.std.specs.Prelude.{MatchResult, is_none, length, position, slice_index, slice_index_or, true};
ghost use Rattle.std.specs.List.{All};
ghost use Rattle.std.specs.Option.{option_or};
ghost use Rattle.survey_files.specs.Covering.{AreApart, AreOwners, IsCovered, IsOverlap, IsUncovered};
ghost use Rattle.survey_files.specs.Covering.{has_slot, owner_by, owner_in};
ghost use Rattle.survey_files.specs.declared.file_fault.FileFault.TheVariants.{Twice};

use crate::file_fault::FileFault;
use byte_texts::Memory;
use key_slots::{NodeId, OwnerTable, SLOTS, Slot, SlotRange};
use std::alloc::Global;

/// The table of so many nodes, of which each slot has one as its owner.
pub(crate) fn covered(
    alloc: Global,
    nodes: u8,
    ranges: &[SlotRange],
) -> Result<OwnerTable, FileFault>
    requires named { All (λ r. r.owner < nodes) ranges.now }
    requires most { nodes ≤ 255 }
    ensures covered { MatchResult result (IsCovered ranges.now nodes) (IsUncovered ranges.now) }
    ensures some { IfOk result (λ _. 1 ≤ nodes) }
{
    let row = owners_in(alloc, ranges)?;
    if let Some(slot) = first_without(row.as_slice()) {
        return Err(FileFault::Nobody(slot));
    }
    let owners = table_of(alloc, nodes, row.as_slice())?;
    Ok(owners)
}

/// The owner of each slot, from slot 0 on, where a range has it.
fn owners_in(alloc: Global, ranges: &[SlotRange]) -> Result<Vec<Option<NodeId>>, FileFault>
    ensures { MatchResult result (λ v. AreOwners ranges.now v.items) (IsOverlap ranges.now) }
{
    let mut row = Vec::new(alloc);
    row.resize(SLOTS, None)?;
    put_ranges(ranges, row.as_mut_slice())?;
    Ok(row)
}

/// The lowest slot that has no owner.
fn first_without(row: &[Option<NodeId>]) -> Option<Slot>
    requires { length row.now ≡ 16384 }
    ensures { result ≡ position is_none row.now }
{
    let place = place_without(row)?;
    Some(Slot::of(place as u16))
}

fn place_without(row: &[Option<NodeId>]) -> Option<usize>
    ensures value { result ≡ position is_none row.now }
    ensures within { IfSome result (λ i. i < length row.now) }
{
    row.iter().position(|owner| owner.is_none())
}

/// The table of these owners, of which each slot has one.
fn table_of(alloc: Global, nodes: u8, row: &[Option<NodeId>]) -> Result<OwnerTable, Memory>
    requires some { 1 ≤ nodes }
    requires few { nodes ≤ 255 }
    requires width { length row.now ≡ 16384 }
    requires named { (s : ℕ) → s < 16384 → IsSomeAnd (slice_index_or row.now s None) (λ m. m < nodes) }
    ensures nodes { IfOk result (λ t. t.nodes ≡ nodes) }
    ensures owners { IfOk result
        (λ t. (s : ℕ) → s < 16384 → slice_index_or row.now s None ≡ Some (slice_index t.owners s)) }
{
    let mut owners = OwnerTable::even(alloc, nodes, 1)?;
    for slot in 0..SLOTS as u16 {
        match row[usize::from(slot)] {
            Some(owner) => owners.set(Slot::of(slot), owner),
            None => unreachable!(),
        }
    }
    Ok(owners)
}

/// Makes the ranges' nodes the owners of their slots, where no slot has an owner yet.
fn put_ranges(ranges: &[SlotRange], row: &mut [Option<NodeId>]) -> Result<(), FileFault>
    requires width { length row.old ≡ 16384 }
    requires blank { (s : ℕ) → s < 16384 → slice_index_or row.old s None ≡ None }
    ensures told { OnOk result ((s : ℕ) → s < 16384 → slice_index_or row.new s None ≡ owner_in ranges.now s) }
    ensures apart { OnOk result (AreApart ranges.now (length ranges.now)) }
    ensures twice { IfErr result (IsOverlap ranges.now) }
{
    for range in ranges {
        put_range(range, row)?;
    }
    Ok(())
}

/// Makes the range's node the owner of its slots, where none of them has one yet.
fn put_range(range: &SlotRange, row: &mut [Option<NodeId>]) -> Result<(), FileFault>
    requires { length row.old ≡ 16384 }
    ensures told { OnOk result ((s : ℕ) → s < 16384
        → slice_index_or row.new s None ≡ option_or (slice_index_or row.old s None) (owner_by s range.now)) }
    ensures free { OnOk result ((s : ℕ) → s < 16384 → has_slot s range.now ≡ true
        → slice_index_or row.old s None ≡ None) }
    ensures twice { IfErr result (λ e. (s : ℕ) × (m : ℕ) × (e ≡ Twice s m range.now.owner) × (s < 16384)
        × (has_slot s range.now ≡ true) × (slice_index_or row.old s None ≡ Some m)) }
{
    put_slots(range.first, range.last, range.owner, row)
}

/// Makes the node the owner of the slots from the first to the last, where none of them has one yet.
fn put_slots(
    first: Slot,
    last: Slot,
    owner: NodeId,
    row: &mut [Option<NodeId>],
) -> Result<(), FileFault>
    requires { length row.old ≡ 16384 }
    ensures told { OnOk result ((s : ℕ) → s < 16384 → slice_index_or row.new s None
        ≡ option_or (slice_index_or row.old s None) (if nat_le first s && nat_le s last then Some owner else None)) }
    ensures free { OnOk result ((s : ℕ) → s < 16384 → (nat_le first s && nat_le s last) ≡ true
        → slice_index_or row.old s None ≡ None) }
    ensures twice { IfErr result (λ e. (s : ℕ) × (m : ℕ) × (e ≡ Twice s m owner) × (s < 16384)
        × ((nat_le first s && nat_le s last) ≡ true) × (slice_index_or row.old s None ≡ Some m)) }
{
    for slot in first.get()..last.get() + 1 {
        put(slot, owner, row)?;
    }
    Ok(())
}

/// Makes the node the owner of the slot, if it has none yet.
fn put(slot: u16, owner: NodeId, row: &mut [Option<NodeId>]) -> Result<(), FileFault>
    requires width { length row.old ≡ 16384 }
    requires slot { slot < 16384 }
    ensures told { OnOk result ((s : ℕ) → s < 16384 → slice_index_or row.new s None
        ≡ option_or (slice_index_or row.old s None) (if s == slot then Some owner else None)) }
    ensures free { OnOk result (slice_index_or row.old slot None ≡ None) }
    ensures twice { IfErr result
        (λ e. (m : ℕ) × (e ≡ Twice slot m owner) × (slice_index_or row.old slot None ≡ Some m)) }
{
    let place = usize::from(slot);
    match row[place] {
        Some(first) => Err(FileFault::Twice {
            slot: Slot::of(slot),
            first,
            again: owner,
        }),
        None => {
            row[place] = Some(owner);
            Ok(())
        }
    }
}
