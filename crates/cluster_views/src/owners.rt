//! What a server says of the slots' owners.
ghost use Rattle.std.specs.Prelude.{◌≡◌, ◌-◌, ◌<◌, ◌≤◌, ◌&&◌, ◌==◌, ℕ, None, Some, IfOk, IfSome, IsSomeAnd, SomeIff};
ghost use Rattle.std.specs.Prelude.{if◌then◌else◌, nat_le};
ghost use Rattle.std.specs.Prelude.{is_none, length, position, slice_index, slice_index_or};
ghost use Rattle.std.specs.List.{sum_by};
ghost use Rattle.std.specs.Option.{option_or};
ghost use Rattle.cluster_views.specs.Views.{Says, has_slot, listed, overlap_fault, owned_by, owner_said, said_by};
ghost use Rattle.cluster_views.specs.Views.{size_of};

use crate::fault::SurveyFault;
use crate::named_book::NamedBook;
use byte_texts::Memory;
use key_slots::{NodeId, OwnerTable, SLOTS, Slot};
use listed_nodes::{NodeLine, SlotWord};
use std::alloc::Global;

/// Whether the masters' lines list more slots than there are.
pub(crate) fn overlap_fault(node: NodeId, lines: &[NodeLine]) -> Option<SurveyFault>
    ensures { result ≡ overlap_fault node lines.now }
{
    let mut left = SLOTS as u32;
    for line in lines {
        match less_listed(left, line) {
            Some(less) => left = less,
            None => return Some(SurveyFault::Overlap(node)),
        }
    }
    None
}

/// So many slots are left without those of the line, if it is a master's.
fn less_listed(left: u32, line: &NodeLine) -> Option<u32>
    ensures { SomeIff result (listed line.now ≤ left) (left - listed line.now) }
{
    if line.is_master {
        less_sizes(left, line.slots.get())
    } else {
        Some(left)
    }
}

/// So many slots are left without those of the words.
fn less_sizes(left: u32, words: &[SlotWord]) -> Option<u32>
    ensures { SomeIff result (sum_by size_of words.now ≤ left) (left - sum_by size_of words.now) }
{
    let mut less = left;
    for word in words {
        less = less.checked_sub(size_of(word))?;
    }
    Some(less)
}

/// How many slots the word lists.
fn size_of(word: &SlotWord) -> u32
    ensures { result ≡ size_of word.now }
{
    match word {
        SlotWord::Slots(first, last) => (u32::from(last.get()) + 1).saturating_sub(u32::from(
            first.get(),
        )),
        _ => 0,
    }
}

/// The owner of each slot, from slot 0 on.
pub(crate) fn owners_said(
    alloc: Global,
    book: &NamedBook,
    lines: &[NodeLine],
) -> Result<Vec<Option<NodeId>>, Memory>
    ensures { IfOk result (λ v. Says book.now lines.now v.items) }
{
    let mut row = Vec::new(alloc);
    row.resize(SLOTS, None)?;
    put_lines(book, lines, row.as_mut_slice());
    Ok(row)
}

/// Makes the lines' servers the owners of the slots that they list, where these have none yet.
fn put_lines(book: &NamedBook, lines: &[NodeLine], row: &mut [Option<NodeId>])
    requires { length row.old ≡ 16384 }
    ensures { (s : ℕ) → s < 16384 → slice_index_or row.new s None
        ≡ option_or (slice_index_or row.old s None) (owner_said book.now lines.now s) }
{
    for line in lines {
        put_line(book, line, row);
    }
}

/// Makes the line's server the owner of the slots that it lists, where they have none yet.
fn put_line(book: &NamedBook, line: &NodeLine, row: &mut [Option<NodeId>])
    requires { length row.old ≡ 16384 }
    ensures { (s : ℕ) → s < 16384
        → slice_index_or row.new s None ≡ option_or (slice_index_or row.old s None) (said_by book.now s line.now) }
{
    if line.is_master {
        if let Some(owner) = book.number_of(line.name.get()) {
            put_words(line.slots.get(), owner, row);
        }
    }
}

/// Makes the node the owner of the slots that the words list, where they have none yet.
fn put_words(words: &[SlotWord], owner: NodeId, row: &mut [Option<NodeId>])
    requires { length row.old ≡ 16384 }
    ensures { (s : ℕ) → s < 16384
        → slice_index_or row.new s None ≡ option_or (slice_index_or row.old s None) (owned_by owner s words.now) }
{
    for word in words {
        if let SlotWord::Slots(first, last) = word {
            put_range(*first, *last, owner, row);
        }
    }
}

/// Makes the node the owner of the slots from the first to the last, where they have none yet.
fn put_range(first: Slot, last: Slot, owner: NodeId, row: &mut [Option<NodeId>])
    requires { length row.old ≡ 16384 }
    ensures { (s : ℕ) → s < 16384 → slice_index_or row.new s None
        ≡ option_or (slice_index_or row.old s None) (if nat_le first s && nat_le s last then Some owner else None) }
{
    for slot in first.get()..last.get() + 1 {
        put(slot, owner, row);
    }
}

/// Makes the node the owner of the slot, where it has none yet.
fn put(slot: u16, owner: NodeId, row: &mut [Option<NodeId>])
    requires width { length row.old ≡ 16384 }
    requires slot { slot < 16384 }
    ensures { (s : ℕ) → s < 16384 → slice_index_or row.new s None
        ≡ option_or (slice_index_or row.old s None) (if s == slot then Some owner else None) }
{
    let place = usize::from(slot);
    if row[place].is_none() {
        row[place] = Some(owner);
    }
}

/// The lowest slot that has no owner.
pub(crate) fn first_without(row: &[Option<NodeId>]) -> Option<Slot>
    requires { length row.now ≡ 16384 }
    ensures { result ≡ position is_none row.now }
{
    let place = place_without(row)?;
    Some(Slot::of(place as u16))
}

fn place_without(row: &[Option<NodeId>]) -> Option<usize>
    ensures value { result ≡ position is_none row.now }
    ensures within { IfSome result (λ i. i < length row.now) }
{
    row.iter().position(|owner| owner.is_none())
}

/// The table of these owners, of which each slot has one.
pub(crate) fn table_of(
    alloc: Global,
    nodes: u8,
    row: &[Option<NodeId>],
) -> Result<OwnerTable, Memory>
    requires some { 1 ≤ nodes }
    requires few { nodes ≤ 255 }
    requires width { length row.now ≡ 16384 }
    requires named { (s : ℕ) → s < 16384 → IsSomeAnd (slice_index_or row.now s None) (λ m. m < nodes) }
    ensures nodes { IfOk result (λ t. t.nodes ≡ nodes) }
    ensures owners { IfOk result
        (λ t. (s : ℕ) → s < 16384 → slice_index_or row.now s None ≡ Some (slice_index t.owners s)) }
{
    let mut owners = OwnerTable::even(alloc, nodes, 1)?;
    for slot in 0..SLOTS as u16 {
        match row[usize::from(slot)] {
            Some(owner) => owners.set(Slot::of(slot), owner),
            None => unreachable!(),
        }
    }
    Ok(owners)
}
