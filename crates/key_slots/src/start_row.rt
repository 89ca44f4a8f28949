ghost use Rattle.std.specs.Prelude.{◌≡◌, ℕ, suc, Bool, ◌+◌, ◌≤◌, ◌<◌, IfOk, List, ◌∷◌, ◌++◌, drop, length, nat_lt};
ghost use Rattle.std.specs.Prelude.{slice_index, vec_capacity, vec_len};
ghost use Rattle.std.specs.List.{All, AllByRecursion};
ghost use Rattle.key_slots.specs.Owners.{start};
ghost use Rattle.key_slots.specs.Ranges.{starts_of};
ghost use Rattle.key_slots.specs.Starts.{IsAround, IsNotPast, IsPlace, between, owners_by, start_unless};

use crate::node_id::NodeId;
use crate::slot::{SLOTS, Slot};
use crate::slot_range::SlotRange;
use byte_texts::Memory;
use std::alloc::Global;

/// How many of the ranges begin below the slot with this number.
pub fn starts_below(starts: &[(Slot, NodeId)], number: u16) -> usize
    ensures within { result ≤ length starts.now }
    ensures place { (l r : List (ℕ × ℕ)) → starts.now ≡ l ++ r → AllByRecursion (λ e. e.0 < number) l
        → AllByRecursion (λ e. number ≤ e.0) r → result ≡ length l }
{
    starts.partition_point(
        |start: &(Slot, NodeId)| -> bool
            ensures { result ≡ nat_lt start.now.0 number }
        { start.0.get() < number },
    )
}

/// How many of the ranges begin below the slot with this number, where it is known that the first `from` do. It takes a
/// step for each further one, and so less than a search over all where these are few.
pub fn starts_from(starts: &[(Slot, NodeId)], from: usize, number: u16) -> usize
    requires within { from ≤ length starts.now }
    requires early { IsNotPast number starts.now from }
    ensures within { result ≤ length starts.now }
    ensures place { IsPlace number starts.now result }
{
    for place in from..starts.len() {
        if number <= starts[place].0.get() {
            return place;
        }
    }
    starts.len()
}

/// Removes the start of the slot, if it has one, where `place` ranges begin below the slot.
fn remove_start_at(starts: &mut Vec<(Slot, NodeId)>, place: usize, slot: Slot)
    requires within { place ≤ vec_len starts.old }
    requires place { IsPlace slot starts.old.items place }
    ensures within { place ≤ vec_len starts.new }
    ensures capacity { vec_capacity starts.new ≡ vec_capacity starts.old }
    ensures place { (l r : List (ℕ × ℕ)) (joins : Bool) (o : ℕ) → IsAround slot o joins l r starts.old.items
        → place ≡ length l }
    ensures items { (l r : List (ℕ × ℕ)) (joins : Bool) (o : ℕ) → IsAround slot o joins l r starts.old.items
        → starts.new.items ≡ l ++ r }
{
    if place < starts.len() && starts[place].0 == slot {
        starts.remove(place);
    }
}

/// Gives the slot a start of its own, unless it joins the range before it, where `place` ranges begin below the slot.
pub fn put_start_at(
    starts: &mut Vec<(Slot, NodeId)>,
    place: usize,
    slot: Slot,
    owner: NodeId,
    joins: bool,
)
    requires within { place ≤ vec_len starts.old }
    requires place { IsPlace slot starts.old.items place }
    ensures capacity { vec_capacity starts.old ≤ vec_capacity starts.new }
    ensures items { (l r : List (ℕ × ℕ)) (joined : Bool) (o : ℕ) → IsAround slot o joined l r starts.old.items
        → length l + length r < vec_capacity starts.old → starts.new.items ≡ l ++ (start_unless joins slot owner ++ r) }
{
    remove_start_at(starts, place, slot);
    if !joins {
        let _ = starts.insert(place, (slot, owner));
    }
}

/// The ranges that begin so, each up to the next one.
pub fn ranges_between(alloc: Global, starts: &[(Slot, NodeId)]) -> Result<Vec<SlotRange>, Memory>
    ensures { IfOk result (λ ranges. ranges.items ≡ between 16384 starts.now) }
{
    let mut ranges = Vec::with_capacity(alloc, starts.len())?;
    for place in 0..starts.len() {
        ranges.push(range_at(starts, place))?;
    }
    Ok(ranges)
}

/// The range at this place, up to the slot before the next one.
fn range_at(starts: &[(Slot, NodeId)], place: usize) -> SlotRange
    requires { place < length starts.now }
    ensures { between 16384 (drop place starts.now) ≡ result ∷ between 16384 (drop (suc place) starts.now) }
{
    let (first, owner) = starts[place];
    let end = if place + 1 < starts.len() {
        starts[place + 1].0.get()
    } else {
        SLOTS as u16
    };
    SlotRange {
        first,
        last: Slot::of(end.saturating_sub(1)),
        owner,
    }
}

/// The starts of an even split.
pub fn even_starts(alloc: Global, owning: u8) -> Result<Vec<(Slot, NodeId)>, Memory>
    requires some { 1 ≤ owning }
    requires most { owning ≤ 255 }
    ensures room { IfOk result (λ v. 16384 ≤ vec_capacity v) }
    ensures longest { IfOk result (λ v. v.items ≡ starts_of (owners_by v.items)) }
    ensures width { IfOk result (λ v. length (owners_by v.items) ≡ 16384) }
    ensures named { IfOk result (λ v. All (λ n. n < owning) (owners_by v.items)) }
    ensures shares { IfOk result
        (λ v. (i : ℕ) (s : ℕ) → i < owning → start owning i ≤ s → s < start owning (i + 1)
        → slice_index (owners_by v.items) s ≡ i) }
{
    let mut starts = Vec::with_capacity(alloc, SLOTS)?;
    for number in 0..owning {
        starts.push((Slot::of(first_slot(owning, number)), NodeId::of(number)))?;
    }
    Ok(starts)
}

/// Where the node's slots begin.
fn first_slot(owning: u8, node: u8) -> u16
    requires some { 1 ≤ owning }
    requires within { node < owning }
    ensures value { result ≡ start owning node }
    ensures below { result < 16384 }
{
    ((SLOTS * usize::from(node) + usize::from(owning) / 2) / usize::from(owning)) as u16
}
