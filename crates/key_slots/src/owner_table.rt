ghost use Rattle.std.specs.Prelude.{◌≡◌, ◌+◌, ◌≤◌, ◌<◌, ◌↔◌, IfOk, IsTrue, length, slice_index, slice_set};
ghost use Rattle.std.specs.List.{All};
ghost use Rattle.key_slots.specs.Owners.{IsEvenSplit};
ghost use Rattle.key_slots.specs.Ranges.{owner_ranges, starts_of};
ghost use Rattle.key_slots.specs.Starts.{IsNotPast, IsPlace, is_owner, owner_before};

use crate::node_id::NodeId;
use crate::slot::{SLOTS, Slot};
use crate::slot_range::SlotRange;
use crate::start_row::{even_starts, put_start_at, ranges_between, starts_below, starts_from};
use byte_texts::Memory;
use std::alloc::Global;
use std::marker::Model;

/// The owner of each slot, in a cluster of 1 to 255 nodes: the first slot and the owner of each longest range,
/// ascending, with room for as many ranges as there are slots, so that no change takes memory.
pub struct OwnerTable {
    nodes: u8,
    starts: Vec<(Slot, NodeId)>,
}

/// Written out, so that a proof sees one call where such a value is dropped.
impl Drop for OwnerTable {
    fn drop(self) {
        let Self { nodes: _, starts } = self;
        drop(starts);
    }
}

impl Model for OwnerTable {
    ghost use Rattle.std.specs.Prelude.{◌≤◌, vec_capacity};
    ghost use Rattle.key_slots.specs.Owners.{Owners, owners_code};
    ghost use Rattle.key_slots.specs.Starts.{IsRow, owners_by};

    ghost Value = { Owners };

    ghost coded = { owners_code };

    ghost view = { λ t. record { nodes = t.nodes; owners = owners_by t.starts.items } };

    ghost invariant = { λ t. IsRow t.nodes t.starts.items × (16384 ≤ vec_capacity t.starts) };
}

impl OwnerTable {
    /// SlotsExact: a cluster of so many nodes, of which the first `owning` share the slots evenly. There are 1 to 255
    /// nodes, and 1 to all of them own slots.
    pub fn even(alloc: Global, nodes: u8, owning: u8) -> Result<Self, Memory>
        requires some { 1 ≤ owning }
        requires among { owning ≤ nodes }
        requires most { nodes ≤ 255 }
        ensures { IfOk result (λ t. IsEvenSplit nodes owning t) }
    {
        let starts = even_starts(alloc, owning)?;
        Ok(Self { nodes, starts })
    }

    /// The owner of the slot.
    pub fn owner(&self, slot: Slot) -> NodeId
        ensures value { result ≡ slice_index self.now.owners slot }
        ensures named { result < self.now.nodes }
    {
        let later = starts_below(self.starts.as_slice(), slot.get() + 1);
        self.starts[later - 1].1
    }

    /// Makes the node the slot's owner. Takes no memory.
    pub fn set(&mut self, slot: Slot, node: NodeId)
        requires { node < self.old.nodes }
        ensures { self.new ≡ record self.old { owners = slice_set self.old.owners slot node } }
    {
        // The only search: what follows begins at this place or at one of the two after it.
        let place = starts_below(self.starts.as_slice(), slot.get());
        if self.owner_from(place, slot) == node {
            return;
        }
        let joins = self.is_owned_before(place, slot, node);
        if slot.get() == 16_383 {
            put_start_at(&mut self.starts, place, slot, node, joins);
        } else {
            let next = Slot::of(slot.get() + 1);
            let owner = self.owner_from(place, next);
            put_start_at(&mut self.starts, place, slot, node, joins);
            let after = starts_from(self.starts.as_slice(), place, next.get());
            put_start_at(&mut self.starts, after, next, owner, node == owner);
        }
    }

    /// The owner of the slot, where at least `place` of the ranges begin at it or below it.
    fn owner_from(&self, place: usize, slot: Slot) -> NodeId
        requires within { place ≤ length (starts_of self.now.owners) }
        requires early { IsNotPast (slot + 1) (starts_of self.now.owners) place }
        ensures { result ≡ slice_index self.now.owners slot }
    {
        let end = starts_from(self.starts.as_slice(), place, slot.get() + 1);
        self.starts[end - 1].1
    }

    /// Whether there is a slot before this one, which the node owns, where `place` ranges begin below the slot.
    fn is_owned_before(&self, place: usize, slot: Slot, node: NodeId) -> bool
        requires within { place ≤ length (starts_of self.now.owners) }
        requires place { IsPlace slot (starts_of self.now.owners) place }
        ensures { result ≡ is_owner (owner_before self.now.owners slot) node }
    {
        slot.get() != 0 && self.starts[place - 1].1 == node
    }

    /// How many nodes the cluster has.
    pub fn nodes(&self) -> u8
        ensures value { result ≡ self.now.nodes }
        ensures some { 1 ≤ result }
        ensures most { result ≤ 255 }
        ensures width { length self.now.owners ≡ 16384 }
        ensures named { All (λ n. n < self.now.nodes) self.now.owners }
    {
        self.nodes
    }

    /// The first slot and the owner of each longest range of slots with one owner, ascending. Takes no memory.
    pub fn starts(&self) -> &[(Slot, NodeId)]
        ensures { result.now ≡ starts_of self.now.owners }
    {
        self.starts.as_slice()
    }

    /// The longest ranges of slots with one owner, ascending.
    pub fn ranges(&self) -> Result<Vec<SlotRange>, Memory>
        ensures { IfOk result (λ ranges. ranges.items ≡ owner_ranges self.now.owners) }
    {
        ranges_between(*self.starts.allocator(), self.starts.as_slice())
    }

    /// Whether the other table has as many nodes and the same owners. Takes no memory.
    pub fn same(&self, other: &Self) -> bool
        ensures { IsTrue result ↔ (self.now ≡ other.now) }
    {
        self.nodes == other.nodes && self.starts == other.starts
    }

    /// An equal table of its own.
    pub fn try_copy(&self) -> Result<Self, Memory>
        ensures { IfOk result (λ t. t ≡ self.now) }
    {
        let mut starts = Vec::with_capacity(*self.starts.allocator(), SLOTS)?;
        starts.extend_from_slice(self.starts.as_slice())?;
        Ok(Self {
            nodes: self.nodes,
            starts,
        })
    }
}
