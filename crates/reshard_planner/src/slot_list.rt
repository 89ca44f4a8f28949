ghost use Rattle.std.specs.Prelude.{◌≡◌, ◌-◌, ◌≤◌, ◌++◌, [], IfOk, length, OnOk, take};
ghost use Rattle.plan_language.specs.Lines.{numbers_from};
ghost use Rattle.reshard_planner.specs.Starts.{AreSlotsOf};

use crate::starts::range_at;
use byte_texts::Memory;
use key_slots::{OwnerTable, Slot};
use std::alloc::Global;
use std::marker::Model;

/// Slots in order.
#[derive(Drop)]
pub(crate) struct SlotList {
    slots: Vec<Slot>,
}

impl Model for SlotList {
    ghost use Rattle.std.specs.Prelude.{ℕ, List};

    ghost Value = { List ℕ };

    ghost view = { λ l. l.slots.items };
}

impl SlotList {
    /// The first of them, at most so many.
    pub(crate) fn lowest(&self, count: usize) -> &[Slot]
        ensures { result.now ≡ take count self.now }
    {
        let slots = self.slots.as_slice();
        &slots[..count.min(slots.len())]
    }

    /// Puts the slots from the first up to the end after the others.
    fn push_all(&mut self, first: u16, end: u16) -> Result<(), Memory>
        requires order { first ≤ end }
        requires within { end ≤ 16384 }
        ensures { OnOk result (self.new ≡ self.old ++ numbers_from first (end - first)) }
    {
        for number in first..end {
            self.slots.push(Slot::of(number))?;
        }
        Ok(())
    }
}

/// The slots of each node, ascending.
pub(crate) fn slots_by_node(alloc: Global, owners: &OwnerTable) -> Result<Vec<SlotList>, Memory>
    ensures { IfOk result (λ lists. AreSlotsOf owners.now.nodes owners.now.owners lists.items) }
{
    let nodes = owners.nodes();
    let mut lists = empty_lists(alloc, nodes)?;
    let starts = owners.starts();
    for place in 0..starts.len() {
        let range = range_at(starts, place);
        lists[usize::from(range.owner.get())].push_all(range.first, range.end)?;
    }
    Ok(lists)
}

/// An empty list for each of so many nodes.
fn empty_lists(alloc: Global, nodes: u8) -> Result<Vec<SlotList>, Memory>
    ensures { IfOk result (λ lists. AreSlotsOf nodes [] lists.items) }
{
    let mut lists = Vec::with_capacity(alloc, usize::from(nodes))?;
    for _ in 0..nodes {
        lists.push(SlotList {
            slots: Vec::new(alloc),
        })?;
    }
    Ok(lists)
}
