ghost use Rattle.std.specs.Prelude.{◌≡◌, ◌↔◌, IfOk, IsTrue, not, is_some};
ghost use Rattle.std.specs.List.{list_all};
ghost use Rattle.std.specs.FinMap as finite;
ghost use Rattle.slot_marks.specs.Rows.{AreOfSlots};

use byte_texts::Memory;
use key_slots::{NodeId, SLOTS, Slot};
use std::alloc::Global;
use std::marker::Model;

/// At most one mark for each slot, with a place for each made at once, so that no change takes memory.
pub struct MarkRow {
    places: Vec<Option<NodeId>>,
}

/// Written out, so that a proof sees one call where such a value is dropped.
impl Drop for MarkRow {
    fn drop(self) {
        let Self { places } = self;
        drop(places);
    }
}

impl Model for MarkRow {
    ghost use Rattle.std.specs.Prelude.{◌≡◌, length};
    ghost use Rattle.slot_marks.specs.Tables.{Marks, marks_code};
    ghost use Rattle.slot_marks.specs.Rows.{marks_of};

    ghost Value = { Marks };

    ghost coded = { marks_code };

    ghost view = { λ r. marks_of r.places.items };

    ghost invariant = { λ r. length r.places.items ≡ 16384 };
}

impl MarkRow {
    /// No marks.
    pub fn new(alloc: Global) -> Result<Self, Memory>
        ensures { IfOk result (λ r. r ≡ finite.empty) }
    {
        let mut places = Vec::new(alloc);
        places.resize(SLOTS, None)?;
        Ok(Self { places })
    }

    /// The slot's mark.
    pub fn get(&self, slot: Slot) -> Option<NodeId>
        ensures { result ≡ finite.get self.now slot }
    {
        self.places[usize::from(slot.get())]
    }

    /// Marks the slot, in the place of any mark that it has.
    pub fn set(&mut self, slot: Slot, node: NodeId)
        ensures { self.new ≡ finite.insert self.old slot node }
    {
        let place = usize::from(slot.get());
        self.places[place] = Some(node);
    }

    /// Takes the slot's mark away, if it has one.
    pub fn clear(&mut self, slot: Slot)
        ensures { self.new ≡ finite.remove self.old slot }
    {
        let place = usize::from(slot.get());
        self.places[place] = None;
    }

    /// Equal marks of their own.
    pub fn try_copy(&self) -> Result<Self, Memory>
        ensures same { IfOk result (λ r. r ≡ self.now) }
        ensures slots { AreOfSlots self.now }
    {
        let places = Vec::from_slice(*self.places.allocator(), self.places.as_slice())?;
        Ok(Self { places })
    }

    /// Whether the other row has the same marks.
    pub fn same(&self, other: &Self) -> bool
        ensures { IsTrue result ↔ (self.now ≡ other.now) }
    {
        self.places == other.places
    }

    /// Whether no slot has a mark.
    pub fn is_empty(&self) -> bool
        ensures { IsTrue result ↔ (self.now ≡ finite.empty) }
    {
        are_blank(self.places.as_slice())
    }
}

fn are_blank(places: &[Option<NodeId>]) -> bool
    ensures { result ≡ list_all (λ p. not (is_some p)) places.now }
{
    places.iter().all(|place| place.is_none())
}
