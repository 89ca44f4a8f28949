ghost use Rattle.std.specs.Prelude.{◌≡◌, ◌<◌, IfOk, None, Some, ℕ, length, slice_index_or, slice_set};

use byte_texts::Memory;
use key_slots::{SLOTS, Slot};
use std::alloc::Global;
use std::marker::Model;

/// For each slot that is on its way to one node, the place in the trail of the event since which it is.
pub(crate) struct ImportRow {
    places: Vec<Option<usize>>,
}

/// Written out, so that a proof sees one call where such a value is dropped.
impl Drop for ImportRow {
    fn drop(self) {
        let Self { places } = self;
        drop(places);
    }
}

impl Model for ImportRow {
    ghost use Rattle.std.specs.Prelude.{◌≡◌, length};
    ghost use Rattle.cluster_world.specs.Imported.{Places, places_code};

    ghost Value = { Places };

    ghost coded = { places_code };

    ghost view = { λ r. r.places.items };

    ghost invariant = { λ r. length r.places.items ≡ 16384 };
}

impl ImportRow {
    /// No slot is on its way.
    pub(crate) fn new(alloc: Global) -> Result<Self, Memory>
        ensures { IfOk result (λ r. (s : ℕ) → slice_index_or r s None ≡ None) }
    {
        let mut places = Vec::new(alloc);
        places.resize(SLOTS, None)?;
        Ok(Self { places })
    }

    /// The place since which the slot is on its way.
    pub(crate) fn since(&self, slot: Slot) -> Option<usize>
        ensures { result ≡ slice_index_or self.now slot None }
    {
        self.places[usize::from(slot.get())]
    }

    /// The slot is on its way since this place.
    pub(crate) fn begin(&mut self, slot: Slot, place: usize)
        ensures row { self.new ≡ slice_set self.old slot (Some place) }
        ensures inside { slot < length self.old }
    {
        let index = usize::from(slot.get());
        self.places[index] = Some(place);
    }

    /// The slot is on its way no more.
    pub(crate) fn end(&mut self, slot: Slot)
        ensures row { self.new ≡ slice_set self.old slot None }
        ensures inside { slot < length self.old }
    {
        let index = usize::from(slot.get());
        self.places[index] = None;
    }
}
