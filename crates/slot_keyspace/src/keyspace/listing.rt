ghost use Rattle.std.specs.Prelude.{◌≡◌, IfOk, take, length};
ghost use Rattle.slot_keyspace.specs.Listing.{keys_of};

use crate::keyspace::Keyspace;
use byte_texts::{Memory, TextList};
use key_slots::Slot;

impl Keyspace {
    /// KeyspaceExact: how many of the keys have this slot. Takes no memory.
    pub fn count_in(&self, slot: Slot) -> usize
        ensures { result ≡ length (keys_of self.now slot) }
    {
        self.slots[usize::from(slot.get())].len()
    }

    /// KeyspaceExact: the first keys of the slot, in the order of their bytes, and no more than `count`.
    pub fn keys_in(&self, slot: Slot, count: usize) -> Result<TextList, Memory>
        ensures { IfOk result (λ keys. keys ≡ take count (keys_of self.now slot)) }
    {
        self.slots[usize::from(slot.get())].first_keys(count)
    }
}
