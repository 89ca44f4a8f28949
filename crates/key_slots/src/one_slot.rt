//! Whether keys are all of one slot.
ghost use Rattle.std.specs.Prelude.{◌≡◌};
ghost use Rattle.key_slots.specs.OneSlot.{are_of, has_other_slot, have_one_slot};

use crate::hash_slot::slot_of;
use crate::slot::Slot;
use byte_texts::Text;

/// Whether all keys are of the slot.
pub fn are_of(keys: &[Text], slot: Slot) -> bool
    ensures { result ≡ are_of slot keys.now }
{
    keys.iter().all(|key| slot_of(key.get()) == slot)
}

/// Whether one of the keys is of another slot.
pub fn has_other_slot(slot: Slot, keys: &[Text]) -> bool
    ensures { result ≡ has_other_slot slot keys.now }
{
    keys.iter().any(|key| slot_of(key.get()) != slot)
}

/// Whether the keys are all of the first one's slot.
pub fn have_one_slot(keys: &[Text]) -> bool
    ensures { result ≡ have_one_slot keys.now }
{
    match keys.first() {
        Some(first) => are_of(keys, slot_of(first.get())),
        None => true,
    }
}
