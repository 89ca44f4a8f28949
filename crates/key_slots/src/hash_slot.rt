ghost use Rattle.std.specs.Prelude.{◌≡◌, ◌<◌};
ghost use Rattle.key_slots.specs.HashSlot.{slot_of, IsSlotOf};

use crate::crc16::crc16;
use crate::hash_tag::tag_of;
use crate::slot::{SLOTS, Slot};

/// SlotsExact: the hash slot of the key.
pub fn slot_of(key: &[u8]) -> Slot
    ensures value { result ≡ slot_of key.now }
    ensures within { result < 16384 }
    ensures exact { IsSlotOf key.now result }
{
    Slot::of(crc16(tag_of(key)) % SLOTS as u16)
}
