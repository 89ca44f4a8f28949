//! The words of requests for the keys of a slot.
ghost use Rattle.std.specs.Prelude.{◌≡◌, IfOk};
ghost use Rattle.server_commands.specs.Spelling.{count_words, listing_words};

use crate::words::{put, put_number};
use byte_texts::{Memory, TextList};
use key_slots::Slot;
use std::alloc::Global;

/// `CLUSTER COUNTKEYSINSLOT slot`
pub fn count_words(alloc: Global, slot: Slot) -> Result<TextList, Memory>
    ensures { IfOk result (λ l. l ≡ count_words slot) }
{
    let mut words = TextList::new(alloc);
    put(&mut words, alloc, b"CLUSTER")?;
    put(&mut words, alloc, b"COUNTKEYSINSLOT")?;
    put_number(&mut words, alloc, u32::from(slot.get()))?;
    Ok(words)
}

/// `CLUSTER GETKEYSINSLOT slot count`
pub fn listing_words(alloc: Global, slot: Slot, count: u32) -> Result<TextList, Memory>
    ensures { IfOk result (λ l. l ≡ listing_words slot count) }
{
    let mut words = TextList::new(alloc);
    put(&mut words, alloc, b"CLUSTER")?;
    put(&mut words, alloc, b"GETKEYSINSLOT")?;
    put_number(&mut words, alloc, u32::from(slot.get()))?;
    put_number(&mut words, alloc, count)?;
    Ok(words)
}
