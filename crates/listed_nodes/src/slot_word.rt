ghost use Rattle.std.specs.Prelude.{◌≡◌, ◌∷◌, [], IfOk};
ghost use Rattle.byte_texts.specs.Parts.{parts};
ghost use Rattle.listed_nodes.specs.SlotWords.{mark_of, opened_slot_in, slot_word_in, slot_words_in};

use crate::name::closed_name_in;
use byte_texts::{Memory, Parts, Text, is};
use key_slots::Slot;
use std::alloc::Global;
use std::marker::Model;

/// A word after a node's link state: slots that it owns, or, in the line of the server that answers, a mark.
#[derive(Drop)]
pub enum SlotWord {
    /// From the first to the last.
    Slots(Slot, Slot),
    /// The slot is on its way to the node of this name.
    Migrating(Slot, Text),
    /// The slot comes from the node of this name.
    Importing(Slot, Text),
}

/// What a line says of slots.
pub struct SlotWords {
    words: Vec<SlotWord>,
}

/// Written out, so that a proof sees one call where such a value is dropped.
impl Drop for SlotWords {
    fn drop(self) {
        let Self { words } = self;
        drop(words);
    }
}

impl Model for SlotWords {
    ghost use Rattle.std.specs.Prelude.{List};
    ghost use Rattle.listed_nodes.specs.declared.slot_word.SlotWord.{SlotWord};

    ghost Value = { List SlotWord };

    ghost view = { λ w. w.words.items };
}

impl SlotWords {
    /// The words.
    pub fn get(&self) -> &[SlotWord]
        ensures { result.now ≡ self.now }
    {
        self.words.as_slice()
    }
}

/// The slot after a mark's `[`.
fn opened_slot_in(word: &[u8]) -> Option<Slot>
    ensures { result ≡ opened_slot_in word.now }
{
    match word {
        [first, rest @ ..] if *first == b'[' => Slot::parse(rest),
        _ => None,
    }
}

/// The mark with this arrow.
fn mark_of(arrow: &[u8], slot: Slot, name: Text) -> Option<SlotWord>
    ensures { result ≡ mark_of arrow.now slot name }
{
    if is(arrow, b">") {
        Some(SlotWord::Migrating(slot, name))
    } else if is(arrow, b"<") {
        Some(SlotWord::Importing(slot, name))
    } else {
        None
    }
}

/// The slots from the first to the last, which is the higher one.
fn range_of(first: &[u8], last: &[u8]) -> Option<SlotWord>
    ensures { result ≡ slot_word_in (first.now ∷ (last.now ∷ [])) }
{
    let first = Slot::parse(first)?;
    let last = Slot::parse(last)?;
    if first < last {
        Some(SlotWord::Slots(first, last))
    } else {
        None
    }
}

/// A mark of these three parts.
fn mark_in(
    alloc: Global,
    slot: &[u8],
    arrow: &[u8],
    name: &[u8],
) -> Result<Option<SlotWord>, Memory>
    ensures { IfOk result (λ o. o ≡ slot_word_in (slot.now ∷ (arrow.now ∷ (name.now ∷ [])))) }
{
    let Some(slot) = opened_slot_in(slot) else {
        return Ok(None);
    };
    match closed_name_in(alloc, name)? {
        Some(name) => Ok(mark_of(arrow, slot, name)),
        None => Ok(None),
    }
}

/// What the word says of slots, if it is such a word.
pub fn slot_word_in(alloc: Global, word: &[u8]) -> Result<Option<SlotWord>, Memory>
    ensures { IfOk result (λ o. o ≡ slot_word_in (parts 45 word.now)) }
{
    let mut parts = Parts::of(word, b'-');
    let Some(first) = parts.next() else {
        return Ok(None);
    };
    let Some(second) = parts.next() else {
        return match Slot::parse(first) {
            Some(slot) => Ok(Some(SlotWord::Slots(slot, slot))),
            None => Ok(None),
        };
    };
    let Some(third) = parts.next() else {
        return Ok(range_of(first, second));
    };
    if parts.is_empty() {
        mark_in(alloc, first, second, third)
    } else {
        Ok(None)
    }
}

/// What the words that are left say, if all are such words.
pub(crate) fn slot_words_in(alloc: Global, mut words: Parts) -> Result<Option<SlotWords>, Memory>
    ensures { IfOk result (λ o. o ≡ slot_words_in words.entry) }
{
    let mut found = Vec::new(alloc);
    while let Some(word) = words.next() {
        match slot_word_in(alloc, word)? {
            Some(slots) => found.push(slots)?,
            None => return Ok(None),
        }
    }
    Ok(Some(SlotWords { words: found }))
}
