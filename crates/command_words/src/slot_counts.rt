//! How many slots a word says.
ghost use Rattle.std.specs.Prelude.{◌≡◌, IfSome};
ghost use Rattle.command_words.specs.SlotCounts.{IsSlotCount, slot_count, without_plus, without_zeros};

use crate::usage::SlotCount;
use byte_texts::number_in;

/// The number of slots that the word writes, 0 to 16,384; or `all`. A number may begin with `+` and with zeros, as Rust
/// reads one.
pub(crate) fn slot_count(word: &[u8]) -> Option<SlotCount>
    ensures count { result ≡ slot_count word.now }
    ensures range { IfSome result IsSlotCount }
{
    if word == b"all".as_slice() {
        return Some(SlotCount::AllOwned);
    }
    let number = number_in(without_zeros(without_plus(word)), 0, 16_384)?;
    Some(SlotCount::Exactly(number as u16))
}

fn without_plus(word: &[u8]) -> &[u8]
    ensures { result.now ≡ without_plus word.now }
{
    match word {
        [b'+', digits @ ..] => digits,
        _ => word,
    }
}

/// The digits from the first on that is not 0, or the last one.
fn without_zeros(digits: &[u8]) -> &[u8]
    ensures { result.now ≡ without_zeros digits.now }
{
    let mut left = digits;
    while let [first, others @ ..] = left {
        if *first != b'0' || others.is_empty() {
            return left;
        }
        left = others;
    }
    left
}
