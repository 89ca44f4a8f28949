//! Texts in order, among which one is found in few steps.
ghost use Rattle.std.specs.Prelude.{◌≡◌, ◌<◌, ◌≤◌, ◌+◌, length};
ghost use Rattle.std.specs.List.Sorted.{IsPermutation};
ghost use Rattle.typed_values.specs.Fingerprints.{ends_of, fingerprint, hash_of, mixed, mixed_each, word_at};
ghost use Rattle.typed_values.specs.Fingerprints.{AreFingerprints};
ghost use Rattle.typed_values.specs.Members.{has};

use byte_texts::Text;
use std::marker::Model;

/// Texts in the order of their bytes, with the fingerprints that they have. Of many texts that are asked for, most are
/// none of these and have the fingerprint of none: that is told without a search, which compares texts at each step.
#[derive(Drop)]
pub(crate) struct SortedTexts {
    texts: Vec<Text>,
    fingerprints: [bool; 256],
}

impl Model for SortedTexts {
    ghost use Rattle.std.specs.Prelude.{List, ℕ};
    ghost use Rattle.std.specs.List.Sorted.{IsSorted};
    ghost use Rattle.std.specs.Ordering.{nat_cmp};
    ghost use Rattle.std.specs.Cmp.Lexicographic.{slice_cmp};
    ghost use Rattle.typed_values.specs.Fingerprints.{AreFingerprints};

    ghost Value = { List (List ℕ) };

    ghost view = { λ s. s.texts.items };

    ghost invariant = { λ s. IsSorted (slice_cmp nat_cmp) s.texts.items
        × AreFingerprints s.texts.items s.fingerprints };
}

impl SortedTexts {
    /// The texts, put in order where they are: it takes no memory.
    pub(crate) fn from_vec(mut texts: Vec<Text>) -> Self
        ensures { IsPermutation texts.items result }
    {
        texts.sort_unstable_by(|text, other| text.get().cmp(other.get()));
        let fingerprints = fingerprints_of(texts.as_slice());
        Self {
            texts,
            fingerprints,
        }
    }

    /// Whether one of them is this one.
    pub(crate) fn contains(&self, text: &[u8]) -> bool
        ensures { result ≡ has self.now text.now }
    {
        if !self.fingerprints[fingerprint(text)] {
            return false;
        }
        self.texts
            .as_slice()
            .binary_search_by(|other| other.get().cmp(text))
            .is_ok()
    }
}

// Which fingerprints the texts have, each at its number.
fn fingerprints_of(texts: &[Text]) -> [bool; 256]
    ensures { AreFingerprints texts.now result }
{
    let mut fingerprints = [false; 256];
    for text in texts {
        fingerprints[fingerprint(text.get())] = true;
    }
    fingerprints
}

// A number that mostly differs where the texts do. It goes by the length and, of a text of at most 64 bytes, by the
// first eight bytes, the eight in the middle and the last eight, so that up to 24 bytes all count. Of a longer one it
// goes by the first 24 alone, which a search looks at anyway: the others may lie where nothing else is read.
#[tactic(auto, unfolding(crate::specs::Fingerprints::fingerprint))]
fn fingerprint(text: &[u8]) -> usize
    ensures number { result ≡ fingerprint text.now }
    ensures within { result < 256 }
{
    let read = if text.len() > 64 { &text[..24] } else { text };
    (hash_of(text.len() as u64, read) >> 56) as usize
}

// The number with the text in it: each byte of a text of fewer than four, the first four bytes and the last four of one
// of fewer than eight, else three words.
#[tactic(auto, unfolding(crate::specs::Fingerprints::hash_of))]
fn hash_of(number: u64, text: &[u8]) -> u64
    ensures { result ≡ hash_of number text.now }
{
    let length = text.len();
    if length < 4 {
        return with_each(number, text);
    }
    if length < 8 {
        return mixed(number, ends_of(text));
    }
    let hash = mixed(number, word_at(text, 0));
    let hash = mixed(hash, word_at(text, (length - 8) / 2));
    mixed(hash, word_at(text, length - 8))
}

// The number with each byte in it.
fn with_each(number: u64, text: &[u8]) -> u64
    ensures { result ≡ mixed_each number text.now }
{
    let mut hash = number;
    let mut left = text;
    while let [byte, rest @ ..] = left {
        hash = mixed(hash, u64::from(*byte));
        left = rest;
    }
    hash
}

// The first four bytes and the last four.
#[tactic(auto, unfolding(crate::specs::Fingerprints::ends_of))]
fn ends_of(text: &[u8]) -> u64
    requires { 4 ≤ length text.now }
    ensures { result ≡ ends_of text.now }
{
    let end = text.len() - 4;
    u64::from_le_bytes([
        text[0],
        text[1],
        text[2],
        text[3],
        text[end],
        text[end + 1],
        text[end + 2],
        text[end + 3],
    ])
}

// The eight bytes from there on.
#[tactic(auto, unfolding(crate::specs::Fingerprints::word_at))]
fn word_at(text: &[u8], place: usize) -> u64
    requires { place + 8 ≤ length text.now }
    ensures { result ≡ word_at text.now place }
{
    u64::from_le_bytes([
        text[place],
        text[place + 1],
        text[place + 2],
        text[place + 3],
        text[place + 4],
        text[place + 5],
        text[place + 6],
        text[place + 7],
    ])
}

// Both numbers in one, whose highest bits go by all of theirs (Fibonacci hashing, by Knuth).
#[tactic(auto, unfolding(crate::specs::Fingerprints::mixed))]
fn mixed(hash: u64, word: u64) -> u64
    ensures { result ≡ mixed hash word }
{
    hash.wrapping_add(word).wrapping_mul(0x9e37_79b9_7f4a_7c15)
}
