ghost use Rattle.std.specs.Prelude.{◌≡◌, ◌≢◌, ◌<◌, ◌≤◌, ◌+◌, ◌↔◌, [], ◌∷◌, position, nat_eq, length, map};
ghost use Rattle.std.specs.List.{position_or_len};
ghost use Rattle.std.specs.Simd.Lanes.{chunk};
ghost use Rattle.std.specs.Prelude.{IfOk, IfSome, IsTrue, MatchOption, option_map};
ghost use Rattle.byte_texts.specs.Parts.{are_words, is_nothing, parts, split_once};

use std::alloc::{AllocError, Global};
use std::marker::Model;
use std::simd::prelude::*;

/// The parts of a text that are left, between the bytes that part them.
#[derive(Drop)]
pub struct Parts<'a> {
    byte: u8,
    rest: &'a [u8],
    has_ended: bool,
}

impl<'a> Model for Parts<'a> {
    ghost use Rattle.std.specs.Prelude.{List, ℕ};
    ghost use Rattle.byte_texts.specs.Parts.{parts_left};

    ghost Value = { List (List ℕ) };

    ghost view = { λ p. parts_left p.byte p.has_ended p.rest.now };
}

impl<'a> Parts<'a> {
    /// All parts of the text.
    pub fn of(text: &'a [u8], byte: u8) -> Self
        ensures { result ≡ parts byte text.entry.now }
    {
        Self {
            byte,
            rest: text,
            has_ended: false,
        }
    }

    /// Takes the first part that is left.
    pub fn next(&mut self) -> Option<&'a [u8]>
        ensures { MatchOption result ((self.old ≡ []) × (self.new ≡ [])) (λ part. self.old ≡ part.now ∷ self.new) }
    {
        if self.has_ended {
            return None;
        }
        // Most parts are short words, which end sooner than 16 bytes together are looked at.
        match split_near(self.rest, self.byte) {
            Some((part, rest)) => {
                self.rest = rest;
                Some(part)
            }
            None => {
                self.has_ended = true;
                Some(self.rest)
            }
        }
    }

    /// Takes the first part that is left, where another one follows; the last one is let go.
    #[tactic(auto, using(crate::proofs::Parting::parts_some))]
    pub fn next_whole(&mut self) -> Option<&'a [u8]>
        ensures { MatchOption result (length self.old ≤ 1)
            (λ part. (self.old ≡ part.now ∷ self.new) × (self.new ≢ [])) }
    {
        if self.has_ended {
            return None;
        }
        // These are mostly lines.
        match split_once(self.rest, self.byte) {
            Some((part, rest)) => {
                self.rest = rest;
                Some(part)
            }
            None => {
                self.has_ended = true;
                None
            }
        }
    }

    /// Whether none of the parts that are left is empty.
    pub fn are_words(mut self) -> bool
        ensures { result ≡ are_words self.entry }
    {
        while let Some(word) = self.next() {
            if word.is_empty() {
                return false;
            }
        }
        true
    }

    /// Whether no byte is left.
    #[tactic(auto, using(crate::proofs::Parting::nothing, crate::proofs::Parting::something))]
    pub fn is_nothing(&self) -> bool
        ensures { result ≡ is_nothing self.now }
    {
        self.has_ended || self.rest.is_empty()
    }

    /// Whether no part is left.
    #[tactic(auto, using(crate::proofs::Parting::parts_some))]
    pub fn is_empty(&self) -> bool
        ensures { IsTrue result ↔ (self.now ≡ []) }
    {
        self.has_ended
    }
}

/// What stands before the first such byte, and what stands after it.
pub fn split_once(text: &[u8], byte: u8) -> Option<(&[u8], &[u8])>
    ensures value { option_map (λ p. (p.0.now, p.1.now)) result ≡ split_once byte text.now }
    ensures parts { MatchOption result (parts byte text.now ≡ text.now ∷ [])
        (λ p. parts byte text.now ≡ p.0.now ∷ parts byte p.1.now) }
    ensures shorter { IfSome result (λ p. length p.1.now < length text.now) }
{
    split_at_first(text, byte, place_of(text, byte))
}

/// What stands before the first such byte and after it, sought byte by byte.
fn split_near(text: &[u8], byte: u8) -> Option<(&[u8], &[u8])>
    ensures value { option_map (λ p. (p.0.now, p.1.now)) result ≡ split_once byte text.now }
    ensures parts { MatchOption result (parts byte text.now ≡ text.now ∷ [])
        (λ p. parts byte text.now ≡ p.0.now ∷ parts byte p.1.now) }
    ensures shorter { IfSome result (λ p. length p.1.now < length text.now) }
{
    split_at_first(text, byte, place_near(text, byte))
}

/// What stands before and after this place, the first with such a byte; nothing where there is no place.
#[inline(always)]
#[tactic(auto, using(crate::proofs::Parting::parts_cut))]
fn split_at_first(text: &[u8], byte: u8, place: Option<usize>) -> Option<(&[u8], &[u8])>
    requires first { place ≡ position (λ b. nat_eq b byte) text.now }
    requires within { IfSome place (λ i. i < length text.now) }
    ensures value { option_map (λ p. (p.0.now, p.1.now)) result ≡ split_once byte text.now }
    ensures parts { MatchOption result (parts byte text.now ≡ text.now ∷ [])
        (λ p. parts byte text.now ≡ p.0.now ∷ parts byte p.1.now) }
    ensures shorter { IfSome result (λ p. length p.1.now < length text.now) }
{
    match place {
        Some(at) => Some((&text[..at], &text[at + 1..])),
        None => None,
    }
}

/// The parts of the text, in a list.
pub fn part_list<'a>(alloc: Global, text: &'a [u8], byte: u8) -> Result<Vec<&'a [u8]>, AllocError>
    ensures { IfOk result (λ v. map (λ p. p.now) v.items ≡ parts byte text.now) }
{
    text.split(|b| *b == byte).collect(alloc)
}

/// Where the first such byte stands: 16 bytes are looked at together.
fn place_of(text: &[u8], byte: u8) -> Option<usize>
    ensures place { result ≡ position (λ b. nat_eq b byte) text.now }
    ensures within { IfSome result (λ i. i < length text.now) }
{
    // A short text is sooner looked through byte by byte.
    if text.len() < 16 {
        return place_near(text, byte);
    }
    let place = len_before(text, byte);
    if place < text.len() {
        Some(place)
    } else {
        None
    }
}

/// Where the first such byte stands, sought byte by byte.
fn place_near(text: &[u8], byte: u8) -> Option<usize>
    ensures place { result ≡ position (λ b. nat_eq b byte) text.now }
    ensures within { IfSome result (λ i. i < length text.now) }
{
    text.iter().position(|b| *b == byte)
}

/// How many bytes stand before the first such one. The last 16 are looked at together too, some of them twice.
fn len_before(text: &[u8], byte: u8) -> usize
    requires { 16 ≤ length text.now }
    ensures { result ≡ position_or_len (λ b. nat_eq b byte) text.now }
{
    let last = text.len() - 16;
    let mut start = 0;
    while start < last {
        let before = len_before_of_16(text, start, byte);
        if before < 16 {
            return start + before;
        }
        start += 16;
    }
    last + len_before_of_16(text, last, byte)
}

/// How many of the 16 bytes from this place on stand before the first such one.
fn len_before_of_16(text: &[u8], start: usize, byte: u8) -> usize
    requires { start + 16 ≤ length text.now }
    ensures { result ≡ position_or_len (λ b. nat_eq b byte) (chunk start 16 text.now) }
{
    let found = u8x16::from_slice(&text[start..])
        .simd_eq(u8x16::splat(byte))
        .to_bitmask();
    if found == 0 {
        16
    } else {
        found.trailing_zeros() as usize
    }
}
