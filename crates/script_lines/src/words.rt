ghost use Rattle.std.specs.Prelude.{◌≡◌, ◌≤◌, ◌<◌, ◌++◌, ◌∷◌, [], Some, None, Ok, true, false, length, map, position};
ghost use Rattle.std.specs.Prelude.{nat_eq, IfErr, IfOk, IfSome, MatchOption, MatchResult};
ghost use Rattle.std.specs.List.{list_any};
ghost use Rattle.byte_texts.specs.Outcomes.{IsAnswered};
ghost use Rattle.script_lines.specs.Faults.{Gives, IsHaltOf};
ghost use Rattle.script_lines.specs.declared.fault.Halt.TheVariants.{Memory};
ghost use Rattle.script_lines.specs.Words.{words, hex_digit, hex_byte, with_byte};
ghost use Rattle.script_lines.specs.Words.{unescape, text, stands_for};

use crate::fault::{Halt, ScriptFault};
use byte_texts::{MAX_BYTES, Parts, Text, part_list};
use std::alloc::{AllocError, Global};

/// The words of a line, which one space parts: a double space, or one at an end, would make an empty word,
/// and a line with such a word has no form.
pub fn split_words<'a>(alloc: Global, line: &'a [u8]) -> Result<Vec<&'a [u8]>, Halt>
    ensures value { MatchResult result (λ ws. words line.now ≡ Ok (map (λ w. w.now) ws.items))
        (λ h. IsHaltOf (words line.now) h) }
    ensures memory { IfErr result (λ h. h ≡ Memory → IsAnswered (words line.now)) }
{
    if Parts::of(line, b' ').are_words() {
        Ok(part_list(alloc, line, b' ')?)
    } else {
        Err(Halt::Fault(ScriptFault::Verb))
    }
}

/// The text that a word stands for: `""` for the empty text, and `\xHH` for one byte.
pub fn text_of(alloc: Global, word: &[u8]) -> Result<Text, Halt>
    ensures { Gives (text word.now) result }
{
    if word == b"\"\"".as_slice() {
        return Ok(Text::empty(alloc));
    }
    let bytes = unescape(alloc, word)?;
    if bytes.len() > MAX_BYTES {
        return Err(Halt::Fault(ScriptFault::Word));
    }
    Ok(Text::from_vec(bytes))
}

fn unescape(alloc: Global, word: &[u8]) -> Result<Vec<u8>, Halt>
    ensures { MatchResult result (λ bytes. unescape word.now ≡ Ok bytes.items) (λ h. IsHaltOf (unescape word.now) h) }
{
    if !has_escape(word) {
        return Ok(Vec::from_slice(alloc, word)?);
    }
    let mut bytes = Vec::new(alloc);
    let mut rest = word;
    while let Some((byte, remaining)) = next_byte(rest) {
        let Some(byte) = byte else {
            return Err(Halt::Fault(ScriptFault::Word));
        };
        bytes.push(byte)?;
        rest = remaining;
    }
    Ok(bytes)
}

fn has_escape(word: &[u8]) -> bool
    ensures { result ≡ list_any (λ b. nat_eq b 92) word.now }
{
    word.contains(&b'\\')
}

/// The first byte that the word stands for, or none where its escape is bad, and the rest of the word.
fn next_byte(word: &[u8]) -> Option<(Option<u8>, &[u8])>
    ensures byte { MatchOption result (unescape word.now ≡ Ok [])
        (λ r. unescape word.now ≡ with_byte r.0 (unescape r.1.now)) }
    ensures shorter { IfSome result (λ r. length r.1.now < length word.now) }
{
    match word {
        [] => None,
        [b'\\', b'x', high, low, rest @ ..] => Some((hex_byte(*high, *low), rest)),
        [b'\\', rest @ ..] => Some((None, rest)),
        [byte, rest @ ..] => Some((Some(*byte), rest)),
    }
}

fn hex_byte(high: u8, low: u8) -> Option<u8>
    ensures { result ≡ hex_byte high low }
{
    Some(hex_digit(high)? * 16 + hex_digit(low)?)
}

/// The value of a lower case hexadecimal digit.
fn hex_digit(digit: u8) -> Option<u8>
    ensures value { result ≡ hex_digit digit }
    ensures within { IfSome result (λ d. d < 16) }
{
    match digit {
        b'0'..=b'9' => Some(digit - b'0'),
        b'a'..=b'f' => Some(digit - b'a' + 10),
        _ => None,
    }
}

/// Whether the word stands for the verb; a bad escape makes it none.
pub fn is_verb(alloc: Global, word: &[u8], verb: &[u8]) -> Result<bool, Halt>
    requires plain { text verb.now ≡ Ok verb.now }
    ensures { Gives (Ok (stands_for verb.now word.now)) result }
{
    if word == verb {
        return Ok(true);
    }
    match text_of(alloc, word) {
        Ok(text) => Ok(text.get() == verb),
        Err(Halt::Fault(_)) => Ok(false),
        Err(halt) => Err(halt),
    }
}
