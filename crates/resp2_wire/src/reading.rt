ghost use Rattle.std.specs.Prelude.{◌≡◌, ◌≤◌, ◌<◌, ◌+◌, List, ◌∷◌, length, IfOk, IfSome, Ok};
ghost use Rattle.resp2_wire.specs.Reading.{Reads, byte_at, before_cr, header_at};
ghost use Rattle.resp2_wire.specs.Reading.{count_at, length_at, text_at, word_at};
ghost use Rattle.resp2_wire.specs.ShortHeaders.{Counts};

use crate::fault::{Stop, WireFault};
use crate::request::MAX_WORDS;
use byte_texts::{MAX_BYTES, Numeral, numeral_of};

pub fn after_byte(bytes: &[u8], wanted: u8, fault: WireFault) -> Result<&[u8], Stop>
    ensures { Reads (λ x. (wanted, x.now)) result (byte_at wanted fault bytes.now) }
{
    match bytes {
        [] => Err(Stop::Unfinished),
        [first, rest @ ..] => {
            if *first == wanted {
                Ok(rest)
            } else {
                Err(Stop::Fault(fault))
            }
        }
    }
}

/// What stands before the first CR among the first 21 bytes, and what stands after it.
fn before_cr(bytes: &[u8], fault: WireFault) -> Result<(&[u8], &[u8]), Stop>
    ensures found { Reads (λ x. (x.0.now, x.1.now)) result (before_cr fault 21 bytes.now) }
    ensures short { IfOk result (λ x. length x.0.now ≤ 21) }
{
    for i in 0..21 {
        if i >= bytes.len() {
            return Err(Stop::Unfinished);
        }
        if bytes[i] == b'\r' {
            return Ok((&bytes[..i], &bytes[i + 1..]));
        }
    }
    Err(Stop::Fault(fault))
}

/// The digit that the byte is, if it is one.
fn digit_of(byte: u8) -> Option<u64>
    ensures { IfSome result (λ d. (d < 10) × (byte ≡ 48 + d)) }
{
    if byte.is_ascii_digit() {
        Some(u64::from(byte - b'0'))
    } else {
        None
    }
}

/// The digit at the beginning, where that is 1 to 9, and what follows it.
pub fn first_digit_of(bytes: &[u8]) -> Option<(u64, &[u8])>
    ensures { IfSome result (λ x. (0 < x.0) × (x.0 < 10) × (bytes.now ≡ (48 + x.0) ∷ x.1.now)) }
{
    let (first, rest) = bytes.split_first()?;
    let digit = digit_of(*first)?;
    if digit == 0 {
        return None;
    }
    Some((digit, rest))
}

/// What follows the LF at the beginning.
fn after_lf(bytes: &[u8]) -> Option<&[u8]>
    ensures { IfSome result (λ rest. bytes.now ≡ 10 ∷ rest.now) }
{
    let (first, rest) = bytes.split_first()?;
    if *first == b'\n' { Some(rest) } else { None }
}

/// A number of one to 19 digits, the first of which is not 0, and its line's end, as nearly all headers are. Of another
/// header nothing is told: it may be good.
fn short_header_at(bytes: &[u8]) -> Option<(u64, &[u8])>
    ensures { IfSome result (λ x. Counts bytes.now x.0 x.1.now) }
{
    let (mut number, mut rest) = first_digit_of(bytes)?;
    for _ in 0..18u32 {
        let (next, after) = rest.split_first()?;
        if *next == b'\r' {
            let rest = after_lf(after)?;
            return Some((number, rest));
        }
        number = number * 10 + digit_of(*next)?;
        rest = after;
    }
    let rest = rest.strip_prefix(b"\r\n")?;
    Some((number, rest))
}

/// A number and its line's end, of any form; most of these are a null's and zeros.
#[inline(never)]
#[tactic(auto, unfolding(crate::specs::Reading::header_at))]
fn any_header_at(bytes: &[u8], fault: WireFault) -> Result<(Numeral, &[u8]), Stop>
    ensures { Reads (λ x. (x.0, x.1.now)) result (header_at fault bytes.now) }
{
    if let Some(rest) = bytes.strip_prefix(b"-1\r\n") {
        return Ok((
            Numeral {
                negative: true,
                size: 1,
            },
            rest,
        ));
    }
    if let Some(rest) = bytes.strip_prefix(b"0\r\n") {
        return Ok((
            Numeral {
                negative: false,
                size: 0,
            },
            rest,
        ));
    }
    let (text, rest) = before_cr(bytes, fault)?;
    let rest = after_byte(rest, b'\n', WireFault::MissingCrLf)?;
    match numeral_of(text) {
        Some(number) => Ok((number, rest)),
        None => Err(Stop::Fault(fault)),
    }
}

/// A number and its line's end. It is inlined, since what it returns is wide and mostly looked at at once.
#[inline(always)]
pub fn header_at(bytes: &[u8], fault: WireFault) -> Result<(Numeral, &[u8]), Stop>
    ensures { Reads (λ x. (x.0, x.1.now)) result (header_at fault bytes.now) }
{
    if let Some((size, rest)) = short_header_at(bytes) {
        let size = u128::from(size);
        return Ok((
            Numeral {
                negative: false,
                size,
            },
            rest,
        ));
    }
    any_header_at(bytes, fault)
}

/// How many words a request has: none where the count is 0 or below.
#[tactic(auto, unfolding(crate::specs::Reading::count_at))]
pub fn count_at(bytes: &[u8]) -> Result<(usize, &[u8]), Stop>
    ensures read { Reads (λ x. (x.0, x.1.now)) result (count_at bytes.now) }
    ensures limit { IfOk result (λ x. x.0 ≤ MAX_WORDS) }
{
    let rest = after_byte(bytes, b'*', WireFault::NotArray)?;
    let (count, rest) = header_at(rest, WireFault::BadCount)?;
    if count.negative {
        return Ok((0, rest));
    }
    if count.size > MAX_WORDS as u128 {
        return Err(Stop::Fault(WireFault::TooLarge));
    }
    Ok((count.size as usize, rest))
}

#[tactic(auto, unfolding(crate::specs::Reading::length_at))]
fn length_at(bytes: &[u8]) -> Result<(usize, &[u8]), Stop>
    ensures read { Reads (λ x. (x.0, x.1.now)) result (length_at bytes.now) }
    ensures limit { IfOk result (λ x. x.0 ≤ MAX_BYTES) }
{
    let rest = after_byte(bytes, b'$', WireFault::NotBulk)?;
    let (length, rest) = header_at(rest, WireFault::BadLength)?;
    if length.negative {
        return Err(Stop::Fault(WireFault::BadLength));
    }
    if length.size > MAX_BYTES as u128 {
        return Err(Stop::Fault(WireFault::TooLarge));
    }
    Ok((length.size as usize, rest))
}

/// The bulk string at the beginning, and what follows it.
#[tactic(auto, unfolding(crate::specs::Reading::word_at))]
pub fn word_at(bytes: &[u8]) -> Result<(&[u8], &[u8]), Stop>
    ensures read { Reads (λ x. (x.0.now, x.1.now)) result (word_at bytes.now) }
    ensures limit { IfOk result (λ x. length x.0.now ≤ MAX_BYTES) }
{
    let (length, rest) = length_at(bytes)?;
    if rest.len() < length {
        return Err(Stop::Unfinished);
    }
    let (text, rest) = rest.split_at(length);
    let rest = after_byte(rest, b'\r', WireFault::MissingCrLf)?;
    let rest = after_byte(rest, b'\n', WireFault::MissingCrLf)?;
    Ok((text, rest))
}
