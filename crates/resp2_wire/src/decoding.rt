ghost use Rattle.std.specs.Prelude.{◌≡◌, ◌≤◌, ◌<◌, List, length, take, Ok, IfOk, IfSome};
ghost use Rattle.resp2_wire.specs.declared.fault.WireFault.TheVariants.{BadCount, BadLength, TooLarge, MissingCrLf};
ghost use Rattle.resp2_wire.specs.declared.fault.WireFault.TheVariants.{BadMark};
ghost use Rattle.resp2_wire.specs.Reading.{Reads, header_at};
ghost use Rattle.resp2_wire.specs.View.{tree, trees};
ghost use Rattle.resp2_wire.specs.Replies.{Gives, line_at, simple_at, error_at, number_at, bulk_at, many, array_of};
ghost use Rattle.resp2_wire.specs.Replies.{MayTakeMemory, OnMemory, array_at, reply_at};
ghost use Rattle.byte_texts.specs.Outcomes.{IsAnswered};
ghost use Rattle.resp2_wire.specs.Encoding.{encoding};
ghost use Rattle.resp2_wire.specs.Limits.{Within};
ghost use Rattle.resp2_wire.specs.Decoding.{Decodes};

use crate::fault::{Stop, WireFault};
use crate::limits::{MAX_DEPTH, MAX_LINE_BYTES, MAX_REPLIES};
use crate::reading::{after_byte, header_at};
use crate::reply::{Reply, ReplyList};
use byte_texts::{MAX_BYTES, Numeral, Text};
use std::alloc::Global;

/// A text up to its CR LF.
fn line_at(bytes: &[u8]) -> Result<(&[u8], &[u8]), Stop>
    ensures read { Reads (λ x. (x.0.now, x.1.now)) result (line_at MAX_LINE_BYTES bytes.now) }
    ensures limit { IfOk result (λ x. length x.0.now ≤ MAX_LINE_BYTES) }
{
    for i in 0..bytes.len() {
        if bytes[i] == b'\r' {
            let (text, _) = bytes.split_at(i);
            let (_, rest) = bytes.split_at(i + 1);
            let rest = after_byte(rest, b'\n', WireFault::MissingCrLf)?;
            return Ok((text, rest));
        }
        if bytes[i] == b'\n' {
            return Err(Stop::Fault(WireFault::MissingCrLf));
        }
        if i == MAX_LINE_BYTES {
            return Err(Stop::Fault(WireFault::TooLarge));
        }
    }
    Err(Stop::Unfinished)
}

/// So many replies. Memory is taken as they come, and not by the count, which anyone can write.
#[cycle(decoding)]
fn many(alloc: Global, depth: u8, count: usize, bytes: &[u8]) -> Result<(Vec<Reply>, &[u8]), Stop>
    ensures { Gives (λ x. (trees x.0.items, x.1.now)) result
        (many (reply_at depth) count bytes.now) }
{
    let mut replies = Vec::new(alloc);
    let mut rest = bytes;
    for _ in 0..count {
        let (reply, after) = reply_at(alloc, depth, rest)?;
        replies.push(reply)?;
        rest = after;
    }
    Ok((replies, rest))
}

/// An array after its header.
#[cycle(decoding)]
fn array_of(alloc: Global, depth: u8, count: Numeral, bytes: &[u8]) -> Result<(Reply, &[u8]), Stop>
    ensures { Gives (λ x. (tree x.0, x.1.now)) result
        (array_of (reply_at depth) count bytes.now) }
{
    if count.negative {
        if count.size == 1 {
            return Ok((Reply::NullArray, bytes));
        }
        return Err(Stop::Fault(WireFault::BadCount));
    }
    if count.size > MAX_REPLIES as u128 {
        return Err(Stop::Fault(WireFault::TooLarge));
    }
    let (replies, rest) = many(alloc, depth, count.size as usize, bytes)?;
    Ok((Reply::Array(ReplyList::from_vec(replies)), rest))
}

/// An array after its mark, where this depth of arrays is left.
#[cycle(decoding)]
fn array_at(alloc: Global, depth: u8, bytes: &[u8]) -> Result<(Reply, &[u8]), Stop>
    ensures { Gives (λ x. (tree x.0, x.1.now)) result (array_at depth bytes.now) }
{
    if depth == 0 {
        return Err(Stop::Fault(WireFault::TooLarge));
    }
    let (count, rest) = header_at(bytes, WireFault::BadCount)?;
    array_of(alloc, depth - 1, count, rest)
}

#[tactic(auto, unfolding(crate::specs::Replies::number_at))]
fn number_at(bytes: &[u8]) -> Result<(Reply, &[u8]), Stop>
    ensures { Reads (λ x. (tree x.0, x.1.now)) result (number_at bytes.now) }
{
    let (number, rest) = header_at(bytes, WireFault::BadCount)?;
    if number.negative {
        if number.size > 9223372036854775808 {
            return Err(Stop::Fault(WireFault::BadCount));
        }
        let above = number.size.saturating_sub(1) as i64;
        return Ok((Reply::Number(-1 - above), rest));
    }
    if number.size > 9223372036854775807 {
        return Err(Stop::Fault(WireFault::BadCount));
    }
    Ok((Reply::Number(number.size as i64), rest))
}

#[tactic(auto, unfolding(crate::specs::Replies::bulk_at))]
fn bulk_at(alloc: Global, bytes: &[u8]) -> Result<(Reply, &[u8]), Stop>
    ensures read { Gives (λ x. (tree x.0, x.1.now)) result (bulk_at bytes.now) }
    ensures memory { OnMemory result (IsAnswered (bulk_at bytes.now)) }
{
    let (length, rest) = header_at(bytes, WireFault::BadLength)?;
    if length.negative {
        if length.size == 1 {
            return Ok((Reply::Null, rest));
        }
        return Err(Stop::Fault(WireFault::BadLength));
    }
    if length.size > MAX_BYTES as u128 {
        return Err(Stop::Fault(WireFault::TooLarge));
    }
    let length = length.size as usize;
    if rest.len() < length {
        return Err(Stop::Unfinished);
    }
    let (text, rest) = rest.split_at(length);
    let rest = after_byte(rest, b'\r', WireFault::MissingCrLf)?;
    let rest = after_byte(rest, b'\n', WireFault::MissingCrLf)?;
    Ok((Reply::Bulk(Text::from_slice(alloc, text)?), rest))
}

#[tactic(auto, unfolding(crate::specs::Replies::simple_at))]
fn simple_at(alloc: Global, bytes: &[u8]) -> Result<(Reply, &[u8]), Stop>
    ensures read { Gives (λ x. (tree x.0, x.1.now)) result (simple_at bytes.now) }
    ensures memory { OnMemory result (IsAnswered (simple_at bytes.now)) }
{
    let (text, rest) = line_at(bytes)?;
    Ok((Reply::Simple(Text::from_slice(alloc, text)?), rest))
}

#[tactic(auto, unfolding(crate::specs::Replies::error_at))]
fn error_at(alloc: Global, bytes: &[u8]) -> Result<(Reply, &[u8]), Stop>
    ensures read { Gives (λ x. (tree x.0, x.1.now)) result (error_at bytes.now) }
    ensures memory { OnMemory result (IsAnswered (error_at bytes.now)) }
{
    let (text, rest) = line_at(bytes)?;
    Ok((Reply::Error(Text::from_slice(alloc, text)?), rest))
}

/// A reply, where this depth of arrays is left.
#[cycle(decoding)]
#[tactic(auto, unfolding(crate::specs::Replies::by_mark))]
fn reply_at(alloc: Global, depth: u8, bytes: &[u8]) -> Result<(Reply, &[u8]), Stop>
    ensures read { Gives (λ x. (tree x.0, x.1.now)) result (reply_at depth bytes.now) }
    ensures memory { OnMemory result (MayTakeMemory depth bytes.now) }
{
    let Some((mark, rest)) = bytes.split_first() else {
        return Err(Stop::Unfinished);
    };
    if *mark == b'+' {
        return simple_at(alloc, rest);
    }
    if *mark == b'-' {
        return error_at(alloc, rest);
    }
    if *mark == b':' {
        return number_at(rest);
    }
    if *mark == b'$' {
        return bulk_at(alloc, rest);
    }
    if *mark == b'*' {
        return array_at(alloc, depth, rest);
    }
    Err(Stop::Fault(WireFault::BadMark))
}

/// WireExact: the reply at the beginning of the bytes, and how many bytes it took; what stands after it is not looked
/// at.
///
/// `None` means that the bytes end before the reply does, and that no fault stands in them. A fault is the leftmost one
/// and stays whatever follows. Out of memory may come before the fault of an array, whose replies are kept as they are
/// read, and in the place of no other fault.
pub fn decode_reply(alloc: Global, bytes: &[u8]) -> Result<Option<(Reply, usize)>, WireFault>
    ensures decodes { Decodes bytes.now result }
    // Nothing is read but the reply's spelling.
    ensures spelled { IfOk result
        (λ found. IfSome found (λ x. take x.1 bytes.now ≡ encoding (tree x.0))) }
    ensures within { IfOk result (λ found. IfSome found (λ x. Within MAX_DEPTH (tree x.0))) }
{
    match reply_at(alloc, MAX_DEPTH, bytes) {
        Ok((reply, rest)) => Ok(Some((reply, bytes.len() - rest.len()))),
        Err(Stop::Unfinished) => Ok(None),
        Err(Stop::Fault(fault)) => Err(fault),
    }
}
