ghost use Rattle.std.specs.Prelude.{◌≡◌, ◌≢◌, ◌≤◌, List, length, IfErr, IfOk, Ok};
ghost use Rattle.std.specs.Int.{w16, w32};
ghost use Rattle.migrate_frames.specs.Reading.{Gives, bytes_at, number_at, piece_at};
ghost use Rattle.migrate_frames.specs.declared.fault.FrameFault.TheVariants.{Memory};

use crate::fault::FrameFault;
use byte_texts::Text;
use std::alloc::Global;

/// The most entries of a frame.
const MAX_ENTRIES: usize = 1000;

/// The most bytes of a piece, and the most elements of a collection.
const MOST: usize = 1_048_576;

/// So many bytes from the front, and those after them.
#[tactic(auto, unfolding(crate::specs::Reading::bytes_at))]
fn bytes_at(bytes: &[u8], count: usize) -> Result<(&[u8], &[u8]), FrameFault>
    ensures read { Gives (λ x. (x.0.now, x.1.now)) result (bytes_at count bytes.now) }
    ensures count { IfOk result (λ x. length x.0.now ≡ count) }
    ensures told { IfErr result (λ f. f ≢ Memory) }
{
    if bytes.len() < count {
        return Err(FrameFault::Truncated);
    }
    Ok(bytes.split_at(count))
}

/// How many entries the frame has.
#[tactic(auto, unfolding(crate::specs::Reading::number_at))]
pub fn entry_count_at(bytes: &[u8]) -> Result<(usize, &[u8]), FrameFault>
    ensures read { Gives (λ x. (x.0, x.1.now)) result (number_at w16 1 1000 bytes.now) }
    ensures some { IfOk result (λ x. 1 ≤ x.0) }
    ensures few { IfOk result (λ x. x.0 ≤ 1000) }
    ensures told { IfErr result (λ f. f ≢ Memory) }
{
    let (field, rest) = bytes_at(bytes, 2)?;
    let count = usize::from(u16::from_be_bytes([field[0], field[1]]));
    if count < 1 || count > MAX_ENTRIES {
        return Err(FrameFault::BadLength);
    }
    Ok((count, rest))
}

/// A length or a count of 32 bits, of `least` or more.
#[tactic(auto, unfolding(crate::specs::Reading::number_at))]
fn number_at(bytes: &[u8], least: usize) -> Result<(usize, &[u8]), FrameFault>
    ensures read { Gives (λ x. (x.0, x.1.now)) result (number_at w32 least 1048576 bytes.now) }
    ensures least { IfOk result (λ x. least ≤ x.0) }
    ensures most { IfOk result (λ x. x.0 ≤ 1048576) }
{
    let (field, rest) = bytes_at(bytes, 4)?;
    let number = u32::from_be_bytes([field[0], field[1], field[2], field[3]]) as usize;
    if number < least || number > MOST {
        return Err(FrameFault::BadLength);
    }
    Ok((number, rest))
}

/// How many elements a collection has.
pub fn count_at(bytes: &[u8]) -> Result<(usize, &[u8]), FrameFault>
    ensures read { Gives (λ x. (x.0, x.1.now)) result (number_at w32 1 1048576 bytes.now) }
    ensures some { IfOk result (λ x. 1 ≤ x.0) }
    ensures most { IfOk result (λ x. x.0 ≤ 1048576) }
{
    number_at(bytes, 1)
}

/// A piece, and the bytes after it.
#[tactic(auto, unfolding(crate::specs::Reading::piece_at))]
pub fn piece_at(bytes: &[u8]) -> Result<(&[u8], &[u8]), FrameFault>
    ensures read { Gives (λ x. (x.0.now, x.1.now)) result (piece_at bytes.now) }
    ensures limit { IfOk result (λ x. length x.0.now ≤ 1048576) }
{
    let (length, rest) = number_at(bytes, 0)?;
    bytes_at(rest, length)
}

/// A piece as a text of its own, and the bytes after it.
pub fn text_at(alloc: Global, bytes: &[u8]) -> Result<(Text, &[u8]), FrameFault>
    ensures { Gives (λ x. (x.0, x.1.now)) result (piece_at bytes.now) }
{
    let (piece, rest) = piece_at(bytes)?;
    Ok((Text::from_slice(alloc, piece)?, rest))
}
