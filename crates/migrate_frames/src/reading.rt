ghost use Rattle.std.specs.Prelude.{◌≡◌, ◌≤◌, ◌++◌, ◌∷◌, [], length, IfErr, IfOk, OnOk, Ok};
ghost use Rattle.std.specs.Map.{keys_of};
ghost use Rattle.migrate_frames.specs.Batches.{HasEachKeyOnce, HasNoEmptyCollection};
ghost use Rattle.migrate_frames.specs.Frames.{frame};
ghost use Rattle.migrate_frames.specs.Reading.{Gives, new_piece_at, pair_at, element_at, counted_at, as_value};
ghost use Rattle.migrate_frames.specs.Reading.{value_at, entry_at, frame_at, many, number_at, put_last};
ghost use Rattle.migrate_frames.specs.declared.fault.FrameFault.TheVariants.{Memory};
ghost use Rattle.byte_texts.specs.Outcomes.{IsAnswered};
ghost use Rattle.std.specs.Int.{w16};

use crate::collections::{elements_at, members_at, pairs_at};
use crate::fault::FrameFault;
use crate::kinds::{HASH, LIST, SET, TEXT};
use crate::pieces::{count_at, entry_count_at, piece_at, text_at};
use byte_texts::Text;
use std::alloc::Global;
use typed_values::{NamesSeen, Value};

/// A hash after the byte for its kind.
#[tactic(auto, unfolding(crate::specs::Reading::counted_at))]
fn hash_at(alloc: Global, bytes: &[u8]) -> Result<(Value, &[u8]), FrameFault>
    ensures { Gives (λ x. (x.0, x.1.now)) result (as_value (λ es. Value.Hash es) (counted_at pair_at bytes.now)) }
{
    let (count, rest) = count_at(bytes)?;
    let (fields, rest) = pairs_at(alloc, count, rest)?;
    Ok((Value::of_fields(alloc, fields)?, rest))
}

/// A list after the byte for its kind.
#[tactic(auto, unfolding(crate::specs::Reading::counted_at))]
fn list_at(alloc: Global, bytes: &[u8]) -> Result<(Value, &[u8]), FrameFault>
    ensures { Gives (λ x. (x.0, x.1.now)) result (as_value (λ l. Value.List l) (counted_at element_at bytes.now)) }
{
    let (count, rest) = count_at(bytes)?;
    let (items, rest) = elements_at(alloc, count, rest)?;
    Ok((Value::of_items(alloc, items)?, rest))
}

/// A set after the byte for its kind.
#[tactic(auto, unfolding(crate::specs::Reading::counted_at))]
fn set_at(alloc: Global, bytes: &[u8]) -> Result<(Value, &[u8]), FrameFault>
    ensures { Gives (λ x. (x.0, x.1.now)) result (as_value (λ ms. Value.Set ms) (counted_at new_piece_at bytes.now)) }
{
    let (count, rest) = count_at(bytes)?;
    let (members, rest) = members_at(alloc, count, rest)?;
    Ok((Value::of_members(alloc, members)?, rest))
}

/// The byte for the kind of a value, and the value.
#[tactic(auto, unfolding(crate::specs::Reading::value_at))]
fn value_at(alloc: Global, bytes: &[u8]) -> Result<(Value, &[u8]), FrameFault>
    ensures { Gives (λ x. (x.0, x.1.now)) result (value_at bytes.now) }
{
    match bytes {
        [] => Err(FrameFault::Truncated),
        [TEXT, rest @ ..] => {
            let (text, rest) = text_at(alloc, rest)?;
            Ok((Value::Text(text), rest))
        }
        [HASH, rest @ ..] => hash_at(alloc, rest),
        [LIST, rest @ ..] => list_at(alloc, rest),
        [SET, rest @ ..] => set_at(alloc, rest),
        [_, ..] => Err(FrameFault::BadKind),
    }
}

/// A key that is none of those seen.
#[tactic(auto, unfolding(crate::specs::Reading::new_piece_at))]
fn new_key_at<'b>(
    keys: &mut NamesSeen<'b>,
    bytes: &'b [u8],
) -> Result<(&'b [u8], &'b [u8]), FrameFault>
    ensures read { Gives (λ x. (x.0.now, x.1.now)) result (new_piece_at keys.old bytes.now) }
    ensures noted { IfOk result (λ x. keys.new ≡ keys.old ++ x.0.now ∷ []) }
    ensures limit { IfOk result (λ x. length x.0.now ≤ 1048576) }
{
    let (key, rest) = piece_at(bytes)?;
    if keys.note(key)? {
        return Err(FrameFault::RepeatedKey);
    }
    Ok((key, rest))
}

/// Puts the entry that stands at the front last, and answers what stands after it.
#[tactic(auto, unfolding(crate::specs::Reading::entry_at))]
fn read_entry<'b>(
    alloc: Global,
    keys: &mut NamesSeen<'b>,
    batch: &mut Vec<(Text, Value)>,
    bytes: &'b [u8],
) -> Result<&'b [u8], FrameFault>
    requires { keys.old ≡ keys_of batch.old.items }
    ensures read { Gives (λ rest. (batch.new.items, rest.now)) result
        (put_last batch.old.items (entry_at batch.old.items bytes.now)) }
    ensures keys { OnOk result (keys.new ≡ keys_of batch.new.items) }
{
    let (key, rest) = new_key_at(keys, bytes)?;
    let (value, rest) = value_at(alloc, rest)?;
    batch.push((Text::from_slice(alloc, key)?, value))?;
    Ok(rest)
}

/// So many entries.
fn entries_at(
    alloc: Global,
    count: usize,
    bytes: &[u8],
) -> Result<(Vec<(Text, Value)>, &[u8]), FrameFault>
    ensures { Gives (λ x. (x.0.items, x.1.now)) result (many entry_at [] count bytes.now) }
{
    let mut keys = NamesSeen::new(alloc);
    let mut batch = Vec::new(alloc);
    let mut rest = bytes;
    for _ in 0..count {
        rest = read_entry(alloc, &mut keys, &mut batch, rest)?;
    }
    Ok((batch, rest))
}

/// FramesExact: the batch whose frame the bytes are. The fault is the first from the left, but out of memory may come
/// in the place of each that stands after the count of the entries, since the pieces are kept as they come.
///
/// Memory is taken as the pieces come, and not by the counts that the bytes claim. The time is linear in the bytes, and
/// what is kept of them is the keys and the values.
#[tactic(auto, unfolding(crate::specs::Reading::frame_at))]
pub fn read_frame(alloc: Global, bytes: &[u8]) -> Result<Vec<(Text, Value)>, FrameFault>
    ensures read { Gives (λ v. v.items) result (frame_at bytes.now) }
    ensures memory { IfErr result (λ f. f ≡ Memory → IsAnswered (number_at w16 1 1000 bytes.now)) }
    // Each byte of the frame is the batch's, and so a batch has one frame.
    ensures spelled { IfOk result (λ v. bytes.now ≡ frame v.items) }
    // What was read may be put, and may be written again.
    ensures some { IfOk result (λ v. 1 ≤ length v.items) }
    ensures few { IfOk result (λ v. length v.items ≤ 1000) }
    ensures once { IfOk result (λ v. HasEachKeyOnce v.items) }
    ensures whole { IfOk result (λ v. HasNoEmptyCollection v.items) }
{
    let (count, rest) = entry_count_at(bytes)?;
    let (batch, rest) = entries_at(alloc, count, rest)?;
    if !rest.is_empty() {
        return Err(FrameFault::Trailing);
    }
    Ok(batch)
}
