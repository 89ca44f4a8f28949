ghost use Rattle.std.specs.Prelude.{◌≡◌, ◌≤◌, is_some, false, [], length, IfOk, Ok};
ghost use Rattle.std.specs.Map.{keys_of};
ghost use Rattle.typed_values.specs.Fields.{field};
ghost use Rattle.migrate_frames.specs.Reading.{Gives, pair_at, new_piece_at, element_at, many, put_last};

use crate::fault::FrameFault;
use crate::pieces::{piece_at, text_at};
use byte_texts::Text;
use std::alloc::Global;
use typed_values::{FieldMap, Items, MemberSet};

/// The name of a field that the hash does not have.
#[tactic(auto, unfolding(crate::specs::Reading::new_piece_at), using(crate::proofs::Repeats::has_field))]
fn new_name_at<'b>(fields: &FieldMap, bytes: &'b [u8]) -> Result<(&'b [u8], &'b [u8]), FrameFault>
    ensures read { Gives (λ x. (x.0.now, x.1.now)) result (new_piece_at (keys_of fields.now) bytes.now) }
    ensures limit { IfOk result (λ x. length x.0.now ≤ 1048576) }
    ensures new { IfOk result (λ x. is_some (field fields.now x.0.now) ≡ false) }
{
    let (name, rest) = piece_at(bytes)?;
    if fields.contains(name) {
        return Err(FrameFault::RepeatedKey);
    }
    Ok((name, rest))
}

/// Puts the pair that stands at the front last, and answers what stands after it.
#[tactic(auto, unfolding(crate::specs::Reading::pair_at))]
fn read_pair<'b>(
    alloc: Global,
    fields: &mut FieldMap,
    bytes: &'b [u8],
) -> Result<&'b [u8], FrameFault>
    ensures { Gives (λ rest. (fields.new, rest.now)) result
        (put_last fields.old (pair_at fields.old bytes.now)) }
{
    let (name, rest) = new_name_at(fields, bytes)?;
    let (value, rest) = text_at(alloc, rest)?;
    let name = Text::from_slice(alloc, name)?;
    // The count of the fields is within the limit, so that only out of memory can refuse one.
    match fields.insert_new(name, value) {
        Ok(_) => Ok(rest),
        Err(_) => Err(FrameFault::Memory),
    }
}

/// Puts the element that stands at the front last, and answers what stands after it.
fn read_element<'b>(
    alloc: Global,
    items: &mut Items,
    bytes: &'b [u8],
) -> Result<&'b [u8], FrameFault>
    ensures { Gives (λ rest. (items.new, rest.now)) result (put_last items.old (element_at items.old bytes.now)) }
{
    let (element, rest) = text_at(alloc, bytes)?;
    match items.push_back(element) {
        Ok(()) => Ok(rest),
        Err(_) => Err(FrameFault::Memory),
    }
}

/// Puts the member that stands at the front last, and answers what stands after it.
#[tactic(auto, unfolding(crate::specs::Reading::new_piece_at))]
fn read_member<'b>(
    alloc: Global,
    members: &mut MemberSet,
    bytes: &'b [u8],
) -> Result<&'b [u8], FrameFault>
    ensures { Gives (λ rest. (members.new, rest.now)) result
        (put_last members.old (new_piece_at members.old bytes.now)) }
{
    let (member, rest) = text_at(alloc, bytes)?;
    match members.insert_new(member) {
        Ok(true) => Ok(rest),
        Ok(false) => Err(FrameFault::RepeatedKey),
        Err(_) => Err(FrameFault::Memory),
    }
}

/// So many pairs. Memory is taken as they come, and not by the count, which anyone can write.
pub fn pairs_at(alloc: Global, count: usize, bytes: &[u8]) -> Result<(FieldMap, &[u8]), FrameFault>
    ensures { Gives (λ x. (x.0, x.1.now)) result (many pair_at [] count bytes.now) }
{
    let mut fields = FieldMap::new(alloc);
    let mut rest = bytes;
    for _ in 0..count {
        rest = read_pair(alloc, &mut fields, rest)?;
    }
    Ok((fields, rest))
}

/// So many elements.
pub fn elements_at(alloc: Global, count: usize, bytes: &[u8]) -> Result<(Items, &[u8]), FrameFault>
    ensures { Gives (λ x. (x.0, x.1.now)) result (many element_at [] count bytes.now) }
{
    let mut items = Items::new(alloc);
    let mut rest = bytes;
    for _ in 0..count {
        rest = read_element(alloc, &mut items, rest)?;
    }
    Ok((items, rest))
}

/// So many members.
pub fn members_at(
    alloc: Global,
    count: usize,
    bytes: &[u8],
) -> Result<(MemberSet, &[u8]), FrameFault>
    ensures { Gives (λ x. (x.0, x.1.now)) result (many new_piece_at [] count bytes.now) }
{
    let mut members = MemberSet::new(alloc);
    let mut rest = bytes;
    for _ in 0..count {
        rest = read_member(alloc, &mut members, rest)?;
    }
    Ok((members, rest))
}
