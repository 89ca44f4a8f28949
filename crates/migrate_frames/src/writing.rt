ghost use Rattle.std.specs.Prelude.{◌≡◌, ◌≤◌, ◌++◌, ◌∷◌, [], false, length, IfOk, OnOk, Ok};
ghost use Rattle.std.specs.List.{flat_map, AllByRecursion};
ghost use Rattle.typed_values.specs.Values.{is_empty_collection, is_nil};
ghost use Rattle.typed_values.specs.Fields.{HasDistinctFields, AreShortFields};
ghost use Rattle.typed_values.specs.Members.{HasDistinctMembers, AreShortMembers};
ghost use Rattle.migrate_frames.specs.Batches.{entries_of, HasEachKeyOnce, HasNoEmptyCollection};
ghost use Rattle.migrate_frames.specs.Batches.{FitsValue, FitsEntry};
ghost use Rattle.migrate_frames.specs.Frames.{short_number, number, piece, pair, count_and_each, kind_and_body};
ghost use Rattle.migrate_frames.specs.Frames.{entry, frame};
ghost use Rattle.migrate_frames.specs.Reading.{frame_at};

use crate::kinds::{HASH, LIST, SET, TEXT};
use byte_texts::{Memory, Text};
use std::alloc::Global;
use typed_values::{FieldMap, Items, MemberSet, Value};

/// A length or a count of 32 bits.
#[tactic(auto, unfolding(crate::specs::Frames::number))]
fn push_number(out: &mut Vec<u8>, count: usize) -> Result<(), Memory>
    requires { count ≤ 1048576 }
    ensures { OnOk result (out.new.items ≡ out.old.items ++ number count) }
{
    out.extend_from_slice(&(count as u32).to_be_bytes())
}

/// A length and the bytes.
fn push_piece(out: &mut Vec<u8>, bytes: &[u8]) -> Result<(), Memory>
    requires { length bytes.now ≤ 1048576 }
    ensures { OnOk result (out.new.items ≡ out.old.items ++ piece bytes.now) }
{
    push_number(out, bytes.len())?;
    out.extend_from_slice(bytes)
}

/// Each field followed by its value, in order.
fn push_pairs(out: &mut Vec<u8>, fields: &FieldMap) -> Result<(), Memory>
    ensures { OnOk result (out.new.items ≡ out.old.items ++ flat_map pair fields.now) }
{
    for place in 0..fields.len() {
        let (name, value) = fields.pair(place);
        push_piece(out, name)?;
        push_piece(out, value)?;
    }
    Ok(())
}

/// Each element, in order.
fn push_elements(out: &mut Vec<u8>, items: &Items) -> Result<(), Memory>
    ensures written { OnOk result (out.new.items ≡ out.old.items ++ flat_map piece items.now) }
    ensures short { OnOk result (AreShortMembers items.now) }
{
    for place in 0..items.len() {
        let element = items.element(place).unwrap();
        push_piece(out, element.get())?;
    }
    Ok(())
}

/// Each member, in order.
fn push_members(out: &mut Vec<u8>, members: &MemberSet) -> Result<(), Memory>
    ensures { OnOk result (out.new.items ≡ out.old.items ++ flat_map piece members.now) }
{
    for place in 0..members.len() {
        push_piece(out, members.member(place))?;
    }
    Ok(())
}

/// The byte for the kind and a hash, which is not empty.
fn push_hash(out: &mut Vec<u8>, fields: &FieldMap) -> Result<(), Memory>
    requires { is_nil fields.now ≡ false }
    ensures written { OnOk result (out.new.items ≡ out.old.items ++ kind_and_body (Value.Hash fields.now)) }
    ensures fits { OnOk result (FitsValue (Value.Hash fields.now)) }
{
    out.push(HASH)?;
    push_number(out, fields.len())?;
    push_pairs(out, fields)
}

/// The byte for the kind and a list, which is not empty.
fn push_list(out: &mut Vec<u8>, items: &Items) -> Result<(), Memory>
    requires { is_nil items.now ≡ false }
    ensures written { OnOk result (out.new.items ≡ out.old.items ++ kind_and_body (Value.List items.now)) }
    ensures fits { OnOk result (FitsValue (Value.List items.now)) }
{
    out.push(LIST)?;
    push_number(out, items.len())?;
    push_elements(out, items)
}

/// The byte for the kind and a set, which is not empty.
fn push_set(out: &mut Vec<u8>, members: &MemberSet) -> Result<(), Memory>
    requires { is_nil members.now ≡ false }
    ensures written { OnOk result (out.new.items ≡ out.old.items ++ kind_and_body (Value.Set members.now)) }
    ensures fits { OnOk result (FitsValue (Value.Set members.now)) }
{
    out.push(SET)?;
    push_number(out, members.len())?;
    push_members(out, members)
}

/// The byte for the kind of a value, and the value.
fn push_value(out: &mut Vec<u8>, value: &Value) -> Result<(), Memory>
    requires { is_empty_collection value.now ≡ false }
    ensures written { OnOk result (out.new.items ≡ out.old.items ++ kind_and_body value.now) }
    ensures fits { OnOk result (FitsValue value.now) }
{
    match value {
        Value::Text(text) => {
            out.push(TEXT)?;
            push_piece(out, text.get())
        }
        Value::Hash(fields) => push_hash(out, fields.get()),
        Value::List(items) => push_list(out, items.get()),
        Value::Set(members) => push_set(out, members.get()),
    }
}

/// A key and its value.
fn push_entry(out: &mut Vec<u8>, key: &Text, value: &Value) -> Result<(), Memory>
    requires { is_empty_collection value.now ≡ false }
    ensures written { OnOk result (out.new.items ≡ out.old.items ++ entry (key.now, value.now)) }
    ensures fits { OnOk result (FitsEntry (key.now, value.now)) }
{
    push_piece(out, key.get())?;
    push_value(out, value)
}

/// Each key with its value, in order.
fn push_entries(out: &mut Vec<u8>, batch: &[(&Text, &Value)]) -> Result<(), Memory>
    requires { HasNoEmptyCollection (entries_of batch.now) }
    ensures written { OnOk result (out.new.items ≡ out.old.items ++ flat_map entry (entries_of batch.now)) }
    ensures each { OnOk result (AllByRecursion FitsEntry (entries_of batch.now)) }
{
    for item in batch {
        let (key, value) = *item;
        push_entry(out, key, value)?;
    }
    Ok(())
}

/// FramesExact: the frame of a batch, whose keys and values are written from where they stand: 1 to 1,000 entries, no
/// key twice, and no collection with nothing in it. The types of keys and values keep the other limits, 1,048,576 bytes
/// of a text and 1,048,576 elements of a collection.
#[tactic(auto, unfolding(crate::specs::Frames::frame, crate::specs::Frames::short_number))]
pub fn write_frame(alloc: Global, batch: &[(&Text, &Value)]) -> Result<Vec<u8>, Memory>
    requires some { 1 ≤ length batch.now }
    requires few { length batch.now ≤ 1000 }
    requires once { HasEachKeyOnce (entries_of batch.now) }
    requires whole { HasNoEmptyCollection (entries_of batch.now) }
    ensures written { IfOk result (λ v. v.items ≡ frame (entries_of batch.now)) }
    // What is written is read again.
    ensures read { IfOk result (λ v. frame_at v.items ≡ Ok (entries_of batch.now)) }
{
    let mut out = Vec::new(alloc);
    out.extend_from_slice(&(batch.len() as u16).to_be_bytes())?;
    push_entries(&mut out, batch)?;
    Ok(out)
}

/// The entries of a batch, borrowed as [`write_frame`] takes them.
pub fn borrow_entries(
    alloc: Global,
    batch: &[(Text, Value)],
) -> Result<Vec<(&Text, &Value)>, Memory>
    ensures entries { IfOk result (λ v. entries_of v.items ≡ batch.now) }
    ensures count { IfOk result (λ v. length v.items ≡ length batch.now) }
{
    let mut entries = Vec::with_capacity(alloc, batch.len())?;
    for (key, value) in batch {
        entries.push((key, value))?;
    }
    Ok(entries)
}
