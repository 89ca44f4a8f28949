//! Moves of a value, or of a member of a set, from one key to another.
ghost use Rattle.std.specs.Prelude.{◌≡◌, [], ◌∷◌, IfOk, OnOk, OnErr, Some, IsSome, unwrap_or};
ghost use Rattle.std.specs.FinMap.{get, insert};
ghost use Rattle.typed_values.specs.declared.value.Value.TheVariants as value;
ghost use Rattle.typed_values.specs.declared.edit.Edit.TheVariants as edit;
ghost use Rattle.typed_values.specs.declared.edit.SetEdit.TheVariants as set_edit;
ghost use Rattle.store_commands.specs.Effects.{with_effect, member_moved_at, with_edit_at};
ghost use Rattle.store_commands.specs.declared.effect.Effect.TheVariants as effect;

use crate::commit::edits::{edit_at, settle};
use crate::entries::Entries;
use byte_texts::{Text, TextList};
use client_commands::KeyPair;
use std::alloc::{AllocError, Global};
use typed_values::{Edit, SetEdit, Value};

/// Moves the value at the first key to the second, with no copy of it: a place is made there first, and nothing after
/// that can fail.
pub(crate) fn move_value<E: Entries>(
    alloc: Global,
    entries: &mut E,
    keys: &KeyPair,
) -> Result<(), AllocError>
    ensures ok { OnOk result (E.entries entries.new ≡ with_effect (effect.Move keys.now) (E.entries entries.old)) }
    ensures err { OnErr result (E.entries entries.new ≡ E.entries entries.old) }
{
    let (from, to) = keys.both();
    if from.get() == to.get() {
        return Ok(());
    }
    if entries.get(from.get()).is_none() {
        return Ok(());
    }
    make_place(alloc, entries, to)?;
    match entries.remove(from.get()) {
        Some(value) => drop(entries.exchange(to.get(), value)),
        None => {}
    }
    Ok(())
}

/// Puts some value at the key, where none stands.
fn make_place<E: Entries>(alloc: Global, entries: &mut E, key: &Text) -> Result<(), AllocError>
    ensures ok { OnOk result
        (E.entries entries.new
        ≡ insert (E.entries entries.old) key.now
        (unwrap_or (get (E.entries entries.old) key.now) (value.Text []))) }
    ensures err { OnErr result (E.entries entries.new ≡ E.entries entries.old) }
{
    if entries.get(key.get()).is_some() {
        return Ok(());
    }
    entries.put(key.try_copy(alloc)?, Value::Text(Text::empty(alloc)))
}

/// Adds the member to the second set, and then takes it out of the first, which cannot fail.
pub(crate) fn move_member<E: Entries>(
    alloc: Global,
    entries: &mut E,
    keys: &KeyPair,
    member: Text,
) -> Result<(), AllocError>
    ensures ok { OnOk result
        (E.entries entries.new ≡ with_effect (effect.MoveMember keys.now member) (E.entries entries.old)) }
    ensures err { OnErr result (E.entries entries.new ≡ E.entries entries.old) }
{
    let (from, to) = keys.both();
    let added = one_text(alloc, member.try_copy(alloc)?)?;
    let taken = one_text(alloc, member)?;
    edit_at(
        alloc,
        entries,
        to.try_copy(alloc)?,
        Edit::Set(SetEdit::AddMembers(added)),
    )?;
    take_members(alloc, entries, from.get(), &taken);
    Ok(())
}

/// The list of the one text.
pub(crate) fn one_text(alloc: Global, text: Text) -> Result<TextList, AllocError>
    ensures { IfOk result (λ l. l ≡ text ∷ []) }
{
    Ok(TextList::from_vec(vec![in alloc; text]?))
}

/// Removes the members from the set at the key, which takes no memory.
fn take_members<E: Entries>(alloc: Global, entries: &mut E, key: &[u8], members: &TextList)
    ensures { E.entries entries.new
        ≡ with_edit_at (E.entries entries.old) key.now (edit.Set (set_edit.RemoveMembers members.now)) }
{
    if entries.get(key).is_none() {
        return;
    }
    match entries.exchange(key, Value::Text(Text::empty(alloc))) {
        Value::Set(mut set) => {
            set.get_mut().remove_all(members);
            settle(entries, key, Value::Set(set));
        }
        other => drop(entries.exchange(key, other)),
    }
}
