//! Edits of a value where it stands: it is taken out, changed and put back, with no copy.
ghost use Rattle.std.specs.Prelude.{◌≡◌, false, [], ◌∷◌, if◌then◌else◌, IfOk, OnOk, OnErr, IsSome, IsNone};
ghost use Rattle.std.specs.FinMap.{get};
ghost use Rattle.typed_values.specs.Edits.{edit_of};
ghost use Rattle.store_commands.specs.Found.{fresh, value_left, stands};
ghost use Rattle.store_commands.specs.Store.{write};
ghost use Rattle.store_commands.specs.Effects.{with_edit_at};

use crate::entries::Entries;
use byte_texts::Text;
use std::alloc::{AllocError, Global};
use typed_values::{Edit, FieldMap, Items, MemberSet, TextEdit, Value, ValueFault};

/// Edits the value at the key, or the one that a missing one counts as. A collection that became empty goes with its
/// key.
pub(crate) fn edit_at<E: Entries>(
    alloc: Global,
    entries: &mut E,
    key: Text,
    edit: Edit,
) -> Result<(), AllocError>
    ensures ok { OnOk result (E.entries entries.new ≡ with_edit_at (E.entries entries.old) key edit) }
    ensures err { OnErr result (E.entries entries.new ≡ E.entries entries.old) }
{
    if entries.get(key.get()).is_some() {
        edit_present(alloc, entries, key.get(), edit)
    } else {
        edit_fresh(alloc, entries, key, edit)
    }
}

fn edit_present<E: Entries>(
    alloc: Global,
    entries: &mut E,
    key: &[u8],
    edit: Edit,
) -> Result<(), AllocError>
    requires { IsSome (get (E.entries entries.old) key.now) }
    ensures ok { OnOk result (E.entries entries.new ≡ with_edit_at (E.entries entries.old) key.now edit) }
    ensures err { OnErr result (E.entries entries.new ≡ E.entries entries.old) }
{
    let mut value = entries.exchange(key, Value::Text(Text::empty(alloc)));
    match make(alloc, &mut value, edit) {
        Ok(true) => {
            settle(entries, key, value);
            Ok(())
        }
        Ok(false) => {
            drop(entries.exchange(key, value));
            Ok(())
        }
        Err(refused) => {
            drop(entries.exchange(key, value));
            Err(refused)
        }
    }
}

fn edit_fresh<E: Entries>(
    alloc: Global,
    entries: &mut E,
    key: Text,
    edit: Edit,
) -> Result<(), AllocError>
    requires { IsNone (get (E.entries entries.old) key) }
    ensures ok { OnOk result (E.entries entries.new ≡ with_edit_at (E.entries entries.old) key edit) }
    ensures err { OnErr result (E.entries entries.new ≡ E.entries entries.old) }
{
    let mut value = fresh(alloc, &edit)?;
    let is_made = make(alloc, &mut value, edit)?;
    if !is_made {
        return Ok(());
    }
    if value.is_empty_collection() {
        return Ok(());
    }
    entries.put(key, value)
}

/// Makes the edit, and returns whether it could be made. Otherwise the value stays.
fn make(alloc: Global, value: &mut Value, edit: Edit) -> Result<bool, AllocError>
    ensures left { IfOk result (λ b. stands (edit_of edit value.old) ≡ (if b then value_left value.new ∷ [] else [])) }
    ensures same { IfOk result (λ b. b ≡ false → value.new ≡ value.old) }
    ensures err { OnErr result (value.new ≡ value.old) }
{
    match value.edit(alloc, edit) {
        Ok(()) => Ok(true),
        Err(ValueFault::Memory) => Err(AllocError),
        Err(_) => Ok(false),
    }
}

/// Puts the value at the key, where one stands, or takes the key out where the value is an empty collection.
pub(crate) fn settle<E: Entries>(entries: &mut E, key: &[u8], value: Value)
    requires { IsSome (get (E.entries entries.old) key.now) }
    ensures { E.entries entries.new ≡ write (E.entries entries.old) key.now (value_left value) }
{
    if value.is_empty_collection() {
        drop(entries.remove(key));
    } else {
        drop(entries.exchange(key, value));
    }
}

/// The value that an edit of a missing one begins with.
fn fresh(alloc: Global, edit: &Edit) -> Result<Value, AllocError>
    ensures { IfOk result (λ v. v ≡ fresh edit.now) }
{
    match edit {
        Edit::Text(TextEdit::Append(_)) => Ok(Value::Text(Text::empty(alloc))),
        Edit::Text(TextEdit::Increase(_)) => Ok(Value::Text(Text::from_slice(alloc, b"0")?)),
        Edit::Hash(_) => Value::of_fields(alloc, FieldMap::new(alloc)),
        Edit::List(_) => Value::of_items(alloc, Items::new(alloc)),
        Edit::Set(_) => Value::of_members(alloc, MemberSet::new(alloc)),
    }
}
