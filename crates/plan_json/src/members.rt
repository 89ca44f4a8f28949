//! Members of an object of JSON, and items of its arrays.
ghost use Rattle.std.specs.Prelude.{◌≡◌, ◌≤◌, ◌+◌, ◌*◌, ◌∷◌, [], ◌++◌, map, IfOk, OnOk};
ghost use Rattle.std.specs.Prelude.{length, string_bytes};
ghost use Rattle.serde_json.specs.Data.{put as with_member, boolean, object, string};
ghost use Rattle.serde_json.specs.View.{view, members_view};
ghost use Rattle.serde_json.specs.Written.{compact_text};
ghost use Rattle.plan_json.specs.Sizes.{items_size, size, text_size};
ghost use Rattle.plan_json.specs.Values.{count, figure, list_data, node_data, node_text, text_data};

use byte_texts::Memory;
use key_slots::NodeId;
use serde_json::{Map, Value, push, put};
use std::alloc::Global;

/// The members of an object by their names.
pub(crate) type Members = Map<String, Value>;

/// Puts a number.
pub(crate) fn put_count(
    members: &mut Members,
    alloc: Global,
    name: &str,
    number: u64,
) -> Result<(), Memory>
    ensures told { OnOk result (members_view members.new.entries
        ≡ with_member name.now (count number) (members_view members.old.entries)) }
    ensures few { OnOk result (size (members_view members.new.entries)
        ≤ size (members_view members.old.entries) + (24 + 6 * length name.now)) }
{
    put(members, alloc, name, counted(number))
}

fn counted(number: u64) -> Value
    ensures told { view result ≡ count number }
    ensures few { length (compact_text (view result)) ≤ 20 }
{
    Value::from(number)
}

/// Puts a number, or null where it is not told.
pub(crate) fn put_figure(
    members: &mut Members,
    alloc: Global,
    name: &str,
    number: Option<u64>,
) -> Result<(), Memory>
    ensures told { OnOk result (members_view members.new.entries
        ≡ with_member name.now (figure number) (members_view members.old.entries)) }
    ensures few { OnOk result (size (members_view members.new.entries)
        ≤ size (members_view members.old.entries) + (24 + 6 * length name.now)) }
{
    put(members, alloc, name, figure(number))
}

fn figure(number: Option<u64>) -> Value
    ensures told { view result ≡ figure number }
    ensures few { length (compact_text (view result)) ≤ 20 }
{
    match number {
        None => Value::Null,
        Some(number) => counted(number),
    }
}

/// Puts true or false.
pub(crate) fn put_flag(
    members: &mut Members,
    alloc: Global,
    name: &str,
    flag: bool,
) -> Result<(), Memory>
    ensures told { OnOk result (members_view members.new.entries
        ≡ with_member name.now (boolean flag) (members_view members.old.entries)) }
    ensures few { OnOk result (size (members_view members.new.entries)
        ≤ size (members_view members.old.entries) + (9 + 6 * length name.now)) }
{
    put(members, alloc, name, Value::from(flag))
}

/// Puts a text, of which bytes that are no UTF-8 become U+FFFD.
pub(crate) fn put_text(
    members: &mut Members,
    alloc: Global,
    name: &str,
    text: &[u8],
) -> Result<(), Memory>
    ensures told { OnOk result (members_view members.new.entries
        ≡ with_member name.now (text_data text.now) (members_view members.old.entries)) }
    ensures few { OnOk result (size (members_view members.new.entries)
        ≤ size (members_view members.old.entries) + (4 + (6 * length name.now + text_size text.now))) }
{
    let text = String::from_utf8_lossy(alloc, text)?;
    put(members, alloc, name, Value::from(text))
}

/// Puts a text.
pub(crate) fn put_str(
    members: &mut Members,
    alloc: Global,
    name: &str,
    text: &str,
) -> Result<(), Memory>
    ensures told { OnOk result (members_view members.new.entries
        ≡ with_member name.now (string text.now) (members_view members.old.entries)) }
    ensures few { OnOk result (size (members_view members.new.entries)
        ≤ size (members_view members.old.entries) + (6 + 6 * (length name.now + length text.now))) }
{
    let text = Value::try_from_str(alloc, text)?;
    put(members, alloc, name, text)
}

/// Puts the node's name.
pub(crate) fn put_node_name(
    members: &mut Members,
    alloc: Global,
    name: &str,
    node: NodeId,
) -> Result<(), Memory>
    ensures told { OnOk result (members_view members.new.entries
        ≡ with_member name.now (node_data node) (members_view members.old.entries)) }
    ensures few { OnOk result (size (members_view members.new.entries)
        ≤ size (members_view members.old.entries) + (30 + 6 * length name.now)) }
{
    let text = node_name(alloc, node)?;
    put(members, alloc, name, Value::from(text))
}

fn node_name(alloc: Global, node: NodeId) -> Result<String, Memory>
    ensures told { IfOk result (λ s. string_bytes s ≡ node_text node) }
    ensures few { IfOk result (λ s. length (string_bytes s) ≤ 4) }
{
    let number = node.get();
    format!(in alloc; "n{number}")
}

/// Puts an array.
pub(crate) fn put_list(
    members: &mut Members,
    alloc: Global,
    name: &str,
    items: Vec<Value>,
) -> Result<(), Memory>
    ensures told { OnOk result (members_view members.new.entries
        ≡ with_member name.now (list_data (map view items.items)) (members_view members.old.entries)) }
    ensures few { OnOk result (size (members_view members.new.entries)
        ≤ size (members_view members.old.entries) + (5 + (6 * length name.now + items_size (map view items.items)))) }
{
    put(members, alloc, name, Value::from(items))
}

/// Puts an object.
pub(crate) fn put_object(
    members: &mut Members,
    alloc: Global,
    name: &str,
    inner: Members,
) -> Result<(), Memory>
    ensures told { OnOk result (members_view members.new.entries
        ≡ with_member name.now (object (members_view inner.entries)) (members_view members.old.entries)) }
    ensures few { OnOk result (size (members_view members.new.entries)
        ≤ size (members_view members.old.entries) + (5 + (6 * length name.now + size (members_view inner.entries)))) }
{
    put(members, alloc, name, Value::from(inner))
}

/// Puts the object with these members at the end of the array.
pub(crate) fn push_object(items: &mut Vec<Value>, members: Members) -> Result<(), Memory>
    ensures told { OnOk result (map view items.new.items
        ≡ map view items.old.items ++ object (members_view members.entries) ∷ []) }
    ensures few { OnOk result (items_size (map view items.new.items)
        ≤ items_size (map view items.old.items) + (2 + size (members_view members.entries))) }
{
    push(items, Value::from(members))
}
