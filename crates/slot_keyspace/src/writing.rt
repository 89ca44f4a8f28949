//! Several writes, done together or not at all.
ghost use Rattle.std.specs.Prelude.{◌≡◌, OnOk, OnErr, IsSome};
ghost use Rattle.std.specs.FinMap as finite;
ghost use Rattle.store_commands.specs.Effects.{without};
ghost use Rattle.store_commands.specs.Store.{HasDistinctKeys, write, after_writes};
ghost use Rattle.slot_keyspace.specs.Writing.{step, undone, CanBeUndone};

use crate::key_map::KeyMap;
use byte_texts::Text;
use std::alloc::{AllocError, Global};
use typed_values::Value;

/// Puts each value at its key, and takes a key with none out: all or nothing. A loop, and no recursion: a batch may be
/// longer than the stack is deep.
pub fn write_each<M: KeyMap>(
    alloc: Global,
    map: &mut M,
    writes: Vec<(Text, Option<Value>)>,
) -> Result<(), AllocError>
    requires { HasDistinctKeys writes.items }
    ensures ok { OnOk result (M.store map.new ≡ after_writes (M.store map.old) writes.items) }
    ensures err { OnErr result (M.store map.new ≡ M.store map.old) }
{
    let mut undo = Vec::new(alloc);
    let mut leaving = Vec::new(alloc);
    for (key, value) in writes {
        if let Err(error) = write_one(alloc, map, key, value, &mut undo, &mut leaving) {
            take_back(map, undo);
            return Err(error);
        }
    }
    remove_each(map, &leaving);
    Ok(())
}

/// Puts the value at the key and notes what stood there, or notes that the key is to go.
fn write_one<M: KeyMap>(
    alloc: Global,
    map: &mut M,
    key: Text,
    value: Option<Value>,
    undo: &mut Vec<(Text, Option<Value>)>,
    leaving: &mut Vec<Text>,
) -> Result<(), AllocError>
    ensures ok { OnOk result
        (record { store = M.store map.new; undo = undo.new.items; leaving = leaving.new.items }
        ≡ step (record { store = M.store map.old; undo = undo.old.items; leaving = leaving.old.items }) key value) }
    ensures err { OnErr result (M.store map.new ≡ M.store map.old) }
    ensures undo { OnErr result (undo.new.items ≡ undo.old.items) }
{
    let Some(value) = value else {
        leaving.push(key)?;
        return Ok(());
    };
    undo.reserve(1)?;
    let old = map.put(key.try_copy(alloc)?, value)?;
    undo.push_reserved((key, old));
    Ok(())
}

/// Puts back what stood at each key, the last one first. Takes no memory.
fn take_back<M: KeyMap>(map: &mut M, mut undo: Vec<(Text, Option<Value>)>)
    requires { CanBeUndone undo.items (M.store map.old) }
    ensures { M.store map.new ≡ undone undo.items (M.store map.old) }
{
    while let Some((key, old)) = undo.pop() {
        put_back(map, key.get(), old);
    }
}

/// Puts back what stood at `key` before a value was put there. Takes no memory.
fn put_back<M: KeyMap>(map: &mut M, key: &[u8], old: Option<Value>)
    requires { IsSome (finite.get (M.store map.old) key.now) }
    ensures { M.store map.new ≡ write (M.store map.old) key.now old }
{
    match old {
        Some(value) => drop(map.exchange(key, value)),
        None => drop(map.remove(key)),
    }
}

/// Takes the keys out, where they stand. Takes no memory.
pub fn remove_each<M: KeyMap>(map: &mut M, keys: &[Text])
    ensures { M.store map.new ≡ without (M.store map.old) keys.now }
{
    for key in keys {
        drop(map.remove(key.get()));
    }
}
