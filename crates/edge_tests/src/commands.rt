//! The commands that the tests' clients send, and when two replies to them are equal.
use byte_texts::Text;
use resp2_wire::Reply;
use std::alloc::Global;
use store_commands::Command;

/// The text of a short word.
pub(crate) fn text(alloc: Global, word: &[u8]) -> Option<Text> {
    if word.len() > 16 {
        return None;
    }
    Text::from_slice(alloc, word).ok()
}

pub(crate) fn get_b(alloc: Global) -> Option<Command> {
    Some(Command::get(text(alloc, b"b")?))
}

pub(crate) fn set_b(alloc: Global) -> Option<Command> {
    Some(Command::set(text(alloc, b"b")?, text(alloc, b"1")?))
}

/// SET of the key of this number in the slot 3300.
pub(crate) fn set_in_slot(alloc: Global, number: u64) -> Option<Command> {
    let key = format!(in alloc; "{{b}}{number}").ok()?;
    Some(Command::set(text(alloc, key.as_bytes())?, text(alloc, b"1")?))
}

/// Of each five commands three append, one gets and one deletes. They go over 40 keys of this client's own, some of
/// which are in one slot.
pub(crate) fn numbered(alloc: Global, client: u64, number: u64) -> Option<Command> {
    let key = key_of(alloc, client, number % 40)?;
    let key = text(alloc, key.as_bytes())?;
    match number % 5 {
        0 => Some(Command::get(key)),
        1 => Command::delete(alloc, &key).ok(),
        _ => Some(Command::append(key, text(alloc, b"x")?)),
    }
}

fn key_of(alloc: Global, client: u64, number: u64) -> Option<String> {
    if number < 5 {
        format!(in alloc; "{{b}}{client}.{number}").ok()
    } else {
        format!(in alloc; "k{client}.{number}").ok()
    }
}

/// Whether two replies to such commands are equal.
pub(crate) fn is_same(one: &Reply, two: &Reply) -> bool {
    match one {
        Reply::Number(number) => matches!(two, Reply::Number(other) if *number == *other),
        Reply::Bulk(text) => matches!(two, Reply::Bulk(other) if text.get() == other.get()),
        Reply::Null => matches!(two, Reply::Null),
        _ => false,
    }
}
