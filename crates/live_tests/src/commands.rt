//! The commands that the tests' clients send.
use byte_texts::Text;
use resp2_wire::Reply;
use std::alloc::Global;
use store_commands::Command;

/// The text of a short word.
fn text(alloc: Global, word: &[u8]) -> Option<Text> {
    if word.len() > 16 {
        return None;
    }
    Text::from_slice(alloc, word).ok()
}

pub(crate) fn get_b(alloc: Global) -> Option<Command> {
    Some(Command::get(text(alloc, b"b")?))
}

pub(crate) fn set_b(alloc: Global) -> Option<Command> {
    Some(Command::set(text(alloc, b"b")?, text(alloc, b"1")?))
}

/// Another value at the same key.
pub(crate) fn set_b_anew(alloc: Global) -> Option<Command> {
    Some(Command::set(text(alloc, b"b")?, text(alloc, b"2")?))
}

/// SET of the key of this number in the slot 3300 to a value of its own.
pub(crate) fn set_in_slot(alloc: Global, number: u64) -> Option<Command> {
    let key = format!(in alloc; "{{b}}{number}").ok()?;
    set_own(alloc, &key, 0, number)
}

/// Which commands a client sends.
#[derive(Clone, Copy)]
pub(crate) enum CommandMix {
    /// Of each four commands the first sets a value that no other command sets, and three are GETs. They go over 1,000
    /// keys.
    Gets,
    /// Of each three commands one gets, and two set a value that no other command sets. They go over eight keys of the
    /// slot 3300 and eight others.
    Sets,
}

impl CommandMix {
    /// The command of this number that the client sends.
    pub(crate) fn command(self, alloc: Global, client: u8, number: u64) -> Option<Command> {
        match self {
            Self::Gets => mostly_gets(alloc, client, number),
            Self::Sets => mostly_sets(alloc, client, number),
        }
    }
}

fn mostly_gets(alloc: Global, client: u8, number: u64) -> Option<Command> {
    let key = format!(in alloc; "k{}", number % 1000).ok()?;
    if number % 4 == 0 {
        return set_own(alloc, &key, client, number);
    }
    Some(Command::get(text(alloc, key.as_bytes())?))
}

fn mostly_sets(alloc: Global, client: u8, number: u64) -> Option<Command> {
    let key = key_of(alloc, number % 16)?;
    if number % 3 == 0 {
        return Some(Command::get(text(alloc, key.as_bytes())?));
    }
    set_own(alloc, &key, client, number)
}

/// SET of the key to a value that tells which client's command of which number it is.
fn set_own(alloc: Global, key: &String, client: u8, number: u64) -> Option<Command> {
    let value = format!(in alloc; "{client}.{number}").ok()?;
    Some(Command::set(text(alloc, key.as_bytes())?, text(alloc, value.as_bytes())?))
}

fn key_of(alloc: Global, number: u64) -> Option<String> {
    if number < 8 {
        format!(in alloc; "{{b}}{number}").ok()
    } else {
        format!(in alloc; "k{number}").ok()
    }
}

pub(crate) fn is_one(reply: &Reply) -> bool {
    match reply {
        Reply::Bulk(text) => text.get() == b"1".as_slice(),
        _ => false,
    }
}
