//! The entries of COMMAND and COMMAND INFO.
ghost use Rattle.std.specs.Prelude.{◌≡◌, ◌++◌, ◌∷◌, [], IfOk, OnOk, map};
ghost use Rattle.client_commands.specs.Table.{rows};
ghost use Rattle.command_list.specs.Listing.{command};
ghost use Rattle.command_list.specs.Replies.{array_of, command_reply, count_reply, entry, flags_reply};
ghost use Rattle.command_list.specs.Replies.{info_of, info_reply};
ghost use Rattle.command_list.specs.Shown.{IsShort, shown};

use crate::listed::Listed;
use crate::table::{listed_count, named, questions};
use byte_texts::{Memory, Text};
use client_commands::{Flag, commands};
use resp2_wire::Reply;
use std::alloc::Global;

/// COMMAND: an entry for each command.
pub fn command_reply(alloc: Global) -> Result<Reply, Memory>
    ensures { IfOk result (λ r. r ≡ command_reply) }
{
    let rows = questions();
    let mut entries = client_entries(alloc)?;
    for row in rows {
        put_entry(alloc, &mut entries, row)?;
    }
    Ok(Reply::array(entries))
}

/// The entries of the commands of clients, with room for those of the questions.
fn client_entries(alloc: Global) -> Result<Vec<Reply>, Memory>
    ensures { IfOk result (λ es. es.items ≡ map entry (map command rows)) }
{
    let rows = commands();
    let mut entries = Vec::with_capacity(alloc, listed_count() as usize)?;
    for row in rows {
        entries.push(entry(alloc, &Listed::of_command(row))?)?;
    }
    Ok(entries)
}

/// COMMAND COUNT. Takes no memory.
#[tactic(auto, unfolding(crate::specs::Replies::count_reply))]
pub fn count_reply() -> Reply
    ensures { result ≡ count_reply }
{
    Reply::count(listed_count())
}

/// COMMAND INFO with these names: the entry of each, or nothing for one that is unknown; with no names, all entries.
#[tactic(auto, unfolding(crate::specs::Replies::info_reply))]
pub fn info_reply(alloc: Global, names: &[Text]) -> Result<Reply, Memory>
    ensures { IfOk result (λ r. r ≡ info_reply names.now) }
{
    match names {
        [] => command_reply(alloc),
        _ => entries_named(alloc, names),
    }
}

/// The entries of the commands with these names.
fn entries_named(alloc: Global, names: &[Text]) -> Result<Reply, Memory>
    ensures { IfOk result (λ r. r ≡ array_of (map info_of names.now)) }
{
    let mut entries = Vec::with_capacity(alloc, names.len())?;
    for name in names {
        entries.push(info_of(alloc, name.get())?)?;
    }
    Ok(Reply::array(entries))
}

/// The entry of the command with this name, or nothing where there is none.
fn info_of(alloc: Global, name: &[u8]) -> Result<Reply, Memory>
    ensures { IfOk result (λ r. r ≡ info_of name.now) }
{
    match named(name) {
        Some(row) => entry(alloc, &row),
        None => Ok(Reply::Null),
    }
}

/// Puts a command's entry after the others.
fn put_entry(alloc: Global, entries: &mut Vec<Reply>, row: &Listed) -> Result<(), Memory>
    requires { IsShort (shown row.now) }
    ensures { OnOk result (entries.new.items ≡ entries.old.items ++ entry (shown row.now) ∷ []) }
{
    entries.push(entry(alloc, row)?)?;
    Ok(())
}

/// A command's entry. Its categories, tips, key specifications and subcommands are empty.
fn entry(alloc: Global, row: &Listed) -> Result<Reply, Memory>
    requires { IsShort (shown row.now) }
    ensures { IfOk result (λ r. r ≡ entry (shown row.now)) }
{
    let name = Reply::bulk(alloc, row.text)?;
    let flags = flags_reply(alloc, row.flags)?;
    let parts = vec![in alloc;
        name,
        Reply::Number(row.arity),
        flags,
        Reply::Number(row.keys.first),
        Reply::Number(row.keys.last),
        Reply::Number(row.keys.step),
        Reply::array(Vec::new(alloc)),
        Reply::array(Vec::new(alloc)),
        Reply::array(Vec::new(alloc)),
        Reply::array(Vec::new(alloc)),
    ]?;
    Ok(Reply::array(parts))
}

fn flags_reply(alloc: Global, flags: &[Flag]) -> Result<Reply, Memory>
    ensures { IfOk result (λ r. r ≡ flags_reply flags.now) }
{
    let mut texts = Vec::with_capacity(alloc, flags.len())?;
    for flag in flags {
        texts.push(Reply::simple(alloc, flag.text())?)?;
    }
    Ok(Reply::array(texts))
}
