//! The pages of COMMAND DOCS.
ghost use Rattle.std.specs.Prelude.{◌≡◌, ◌++◌, ◌∷◌, [], ◌≤◌, IfOk, OnOk, length, map};
ghost use Rattle.std.specs.List.{flat_map};
ghost use Rattle.client_commands.specs.Table.{rows};
ghost use Rattle.resp2_wire.specs.declared.reply.Reply.TheVariants as reply;
ghost use Rattle.command_list.specs.Listing.{command};
ghost use Rattle.command_list.specs.Replies.{all_pages, array_of, docs_reply, page_of, page, pages_of};
ghost use Rattle.command_list.specs.Shown.{IsShort, shown};

use crate::listed::Listed;
use crate::table::{named, questions};
use byte_texts::{Memory, Text};
use client_commands::commands;
use resp2_wire::Reply;
use std::alloc::Global;

/// COMMAND DOCS with these names: each name that is known with its page; with no names, all of them.
#[tactic(auto, unfolding(crate::specs::Replies::docs_reply))]
pub fn docs_reply(alloc: Global, names: &[Text]) -> Result<Reply, Memory>
    ensures { IfOk result (λ r. r ≡ docs_reply names.now) }
{
    match names {
        [] => all_pages(alloc),
        _ => pages_named(alloc, names),
    }
}

/// The pages of the commands with these names.
fn pages_named(alloc: Global, names: &[Text]) -> Result<Reply, Memory>
    ensures { IfOk result (λ r. r ≡ array_of (flat_map pages_of names.now)) }
{
    let mut pages = Vec::new(alloc);
    for name in names {
        put_page_of(alloc, &mut pages, name.get())?;
    }
    Ok(Reply::array(pages))
}

/// Each command's name with its page.
fn all_pages(alloc: Global) -> Result<Reply, Memory>
    ensures { IfOk result (λ r. r ≡ all_pages) }
{
    let rows = questions();
    let mut pages = client_pages(alloc)?;
    for row in rows {
        put_page(alloc, &mut pages, row)?;
    }
    Ok(Reply::array(pages))
}

/// The name of each command of clients with its page.
fn client_pages(alloc: Global) -> Result<Vec<Reply>, Memory>
    ensures { IfOk result (λ ps. ps.items ≡ flat_map page_of (map command rows)) }
{
    let rows = commands();
    let mut pages = Vec::new(alloc);
    for row in rows {
        put_page(alloc, &mut pages, &Listed::of_command(row))?;
    }
    Ok(pages)
}

/// Puts the page of the command with this name after the others, if there is such a command.
fn put_page_of(alloc: Global, pages: &mut Vec<Reply>, name: &[u8]) -> Result<(), Memory>
    ensures { OnOk result (pages.new.items ≡ pages.old.items ++ pages_of name.now) }
{
    match named(name) {
        Some(row) => put_page(alloc, pages, &row),
        None => Ok(()),
    }
}

/// Puts a command's name and its page after the others.
fn put_page(alloc: Global, pages: &mut Vec<Reply>, row: &Listed) -> Result<(), Memory>
    requires { IsShort (shown row.now) }
    ensures { OnOk result (pages.new.items ≡ pages.old.items ++ page_of (shown row.now)) }
{
    pages.push(Reply::bulk(alloc, row.text)?)?;
    pages.push(page(alloc, row)?)?;
    Ok(())
}

/// A command's page: what it does, since when, and its group.
fn page(alloc: Global, row: &Listed) -> Result<Reply, Memory>
    requires { IsShort (shown row.now) }
    ensures { IfOk result (λ r. r ≡ page (shown row.now)) }
{
    let mut texts = Vec::with_capacity(alloc, 6)?;
    put_pair(alloc, &mut texts, b"summary", row.summary)?;
    put_pair(alloc, &mut texts, b"since", row.since)?;
    put_pair(alloc, &mut texts, b"group", row.group)?;
    Ok(Reply::array(texts))
}

fn put_pair(alloc: Global, texts: &mut Vec<Reply>, name: &[u8], text: &[u8]) -> Result<(), Memory>
    requires name { length name.now ≤ 1000 }
    requires text { length text.now ≤ 1000 }
    ensures { OnOk result (texts.new.items ≡ texts.old.items ++ reply.Bulk name.now ∷ reply.Bulk text.now ∷ []) }
{
    texts.push(Reply::bulk(alloc, name)?)?;
    texts.push(Reply::bulk(alloc, text)?)?;
    Ok(())
}
