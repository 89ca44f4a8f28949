//! Three servers that answer what they are told to.
ghost use Rattle.std.specs.Prelude.{◌≡◌, ◌<◌, IfOk, length, vec_len};

use crate::script::{Replies, Script, Turns};
use byte_streams::MemoryOut;
use byte_texts::{Memory, Text, TextList};
use cluster_admin::{KeyList, Survey};
use key_slots::{NodeId, OwnerTable};
use redis_servers::ServersPort;
use server_commands::{Server, ServerBook};
use server_links::Link;
use std::alloc::{AllocError, Global};

pub const OK: &[u8] = b"+OK\r\n";

/// No reply, and one +OK.
pub const NONE: Replies = &[];

pub const ONE: Replies = &[OK];

pub type ScriptedPort = ServersPort<Script, MemoryOut, Turns>;

pub type ScriptedLink = Link<Script, MemoryOut>;

/// A text of the bytes, of which there are few.
pub fn text(alloc: Global, bytes: &[u8]) -> Result<Text, Memory> {
    if bytes.len() > 100 {
        return Err(AllocError);
    }
    Text::from_slice(alloc, bytes)
}

/// The server with this name at the port.
pub fn server(alloc: Global, name: &[u8], port: u16) -> Result<Server, Memory> {
    Ok(Server {
        name: text(alloc, name)?,
        host: text(alloc, b"127.0.0.1")?,
        port,
    })
}

/// The servers n0 to n2.
pub fn book(alloc: Global) -> Result<ServerBook, Memory>
    ensures { IfOk result (λ b. length b ≡ 3) }
{
    let first = server(alloc, b"aaaaaaaaaaaaaaaaaaaaaaaaaaaaaaaaaaaaaaaa", 7000)?;
    let second = server(alloc, b"bbbbbbbbbbbbbbbbbbbbbbbbbbbbbbbbbbbbbbbb", 7001)?;
    let third = server(alloc, b"cccccccccccccccccccccccccccccccccccccccc", 7002)?;
    Ok(ServerBook::of(vec![in alloc; first, second, third]?))
}

pub fn link(alloc: Global, replies: Replies, size: usize) -> Result<ScriptedLink, Memory> {
    Link::new(
        alloc,
        Script::new(replies, size),
        MemoryOut::new(alloc, 100_000),
    )
}

/// Connections to the servers n0 to n2, with these replies.
pub fn links(
    alloc: Global,
    first: Replies,
    second: Replies,
    third: Replies,
) -> Result<Vec<ScriptedLink>, Memory>
    ensures { IfOk result (λ v. vec_len v ≡ 3) }
{
    let first = link(alloc, first, 100)?;
    let second = link(alloc, second, 100)?;
    let third = link(alloc, third, 100)?;
    Ok(vec![in alloc; first, second, third]?)
}

/// The survey of three servers that share the slots evenly.
pub fn survey(alloc: Global) -> Result<Survey, Memory>
    ensures { IfOk result (λ v. length v.rows ≡ 3) }
{
    let owners = OwnerTable::even(alloc, 3, 3)?;
    Survey::closed(alloc, &owners)
}

/// What a master answers to ROLE, and what a replica does.
pub const MASTER: &[u8] =
    b"*3\r\n$6\r\nmaster\r\n:120\r\n*1\r\n*3\r\n$9\r\n127.0.0.1\r\n$4\r\n7003\r\n$3\r\n120\r\n";

pub const SLAVE: &[u8] =
    b"*5\r\n$5\r\nslave\r\n$9\r\n127.0.0.1\r\n:7003\r\n$9\r\nconnected\r\n:120\r\n";

/// A port to three servers with these replies. A wait for a config epoch ends after three turns.
pub fn port(
    alloc: Global,
    first: Replies,
    second: Replies,
    third: Replies,
) -> Result<ScriptedPort, Memory>
    ensures { IfOk result (λ p. length p.setup.book ≡ 3) }
{
    port_after(alloc, survey(alloc)?, first, second, third)
}

/// A port to the servers after this survey.
pub fn port_after(
    alloc: Global,
    survey: Survey,
    first: Replies,
    second: Replies,
    third: Replies,
) -> Result<ScriptedPort, Memory>
    requires { length survey.rows ≡ 3 }
    ensures { IfOk result (λ p. length p.setup.book ≡ 3) }
{
    port_that(alloc, survey, false, first, second, third)
}

/// A port that waits until all have heard of a slot's new owner.
pub fn waiting_port(
    alloc: Global,
    first: Replies,
    second: Replies,
    third: Replies,
) -> Result<ScriptedPort, Memory>
    ensures { IfOk result (λ p. length p.setup.book ≡ 3) }
{
    port_that(alloc, survey(alloc)?, true, first, second, third)
}

fn port_that(
    alloc: Global,
    survey: Survey,
    waits_for_news: bool,
    first: Replies,
    second: Replies,
    third: Replies,
) -> Result<ScriptedPort, Memory>
    requires { length survey.rows ≡ 3 }
    ensures { IfOk result (λ p. length p.setup.book ≡ 3) }
{
    let links = links(alloc, first, second, third)?;
    let pause = Turns { turns: 3, left: 3 };
    ServersPort::new(
        alloc,
        links,
        book(alloc)?,
        60_000,
        None,
        survey,
        waits_for_news,
        pause,
    )
}

/// The bytes that were written to the server.
pub fn written(port: &ScriptedPort, node: u8) -> &[u8]
    requires node { node < 3 }
    requires servers { length port.now.setup.book ≡ 3 }
{
    port.link(NodeId::of(node)).writer().bytes.as_slice()
}

pub fn keys(alloc: Global, words: &[&[u8]]) -> Result<KeyList, Memory> {
    let mut list = TextList::new(alloc);
    for word in words {
        list.push(text(alloc, word)?)?;
    }
    Ok(list)
}
