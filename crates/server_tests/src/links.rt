//! Connections, and the first request on one.
use crate::script::Replies;
use crate::servers::{OK, ScriptedLink, link, text};
use byte_streams::{MemoryIn, MemoryOut};
use byte_texts::Memory;
use cluster_admin::PortFault;
use resp2_wire::Reply;
use server_commands::Credentials;
use server_links::{Link, LinkFault, ListReply, ReplyLimit, TextReply, authenticate, connect};
use std::alloc::Global;
use std::io::Write;
use std::net::{Ipv4Addr, SocketAddr, SocketAddrV4, TcpListener};
use std::process::Abort;
use std::test::Fail;
use std::time::Duration;

/// An array of two bulk strings.
const PAIR: &[u8] = b"*2\r\n$3\r\nabc\r\n$4\r\nd\r\ne\r\n";

const PAIRS: Replies = &[OK, PAIR];

const DOUBLE: Replies = &[b"+OK\r\n+OK\r\n", OK];

/// Each reply is read as it is, in pieces of whatever size it comes.
#[test]
fn replies_come_in_pieces(rt: HostRuntime) -> Result<(), Fail> {
    let alloc = rt.alloc();
    for size in 1..PAIR.len() {
        let mut link = link(alloc, PAIRS, size)?;
        assert!(rt; is_simple(&link.ask(alloc, b"x", ReplyLimit::line())?));
        assert!(rt; is_pair(&link.ask(alloc, b"y", ReplyLimit::texts(2))?));
        assert!(rt; link.writer().bytes.as_slice() == b"xy".as_slice());
    }
    Ok(())
}

fn is_simple(reply: &Reply) -> bool {
    matches!(reply, Reply::Simple(_))
}

fn is_pair(reply: &Reply) -> bool {
    let Reply::Array(replies) = reply else {
        return false;
    };
    match replies.get() {
        [first, second] => is_bulk(first, b"abc") && is_bulk(second, b"d\r\ne"),
        _ => false,
    }
}

fn is_bulk(reply: &Reply, wanted: &[u8]) -> bool {
    match reply {
        Reply::Bulk(text) => text.get() == wanted,
        _ => false,
    }
}

/// What stands after a reply is no reply to a later request: the connection is gone.
#[test]
fn a_second_reply_ends_a_connection(rt: HostRuntime) -> Result<(), Fail> {
    let alloc = rt.alloc();
    let mut link = link(alloc, DOUBLE, 100)?;
    assert!(rt; fault_of(alloc, &mut link, b"x") == Some(PortFault::Wire));
    assert!(rt; fault_of(alloc, &mut link, b"y") == Some(PortFault::Wire));
    assert!(rt; link.writer().bytes.as_slice() == b"x".as_slice());
    assert!(rt; link.fault() == Some(LinkFault::NoReply));
    Ok(())
}

/// A text that is longer than a line is no answer to what is answered by one.
#[test]
fn a_long_reply_ends_a_connection(rt: HostRuntime) -> Result<(), Fail> {
    let alloc = rt.alloc();
    let long = long_text(alloc)?;
    let reader = MemoryIn::new(long.as_slice(), false);
    let mut link = Link::new(alloc, reader, MemoryOut::new(alloc, 10))?;
    assert!(rt; link.ask(alloc, b"x", ReplyLimit::line()).err() == Some(PortFault::Wire));
    assert!(rt; link.fault() == Some(LinkFault::TooLong));
    assert!(rt; link.reader().left.len() > 900_000);
    Ok(())
}

fn fault_of(alloc: Global, link: &mut ScriptedLink, request: &[u8]) -> Option<PortFault> {
    link.ask(alloc, request, ReplyLimit::line()).err()
}

/// A text of 1 MiB, and a listing of 1,000 keys of 1 KiB.
#[test]
fn long_replies_are_read(rt: HostRuntime) -> Result<(), Fail> {
    let alloc = rt.alloc();
    let long = long_text(alloc)?;
    assert!(rt; bulk_len(&answer(alloc, long.as_slice())?) == 1_048_576);
    let listing = long_listing(alloc)?;
    assert!(rt; listed_bytes(&answer(alloc, listing.as_slice())?) == 1_024_000);
    Ok(())
}

/// A text may be longer than an argument where that is asked for, as far as the limit.
#[test]
fn long_texts_are_read(rt: HostRuntime) -> Result<(), Fail> {
    let alloc = rt.alloc();
    let long = text_of(alloc, 2_097_152)?;
    assert!(rt; text_len(&text_answer(alloc, long.as_slice(), ReplyLimit::list())?) == 2_097_152);
    let refused = text_answer(alloc, long.as_slice(), ReplyLimit::text());
    assert!(rt; refused.err() == Some(PortFault::Wire));
    let error = text_answer(alloc, b"-ERR no\r\n", ReplyLimit::list())?;
    assert!(rt; matches!(&error, TextReply::Other(_)));
    let cut = text_answer(alloc, b"$2097152\r\nab\r\n", ReplyLimit::list());
    assert!(rt; cut.err() == Some(PortFault::Io));
    Ok(())
}

/// A list of no more texts than an array may have is a reply as any other.
#[test]
fn short_lists_are_replies(rt: HostRuntime) -> Result<(), Fail> {
    let answer = list_answer(rt.alloc(), PAIR, ReplyLimit::texts(2))?;
    assert!(rt; matches!(&answer, ListReply::Other(_)));
    Ok(())
}

/// A long list that ends early, or in which something else stands, is none.
#[test]
fn broken_long_lists_are_refused(rt: HostRuntime) -> Result<(), Fail> {
    let alloc = rt.alloc();
    let cut = list_answer(alloc, b"*2097153\r\n$1\r\nx\r\n", ReplyLimit::texts(100));
    assert!(rt; cut.err() == Some(PortFault::Io));
    let number = list_answer(alloc, b"*2097153\r\n:1\r\n", ReplyLimit::texts(100));
    assert!(rt; number.err() == Some(PortFault::Wire));
    let endless = list_answer(alloc, b"*4294967296\r\n", ReplyLimit::texts(100));
    assert!(rt; endless.err() == Some(PortFault::Wire));
    Ok(())
}

fn list_answer(alloc: Global, bytes: &[u8], limit: ReplyLimit) -> Result<ListReply, PortFault> {
    let mut link = Link::new(
        alloc,
        MemoryIn::new(bytes, false),
        MemoryOut::new(alloc, 10),
    )?;
    link.ask_list(alloc, b"x", limit)
}

fn text_answer(alloc: Global, bytes: &[u8], limit: ReplyLimit) -> Result<TextReply, PortFault> {
    let mut link = Link::new(
        alloc,
        MemoryIn::new(bytes, false),
        MemoryOut::new(alloc, 10),
    )?;
    link.ask_text(alloc, b"x", limit)
}

fn text_len(reply: &TextReply) -> usize {
    match reply {
        TextReply::Text(text) => text.len(),
        TextReply::Other(_) => 0,
    }
}

/// What is read of these bytes, in pieces of 64 KiB.
fn answer(alloc: Global, bytes: &[u8]) -> Result<Reply, PortFault> {
    let mut link = Link::new(
        alloc,
        MemoryIn::new(bytes, false),
        MemoryOut::new(alloc, 10),
    )?;
    link.ask(alloc, b"x", ReplyLimit::texts(1_000))
}

fn long_text(alloc: Global) -> Result<Vec<u8>, Memory> {
    text_of(alloc, 1_048_576)
}

/// A bulk string of so many line feeds.
fn text_of(alloc: Global, length: usize) -> Result<Vec<u8>, Memory> {
    let text = vec![in alloc; b'\n'; length]?;
    let mut bytes = format!(in alloc; "${length}\r\n")?.into_bytes();
    bytes.extend_from_slice(text.as_slice())?;
    bytes.extend_from_slice(b"\r\n")?;
    Ok(bytes)
}

fn long_listing(alloc: Global) -> Result<Vec<u8>, Memory> {
    let mut bytes = Vec::from_slice(alloc, b"*1000\r\n")?;
    for _ in 0..1_000u32 {
        bytes.extend_from_slice(b"$1024\r\n")?;
        bytes.extend_from_slice(&[b'k'; 1_024])?;
        bytes.extend_from_slice(b"\r\n")?;
    }
    Ok(bytes)
}

fn bulk_len(reply: &Reply) -> usize {
    match reply {
        Reply::Bulk(text) => text.get().len(),
        _ => 0,
    }
}

fn listed_bytes(reply: &Reply) -> usize {
    let Reply::Array(replies) = reply else {
        return 0;
    };
    let mut sum = 0usize;
    for reply in replies.get() {
        sum = sum.wrapping_add(bulk_len(reply));
    }
    sum
}

/// The user, the reply to AUTH, whether it lets the connection in, and what was written.
const LOGINS: &[(Option<&[u8]>, Replies, bool, &[u8])] = &[
    (None, &[OK], true, b"*2\r\n$4\r\nAUTH\r\n$6\r\nsecret\r\n"),
    (
        Some(b"me"),
        &[OK],
        true,
        b"*3\r\n$4\r\nAUTH\r\n$2\r\nme\r\n$6\r\nsecret\r\n",
    ),
    (
        None,
        &[b"-WRONGPASS invalid username-password pair or user is disabled.\r\n"],
        false,
        b"*2\r\n$4\r\nAUTH\r\n$6\r\nsecret\r\n",
    ),
    (
        None,
        &[
            b"-ERR AUTH <password> called without any password configured for the default \
            user. Are you sure your configuration is correct?\r\n",
        ],
        true,
        b"*2\r\n$4\r\nAUTH\r\n$6\r\nsecret\r\n",
    ),
    (
        None,
        &[b":1\r\n"],
        false,
        b"*2\r\n$4\r\nAUTH\r\n$6\r\nsecret\r\n",
    ),
];

#[test]
fn passwords_are_shown(rt: HostRuntime) -> Result<(), Fail> {
    let alloc = rt.alloc();
    for (user, replies, wanted, request) in LOGINS {
        let credentials = credentials(alloc, *user)?;
        let mut link = link(alloc, *replies, 100)?;
        assert!(rt; authenticate(alloc, &mut link, &credentials)? == *wanted);
        assert!(rt; link.writer().bytes.as_slice() == *request);
    }
    Ok(())
}

fn credentials(alloc: Global, user: Option<&[u8]>) -> Result<Credentials, Memory> {
    let user = match user {
        Some(user) => Some(text(alloc, user)?),
        None => None,
    };
    Ok(Credentials {
        user,
        password: text(alloc, b"secret")?,
    })
}

/// A connection over sockets answers, and a reply that does not come in time is a failure.
#[test]
fn sockets_are_connected(rt: HostRuntime) -> Result<(), Fail> {
    let alloc = rt.alloc();
    let listener = TcpListener::bind(&rt, "127.0.0.1:0")?;
    let port = listener.local_addr()?.port();
    let address = SocketAddrV4::new(Ipv4Addr::new(127, 0, 0, 1), port);
    let (reader, writer) = connect(
        &rt,
        address,
        Duration::from_secs(5),
        Duration::from_millis(200),
    )?;
    let (mut server, _) = listener.accept()?;
    server.write_all(OK)?;
    let mut link = Link::new(alloc, reader, writer)?;
    assert!(rt; is_simple(&link.ask(alloc, b"x", ReplyLimit::line())?));
    assert!(rt; link.ask(alloc, b"y", ReplyLimit::line()).err() == Some(PortFault::Io));
    assert!(rt; link.fault() == Some(LinkFault::Silent));
    assert!(rt; link.ask(alloc, b"z", ReplyLimit::line()).err() == Some(PortFault::Wire));
    Ok(())
}
