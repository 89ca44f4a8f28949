//! Tests of `store_commands`, over the keyspace of a node.
use byte_texts::Text;
use client_commands::Command;
use resp2_wire::{Reply, Request, encode};
use slot_keyspace::Keyspace;
use std::alloc::Global;
use std::process::Abort;
use std::test::Fail;
use store_commands::apply;

fn request(alloc: Global, words: &[&[u8]]) -> Result<Request, Fail> {
    let mut texts = Vec::new(alloc);
    for word in words {
        if word.len() <= 1_048_576 {
            texts.push(Text::from_slice(alloc, word)?)?;
        }
    }
    if texts.len() > 1024 {
        return Err(Fail::from("too many words"));
    }
    Ok(Request::from_vec(texts))
}

/// The reply to the words.
fn reply(alloc: Global, keyspace: &mut Keyspace, words: &[&[u8]]) -> Result<Reply, Fail> {
    let command = Command::read(alloc, request(alloc, words)?)?;
    Ok(apply(alloc, keyspace, &command)?)
}

/// The bytes of the reply to the words.
fn answer(alloc: Global, keyspace: &mut Keyspace, words: &str) -> Result<Vec<u8>, Fail> {
    let mut parts = Vec::new(alloc);
    for word in words.split(' ').take(100) {
        parts.push(word.as_bytes())?;
    }
    let reply = reply(alloc, keyspace, parts.as_slice())?;
    if !reply.is_within_limits() {
        return Err(Fail::from("a reply beyond the limits"));
    }
    Ok(encode(alloc, &reply)?)
}

/// Each of the commands has its answer, from an empty keyspace on.
fn assert_answers(rt: &impl Abort, alloc: Global, rows: &[(&str, &str)]) -> Result<(), Fail> {
    let mut keyspace = Keyspace::new(alloc)?;
    for row in rows {
        let bytes = answer(alloc, &mut keyspace, row.0)?;
        assert!(rt; bytes.as_slice() == row.1.as_bytes(), "at {}", row.0);
    }
    Ok(())
}

const TEXTS_AND_COUNTERS: &[(&str, &str)] = &[
    ("set k 10", "+OK\r\n"),
    ("get k", "$2\r\n10\r\n"),
    ("incrby k 5", ":15\r\n"),
    ("append k 0", ":3\r\n"),
    ("setnx k 1", ":0\r\n"),
    (
        "lpush k x",
        "-WRONGTYPE Operation against a key holding the wrong kind of value\r\n",
    ),
    (
        "incrby k x",
        "-ERR value is not an integer or out of range\r\n",
    ),
    (
        "incrby k 9223372036854775807",
        "-ERR increment or decrement would overflow\r\n",
    ),
    ("mset a 1 b 2 a 3", "+OK\r\n"),
    ("mget a b c", "*3\r\n$1\r\n3\r\n$1\r\n2\r\n$-1\r\n"),
];

#[test]
fn texts_and_counters(rt: HostRuntime) -> Result<(), Fail> {
    assert_answers(&rt, rt.alloc(), TEXTS_AND_COUNTERS)
}

const COLLECTIONS_AND_KEYS: &[(&str, &str)] = &[
    ("hset h f 1 g 2 f 3", ":2\r\n"),
    (
        "hgetall h",
        "*4\r\n$1\r\nf\r\n$1\r\n3\r\n$1\r\ng\r\n$1\r\n2\r\n",
    ),
    ("rpush l a b", ":2\r\n"),
    ("lrange l 0 -1", "*2\r\n$1\r\na\r\n$1\r\nb\r\n"),
    ("sadd s a b a", ":2\r\n"),
    ("smove s t a", ":1\r\n"),
    ("smembers t", "*1\r\n$1\r\na\r\n"),
    ("rename t u", "+OK\r\n"),
    ("rename t u", "-ERR no such key\r\n"),
    ("set a 1", "+OK\r\n"),
    ("del a b a u", ":2\r\n"),
];

#[test]
fn collections_and_keys(rt: HostRuntime) -> Result<(), Fail> {
    assert_answers(&rt, rt.alloc(), COLLECTIONS_AND_KEYS)
}

fn is_error(reply: &Reply, wanted: &[u8]) -> bool {
    match reply {
        Reply::Error(text) => text.get() == wanted,
        _ => false,
    }
}

#[test]
fn a_text_beyond_its_limit_is_refused(rt: HostRuntime) -> Result<(), Fail> {
    let alloc = rt.alloc();
    let mut keyspace = Keyspace::new(alloc)?;
    let long = vec![in alloc; b'x'; 1_048_576]?;
    let _ok = reply(alloc, &mut keyspace, &[b"set", b"k", long.as_slice()])?;
    let refused = reply(alloc, &mut keyspace, &[b"append", b"k", b"y"])?;
    assert!(rt; is_error(&refused, b"ERR string exceeds the limit of 1048576 bytes"));
    Ok(())
}
