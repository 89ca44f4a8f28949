//! Exchanges with a redis-server 7.0.15 in cluster mode, byte for byte, and questions of which no server is needed.
use crate::{Caller, answer_by_node, answer_own, is_question};
use byte_texts::{MAX_BYTES, Memory, Text};
use cluster_node::Node;
use key_slots::{NodeId, OwnerTable};
use resp2_wire::{Reply, encode};
use std::alloc::Global;
use std::test::Fail;

/// The request of these words.
fn request_of(alloc: Global, words: &[&[u8]]) -> Result<Vec<Text>, Memory> {
    let mut request = Vec::new(alloc);
    for word in words {
        let kept = if word.len() > MAX_BYTES {
            Text::empty(alloc)
        } else {
            Text::from_slice(alloc, word)?
        };
        request.push(kept)?;
    }
    Ok(request)
}

/// The bytes of the answer to the question, or none where it is no question, or one that the node answers.
fn answer(alloc: Global, caller: &mut Caller, words: &[&[u8]]) -> Result<Vec<u8>, Memory> {
    let request = request_of(alloc, words)?;
    if !is_question(request.as_slice()) {
        return Ok(Vec::new(alloc));
    }
    match answer_own(alloc, caller, request.as_slice())? {
        Some(reply) if reply.is_within_limits() => encode(alloc, &reply),
        _ => Ok(Vec::new(alloc)),
    }
}

const HELLO: &[u8] =
    b"*14\r\n$6\r\nserver\r\n$5\r\nredis\r\n$7\r\nversion\r\n$6\r\n7.0.15\r\n$5\r\nproto\r\n:2\r\n\
$2\r\nid\r\n:9\r\n$4\r\nmode\r\n$7\r\ncluster\r\n$4\r\nrole\r\n$6\r\nmaster\r\n$7\r\nmodules\r\n*0\r\n";

const EXCHANGES: [(&[&[u8]], &[u8]); 18] = [
    (&[b"CLIENT", b"GETNAME"], b"$-1\r\n"),
    (
        &[b"HELLO", b"2", b"SETNAME", b"bob", b"AUTH", b"default", b""],
        HELLO,
    ),
    (&[b"CLIENT", b"GETNAME"], b"$3\r\nbob\r\n"),
    (
        &[b"HELLO", b"2", b"SETNAME", b"amy", b"SETNAME"],
        b"-ERR Syntax error in HELLO option 'SETNAME'\r\n",
    ),
    (&[b"client", b"getname"], b"$3\r\namy\r\n"),
    (
        &[b"CLIENT", b"SETNAME", b"a b"],
        b"-ERR Client names cannot contain spaces, newlines or special characters.\r\n",
    ),
    (&[b"CLIENT", b"ID"], b":9\r\n"),
    (
        &[b"CLIENT", b"a\r\nb'c\0d"],
        b"-ERR unknown subcommand 'a  b'c'. Try CLIENT HELP.\r\n",
    ),
    (
        &[b"HELLO", b"3"],
        b"-NOPROTO unsupported protocol version\r\n",
    ),
    (
        &[b"INFO", b"cluster"],
        b"$30\r\n# Cluster\r\ncluster_enabled:1\r\n\r\n",
    ),
    (
        &[b"CONFIG", b"GET", b"SAVE", b"foo"],
        b"*2\r\n$4\r\nSAVE\r\n$0\r\n\r\n",
    ),
    (&[b"SELECT", b"0"], b"+OK\r\n"),
    (
        &[b"SELECT", b"2147483648"],
        b"-ERR value is out of range, value must between -2147483648 and 2147483647\r\n",
    ),
    (
        &[b"AUTH", b"amy", b"x"],
        b"-WRONGPASS invalid username-password pair or user is disabled.\r\n",
    ),
    (
        &[b"CLUSTER", b"FOO"],
        b"-ERR unknown subcommand 'FOO'. Try CLUSTER HELP.\r\n",
    ),
    (
        &[b"CLUSTER", b"COUNTKEYSINSLOT", b"16384"],
        b"-ERR Invalid slot\r\n",
    ),
    (&[b"CLUSTER", b"NODES"], b""),
    (&[b"CLUSTER", b"SLOTS"], b""),
];

#[test]
fn exchanges(rt: HostRuntime) -> Result<(), Fail> {
    let mut caller = Caller::new(rt.alloc(), 9);
    for (words, bytes) in EXCHANGES {
        let told = answer(rt.alloc(), &mut caller, words)?;
        assert!(rt; told.as_slice() == bytes);
    }
    Ok(())
}

/// The row and the page of GET, whose categories, tips, key specifications and subcommands are left out.
const OF_GET: [(&[&[u8]], &[u8]); 3] = [
    (&[b"COMMAND", b"COUNT"], b":47\r\n"),
    (
        &[b"COMMAND", b"INFO", b"GET"],
        b"*1\r\n*10\r\n$3\r\nget\r\n:2\r\n*2\r\n+readonly\r\n+fast\r\n:1\r\n:1\r\n:1\r\n\
*0\r\n*0\r\n*0\r\n*0\r\n",
    ),
    (
        &[b"COMMAND", b"DOCS", b"GET"],
        b"*2\r\n$3\r\nget\r\n*6\r\n$7\r\nsummary\r\n$22\r\nGet the value of a key\r\n\
$5\r\nsince\r\n$5\r\n1.0.0\r\n$5\r\ngroup\r\n$6\r\nstring\r\n",
    ),
];

#[test]
fn commands_are_told(rt: HostRuntime) -> Result<(), Fail> {
    let mut caller = Caller::new(rt.alloc(), 9);
    for (words, bytes) in OF_GET {
        let told = answer(rt.alloc(), &mut caller, words)?;
        assert!(rt; told.as_slice() == bytes);
    }
    let all = answer(rt.alloc(), &mut caller, &[b"COMMAND"])?;
    assert!(rt; all.as_slice().starts_with(b"*47\r\n*10\r\n$3\r\nget\r\n"));
    Ok(())
}

/// The bytes of what a node answers that was just opened, as the first of three.
fn shown(alloc: Global, words: &[&[u8]]) -> Result<Vec<u8>, Memory> {
    let request = request_of(alloc, words)?;
    let node = Node::open(alloc, NodeId::of(0), OwnerTable::even(alloc, 3, 3)?, 7000)?;
    let reply: Reply = answer_by_node(alloc, 7000, &node, request.as_slice())?;
    if reply.is_within_limits() {
        encode(alloc, &reply)
    } else {
        Ok(Vec::new(alloc))
    }
}

/// How the answers to questions about a node begin.
const BY_NODE: [(&[&[u8]], &[u8]); 5] = [
    (&[b"CLUSTER", b"INFO"], b"$"),
    (&[b"CLUSTER", b"NODES"], b"$"),
    (&[b"CLUSTER", b"SHARDS"], b"*3\r\n"),
    (&[b"CLUSTER", b"MYID"], b"$40\r\n"),
    (&[b"CLUSTER", b"COUNTKEYSINSLOT", b"0"], b":0\r\n"),
];

#[test]
fn nodes_are_shown(rt: HostRuntime) -> Result<(), Fail> {
    for (words, beginning) in BY_NODE {
        let told = shown(rt.alloc(), words)?;
        assert!(rt; told.as_slice().starts_with(beginning));
    }
    Ok(())
}
