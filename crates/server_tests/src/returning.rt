//! Failed masters that may take the slots of a plan's targets when they return.
use crate::script::Replies;
use crate::servers::{NONE, book, links, server};
use crate::versions::{REDIS, VALKEY};
use cluster_views::SurveyFault;
use key_slots::{NodeId, Slot};
use plan_language::Line;
use server_shards::returning_text;
use std::alloc::Global;
use std::test::Fail;

/// The failed master, which was n1.
const OLD: &[u8] = b"dddddddddddddddddddddddddddddddddddddddd";

/// Three shards: that of n0, that of n1 and the failed master, and that of n2.
const SHARDS: &[u8] = b"\
        *3\r\n*4\r\n$5\r\nslots\r\n*2\r\n:0\r\n:5460\r\n$5\r\nnodes\r\n*1\r\n*4\r\n$2\r\nid\r\n$40\r\n\
        aaaaaaaaaaaaaaaaaaaaaaaaaaaaaaaaaaaaaaaa\r\n$4\r\nport\r\n:7000\r\n*4\r\n$5\r\nslots\r\n*2\r\n:0\r\n:5460\r\n\
        $5\r\nnodes\r\n*2\r\n*4\r\n$2\r\nid\r\n$40\r\nbbbbbbbbbbbbbbbbbbbbbbbbbbbbbbbbbbbbbbbb\r\n$4\r\nport\r\n\
        :7001\r\n*4\r\n$2\r\nid\r\n$40\r\ndddddddddddddddddddddddddddddddddddddddd\r\n$4\r\nport\r\n:7003\r\n*4\r\n\
        $5\r\nslots\r\n*2\r\n:0\r\n:5460\r\n$5\r\nnodes\r\n*1\r\n*4\r\n$2\r\nid\r\n$40\r\n\
        cccccccccccccccccccccccccccccccccccccccc\r\n$4\r\nport\r\n:7002\r\n";

const AT_VALKEY: Replies = &[VALKEY, SHARDS];

const AT_REDIS: Replies = &[REDIS];

const TEXT: &[u8] = b"127.0.0.1:7003 failed, and takes the slots of n1 if it returns as it was: \
        start it first (it becomes a replica), or remove its nodes.conf, then continue, \
        with --dead-for-good dddddddddddddddddddddddddddddddddddddddd if it never returns";

/// What is said before slot 5 goes to the node, at servers that answer so.
fn said(
    alloc: Global,
    replies: Replies,
    target: NodeId,
    dead: &[u8],
) -> Result<Option<Vec<u8>>, SurveyFault> {
    let mut links = links(alloc, NONE, replies, replies)?;
    let book = book(alloc)?;
    let old = server(alloc, OLD, 7003)?;
    let line = Line::Move {
        first: Slot::of(5),
        last: Slot::of(5),
        source: NodeId::of(0),
        target,
        batch: 10,
    };
    returning_text(alloc, &mut links, &book, &[old], dead, &[line])
}

#[test]
fn a_failed_master_of_a_targets_shard_is_told(rt: HostRuntime) -> Result<(), Fail> {
    let alloc = rt.alloc();
    let text = said(alloc, AT_VALKEY, NodeId::of(1), b"")?;
    assert!(rt; text.is_some());
    if let Some(text) = text {
        assert!(rt; text.as_slice() == TEXT);
    }
    assert!(rt; said(alloc, AT_VALKEY, NodeId::of(2), b"")?.is_none());
    assert!(rt; said(alloc, AT_REDIS, NodeId::of(1), b"")?.is_none());
    assert!(rt; said(alloc, NONE, NodeId::of(1), OLD)?.is_none());
    assert!(rt; said(alloc, NONE, NodeId::of(1), b"").is_err());
    Ok(())
}
