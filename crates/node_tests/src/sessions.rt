ghost use Rattle.std.specs.Prelude.{◌≡◌, ◌≢◌, ◌<◌, ◌≤◌, length, take, IfOk, OnOk, OnErr};

use crate::clusters::three_nodes;
use byte_streams::{ByteIn, ByteOut, Failed, MemoryIn, MemoryOut};
use byte_texts::Memory;
use cluster_node::AdminCommand;
use key_slots::{NodeId, Slot};
use node_session::{SessionEnd, serve_session};
use resp2_wire::WireFault;
use std::alloc::Global;
use std::cell::Cell;
use std::process::Abort;

/// A session at node 0 that reads the input, and then the end or a failure, and may write so many bytes.
fn assert_session(
    rt: &impl Abort,
    alloc: Global,
    (input, fails, room): (&[u8], bool, usize),
    (end, output): (SessionEnd, &[u8]),
) -> Result<(), Memory> {
    let mut world = three_nodes(alloc)?;
    let mut reader = MemoryIn::new(input, fails);
    let mut writer = MemoryOut::new(alloc, room);
    let node = NodeId::of(0);
    assert!(rt; node.get() < world.nodes());
    let (found, sent) = serve_session(alloc, &mut reader, &mut writer, &mut world, node);
    assert!(rt; found == end);
    assert!(rt; writer.bytes.as_slice() == output);
    assert!(rt; sent == output.len() as u64);
    Ok(())
}

#[test]
fn ends(rt: HostRuntime) -> Result<(), Memory> {
    let set = b"*3\r\n$3\r\nSET\r\n$1\r\nb\r\n$1\r\n1\r\n";
    let fault = WireFault::TooLarge;
    let line = b"-ERR Protocol error: 5 TooLarge\r\n";
    let ping = b"*1\r\n$4\r\nPING\r\n";
    let cases: [(&[u8], bool, usize, SessionEnd, &[u8]); 8] = [
        (set, false, 99, SessionEnd::Closed, b"+OK\r\n"),
        (b"*3\r\n$3\r\nSET\r\n", false, 99, SessionEnd::Cut, b""),
        (
            b"*1\r\n$1048577\r\n",
            false,
            99,
            SessionEnd::Protocol(fault),
            line,
        ),
        (set, true, 99, SessionEnd::ReadFailed, b"+OK\r\n"),
        (set, false, 3, SessionEnd::WriteFailed, b"+OK"),
        (set, false, 0, SessionEnd::WriteFailed, b""),
        (ping, false, 3, SessionEnd::WriteFailed, b"+PO"),
        (b"*1\r\n$4\r\nPI", true, 99, SessionEnd::ReadFailed, b""),
    ];
    for (input, fails, room, end, output) in cases {
        assert_session(&rt, rt.alloc(), (input, fails, room), (end, output))?;
    }
    Ok(())
}

/// A stream that is at fault is answered so in one line, and the session ends.
#[test]
fn faults(rt: HostRuntime) -> Result<(), Memory> {
    let too_large = b"-ERR Protocol error: 5 TooLarge\r\n";
    let bad_count = b"-ERR Protocol error: 2 BadCount\r\n";
    let not_bulk = b"-ERR Protocol error: 3 NotBulk\r\n";
    let bad_length = b"-ERR Protocol error: 4 BadLength\r\n";
    let no_end = b"-ERR Protocol error: 6 MissingCrLf\r\n";
    let cases: [(&[u8], WireFault, &[u8]); 7] = [
        (b"*1025\r\n", WireFault::TooLarge, too_large),
        (b"*99999999999999999999\r\n", WireFault::TooLarge, too_large),
        (b"*99999999999999999999999", WireFault::BadCount, bad_count),
        (b"*-0\r\n", WireFault::BadCount, bad_count),
        (b"*1\r\n+", WireFault::NotBulk, not_bulk),
        (b"*1\r\n$-1\r\n", WireFault::BadLength, bad_length),
        (b"*1\r\n$4\r\nPINGxx", WireFault::MissingCrLf, no_end),
    ];
    for (input, fault, output) in cases {
        assert_session(
            &rt,
            rt.alloc(),
            (input, false, 99),
            (SessionEnd::Protocol(fault), output),
        )?;
    }
    Ok(())
}

const REPLIES: &[(&[u8], &[u8])] = &[
    (b"*1\r\n$4\r\nPING\r\n", b"+PONG\r\n"),
    (b"*2\r\n$4\r\nping\r\n$2\r\nhi\r\n", b"$2\r\nhi\r\n"),
    (
        b"*2\r\n$6\r\nASKING\r\n$1\r\nx\r\n",
        b"-ERR wrong number of arguments for 'asking' command\r\n",
    ),
    (
        b"*3\r\n$7\r\nCLUSTER\r\n$7\r\nKeySlot\r\n$1\r\nb\r\n",
        b":3300\r\n",
    ),
    (
        b"*3\r\n$7\r\nCLUSTER\r\n$5\r\nSLOTS\r\n$1\r\nb\r\n",
        b"-ERR wrong number of arguments for 'cluster|slots' command\r\n",
    ),
    (
        b"*2\r\n$7\r\nCLUSTER\r\n$7\r\nSETSLOT\r\n",
        b"-ERR this command belongs to the administrator's seat\r\n",
    ),
    (
        b"*1\r\n$7\r\nMIGRATE\r\n",
        b"-ERR this command belongs to the administrator's seat\r\n",
    ),
    (
        b"*1\r\n$3\r\nGet\r\n",
        b"-ERR wrong number of arguments for 'get' command\r\n",
    ),
    (b"*1\r\n$7\r\nCLUSTER\r\n", b"-ERR unknown command\r\n"),
];

#[test]
fn replies(rt: HostRuntime) -> Result<(), Memory> {
    for &(input, output) in REPLIES {
        assert_session(
            &rt,
            rt.alloc(),
            (input, false, 999),
            (SessionEnd::Closed, output),
        )?;
    }
    Ok(())
}

/// CLUSTER SLOTS, and what stands in the store from one request to the next.
#[test]
fn node_replies(rt: HostRuntime) -> Result<(), Memory> {
    let slots = b"*2\r\n$7\r\nCLUSTER\r\n$5\r\nSLOTS\r\n";
    let ranges = b"*3\r\n\
          *3\r\n:0\r\n:5460\r\n*3\r\n$9\r\n127.0.0.1\r\n:7000\r\n\
          $40\r\n0000000000000000000000000000000000000000\r\n\
          *3\r\n:5461\r\n:10922\r\n*3\r\n$9\r\n127.0.0.1\r\n:7001\r\n\
          $40\r\n0000000000000000000000000000000000000001\r\n\
          *3\r\n:10923\r\n:16383\r\n*3\r\n$9\r\n127.0.0.1\r\n:7002\r\n\
          $40\r\n0000000000000000000000000000000000000002\r\n";
    let both = b"*3\r\n$3\r\nSET\r\n$1\r\nb\r\n$1\r\n1\r\n*2\r\n$3\r\nGET\r\n$1\r\nb\r\n";
    let cases: [(&[u8], &[u8]); 2] = [(slots, ranges), (both, b"+OK\r\n$1\r\n1\r\n")];
    for (input, output) in cases {
        assert_session(
            &rt,
            rt.alloc(),
            (input, false, 999),
            (SessionEnd::Closed, output),
        )?;
    }
    Ok(())
}

/// Sessions at node 1, to which the slot of `b` is to come from node 0: ASKING holds for one request, and an empty one
/// is none.
#[test]
fn asking_where_a_slot_is_imported(rt: HostRuntime) -> Result<(), Memory> {
    let empty = b"*1\r\n$6\r\nASKING\r\n*0\r\n*2\r\n$3\r\nGET\r\n$1\r\nb\r\n";
    let other = b"*1\r\n$6\r\nASKING\r\n*1\r\n$4\r\nPING\r\n*2\r\n$3\r\nGET\r\n$1\r\nb\r\n";
    let twice =
        b"*1\r\n$6\r\nASKING\r\n*2\r\n$3\r\nGET\r\n$1\r\nb\r\n*2\r\n$3\r\nGET\r\n$1\r\nb\r\n";
    let cases: [(&[u8], &[u8]); 3] = [
        (empty, b"+OK\r\n$-1\r\n"),
        (other, b"+OK\r\n+PONG\r\n-MOVED 3300 127.0.0.1:7000\r\n"),
        (twice, b"+OK\r\n$-1\r\n-MOVED 3300 127.0.0.1:7000\r\n"),
    ];
    for (input, output) in cases {
        assert_importing_session(&rt, rt.alloc(), input, output)?;
    }
    Ok(())
}

fn assert_importing_session(
    rt: &impl Abort,
    alloc: Global,
    input: &[u8],
    output: &[u8],
) -> Result<(), Memory> {
    let mut world = three_nodes(alloc)?;
    let node = NodeId::of(1);
    assert!(rt; node.get() < world.nodes());
    let command = AdminCommand::Importing(Slot::of(3300), NodeId::of(0));
    drop(world.command(node, &command)?);
    assert!(rt; node.get() < world.nodes());
    let mut reader = MemoryIn::new(input, false);
    let mut writer = MemoryOut::new(alloc, 999);
    let (end, sent) = serve_session(alloc, &mut reader, &mut writer, &mut world, node);
    assert!(rt; matches!(end, SessionEnd::Closed));
    assert!(rt; writer.bytes.as_slice() == output);
    assert!(rt; sent == output.len() as u64);
    Ok(())
}

/// The length of the requests of the client below, and of their replies.
const REQUEST: usize = 20;

const REPLY: u64 = 5;

/// A client that sends its next request only after it has the reply to the one before: a reader that fails where it is
/// asked too early, and a writer that counts the replies' bytes.
#[derive(Drop)]
struct Waiting<'a> {
    left: &'a [u8],
    due: u64,
    received: &'a Cell<u64>,
    ends: u64,
    failures: u64,
}

impl ByteIn for Waiting<'_> {
    ghost gave = { λ x n bytes y. Unit {0} };

    ghost ends = { λ x. x.ends };

    ghost failures = { λ x. x.failures };

    fn read(&mut self, buffer: &mut [u8]) -> Result<usize, Failed> {
        if self.left.is_empty() {
            self.ends = self.ends.wrapping_add(1);
            return Ok(0);
        }
        if self.received.get() < self.due {
            self.failures = self.failures.wrapping_add(1);
            return Err(Failed);
        }
        let count = self.left.len().min(REQUEST).min(buffer.len());
        let (request, rest) = self.left.split_at(count);
        buffer[..count].copy_from_slice(request);
        self.left = rest;
        self.due = self.due.wrapping_add(REPLY);
        Ok(count)
    }

    ghost gave_none = { λ x. tt };

    ghost gave_then = { λ x y z m n a b h k. tt };
}

#[derive(Drop)]
struct Counting<'a> {
    received: &'a Cell<u64>,
}

impl ByteOut for Counting<'_> {
    ghost took = { λ x bytes y. Unit {0} };

    ghost failures = { λ x. 0 };

    fn write(&mut self, bytes: &[u8]) -> Result<usize, Failed> {
        self.received
            .set(self.received.get().wrapping_add(bytes.len() as u64));
        Ok(bytes.len())
    }

    ghost took_none = { λ x. tt };

    ghost took_then = { λ x y z a b h k. tt };
}

/// A session answers what it has before it reads on: the client above gets each of its replies.
#[test]
fn each_reply_before_the_next_read(rt: HostRuntime) -> Result<(), Memory> {
    let received = Cell::new(0u64);
    let get =
        b"*2\r\n$3\r\nGET\r\n$1\r\nb\r\n*2\r\n$3\r\nGET\r\n$1\r\nb\r\n*2\r\n$3\r\nGET\r\n$1\r\nb\r\n";
    let mut reader = Waiting {
        left: get,
        due: 0,
        received: &received,
        ends: 0,
        failures: 0,
    };
    let mut writer = Counting {
        received: &received,
    };
    let mut world = three_nodes(rt.alloc())?;
    let node = NodeId::of(0);
    assert!(rt; node.get() < world.nodes());
    let (end, sent) = serve_session(rt.alloc(), &mut reader, &mut writer, &mut world, node);
    assert!(rt; matches!(end, SessionEnd::Closed) && sent == 15);
    Ok(())
}
