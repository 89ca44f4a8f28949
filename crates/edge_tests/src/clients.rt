//! Tests of `redirect_client`: which sends a client makes, over ports that answer what they are told to.
ghost use Rattle.std.specs.Prelude.{◌≡◌, ◌≤◌, IfOk};

use crate::commands::get_b;
use byte_texts::Text;
use cluster_admin::{NodeCount, PortFault};
use cluster_world::NodePort;
use key_slots::{NodeId, OwnerTable, Slot};
use redirect_client::{Client, ClientFault};
use resp2_wire::Reply;
use std::alloc::Global;
use std::process::Abort;
use std::test::Fail;
use store_commands::Command;

/// A port of three nodes. It answers its sends by the lines, one after the other, and each further one by the last; a
/// line `lost` is a device that failed.
#[derive(Drop)]
struct Scripted<'a> {
    alloc: Global,
    lines: &'a [&'a [u8]],
    /// The nodes that were called, with whether ASKING came before: 20 at most.
    log: [(u8, bool); 20],
    sends: usize,
    failures: u64,
}

impl<'a> Scripted<'a> {
    fn new(alloc: Global, lines: &'a [&'a [u8]]) -> Self {
        Self {
            alloc,
            lines,
            log: [(0, false); 20],
            sends: 0,
            failures: 0,
        }
    }

    /// Whether these are the sends that were made.
    fn was_sent(&self, wanted: &[(u8, bool)]) -> bool {
        self.sends == wanted.len()
            && self
                .log
                .iter()
                .zip(wanted.iter())
                .all(|(sent, wanted)| *sent == *wanted)
    }
}

impl NodeCount for Scripted<'_> {
    ghost count = { λ x. 3 };

    fn nodes(&self) -> u8 {
        3
    }
}

impl NodePort for Scripted<'_> {
    ghost sends = { λ x s y. Unit {0} };

    ghost failures = { λ x. x.failures };

    fn send(&mut self, node: NodeId, asking: bool, command: &Command) -> Result<Reply, PortFault> {
        if self.sends < 20 {
            self.log[self.sends] = (node.get(), asking);
        }
        self.sends = self.sends.saturating_add(1);
        let line = match self.lines {
            [] => return Err(PortFault::Wire),
            [last] => *last,
            [first, rest @ ..] => {
                self.lines = rest;
                *first
            }
        };
        if line == b"lost".as_slice() {
            return Err(PortFault::Wire);
        }
        if line.len() > 200 {
            return Err(PortFault::Wire);
        }
        Ok(Reply::Error(Text::from_slice(self.alloc, line)?))
    }

    fn look(&mut self, node: NodeId) -> Result<Reply, PortFault> {
        Err(PortFault::Wire)
    }
}

/// Whether the outcome is an error reply with this text, or this fault.
fn is_outcome(outcome: &Result<Reply, ClientFault>, wanted: Result<&[u8], ClientFault>) -> bool {
    match (outcome, wanted) {
        (Ok(Reply::Error(text)), Ok(wanted)) => text.get() == wanted,
        (Err(fault), Err(wanted)) => *fault == wanted,
        _ => false,
    }
}

/// A client of three nodes with the even split sends GET b, whose slot is 3300, over a port that answers by the lines.
fn assert_followed(
    rt: &impl Abort,
    alloc: Global,
    lines: &[&[u8]],
    sends: &[(u8, bool)],
    wanted: Result<&[u8], ClientFault>,
    believed: u8,
) -> Result<(), Fail> {
    let mut port = Scripted::new(alloc, lines);
    let mut client = Client::new(OwnerTable::even(alloc, 3, 3)?, 7000);
    let command = get_b(alloc).ok_or("no command")?;
    let outcome = client.execute(&mut port, &command);
    assert!(rt; is_outcome(&outcome, wanted));
    assert!(rt; port.was_sent(sends));
    assert!(rt; client.owners().owner(Slot::of(3300)).get() == believed);
    Ok(())
}

const TRY_AGAIN: &[u8] = b"TRYAGAIN Multiple keys request during rehashing of slot";

const FOLLOWED: &[(&[&[u8]], &[(u8, bool)], Result<&[u8], ClientFault>, u8)] = &[
    (&[b"ERR x"], &[(0, false)], Ok(b"ERR x"), 0),
    (
        &[b"MOVED 3300 127.0.0.1:7001", b"ERR x"],
        &[(0, false), (1, false)],
        Ok(b"ERR x"),
        1,
    ),
    (
        &[b"ASK 3300 127.0.0.1:7001", b"ERR x"],
        &[(0, false), (1, true)],
        Ok(b"ERR x"),
        0,
    ),
    (
        &[b"ASK 3300 127.0.0.1:7001", TRY_AGAIN, b"ERR x"],
        &[(0, false), (1, true), (0, false)],
        Ok(b"ERR x"),
        0,
    ),
    (
        &[b"MOVED 3300 127.0.0.1:7002", b"lost"],
        &[(0, false), (2, false)],
        Err(ClientFault::Port(PortFault::Wire)),
        2,
    ),
    (
        &[TRY_AGAIN],
        &[(0, false); 16],
        Err(ClientFault::TooManySends),
        0,
    ),
    (
        &[b"MOVED 3301 127.0.0.1:7001"],
        &[(0, false)],
        Err(ClientFault::BadRedirect),
        0,
    ),
    (
        &[b"ASK 3300 127.0.0.1:7009"],
        &[(0, false)],
        Err(ClientFault::BadRedirect),
        0,
    ),
    (
        &[b"CROSSSLOT Keys in request don't hash to the same slot"],
        &[(0, false)],
        Ok(b"CROSSSLOT Keys in request don't hash to the same slot"),
        0,
    ),
];

/// The reply to the last send is the answer, or its fault is the outcome.
#[test]
fn sends_that_a_client_makes(rt: HostRuntime) -> Result<(), Fail> {
    for &(lines, sends, wanted, believed) in FOLLOWED {
        assert_followed(&rt, rt.alloc(), lines, sends, wanted, believed)?;
    }
    Ok(())
}
