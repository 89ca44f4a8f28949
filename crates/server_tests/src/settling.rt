//! Open slots are settled.
ghost use Rattle.std.specs.Prelude.{◌≡◌, IfOk, vec_len};

use crate::script::{Replies, Turns};
use crate::servers::{NONE, ScriptedLink, book, link};
use byte_texts::{Memory, Text};
use key_slots::{NodeId, Slot};
use server_settling::{OpenSlot, SettleSetup, SettleStop, Settled, settle};
use std::alloc::Global;
use std::process::Abort;
use std::test::Fail;

/// Nobody from the source's host but a client, and a connection from elsewhere.
const QUIET: &[u8] = b"$82\r\n\
        id=3 addr=127.0.0.1:50000 name= cmd=client|list\nid=9 addr=10.0.0.1:50000 cmd=NULL\n\r\n";

/// A client, and a connection over which keys may come.
const LATE: &[u8] = b"$102\r\n\
        id=3 addr=127.0.0.1:50000 name= cmd=client|list\n\
        id=8 addr=127.0.0.1:50001 laddr=10.0.0.1:1 cmd=select\n\r\n";

const MARKED: &[u8] = b"+OK\r\n";

const SLOW: &[u8] = b"-NOREPLICAS Not enough good replicas to write.\r\n";

const THREE: &[u8] = b":3\r\n";

const BCD: &[u8] = b"*3\r\n$1\r\nd\r\n$1\r\nb\r\n$1\r\nc\r\n";

const ABC: &[u8] = b"*3\r\n$1\r\nc\r\n$1\r\na\r\n$1\r\nb\r\n";

const SOURCE: Replies = &[THREE, ABC, b"+OK\r\n", b"+NOKEY\r\n"];

const TARGET: Replies = &[
    MARKED,
    LATE,
    b":1\r\n",
    QUIET,
    LATE,
    b"-ERR No such client\r\n",
    QUIET,
    QUIET,
    THREE,
    BCD,
];

const RESTLESS: Replies = &[
    MARKED, LATE, b"+OK\r\n", LATE, b":1\r\n", LATE, b":0\r\n", LATE, b":1\r\n", LATE, b":1\r\n",
    LATE,
];

/// More slow answers than there is time for.
const SLOW_STILL: Replies = &[SLOW, SLOW, SLOW, SLOW, MARKED, QUIET, QUIET, THREE, BCD];

/// The source's replies and the target's, the fault in words, and the text that is kept.
const STOPS: &[(Replies, Replies, &str, Option<&[u8]>)] = &[
    (
        &[THREE, ABC, b"-IOERR error or timeout\r\n", b"+OK\r\n"],
        TARGET,
        "n0 refused",
        Some(b"IOERR error or timeout"),
    ),
    (
        SOURCE,
        &[MARKED, b"-NOPERM no\r\n", QUIET, QUIET],
        "n1 refused",
        Some(b"NOPERM no"),
    ),
    (
        SOURCE,
        &[MARKED, b"$4\r\nabc\n\r\n", QUIET],
        "n1 answered something strange",
        None,
    ),
    (SOURCE, &[MARKED, QUIET, QUIET], "n1 gave no answer", None),
    (
        SOURCE,
        &[MARKED, b"?\r\n", QUIET],
        "n1 answered something that is no reply",
        None,
    ),
    (SOURCE, RESTLESS, "n1 may still take keys", None),
    (
        SOURCE,
        &[b"-ERR I'm already the owner of hash slot 5\r\n", QUIET],
        "n1 refused",
        Some(b"ERR I'm already the owner of hash slot 5"),
    ),
    (
        SOURCE,
        SLOW_STILL,
        "n1 refused",
        Some(b"NOREPLICAS Not enough good replicas to write."),
    ),
];

/// The slot 5, on its way from n0 to n1, is settled in batches of one key, with so many pauses at most.
fn settled(
    alloc: Global,
    source: Replies,
    target: Replies,
    turns: u8,
) -> Result<Result<Settled, SettleStop>, Memory> {
    let mut links = links(alloc, source, target)?;
    let setup = SettleSetup {
        book: book(alloc)?,
        timeout: 7000,
        credentials: None,
        batch: 1,
    };
    let open = OpenSlot {
        slot: Slot::of(5),
        source: NodeId::of(0),
        target: NodeId::of(1),
    };
    let mut pause = Turns { turns, left: 0 };
    Ok(settle(alloc, &mut links, &mut pause, &setup, &open))
}

fn links(alloc: Global, source: Replies, target: Replies) -> Result<Vec<ScriptedLink>, Memory>
    ensures { IfOk result (λ v. vec_len v ≡ 3) }
{
    let source = link(alloc, source, 7)?;
    let target = link(alloc, target, 7)?;
    let third = link(alloc, NONE, 7)?;
    Ok(vec![in alloc; source, target, third]?)
}

/// Two connections are ended, b and c are at both nodes, and d at the target alone.
#[test]
fn a_slot_is_settled(rt: HostRuntime) -> Result<(), Fail> {
    let alloc = rt.alloc();
    let wanted = Settled {
        ended: 2,
        at_both: 2,
        at_target_alone: 1,
    };
    match settled(alloc, SOURCE, TARGET, 5)? {
        Ok(told) => assert!(rt; told == wanted),
        Err(stop) => {
            drop(stop);
            assert!(rt; false);
        }
    }
    Ok(())
}

/// Replicas of the target that are too slow are waited for, as long as a MIGRATE may take.
#[test]
fn a_slot_with_slow_replicas_is_settled(rt: HostRuntime) -> Result<(), Fail> {
    let alloc = rt.alloc();
    let target: Replies = &[SLOW, SLOW, SLOW, MARKED, QUIET, QUIET, THREE, BCD];
    match settled(alloc, SOURCE, target, 5)? {
        Ok(told) => assert!(rt; told.ended == 0),
        Err(stop) => {
            drop(stop);
            assert!(rt; false);
        }
    }
    Ok(())
}

/// After an error, a strange reply and no reply nothing more is asked, and who does not become quiet is told.
#[test]
fn settling_stops(rt: HostRuntime) -> Result<(), Fail> {
    let alloc = rt.alloc();
    for (source, target, words, said) in STOPS {
        let told = settled(alloc, *source, *target, 5)?;
        assert!(rt; stops_by(alloc, &told, *words, *said)?);
    }
    Ok(())
}

fn stops_by(
    alloc: Global,
    told: &Result<Settled, SettleStop>,
    words: &str,
    said: Option<&[u8]>,
) -> Result<bool, Memory> {
    let Err(stop) = told else {
        return Ok(false);
    };
    let fault = format!(in alloc; "{}", stop.fault)?;
    Ok(fault.as_str() == words && has_said(&stop.said, said))
}

fn has_said(told: &Option<Text>, said: Option<&[u8]>) -> bool {
    match told {
        Some(text) => said == Some(text.get()),
        None => said.is_none(),
    }
}
