//! The wait for config epochs.
ghost use Rattle.std.specs.Prelude.{◌≡◌, IfOk, length};

use crate::plans::call;
use crate::script::Replies;
use crate::servers::{MASTER, NONE, OK, ScriptedPort, port, written};
use cluster_admin::{AdminCommand, PortFault};
use key_slots::{NodeId, Slot};
use redis_servers::ServersSeat;
use std::process::Abort;
use std::test::Fail;

/// CLUSTER NODES of n1 itself, whose epoch is 9; then of n2, which knows an older one of n1, and then that one.
const OWN: &[u8] = b"$98\r\n\
        bbbbbbbbbbbbbbbbbbbbbbbbbbbbbbbbbbbbbbbb 127.0.0.1:7001@17001 myself,master - 0 0 9 connected 0-5\n\
        \r\n";

const OLD: &[u8] = b"$91\r\n\
        bbbbbbbbbbbbbbbbbbbbbbbbbbbbbbbbbbbbbbbb 127.0.0.1:7001@17001 master - 0 0 2 connected 0-5\n\
        \r\n";

const NEW: &[u8] = b"$91\r\n\
        bbbbbbbbbbbbbbbbbbbbbbbbbbbbbbbbbbbbbbbb 127.0.0.1:7001@17001 master - 0 0 9 connected 0-5\n\
        \r\n";

/// CLUSTER NODES of n2 itself, once it owns the slot.
const OWNER: &[u8] = b"$109\r\n\
        cccccccccccccccccccccccccccccccccccccccc 127.0.0.1:7002@17002 myself,master - 0 0 10 connected 5 10923-16383\n\
        \r\n";

const SOURCE: Replies = &[OK, OK, OWN, OWN, MASTER, MASTER];

const HEARING: Replies = &[OLD, NEW, NEW, OK, OWNER];

const UNHEARD: Replies = &[OK, OK, OWN, OWN, OWN];

const UNHEARING: Replies = &[OLD, OLD, OLD, OK];

/// Gives the slot 5 to n1, and then from there to n2: how the last command is answered.
fn to_and_on(port: &mut ScriptedPort, seat: &mut ServersSeat) -> Result<bool, PortFault>
    requires { length port.old.setup.book ≡ 3 }
    ensures { length port.new.setup.book ≡ 3 }
{
    let slot = Slot::of(5);
    drop(call(port, seat, 1, AdminCommand::SetNode(slot, NodeId::of(1)))?);
    drop(call(port, seat, 1, AdminCommand::Migrating(slot, NodeId::of(2)))?);
    let last = call(port, seat, 2, AdminCommand::SetNode(slot, NodeId::of(2)));
    Ok(last.is_ok())
}

/// The second turn finds the target to have heard of the source's epoch.
#[test]
fn the_target_hears(rt: HostRuntime) -> Result<(), Fail> {
    let alloc = rt.alloc();
    let mut port = port(alloc, NONE, SOURCE, HEARING)?;
    let mut seat = ServersSeat::new(alloc)?;
    assert!(rt; to_and_on(&mut port, &mut seat)?);
    assert!(rt; written(&port, 2) == HEARD);
    assert!(rt; port.said().is_none());
    Ok(())
}

/// Two turns of the wait for the epoch, one look at what the target claims, the command, and one look at the end.
const HEARD: &[u8] = b"*2\r\n$7\r\nCLUSTER\r\n$5\r\nNODES\r\n*2\r\n$7\r\nCLUSTER\r\n$5\r\nNODES\r\n\
        *2\r\n$7\r\nCLUSTER\r\n$5\r\nNODES\r\n*5\r\n$7\r\n\
        CLUSTER\r\n$7\r\nSETSLOT\r\n$1\r\n5\r\n$4\r\nNODE\r\n$40\r\n\
        cccccccccccccccccccccccccccccccccccccccc\r\n*2\r\n$7\r\nCLUSTER\r\n$5\r\nNODES\r\n";

/// The target does not hear in time: the slot stays open, and the port says so.
#[test]
fn the_target_does_not_hear(rt: HostRuntime) -> Result<(), Fail> {
    let alloc = rt.alloc();
    let mut port = port(alloc, NONE, UNHEARD, UNHEARING)?;
    let mut seat = ServersSeat::new(alloc)?;
    assert!(rt; !to_and_on(&mut port, &mut seat)?);
    assert!(rt;
        is_said(
            &port,
            b"n2 has not heard of n1's config epoch after 2 seconds"
        )
    );
    Ok(())
}

/// CLUSTER NODES of n1, which owns the slot 16000 by now, of which n2 has not heard yet.
const TAKEN: &[u8] = b"$104\r\n\
        bbbbbbbbbbbbbbbbbbbbbbbbbbbbbbbbbbbbbbbb 127.0.0.1:7001@17001 myself,master - 0 0 9 connected 0-5 16000\n\
        \r\n";

const CLAIMING: &[u8] = b"$197\r\n\
        bbbbbbbbbbbbbbbbbbbbbbbbbbbbbbbbbbbbbbbb 127.0.0.1:7001@17001 master - 0 0 9 connected 0-5\n\
        cccccccccccccccccccccccccccccccccccccccc 127.0.0.1:7002@17002 myself,master - 0 0 3 connected 10923-16383\n\
        \r\n";

/// n2 gives the slot 16000 to n1, and takes the slot 5 before it has heard that the other one is n1's: it would claim
/// both with its new epoch.
#[test]
fn the_target_still_claims(rt: HostRuntime) -> Result<(), Fail> {
    let alloc = rt.alloc();
    let second: Replies = &[OK, TAKEN, OK, TAKEN];
    let third: Replies = &[
        OK, MASTER, MASTER, CLAIMING, CLAIMING, CLAIMING, CLAIMING, OK,
    ];
    let mut port = port(alloc, NONE, second, third)?;
    let mut seat = ServersSeat::new(alloc)?;
    assert!(rt; !to_and_from(&mut port, &mut seat)?);
    assert!(rt;
        is_said(
            &port,
            b"n2 has not heard of the other masters' slots and config epochs after 2 seconds"
        )
    );
    Ok(())
}

fn to_and_from(port: &mut ScriptedPort, seat: &mut ServersSeat) -> Result<bool, PortFault>
    requires { length port.old.setup.book ≡ 3 }
    ensures { length port.new.setup.book ≡ 3 }
{
    let (one, other) = (Slot::of(16_000), Slot::of(5));
    drop(call(port, seat, 2, AdminCommand::Migrating(one, NodeId::of(1)))?);
    drop(call(port, seat, 1, AdminCommand::SetNode(one, NodeId::of(1)))?);
    drop(call(port, seat, 1, AdminCommand::Migrating(other, NodeId::of(2)))?);
    let last = call(port, seat, 2, AdminCommand::SetNode(other, NodeId::of(2)));
    Ok(last.is_ok())
}

fn is_said(port: &ScriptedPort, words: &[u8]) -> bool {
    match port.said() {
        Some(text) => text.get() == words,
        None => false,
    }
}
