//! Servers that fail over while a slot goes from one to another.
ghost use Rattle.std.specs.Prelude.{◌≡◌, IfOk, length};

use crate::plans::call;
use crate::script::Replies;
use crate::servers::{MASTER, NONE, OK, SLAVE, ScriptedPort, port, port_after};
use byte_texts::Memory;
use cluster_admin::{AdminCommand, AdminReply, PortFault, Survey};
use key_slots::{NodeId, OwnerTable, Slot};
use redis_servers::ServersSeat;
use std::alloc::Global;
use std::process::Abort;
use std::test::Fail;

/// CLUSTER NODES of n1, which owns the slot 5, or is a replica.
pub const OWNS: &[u8] = b"$107\r\n\
        bbbbbbbbbbbbbbbbbbbbbbbbbbbbbbbbbbbbbbbb 127.0.0.1:7001@17001 myself,master - 0 0 4 connected 5 5461-10922\n\
        \r\n";

const DISOWNS: &[u8] = b"$93\r\n\
        bbbbbbbbbbbbbbbbbbbbbbbbbbbbbbbbbbbbbbbb 127.0.0.1:7001@17001 myself,slave - 0 0 4 connected\n\
        \r\n";

/// The replies of the source n0 and of the target n1, and what is said where the slot 5 goes from one to the other.
const FAILOVERS: &[(Replies, Replies, &[u8])] = &[
    (
        &[OK, SLAVE],
        NONE,
        b"n0 is no master any more: its shard failed over before the slot was given away",
    ),
    (
        &[OK, b"-NOPERM this user has no permissions\r\n"],
        NONE,
        b"NOPERM this user has no permissions; the user needs \
            +cluster +migrate +client +select +restore +restore-asking and ~*",
    ),
    (&[OK, OK], NONE, b"n0 answered something strange"),
    (
        &[OK, MASTER],
        &[OK, DISOWNS],
        b"n1 does not own the slot that it took over: its shard failed over",
    ),
    (
        &[OK, MASTER, SLAVE],
        &[OK, OWNS],
        b"n0 is no master any more: writes of the slot that its shard acknowledged since may be lost",
    ),
];

#[test]
fn failovers_end_the_run(rt: HostRuntime) -> Result<(), Fail> {
    let alloc = rt.alloc();
    for (source, target, said) in FAILOVERS {
        let mut port = port(alloc, *source, *target, NONE)?;
        let mut seat = ServersSeat::new(alloc)?;
        let slot = Slot::of(5);
        let migrating = AdminCommand::Migrating(slot, NodeId::of(1));
        drop(call(&mut port, &mut seat, 0, migrating)?);
        let told = call(
            &mut port,
            &mut seat,
            1,
            AdminCommand::SetNode(slot, NodeId::of(1)),
        );
        assert!(rt; told.is_err());
        match port.said() {
            Some(text) => assert!(rt; text.get() == *said),
            None => assert!(rt; false),
        }
    }
    Ok(())
}

/// The survey of three servers of which n2 has the slot 5 alone.
fn one_slot(alloc: Global) -> Result<Survey, Memory>
    ensures { IfOk result (λ v. length v.rows ≡ 3) }
{
    let mut owners = OwnerTable::even(alloc, 3, 2)?;
    owners.set(Slot::of(5), NodeId::of(2));
    Survey::closed(alloc, &owners)
}

/// CLUSTER NODES of n0, which owns the slot 5 by then.
const TAKES: &[u8] = b"$101\r\n\
        aaaaaaaaaaaaaaaaaaaaaaaaaaaaaaaaaaaaaaaa 127.0.0.1:7000@17000 myself,master - 0 0 4 connected 0-8191\n\
        \r\n";

const REPLICA: &[u8] = b"-ERR Please use SETSLOT only with masters.\r\n";

/// A node that gave its last slot away may be a replica by then.
#[test]
fn an_emptied_node_may_be_a_replica(rt: HostRuntime) -> Result<(), Fail> {
    let alloc = rt.alloc();
    let source: Replies = &[OK, MASTER, SLAVE, REPLICA];
    let mut port = port_after(alloc, one_slot(alloc)?, &[OK, TAKES], NONE, source)?;
    let mut seat = ServersSeat::new(alloc)?;
    assert!(rt; is_emptied(&mut port, &mut seat)?);
    Ok(())
}

const UNBLOCKED: &[u8] =
    b"-UNBLOCKED force unblock from blocking operation, instance state changed\r\n";

const NOREPLICAS: &[u8] = b"-NOREPLICAS Not enough good replicas to write.\r\n";

/// It may become one while it waits for its own replicas, or these may not answer.
#[test]
fn an_emptied_node_may_turn_into_a_replica(rt: HostRuntime) -> Result<(), Fail> {
    let alloc = rt.alloc();
    let source: Replies = &[OK, MASTER, SLAVE, UNBLOCKED];
    let mut port = port_after(alloc, one_slot(alloc)?, &[OK, TAKES], NONE, source)?;
    let mut seat = ServersSeat::new(alloc)?;
    assert!(rt; is_emptied(&mut port, &mut seat)?);
    let source: Replies = &[OK, MASTER, MASTER, NOREPLICAS];
    let mut port = port_after(alloc, one_slot(alloc)?, &[OK, TAKES], NONE, source)?;
    let mut seat = ServersSeat::new(alloc)?;
    assert!(rt; is_emptied(&mut port, &mut seat)?);
    Ok(())
}

/// n2 gives its slot to n0: whether it is done.
fn is_emptied(port: &mut ScriptedPort, seat: &mut ServersSeat) -> Result<bool, PortFault>
    requires { length port.old.setup.book ≡ 3 }
{
    let (slot, target) = (Slot::of(5), NodeId::of(0));
    drop(call(port, seat, 2, AdminCommand::Migrating(slot, target))?);
    drop(call(port, seat, 0, AdminCommand::SetNode(slot, target))?);
    let told = call(port, seat, 2, AdminCommand::SetNode(slot, target))?;
    let is_done = matches!(&told, AdminReply::Ok);
    drop(told);
    Ok(is_done)
}
