//! Servers that have heard of a slot's new owner, or have not, where the run waits for that.
ghost use Rattle.std.specs.Prelude.{◌≡◌, length};

use crate::plans::call;
use crate::roles::OWNS;
use crate::script::Replies;
use crate::servers::{MASTER, OK, ScriptedPort, waiting_port};
use cluster_admin::{AdminCommand, AdminReply, PortFault};
use key_slots::{NodeId, Slot};
use redis_servers::ServersSeat;
use std::process::Abort;
use std::test::Fail;

/// CLUSTER NODES of n0 or n2, where the slot 5 is that of n1, and where it is that of n0 still.
const HEARD: &[u8] = b"$100\r\n\
        bbbbbbbbbbbbbbbbbbbbbbbbbbbbbbbbbbbbbbbb 127.0.0.1:7001@17001 master - 0 0 4 connected 5 5461-10922\n\
        \r\n";

const UNHEARD: &[u8] = b"$98\r\n\
        bbbbbbbbbbbbbbbbbbbbbbbbbbbbbbbbbbbbbbbb 127.0.0.1:7001@17001 master - 0 0 2 connected 5461-10922\n\
        \r\n";

const SOURCE: Replies = &[OK, MASTER, MASTER, UNHEARD, HEARD];

const TARGET: Replies = &[OK, OWNS];

/// Gives the slot 5 of n0 to n1: whether that is done.
fn is_given(port: &mut ScriptedPort, seat: &mut ServersSeat) -> Result<bool, PortFault>
    requires { length port.old.setup.book ≡ 3 }
{
    let (slot, target) = (Slot::of(5), NodeId::of(1));
    drop(call(port, seat, 0, AdminCommand::Migrating(slot, target))?);
    let told = call(port, seat, 1, AdminCommand::SetNode(slot, target))?;
    let is_done = matches!(&told, AdminReply::Ok);
    drop(told);
    Ok(is_done)
}

#[test]
fn a_slot_is_given_once_all_have_heard(rt: HostRuntime) -> Result<(), Fail> {
    let alloc = rt.alloc();
    let mut port = waiting_port(alloc, SOURCE, TARGET, &[UNHEARD, UNHEARD, HEARD])?;
    let mut seat = ServersSeat::new(alloc)?;
    assert!(rt; is_given(&mut port, &mut seat)?);
    Ok(())
}

#[test]
fn a_slot_of_which_one_has_not_heard_is_counted(rt: HostRuntime) -> Result<(), Fail> {
    let alloc = rt.alloc();
    let third: Replies = &[UNHEARD, UNHEARD, UNHEARD, UNHEARD];
    let mut port = waiting_port(alloc, SOURCE, TARGET, third)?;
    let mut seat = ServersSeat::new(alloc)?;
    assert!(rt; is_given(&mut port, &mut seat)?);
    assert!(rt; port.unheard() == 1);
    match port.said() {
        Some(text) => assert!(rt;
            text.get() == b"n2 has not heard of the slot's owner after 2 seconds".as_slice()
        ),
        None => assert!(rt; false),
    }
    Ok(())
}

/// CLUSTER NODES of n1, where the slot 5 is that of n0, and where it is that of n2 still.
const KNOWN: &[u8] = b"$94\r\n\
        aaaaaaaaaaaaaaaaaaaaaaaaaaaaaaaaaaaaaaaa 127.0.0.1:7000@17000 master - 0 0 1 connected 0-5460\n\
        \r\n";

const UNKNOWN: &[u8] = b"$101\r\n\
        cccccccccccccccccccccccccccccccccccccccc 127.0.0.1:7002@17002 master - 0 0 3 connected 5 10923-16383\n\
        \r\n";

/// Tells n1 to import the slot 5 from n0: whether that is done.
fn is_imported(port: &mut ScriptedPort, seat: &mut ServersSeat) -> Result<bool, PortFault>
    requires { length port.old.setup.book ≡ 3 }
{
    let importing = AdminCommand::Importing(Slot::of(5), NodeId::of(0));
    let told = call(port, seat, 1, importing)?;
    let is_done = matches!(&told, AdminReply::Ok);
    drop(told);
    Ok(is_done)
}

#[test]
fn a_slot_is_imported_once_the_target_has_heard_of_its_owner(rt: HostRuntime) -> Result<(), Fail> {
    let alloc = rt.alloc();
    let mut port = waiting_port(alloc, &[], &[UNKNOWN, UNKNOWN, KNOWN, OK], &[])?;
    let mut seat = ServersSeat::new(alloc)?;
    assert!(rt; is_imported(&mut port, &mut seat)?);
    let mut port = waiting_port(alloc, &[], &[UNKNOWN, UNKNOWN, UNKNOWN, UNKNOWN, OK], &[])?;
    let mut seat = ServersSeat::new(alloc)?;
    assert!(rt; is_imported(&mut port, &mut seat).is_err());
    Ok(())
}
