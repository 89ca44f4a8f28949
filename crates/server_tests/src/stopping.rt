//! What ends a port, and what it says then.
use crate::plans::{call, one_key};
use crate::script::Replies;
use crate::servers::{NONE, OK, ONE, ScriptedPort, port, survey, written};
use cluster_admin::{AdminCommand, AdminFault, AdminPort, AdminReply, PortFault};
use key_slots::{NodeId, OwnerTable, Slot};
use redis_servers::ServersSeat;
use std::process::Abort;
use std::test::Fail;

/// The reply to SETSLOT .. STABLE, the refusal that it is, if it is one, and what is said.
const ENDS: &[(Replies, Option<AdminFault>, Option<&[u8]>)] = &[
    (
        &[b"-ERR I'm not the owner of hash slot 5\r\n", OK],
        Some(AdminFault::NotOwner),
        Some(b"ERR I'm not the owner of hash slot 5"),
    ),
    (
        &[b"-CLUSTERDOWN The cluster is down\r\n", OK],
        None,
        Some(
            b"CLUSTERDOWN The cluster is down; the cluster serves no keys: ask each node for CLUSTER INFO",
        ),
    ),
    (&[b"+QUEUED\r\n", OK], None, STRANGE),
    (&[b":1\r\n", OK], None, STRANGE),
    (
        &[b"+OK\r\n+OK\r\n", OK],
        None,
        Some(b"n0 answered something that is no reply"),
    ),
    (
        &[],
        None,
        Some(b"n0 ended the connection, or gave no answer in time"),
    ),
];

const STRANGE: Option<&[u8]> = Some(b"n0 answered something strange");

/// After a refusal, another error, a strange reply, more than a reply, and no reply nothing is sent.
#[test]
fn nothing_is_sent_after_an_end(rt: HostRuntime) -> Result<(), Fail> {
    let alloc = rt.alloc();
    for (replies, refusal, said) in ENDS {
        let mut port = port(alloc, *replies, ONE, NONE)?;
        let mut seat = ServersSeat::new(alloc)?;
        let answer = call(&mut port, &mut seat, 0, AdminCommand::Stable(Slot::of(5)));
        assert!(rt; is_end(&answer, *refusal));
        assert!(rt; has_said(&port, *said));
        let later = call(&mut port, &mut seat, 1, AdminCommand::Stable(Slot::of(6)));
        assert!(rt; matches!(&later, Err(PortFault::Wire)));
        assert!(rt; written(&port, 1).is_empty());
    }
    Ok(())
}

fn is_end(answer: &Result<AdminReply, PortFault>, refusal: Option<AdminFault>) -> bool {
    match answer {
        Ok(AdminReply::Refused(fault)) => refusal == Some(*fault),
        Ok(_) => false,
        Err(_) => refusal.is_none(),
    }
}

fn has_said(port: &ScriptedPort, wanted: Option<&[u8]>) -> bool {
    match port.said() {
        Some(text) => wanted == Some(text.get()),
        None => wanted.is_none(),
    }
}

const REPLICA: Replies = &[b"-ERR Please use SETSLOT only with masters.\r\n"];

/// A node that became a replica without being emptied has failed over.
#[test]
fn a_replica_ends_the_run(rt: HostRuntime) -> Result<(), Fail> {
    let alloc = rt.alloc();
    let mut port = port(alloc, REPLICA, ONE, NONE)?;
    let mut seat = ServersSeat::new(alloc)?;
    let given = AdminCommand::SetNode(Slot::of(5), NodeId::of(1));
    assert!(rt; is_end(&call(&mut port, &mut seat, 0, given), None));
    assert!(rt; has_said(&port, Some(b"ERR Please use SETSLOT only with masters.")));
    Ok(())
}

const SLOW: Replies = &[b"-NOREPLICAS Not enough good replicas to write.\r\n"];

/// Whose replicas are too slow is told.
#[test]
fn slow_replicas_end_the_run(rt: HostRuntime) -> Result<(), Fail> {
    let alloc = rt.alloc();
    let mut port = port(alloc, SLOW, ONE, NONE)?;
    let mut seat = ServersSeat::new(alloc)?;
    let given = AdminCommand::SetNode(Slot::of(5), NodeId::of(1));
    assert!(rt; is_end(&call(&mut port, &mut seat, 0, given), None));
    let told = b"replicas of n0: NOREPLICAS Not enough good replicas to write.";
    assert!(rt; has_said(&port, Some(told)));
    Ok(())
}

/// A MIGRATE to the node itself is not sent.
#[test]
fn what_a_port_knows_itself(rt: HostRuntime) -> Result<(), Fail> {
    let alloc = rt.alloc();
    let mut port = port(alloc, NONE, ONE, NONE)?;
    let mut seat = ServersSeat::new(alloc)?;
    let migrate = AdminCommand::Migrate(one_key(alloc, b"b")?, NodeId::of(1));
    let answer = call(&mut port, &mut seat, 1, migrate);
    assert!(rt; is_end(&answer, Some(AdminFault::SameNode)));
    assert!(rt; written(&port, 1).is_empty());
    Ok(())
}

/// The survey that the port was made with is the one that it tells.
#[test]
fn the_survey_is_told(rt: HostRuntime) -> Result<(), Fail> {
    let alloc = rt.alloc();
    let port = port(alloc, NONE, NONE, NONE)?;
    let mut seat = ServersSeat::new(alloc)?;
    assert!(rt; port.is_clean(&OwnerTable::even(alloc, 3, 3)?));
    assert!(rt; !port.is_clean(&OwnerTable::even(alloc, 3, 2)?));
    assert!(rt; port.matches(&mut seat, &survey(alloc)?));
    let told = port.survey(&mut seat)?;
    assert!(rt; told.nodes() == 3);
    assert!(rt; port.matches(&mut seat, &told));
    Ok(())
}
