//! The bytes of a whole plan, and of its commands one by one.
ghost use Rattle.std.specs.Prelude.{◌≡◌, ◌<◌, ◌∷◌, [], IfOk, length};
ghost use Rattle.cluster_admin.specs.Commands.{AreMovable, IsCommand};

use crate::script::Replies;
use crate::servers::{MASTER, OK, ONE, ScriptedPort, book, keys, port, text, written};
use byte_texts::Memory;
use cluster_admin::{AdminCommand, AdminPort, AdminReply, KeyList, PortFault};
use key_slots::{NodeId, Slot};
use redis_servers::ServersSeat;
use server_commands::{Credentials, request_of};
use std::alloc::Global;
use std::test::Fail;

/// Sends the command to the node.
pub fn call(
    port: &mut ScriptedPort,
    seat: &mut ServersSeat,
    node: u8,
    command: AdminCommand,
) -> Result<AdminReply, PortFault>
    requires node { node < 3 }
    requires servers { length port.old.setup.book ≡ 3 }
    requires command { IsCommand command }
    ensures { length port.new.setup.book ≡ 3 }
{
    port.admin(seat, NodeId::of(node), command)
}

/// The list of one key.
pub fn one_key(alloc: Global, key: &[u8]) -> Result<KeyList, Memory>
    ensures { IfOk result AreMovable }
{
    let key = text(alloc, key)?;
    let mut keys = KeyList::new(alloc);
    keys.push(key)?;
    Ok(keys)
}

/// The source's replies.
const SOURCE: Replies = &[OK, b"*1\r\n$1\r\nb\r\n", OK, b"*0\r\n", MASTER, MASTER, OK];

/// The target's, which owns the slot in the end.
const TARGET: Replies = &[
    OK,
    OK,
    b"$110\r\n\
        bbbbbbbbbbbbbbbbbbbbbbbbbbbbbbbbbbbbbbbb 127.0.0.1:7001@17001 myself,master - 0 0 4 connected 3300 5461-10922\n\
        \r\n",
];

/// A plan that moves the slot 3300 with one key from n0 to n1.
#[test]
fn a_slot_is_moved(rt: HostRuntime) -> Result<(), Fail> {
    let alloc = rt.alloc();
    let (slot, source, target) = (Slot::of(3300), NodeId::of(0), NodeId::of(1));
    let mut port = port(alloc, SOURCE, TARGET, ONE)?;
    let mut seat = ServersSeat::new(alloc)?;
    drop(call(
        &mut port,
        &mut seat,
        1,
        AdminCommand::Importing(slot, source),
    )?);
    drop(call(
        &mut port,
        &mut seat,
        0,
        AdminCommand::Migrating(slot, target),
    )?);
    drop(call(&mut port, &mut seat, 0, AdminCommand::KeysIn(slot, 10))?);
    let key = one_key(alloc, b"b")?;
    drop(call(&mut port, &mut seat, 0, AdminCommand::Migrate(key, target))?);
    drop(call(&mut port, &mut seat, 0, AdminCommand::KeysIn(slot, 10))?);
    drop(call(&mut port, &mut seat, 1, AdminCommand::SetNode(slot, target))?);
    drop(call(&mut port, &mut seat, 0, AdminCommand::SetNode(slot, target))?);
    drop(call(&mut port, &mut seat, 2, AdminCommand::SetNode(slot, target))?);
    assert!(rt; written(&port, 0) == FROM);
    assert!(rt; written(&port, 1) == TO);
    assert!(rt; written(&port, 2) == TOLD);
    Ok(())
}

const FROM: &[u8] =
    b"*5\r\n$7\r\nCLUSTER\r\n$7\r\nSETSLOT\r\n$4\r\n3300\r\n$9\r\nMIGRATING\r\n$40\r\n\
        bbbbbbbbbbbbbbbbbbbbbbbbbbbbbbbbbbbbbbbb\r\n*4\r\n$7\r\nCLUSTER\r\n$13\r\n\
        GETKEYSINSLOT\r\n$4\r\n3300\r\n$2\r\n10\r\n*8\r\n$7\r\nMIGRATE\r\n$9\r\n127.0.0.1\r\n\
        $4\r\n7001\r\n$0\r\n\r\n$1\r\n0\r\n$5\r\n60000\r\n$4\r\nKEYS\r\n$1\r\nb\r\n*4\r\n$7\r\n\
        CLUSTER\r\n$13\r\nGETKEYSINSLOT\r\n$4\r\n3300\r\n$2\r\n10\r\n*1\r\n$4\r\nROLE\r\n\
        *1\r\n$4\r\nROLE\r\n*5\r\n$7\r\nCLUSTER\r\n$7\r\nSETSLOT\r\n$4\r\n3300\r\n$4\r\nNODE\r\n$40\r\n\
        bbbbbbbbbbbbbbbbbbbbbbbbbbbbbbbbbbbbbbbb\r\n";

const TO: &[u8] =
    b"*5\r\n$7\r\nCLUSTER\r\n$7\r\nSETSLOT\r\n$4\r\n3300\r\n$9\r\nIMPORTING\r\n$40\r\n\
        aaaaaaaaaaaaaaaaaaaaaaaaaaaaaaaaaaaaaaaa\r\n*5\r\n$7\r\nCLUSTER\r\n$7\r\nSETSLOT\r\n$4\r\n\
        3300\r\n$4\r\nNODE\r\n$40\r\nbbbbbbbbbbbbbbbbbbbbbbbbbbbbbbbbbbbbbbbb\r\n\
        *2\r\n$7\r\nCLUSTER\r\n$5\r\nNODES\r\n";

const TOLD: &[u8] = b"*5\r\n$7\r\nCLUSTER\r\n$7\r\nSETSLOT\r\n$4\r\n3300\r\n$4\r\nNODE\r\n$40\r\n\
        bbbbbbbbbbbbbbbbbbbbbbbbbbbbbbbbbbbbbbbb\r\n";

/// What a MIGRATE shows its target: the user, and what stands after the timeout.
#[test]
fn a_migrate_shows_credentials(rt: HostRuntime) -> Result<(), Fail> {
    let alloc = rt.alloc();
    let one = migrate_bytes(alloc, None)?;
    assert!(rt;
        one.as_slice().ends_with(
            b"$1\r\n9\r\n$4\r\nAUTH\r\n$6\r\nsecret\r\n$4\r\nKEYS\r\n$1\r\nb\r\n$1\r\na\r\n"
        )
    );
    let two = migrate_bytes(alloc, Some(b"me"))?;
    assert!(rt;
        two.as_slice().ends_with(
            b"$1\r\n9\r\n$5\r\nAUTH2\r\n$2\r\nme\r\n$6\r\nsecret\r\n$4\r\nKEYS\r\n$1\r\nb\r\n$1\r\na\r\n"
        )
    );
    Ok(())
}

fn migrate_bytes(alloc: Global, user: Option<&[u8]>) -> Result<Vec<u8>, Memory> {
    let user = match user {
        Some(user) => Some(text(alloc, user)?),
        None => None,
    };
    let credentials = Some(Credentials {
        user,
        password: text(alloc, b"secret")?,
    });
    let keys = keys(alloc, &[b"b".as_slice(), b"a".as_slice()])?;
    let command = AdminCommand::Migrate(keys, NodeId::of(1));
    request_of(alloc, &book(alloc)?, 9, &credentials, &command)
}
