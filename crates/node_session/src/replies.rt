ghost use Rattle.std.specs.Prelude.{◌≡◌, ◌≤◌, ◌++◌, IfOk, OnErr, length, pos};
ghost use Rattle.key_slots.specs.HashSlot as hash;
ghost use Rattle.resp2_wire.specs.declared.reply.Reply.TheVariants as reply;
ghost use Rattle.store_commands.specs.Memory.{IsMade};
ghost use Rattle.node_session.specs.Requests.{asking_reply, ping_reply, key_slot_reply, wrong_count};

use byte_texts::{Memory, Text};
use key_slots::slot_of;
use resp2_wire::Reply;
use std::alloc::Global;

/// The reply to ASKING with these further words.
pub fn asking(alloc: Global, further: &[Text]) -> Result<Reply, Memory>
    ensures reply { IfOk result (λ r. r ≡ asking_reply further.now) }
    ensures memory { OnErr result (IsMade (asking_reply further.now)) }
{
    match further {
        [] => Reply::simple(alloc, b"OK"),
        _ => wrong_count(alloc, b"asking"),
    }
}

/// The reply to PING with these further words.
pub fn ping(alloc: Global, further: &[Text]) -> Result<Reply, Memory>
    ensures reply { IfOk result (λ r. r ≡ ping_reply further.now) }
    ensures memory { OnErr result (IsMade (ping_reply further.now)) }
{
    match further {
        [] => Reply::simple(alloc, b"PONG"),
        [text] => Ok(Reply::Bulk(text.try_copy(alloc)?)),
        _ => wrong_count(alloc, b"ping"),
    }
}

/// The reply to CLUSTER KEYSLOT with these further words. The slot of a key takes no memory.
pub fn key_slot(alloc: Global, further: &[Text]) -> Result<Reply, Memory>
    ensures reply { IfOk result (λ r. r ≡ key_slot_reply further.now) }
    ensures memory { OnErr result (IsMade (key_slot_reply further.now)) }
{
    match further {
        [key] => Ok(slot_number(key.get())),
        _ => wrong_count(alloc, b"cluster|keyslot"),
    }
}

fn slot_number(key: &[u8]) -> Reply
    ensures { result ≡ reply.Number (pos (hash.slot_of key.now)) }
{
    Reply::Number(i64::from(slot_of(key).get()))
}

/// The reply to a wrong count of arguments of the command with this name.
pub fn wrong_count(alloc: Global, name: &[u8]) -> Result<Reply, Memory>
    requires { length name.now ≤ 1024 }
    ensures { IfOk result (λ r. r ≡ wrong_count name.now) }
{
    let mut text = Text::from_slice(alloc, b"ERR wrong number of arguments for '")?;
    text.append(name)?;
    text.append(b"' command")?;
    Ok(Reply::Error(text))
}
