ghost use Rattle.std.specs.Prelude.{◌≡◌, IfOk, IsPermutation, IsSorted, option_map};
ghost use Rattle.std.specs.Ordering.{nat_cmp};
ghost use Rattle.std.specs.Cmp.Lexicographic.{slice_cmp};
ghost use Rattle.resp2_wire.specs.View.{trees};
ghost use Rattle.server_commands.specs.Answers.{IsListed, Says, done_if_ok, error_answer, fault_of};
ghost use Rattle.server_commands.specs.Answers.{line_answer, migrate_fault, setslot_fault, tells_other, texts_of};

use byte_texts::{Memory, Text, TextList, begins, is};
use cluster_admin::{AdminCommand, AdminFault, AdminReply};
use key_slots::NodeId;
use resp2_wire::Reply;
use std::alloc::Global;

/// What a server's reply is for its administrator.
#[derive(Drop)]
pub enum Answered {
    Reply(AdminReply),
    /// An error that is none of the refusals, with its text.
    Error(Text),
    /// No reply that the command has.
    Strange,
}

/// What a replica answers to each SETSLOT. A node that gave its last slot away turns into one before it is told so.
const REPLICA: &[u8] = b"ERR Please use SETSLOT only with masters.";

/// What the reply of the node to the command says.
///
/// A listing is given in the order of its bytes, which servers tell in an order of their own. After Busy the keys that
/// the MIGRATE named beside the one that stands at the target may have moved: a server goes on after such a key. A node
/// that is told that a slot is another's, and answers that it is a replica, has nothing to set, so that counts as Ok.
pub fn answered_by(
    alloc: Global,
    node: NodeId,
    command: &AdminCommand,
    reply: &Reply,
) -> Result<Answered, Memory>
    ensures { IfOk result (λ a. Says node command.now reply.now a) }
{
    match reply {
        Reply::Simple(text) => Ok(line_answer(command, text.get())),
        Reply::Error(text) => error_answer(alloc, node, command, text),
        Reply::Array(replies) => match command {
            AdminCommand::KeysIn(_, _) => listed(alloc, replies.get()),
            _ => Ok(Answered::Strange),
        },
        _ => Ok(Answered::Strange),
    }
}

fn line_answer(command: &AdminCommand, text: &[u8]) -> Answered
    ensures { result ≡ line_answer command.now text.now }
{
    match command {
        AdminCommand::KeysIn(_, _) => Answered::Strange,
        AdminCommand::Migrate(_, _) => {
            if is(text, b"NOKEY") {
                Answered::Reply(AdminReply::NoKey)
            } else {
                done_if_ok(text)
            }
        }
        _ => done_if_ok(text),
    }
}

fn done_if_ok(text: &[u8]) -> Answered
    ensures { result ≡ done_if_ok text.now }
{
    if is(text, b"OK") {
        Answered::Reply(AdminReply::Ok)
    } else {
        Answered::Strange
    }
}

fn error_answer(
    alloc: Global,
    node: NodeId,
    command: &AdminCommand,
    text: &Text,
) -> Result<Answered, Memory>
    ensures { IfOk result (λ a. a ≡ error_answer node command.now text.now) }
{
    if tells_other(node, command) && is(text.get(), REPLICA) {
        return Ok(Answered::Reply(AdminReply::Ok));
    }
    match fault_of(command, text.get()) {
        Some(fault) => Ok(Answered::Reply(AdminReply::Refused(fault))),
        None => Ok(Answered::Error(text.try_copy(alloc)?)),
    }
}

/// Whether the node is told that a slot is another's.
fn tells_other(node: NodeId, command: &AdminCommand) -> bool
    ensures { result ≡ tells_other node command.now }
{
    match command {
        AdminCommand::SetNode(_, owner) => owner.get() != node.get(),
        _ => false,
    }
}

/// The refusal that the text of an error is, if it is one.
fn fault_of(command: &AdminCommand, text: &[u8]) -> Option<AdminFault>
    ensures { result ≡ fault_of command.now text.now }
{
    match command {
        AdminCommand::Migrate(_, _) => migrate_fault(text),
        AdminCommand::KeysIn(_, _) => None,
        _ => setslot_fault(text),
    }
}

fn migrate_fault(text: &[u8]) -> Option<AdminFault>
    ensures { result ≡ migrate_fault text.now }
{
    if begins(text, b"ERR Target instance replied with error: BUSYKEY ") {
        Some(AdminFault::Busy)
    } else if begins(text, b"ERR Target instance replied with error: MOVED ") {
        Some(AdminFault::NotImporting)
    } else {
        None
    }
}

fn setslot_fault(text: &[u8]) -> Option<AdminFault>
    ensures { result ≡ setslot_fault text.now }
{
    if begins(text, b"ERR I'm not the owner of hash slot ") {
        Some(AdminFault::NotOwner)
    } else if begins(text, b"ERR I'm already the owner of hash slot ") {
        Some(AdminFault::AlreadyOwner)
    } else if begins(text, b"ERR I don't know about node ") {
        Some(AdminFault::UnknownNode)
    } else if begins(text, b"ERR Unknown node ") {
        Some(AdminFault::UnknownNode)
    } else if begins(text, b"ERR Can't assign hashslot ") {
        Some(AdminFault::KeysRemain)
    } else {
        None
    }
}

/// The keys of a listing, ascending by their bytes.
fn listed(alloc: Global, replies: &[Reply]) -> Result<Answered, Memory>
    ensures { IfOk result (IsListed (texts_of (trees replies.now))) }
{
    match texts_in(alloc, replies)? {
        Some(texts) => Ok(Answered::Reply(AdminReply::Keys(sorted(texts)))),
        None => Ok(Answered::Strange),
    }
}

/// The texts, put in order where they are: it takes no memory.
fn sorted(mut texts: Vec<Text>) -> TextList
    ensures same { IsPermutation texts.items result }
    ensures ascending { IsSorted (slice_cmp nat_cmp) result }
{
    texts.sort_unstable_by(|text, other| text.get().cmp(other.get()));
    TextList::from_vec(texts)
}

/// The texts that the replies are, if all are bulk strings.
#[tactic(auto, using(crate::proofs::Listing::texts_read))]
fn texts_in(alloc: Global, replies: &[Reply]) -> Result<Option<Vec<Text>>, Memory>
    ensures { IfOk result (λ o. option_map (λ v. v.items) o ≡ texts_of (trees replies.now)) }
{
    let mut found = Vec::new(alloc);
    let mut rest = replies;
    while let [reply, others @ ..] = rest {
        match reply {
            Reply::Bulk(text) => found.push(text.try_copy(alloc)?)?,
            _ => return Ok(None),
        }
        rest = others;
    }
    Ok(Some(found))
}
