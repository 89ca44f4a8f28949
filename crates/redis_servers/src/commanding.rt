//! A command goes to its node.
ghost use Rattle.std.specs.Prelude.{◌≡◌, ◌↔◌, ◌<◌, [], Err, IfOk, IsTrue, length, vec_len};
ghost use Rattle.cluster_admin.specs.declared.port_fault.PortFault.TheVariants.{Wire};
ghost use Rattle.redis_servers.specs.Asking.{AsksNode, HearsFrom};
ghost use Rattle.redis_servers.specs.Calls.{Commands, IsExcused, IsOutcome, Reads, is_excuse, limit_of};
ghost use Rattle.redis_servers.specs.InOneGo.{Finishes};

use crate::asking::{ask_node, hear_from};
use crate::port_stop::PortStop;
use crate::run_history::RunHistory;
use crate::setup::PortSetup;
use crate::words::{text_kept, useless_words};
use byte_streams::{ByteIn, ByteOut};
use byte_texts::{Memory, Text, begins, is};
use cluster_admin::{AdminCommand, AdminReply, PortFault};
use key_slots::NodeId;
use resp2_wire::Reply;
use server_commands::{Answered, answered_by};
use server_links::{Link, ReplyLimit};
use std::alloc::Global;

/// What a command is answered, or why there is no answer.
pub type Given = Result<AdminReply, PortFault>;

/// What a command is answered, and the server's text where that is an error, or what is said where it is of no use.
#[derive(Drop)]
pub struct Outcome {
    pub given: Given,
    pub said: Option<Text>,
}

/// Sends the command to the node as it is spelt, and reads what the reply says.
pub(crate) fn command_at<I: ByteIn + Drop, O: ByteOut + Drop>(
    alloc: Global,
    links: &mut Vec<Link<I, O>>,
    setup: &PortSetup,
    history: &RunHistory,
    node: NodeId,
    command: &AdminCommand,
    request: &[u8],
) -> Outcome
    requires there { node < vec_len links.old }
    requires row { node < length setup.now.survey.rows }
    ensures commanded { Commands (AsksNode (record { gave = I.gave; took = O.took })) setup.now history.now request.now
        node command.now links.old.items result.given result.said links.new.items }
    ensures count { vec_len links.new ≡ vec_len links.old }
{
    match ask_node(alloc, links, node, request, limit_of(command)) {
        Ok(reply) => outcome_of(alloc, setup, history, node, command, &reply),
        Err(PortStop { fault, said }) => Outcome {
            given: Err(fault),
            said,
        },
    }
}

/// Reads what the node answers the command that was sent to it, unless it could not be sent.
pub(crate) fn finish_at<I: ByteIn + Drop, O: ByteOut + Drop>(
    alloc: Global,
    links: &mut Vec<Link<I, O>>,
    setup: &PortSetup,
    history: &RunHistory,
    node: NodeId,
    command: &AdminCommand,
    sent: Result<(), PortStop>,
) -> Outcome
    requires there { node < vec_len links.old }
    requires row { node < length setup.now.survey.rows }
    ensures finished { Finishes (HearsFrom (record { gave = I.gave; took = O.took })) setup.now history.now node
        command.now sent links.old.items result.given result.said links.new.items }
    ensures count { vec_len links.new ≡ vec_len links.old }
{
    match sent {
        Ok(()) => heard_at(alloc, links, setup, history, node, command),
        Err(PortStop { fault, said }) => Outcome {
            given: Err(fault),
            said,
        },
    }
}

fn heard_at<I: ByteIn + Drop, O: ByteOut + Drop>(
    alloc: Global,
    links: &mut Vec<Link<I, O>>,
    setup: &PortSetup,
    history: &RunHistory,
    node: NodeId,
    command: &AdminCommand,
) -> Outcome
    requires there { node < vec_len links.old }
    requires row { node < length setup.now.survey.rows }
    ensures heard { Commands (HearsFrom (record { gave = I.gave; took = O.took })) setup.now history.now [] node
        command.now links.old.items result.given result.said links.new.items }
    ensures count { vec_len links.new ≡ vec_len links.old }
{
    match hear_from(alloc, links, node, limit_of(command)) {
        Ok(reply) => outcome_of(alloc, setup, history, node, command, &reply),
        Err(PortStop { fault, said }) => Outcome {
            given: Err(fault),
            said,
        },
    }
}

/// How long the reply to the command may be.
fn limit_of(command: &AdminCommand) -> ReplyLimit
    ensures { result ≡ limit_of command.now }
{
    match command {
        AdminCommand::KeysIn(_, count) => ReplyLimit::texts(u32::from(*count)),
        _ => ReplyLimit::line(),
    }
}

/// What the reply says to the administrator. The command was sent by then, so out of memory is no reply.
#[tactic(auto, using(crate::proofs::Useless::told_or_lost))]
fn outcome_of(
    alloc: Global,
    setup: &PortSetup,
    history: &RunHistory,
    node: NodeId,
    command: &AdminCommand,
    reply: &Reply,
) -> Outcome
    requires { node < length setup.now.survey.rows }
    ensures { IsOutcome setup.now history.now node command.now reply.now result.given result.said }
{
    match read(alloc, setup, history, node, command, reply) {
        Ok(Answered::Reply(given)) => Outcome {
            given: Ok(given),
            said: text_kept(alloc, &setup.credentials, reply),
        },
        Ok(Answered::Error(text)) => {
            drop(text);
            lost(useless_words(alloc, &setup.credentials, node, reply))
        }
        Ok(Answered::Strange) => lost(useless_words(alloc, &setup.credentials, node, reply)),
        Err(_) => lost(None),
    }
}

/// What the reply says. A node that is told that a slot is another's, and answers that it is a replica, has failed
/// over, unless this run has emptied it: then it follows the node that took its last slot. At Valkey it may become a
/// replica while it waits for its own replicas.
fn read(
    alloc: Global,
    setup: &PortSetup,
    history: &RunHistory,
    node: NodeId,
    command: &AdminCommand,
    reply: &Reply,
) -> Result<Answered, Memory>
    requires { node < length setup.now.survey.rows }
    ensures { IfOk result (Reads (IsExcused setup.now history.now node command.now) node command.now reply.now) }
{
    if let Reply::Error(text) = reply {
        if is_excuse(text.get()) {
            if is_excused(setup, history, node, command) {
                return Ok(Answered::Reply(AdminReply::Ok));
            }
            return Ok(Answered::Error(text.try_copy(alloc)?));
        }
    }
    answered_by(alloc, node, command, reply)
}

/// Whether the text is what a node that turns into a replica may answer.
fn is_excuse(text: &[u8]) -> bool
    ensures { result ≡ is_excuse text.now }
{
    is(text, b"ERR Please use SETSLOT only with masters.")
        || begins(text, b"UNBLOCKED ")
        || begins(text, b"NOREPLICAS ")
}

/// Whether the node is told that a slot is another's, and this run has emptied it.
fn is_excused(setup: &PortSetup, history: &RunHistory, node: NodeId, command: &AdminCommand) -> bool
    requires { node < length setup.now.survey.rows }
    ensures { IsTrue result ↔ IsExcused setup.now history.now node command.now }
{
    match command {
        AdminCommand::SetNode(slot, owner) => {
            *owner != node && history.is_emptied(&setup.survey, node, *slot)
        }
        _ => false,
    }
}

fn lost(said: Option<Text>) -> Outcome
    ensures given { result.given ≡ Err Wire }
    ensures said { result.said ≡ said }
{
    Outcome {
        given: Err(PortFault::Wire),
        said,
    }
}
