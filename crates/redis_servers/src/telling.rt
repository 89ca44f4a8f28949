//! Several nodes are told in one go: the command is sent to each, and after that the answers are read.
ghost use Rattle.std.specs.Prelude.{◌≡◌, ℕ, ◌+◌, ◌<◌, ◌≤◌, [], ◌∷◌, ◌++◌, IfOk, length, vec_capacity, vec_len};
ghost use Rattle.std.specs.List.{AllByRecursion};
ghost use Rattle.cluster_admin.specs.declared.admin.AdminCommand.TheVariants.{SetNode};
ghost use Rattle.cluster_admin.specs.Phases.{IsDistinct};
ghost use Rattle.server_commands.specs.Spelling.{request_of as spelled};
ghost use Rattle.redis_servers.specs.Asking.{AsksNode};
ghost use Rattle.redis_servers.specs.InOneGo.{TellsOn, is_done, is_fault, said_of, says_done};
ghost use Rattle.redis_servers.specs.InOneGo.{stops_by, told_of};
ghost use Rattle.redis_servers.specs.Saying.{lost_text};

use crate::asking::send_to;
use crate::commanding::{Given, Outcome, finish_at};
use crate::run_history::RunHistory;
use crate::setup::PortSetup;
use crate::words::{lost_words, or_lost};
use byte_streams::{ByteIn, ByteOut};
use byte_texts::{Memory, Text};
use cluster_admin::{AdminCommand, AdminReply};
use key_slots::{NodeId, Slot};
use server_links::Link;
use std::alloc::Global;

/// Of which of several nodes is told: of the first that has not done it, or else of the last; and what is said of it.
#[derive(Drop)]
pub(crate) struct Telling {
    pub is_done: bool,
    pub is_fault: bool,
    pub said: Option<Text>,
}

/// What is taken before anything is sent.
#[derive(Drop)]
pub(crate) struct Prepared {
    pub lost: Text,
    pub request: Vec<u8>,
    pub answers: Vec<Given>,
}

/// All memory that is needed to tell so many nodes that the slot is the owner's.
pub(crate) fn prepare(
    setup: &PortSetup,
    slot: Slot,
    owner: NodeId,
    count: usize,
) -> Result<Prepared, Memory>
    requires { owner < length setup.now.book }
    ensures lost { IfOk result (λ x. x.lost ≡ lost_text) }
    ensures request { IfOk result (λ x. x.request.items
        ≡ spelled setup.now.book setup.now.timeout setup.now.credentials (SetNode slot owner)) }
    ensures answers { IfOk result (λ x. x.answers.items ≡ []) }
    ensures room { IfOk result (λ x. vec_len x.answers + count ≤ vec_capacity x.answers) }
{
    let lost = lost_words(setup.alloc)?;
    let request = setup.request(&AdminCommand::SetNode(slot, owner))?;
    let answers = Vec::with_capacity(setup.alloc, count)?;
    Ok(Prepared {
        lost,
        request,
        answers,
    })
}

/// Sends the command to each of the nodes, and then reads their answers, which are put after those that are there, the
/// last one first. For that there is room.
pub(crate) fn tell_each<I: ByteIn + Drop, O: ByteOut + Drop>(
    alloc: Global,
    links: &mut Vec<Link<I, O>>,
    setup: &PortSetup,
    history: &RunHistory,
    command: &AdminCommand,
    request: &[u8],
    nodes: &[NodeId],
    answers: &mut Vec<Given>,
) -> Option<Telling>
    requires nodes { AllByRecursion (λ n. n < vec_len links.old) nodes.now }
    requires rows { length setup.now.survey.rows ≡ vec_len links.old }
    requires distinct { IsDistinct nodes.now }
    requires room { vec_len answers.old + length nodes.now ≤ vec_capacity answers.old }
    ensures told { TellsOn (AsksNode (record { gave = I.gave; took = O.took })) setup.now history.now request.now
        command.now links.old.items nodes.now answers.old.items answers.new.items result links.new.items }
    ensures count { vec_len links.new ≡ vec_len links.old }
    ensures filled { vec_len answers.new ≡ vec_len answers.old + length nodes.now }
    ensures room { vec_capacity answers.old ≤ vec_capacity answers.new }
{
    let [node, others @ ..] = nodes else {
        return None;
    };
    let sent = send_to(alloc, links, *node, request);
    let later = tell_each(
        alloc, links, setup, history, command, request, others, answers,
    );
    let Outcome { given, said } = finish_at(alloc, links, setup, history, *node, command, sent);
    let own = telling_of(&given, said);
    put(answers, given);
    Some(told_of(own, later))
}

/// Puts the answer after the others. There is room for it.
fn put(answers: &mut Vec<Given>, given: Given)
    requires { vec_len answers.old < vec_capacity answers.old }
    ensures items { answers.new.items ≡ answers.old.items ++ given ∷ [] }
    ensures count { vec_len answers.new ≡ vec_len answers.old + 1 }
    ensures room { vec_capacity answers.old ≤ vec_capacity answers.new }
{
    match answers.push(given) {
        Ok(()) => {}
        Err(_) => unreachable!(),
    }
}

fn telling_of(given: &Given, said: Option<Text>) -> Telling
    ensures { result ≡ record { is_done = is_done given.now; is_fault = is_fault given.now; said = said } }
{
    Telling {
        is_done: is_done(given),
        is_fault: is_fault(given),
        said,
    }
}

pub(crate) fn is_done(given: &Given) -> bool
    ensures { result ≡ is_done given.now }
{
    match given {
        Ok(reply) => says_done(reply),
        Err(_) => false,
    }
}

fn says_done(reply: &AdminReply) -> bool
    ensures { result ≡ says_done reply.now }
{
    matches!(reply, AdminReply::Ok)
}

fn is_fault(given: &Given) -> bool
    ensures { result ≡ is_fault given.now }
{
    matches!(given, Err(_))
}

fn told_of(own: Telling, later: Option<Telling>) -> Telling
    ensures { result ≡ told_of own later }
{
    match later {
        Some(later) => { if own.is_done { later } else { own } }
        None => own,
    }
}

/// What is said of them. Of a fault something is said in any case.
pub(crate) fn said_of(telling: Option<Telling>, lost: Text) -> Option<Text>
    requires { lost ≡ lost_text }
    ensures { result ≡ said_of telling }
{
    let Telling {
        is_done: _,
        is_fault,
        said,
    } = telling?;
    if is_fault {
        Some(or_lost(said, lost))
    } else {
        said
    }
}

/// Whether one of them has not done it.
pub(crate) fn stops_by(telling: &Option<Telling>) -> bool
    ensures { result ≡ stops_by telling.now }
{
    match telling {
        Some(telling) => !telling.is_done,
        None => false,
    }
}
