//! The wait for config epochs.
ghost use Rattle.std.specs.Prelude.{◌≡◌, ◌<◌, IfOk, MatchOption, MatchResult, vec_len};
ghost use Rattle.redis_servers.specs.Asking.{AsksNode, nodes_question};
ghost use Rattle.redis_servers.specs.Hearing.{IsNoList, LastTurn, ListsNone, LooksUp, Tells, Turn, Waits};
ghost use Rattle.redis_servers.specs.Hearing.{epoch_named, same_epoch};
ghost use Rattle.redis_servers.specs.Hearing.{unheard_text};

use crate::asking::ask_node;
use crate::pause::Pause;
use crate::port_stop::{PortStop, continue_if};
use crate::words::{node_words, useless_words};
use byte_streams::{ByteIn, ByteOut};
use byte_texts::{Memory, Text};
use cluster_admin::PortFault;
use key_slots::NodeId;
use listed_nodes::{NodeLine, nodes_in};
use resp2_wire::Reply;
use server_commands::{Credentials, NODES_REQUEST};
use server_links::{Link, ReplyLimit};
use std::alloc::Global;

/// The config epoch of the server with this ID, in a list that has it.
pub(crate) fn epoch_named(nodes: &[NodeLine], name: &[u8]) -> Option<u64>
    ensures { result ≡ epoch_named name.now nodes.now }
{
    let mut rest = nodes;
    while let [node, others @ ..] = rest {
        if node.name.get() == name {
            return Some(node.epoch);
        }
        rest = others;
    }
    None
}

/// What the node's reply to CLUSTER NODES tells of the server with this ID.
#[tactic(auto, using(crate::proofs::Useless::told_or_lost))]
fn epoch_in(
    alloc: Global,
    login: &Option<Credentials>,
    node: NodeId,
    reply: &Reply,
    name: &[u8],
) -> Result<Option<u64>, PortStop>
    ensures { MatchResult result (Tells name.now reply.now) (IsNoList login.now node reply.now) }
{
    match listed_epoch(alloc, reply, name) {
        Ok(Some(epoch)) => Ok(epoch),
        Ok(None) => Err(PortStop {
            fault: PortFault::Wire,
            said: useless_words(alloc, login, node, reply),
        }),
        Err(_) => Err(PortStop {
            fault: PortFault::Wire,
            said: None,
        }),
    }
}

/// The epoch of the node with this name, by a reply that lists nodes; none where it lists no node.
fn listed_epoch(alloc: Global, reply: &Reply, name: &[u8]) -> Result<Option<Option<u64>>, Memory>
    ensures { IfOk result (λ o. MatchOption o (ListsNone reply.now) (Tells name.now reply.now)) }
{
    let Reply::Bulk(text) = reply else {
        return Ok(None);
    };
    match nodes_in(alloc, text.get())? {
        Some(nodes) => Ok(Some(epoch_named(nodes.get(), name))),
        None => Ok(None),
    }
}

/// What the node tells of the config epoch of the server with this ID.
fn look_up<I: ByteIn + Drop, O: ByteOut + Drop>(
    alloc: Global,
    links: &mut Vec<Link<I, O>>,
    login: &Option<Credentials>,
    node: NodeId,
    name: &[u8],
) -> Result<Option<u64>, PortStop>
    requires { node < vec_len links.old }
    ensures looked { LooksUp (AsksNode (record { gave = I.gave; took = O.took }) nodes_question) login.now name.now
        links.old.items node result links.new.items }
    ensures count { vec_len links.new ≡ vec_len links.old }
{
    match ask_node(alloc, links, node, NODES_REQUEST, ReplyLimit::text()) {
        Ok(reply) => epoch_in(alloc, login, node, &reply, name),
        Err(port_stop) => Err(port_stop),
    }
}

pub(crate) fn same_epoch(own: Option<u64>, told: Option<u64>) -> bool
    ensures { result ≡ same_epoch own told }
{
    match own {
        Some(own) => told == Some(own),
        None => false,
    }
}

/// Whether the target tells the config epoch of the source, which has this ID, as the source does itself.
fn has_heard<I: ByteIn + Drop, O: ByteOut + Drop>(
    alloc: Global,
    links: &mut Vec<Link<I, O>>,
    login: &Option<Credentials>,
    source: NodeId,
    target: NodeId,
    name: &[u8],
) -> Result<bool, PortStop>
    requires source { source < vec_len links.old }
    requires target { target < vec_len links.old }
    ensures turn { Turn (AsksNode (record { gave = I.gave; took = O.took }) nodes_question) login.now name.now source
        target links.old.items result links.new.items }
    ensures count { vec_len links.new ≡ vec_len links.old }
{
    match look_up(alloc, links, login, source, name) {
        Ok(own) => match look_up(alloc, links, login, target, name) {
            Ok(told) => Ok(same_epoch(own, told)),
            Err(port_stop) => Err(port_stop),
        },
        Err(port_stop) => Err(port_stop),
    }
}

/// Waits until the target tells the config epoch of the source, which has this ID, as the source does itself. This text
/// is said if the time is over before.
pub(crate) fn wait_until_heard<I: ByteIn + Drop, O: ByteOut + Drop, P: Pause>(
    alloc: Global,
    links: &mut Vec<Link<I, O>>,
    pause: &mut P,
    login: &Option<Credentials>,
    source: NodeId,
    target: NodeId,
    name: &[u8],
    text: Text,
) -> Result<(), PortStop>
    requires source { source < vec_len links.old }
    requires target { target < vec_len links.old }
    requires text { text ≡ unheard_text source target }
    ensures waits { Waits (AsksNode (record { gave = I.gave; took = O.took }) nodes_question) login.now name.now source
        target links.old.items result links.new.items }
    ensures count { vec_len links.new ≡ vec_len links.old }
{
    match hears_in_time(alloc, links, pause, login, source, target, name) {
        Ok(heard) => continue_if(heard, text),
        Err(port_stop) => Err(port_stop),
    }
}

/// Whether the target tells the config epoch of the source before the time is over. They are asked once at least.
fn hears_in_time<I: ByteIn + Drop, O: ByteOut + Drop, P: Pause>(
    alloc: Global,
    links: &mut Vec<Link<I, O>>,
    pause: &mut P,
    login: &Option<Credentials>,
    source: NodeId,
    target: NodeId,
    name: &[u8],
) -> Result<bool, PortStop>
    requires source { source < vec_len links.old }
    requires target { target < vec_len links.old }
    ensures last { LastTurn (AsksNode (record { gave = I.gave; took = O.took }) nodes_question) login.now name.now
        source target links.old.items result links.new.items }
    ensures count { vec_len links.new ≡ vec_len links.old }
{
    pause.begin();
    for _ in 0..u64::MAX {
        match has_heard(alloc, links, login, source, target, name) {
            Ok(true) => return Ok(true),
            Ok(false) => {}
            Err(port_stop) => return Err(port_stop),
        }
        if !pause.pause() {
            return Ok(false);
        }
    }
    has_heard(alloc, links, login, source, target, name)
}

/// `nT has not heard of nS's config epoch after 2 seconds`
pub(crate) fn unheard_words(alloc: Global, source: NodeId, target: NodeId) -> Result<Text, Memory>
    ensures { IfOk result (λ t. t ≡ unheard_text source target) }
{
    let source = node_words(alloc, source)?;
    let mut words = node_words(alloc, target)?;
    words.extend_from_slice(b" has not heard of ")?;
    words.extend_from_slice(source.as_slice())?;
    words.extend_from_slice(b"'s config epoch after 2 seconds")?;
    Ok(Text::from_vec(words))
}
