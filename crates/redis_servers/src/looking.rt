//! One look at a server: at the nodes that it lists, or at its role.
ghost use Rattle.std.specs.Prelude.{◌≡◌, ◌↔◌, ◌<◌, ◌≤◌, false, IfOk, IsTrue, MatchOption, MatchResult, length, vec_len};
ghost use Rattle.resp2_wire.specs.View.{trees};
ghost use Rattle.redis_servers.specs.Asking.{AsksNode, nodes_question};
ghost use Rattle.redis_servers.specs.Hearing.{IsNoList, ListsNone};
ghost use Rattle.redis_servers.specs.Looking.{AsksRole, HasNoRole, IsNoRole, Lists, LooksAt, TellsRole, begins_master};
ghost use Rattle.redis_servers.specs.Looking.{role_request};

use crate::asking::ask_node;
use crate::port_stop::PortStop;
use crate::words::useless_words;
use byte_streams::{ByteIn, ByteOut};
use byte_texts::{Memory, is};
use cluster_admin::PortFault;
use key_slots::NodeId;
use listed_nodes::{NodeLines, nodes_in};
use resp2_wire::Reply;
use server_commands::{Credentials, NODES_REQUEST};
use server_links::{Link, ReplyLimit};
use std::alloc::Global;

/// The request of ROLE.
const ROLE_REQUEST: &[u8] = b"*1\r\n$4\r\nROLE\r\n";

/// The nodes that the server lists.
pub(crate) fn look_at<I: ByteIn + Drop, O: ByteOut + Drop>(
    alloc: Global,
    links: &mut Vec<Link<I, O>>,
    login: &Option<Credentials>,
    node: NodeId,
) -> Result<NodeLines, PortStop>
    requires { node < vec_len links.old }
    ensures looked { LooksAt (AsksNode (record { gave = I.gave; took = O.took })) login.now nodes_question
        links.old.items node result links.new.items }
    ensures count { vec_len links.new ≡ vec_len links.old }
{
    match ask_node(alloc, links, node, NODES_REQUEST, ReplyLimit::text()) {
        Ok(reply) => lines_in(alloc, login, node, &reply),
        Err(port_stop) => Err(port_stop),
    }
}

/// The lines of the node's reply to CLUSTER NODES.
#[tactic(auto, using(crate::proofs::Useless::told_or_lost))]
fn lines_in(
    alloc: Global,
    login: &Option<Credentials>,
    node: NodeId,
    reply: &Reply,
) -> Result<NodeLines, PortStop>
    ensures { MatchResult result (Lists reply.now) (IsNoList login.now node reply.now) }
{
    match listed(alloc, reply) {
        Ok(Some(lines)) => Ok(lines),
        Ok(None) => Err(PortStop {
            fault: PortFault::Wire,
            said: useless_words(alloc, login, node, reply),
        }),
        Err(_) => Err(PortStop {
            fault: PortFault::Wire,
            said: None,
        }),
    }
}

fn listed(alloc: Global, reply: &Reply) -> Result<Option<NodeLines>, Memory>
    ensures { IfOk result (λ o. MatchOption o (ListsNone reply.now) (Lists reply.now)) }
{
    match reply {
        Reply::Bulk(text) => nodes_in(alloc, text.get()),
        _ => Ok(None),
    }
}

/// Whether the server is a master.
pub(crate) fn role_at<I: ByteIn + Drop, O: ByteOut + Drop>(
    alloc: Global,
    links: &mut Vec<Link<I, O>>,
    login: &Option<Credentials>,
    node: NodeId,
) -> Result<bool, PortStop>
    requires { node < vec_len links.old }
    ensures asked { AsksRole (AsksNode (record { gave = I.gave; took = O.took })) login.now links.old.items node result
        links.new.items }
    ensures count { vec_len links.new ≡ vec_len links.old }
{
    match ask_node(alloc, links, node, ROLE_REQUEST, ReplyLimit::line()) {
        Ok(reply) => role_in(alloc, login, node, &reply),
        Err(port_stop) => Err(port_stop),
    }
}

/// What the node's reply to ROLE tells.
#[tactic(auto, using(crate::proofs::Useless::told_or_lost))]
fn role_in(
    alloc: Global,
    login: &Option<Credentials>,
    node: NodeId,
    reply: &Reply,
) -> Result<bool, PortStop>
    ensures { MatchResult result (TellsRole reply.now) (IsNoRole login.now node reply.now) }
{
    match reply {
        Reply::Array(replies) => Ok(begins_master(replies.get())),
        _ => Err(PortStop {
            fault: PortFault::Wire,
            said: useless_words(alloc, login, node, reply),
        }),
    }
}

fn begins_master(replies: &[Reply]) -> bool
    ensures { result ≡ begins_master (trees replies.now) }
{
    match replies {
        [Reply::Bulk(text), ..] => is(text.get(), b"master"),
        _ => false,
    }
}
