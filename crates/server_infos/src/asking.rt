//! How servers are asked for their figures.
ghost use Rattle.std.specs.Prelude.{◌≡◌, ◌<◌, ◌++◌, ◌∷◌, [], IfOk, OnErr, OnOk, length, vec_len};
ghost use Rattle.server_infos.specs.Asking.{AreToldBy, IsTold, IsToldBy, figures_told};
ghost use Rattle.server_infos.specs.Asking.{AsksFigures};
ghost use Rattle.server_links.specs.Asking.{AsksAt};

use crate::figures::{Figures, figures_in};
use byte_streams::{ByteIn, ByteOut};
use byte_texts::Memory;
use cluster_views::SurveyFault;
use key_slots::NodeId;
use plan_outlines::NodeServer;
use resp2_wire::Reply;
use server_commands::{Server, ServerBook};
use server_links::{Link, ReplyLimit};
use std::alloc::Global;

/// The request of INFO, which all of the usual sections answer.
const INFO_REQUEST: &[u8] = b"*1\r\n$4\r\nINFO\r\n";

/// The servers of the book, with what each tells of itself over its own connection. A server that refuses tells none of
/// its figures; one that gives no answer is at fault.
pub fn servers_of<I: ByteIn + Drop, O: ByteOut + Drop>(
    alloc: Global,
    links: &mut Vec<Link<I, O>>,
    book: &ServerBook,
) -> Result<Vec<NodeServer>, SurveyFault>
    requires { vec_len links.old ≡ length book.now }
    ensures told { IfOk result (λ v. AreToldBy (AsksFigures (record { gave = I.gave; took = O.took })) book.now
        (length book.now) v.items) }
    ensures kept { vec_len links.new ≡ vec_len links.old }
{
    let mut servers = Vec::new(alloc);
    for number in 0..book.nodes() {
        let node = NodeId::of(number);
        let server = server_of(alloc, links, book.server(node), node)?;
        put(&mut servers, server)?;
    }
    Ok(servers)
}

/// Puts the server at the end.
fn put(servers: &mut Vec<NodeServer>, server: NodeServer) -> Result<(), Memory>
    ensures ok { OnOk result (servers.new.items ≡ servers.old.items ++ server ∷ []) }
    ensures err { OnErr result (servers.new.items ≡ servers.old.items) }
{
    servers.push(server)?;
    Ok(())
}

/// The server of this number, with what it tells of itself.
fn server_of<I: ByteIn + Drop, O: ByteOut + Drop>(
    alloc: Global,
    links: &mut Vec<Link<I, O>>,
    server: &Server,
    node: NodeId,
) -> Result<NodeServer, SurveyFault>
    requires { node < vec_len links.old }
    ensures told { IfOk result (λ s.
        IsToldBy (AsksFigures (record { gave = I.gave; took = O.took })) node server.now s) }
    ensures kept { vec_len links.new ≡ vec_len links.old }
{
    let host = server.host.try_copy(alloc)?;
    let name = server.name.try_copy(alloc)?;
    let figures = figures_at(alloc, links, node)?;
    Ok(NodeServer {
        node,
        host,
        port: server.port,
        name,
        keys: figures.keys,
        used_memory: figures.used_memory,
        max_memory: figures.max_memory,
    })
}

/// What the server of this number tells of itself, over its own connection.
pub fn figures_at<I: ByteIn + Drop, O: ByteOut + Drop>(
    alloc: Global,
    links: &mut Vec<Link<I, O>>,
    node: NodeId,
) -> Result<Figures, SurveyFault>
    requires { node < vec_len links.old }
    ensures told { AsksAt (IsTold (AsksFigures (record { gave = I.gave; took = O.took })) node) links.old.items node
        result links.new.items }
    ensures kept { vec_len links.new ≡ vec_len links.old }
{
    let link = &mut links[usize::from(node.get())];
    figures_of(alloc, link, node)
}

/// What the server tells of itself (INFO). One that refuses tells none of its figures; one that gives no answer is at
/// fault.
#[tactic(auto, unfolding(crate::specs::Asking::AsksFigures))]
pub fn figures_of<I: ByteIn + Drop, O: ByteOut + Drop>(
    alloc: Global,
    link: &mut Link<I, O>,
    node: NodeId,
) -> Result<Figures, SurveyFault>
    ensures { IsTold (AsksFigures (record { gave = I.gave; took = O.took })) node link.old result link.new }
{
    match link.ask(alloc, INFO_REQUEST, ReplyLimit::text()) {
        Ok(reply) => Ok(figures_told(&reply)),
        Err(_) => Err(SurveyFault::NoAnswer(node)),
    }
}

/// What the reply tells.
fn figures_told(reply: &Reply) -> Figures
    ensures { result ≡ figures_told reply.now }
{
    match reply {
        Reply::Bulk(text) => figures_in(text.get()),
        _ => Figures {
            keys: None,
            used_memory: None,
            max_memory: None,
        },
    }
}
