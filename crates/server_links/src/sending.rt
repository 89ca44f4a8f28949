//! A request to one of several servers, in two: it is sent, and its reply is read later.
ghost use Rattle.std.specs.Prelude.{◌≡◌, ◌<◌, IfOk, vec_len};
ghost use Rattle.server_links.specs.Asking.{AsksAt};
ghost use Rattle.server_links.specs.Limits.{IsWithin};
ghost use Rattle.server_links.specs.Links.{Receives, Sends};
ghost use Rattle.server_links.specs.Series.{ReceivesOf};

use crate::link::Link;
use crate::reply_limit::ReplyLimit;
use byte_streams::{ByteIn, ByteOut};
use cluster_admin::PortFault;
use key_slots::NodeId;
use resp2_wire::Reply;
use std::alloc::Global;

/// Sends the request over the connection of the node, and leaves its reply to be read.
pub fn send_at<I: ByteIn + Drop, O: ByteOut + Drop>(
    links: &mut Vec<Link<I, O>>,
    node: NodeId,
    request: &[u8],
) -> Result<(), PortFault>
    requires { node < vec_len links.old }
    ensures sent { AsksAt (Sends (record { gave = I.gave; took = O.took }) request.now) links.old.items node result
        links.new.items }
    ensures count { vec_len links.new ≡ vec_len links.old }
{
    let link = &mut links[usize::from(node.get())];
    link.send(request)
}

/// Reads the reply to the request that was sent over the connection of the node, which may be no longer than the limit.
pub fn receive_at<I: ByteIn + Drop, O: ByteOut + Drop>(
    alloc: Global,
    links: &mut Vec<Link<I, O>>,
    node: NodeId,
    limit: ReplyLimit,
) -> Result<Reply, PortFault>
    requires { node < vec_len links.old }
    ensures received { AsksAt (Receives (record { gave = I.gave; took = O.took })) links.old.items node result
        links.new.items }
    ensures within { IfOk result (IsWithin limit) }
    ensures count { vec_len links.new ≡ vec_len links.old }
{
    let link = &mut links[usize::from(node.get())];
    link.receive(alloc, limit)
}

/// Reads one of the replies to several requests that were sent in one go over the connection of the node. What has come
/// after it is left to be read, and nothing may stand after the last one.
pub fn receive_of<I: ByteIn + Drop, O: ByteOut + Drop>(
    alloc: Global,
    links: &mut Vec<Link<I, O>>,
    node: NodeId,
    limit: ReplyLimit,
    is_last: bool,
) -> Result<Reply, PortFault>
    requires { node < vec_len links.old }
    ensures received { AsksAt (ReceivesOf (record { gave = I.gave; took = O.took }) is_last) links.old.items node
        result links.new.items }
    ensures within { IfOk result (IsWithin limit) }
    ensures count { vec_len links.new ≡ vec_len links.old }
{
    let link = &mut links[usize::from(node.get())];
    receive_over(alloc, link, limit, is_last)
}

fn receive_over<I: ByteIn + Drop, O: ByteOut + Drop>(
    alloc: Global,
    link: &mut Link<I, O>,
    limit: ReplyLimit,
    is_last: bool,
) -> Result<Reply, PortFault>
    ensures received { ReceivesOf (record { gave = I.gave; took = O.took }) is_last link.old result link.new }
    ensures within { IfOk result (IsWithin limit) }
{
    if is_last {
        link.receive(alloc, limit)
    } else {
        link.receive_next(alloc, limit)
    }
}
