ghost use Rattle.std.specs.Prelude.{◌≡◌, ◌<◌, IfOk, vec_len};
ghost use Rattle.server_links.specs.Asking.{AsksAt};
ghost use Rattle.server_links.specs.Limits.{IsWithin};
ghost use Rattle.server_links.specs.Links.{Exchanges};

use crate::link::Link;
use crate::reply_limit::ReplyLimit;
use byte_streams::{ByteIn, ByteOut};
use cluster_admin::PortFault;
use key_slots::NodeId;
use resp2_wire::Reply;
use std::alloc::Global;

/// Sends the request over the connection of the node, and reads its reply, which may be no longer than the limit.
pub fn ask_at<I: ByteIn + Drop, O: ByteOut + Drop>(
    alloc: Global,
    links: &mut Vec<Link<I, O>>,
    node: NodeId,
    request: &[u8],
    limit: ReplyLimit,
) -> Result<Reply, PortFault>
    requires { node < vec_len links.old }
    ensures asked { AsksAt (Exchanges (record { gave = I.gave; took = O.took }) request.now) links.old.items node
        result links.new.items }
    ensures within { IfOk result (IsWithin limit) }
    ensures count { vec_len links.new ≡ vec_len links.old }
{
    let link = &mut links[usize::from(node.get())];
    link.ask(alloc, request, limit)
}
