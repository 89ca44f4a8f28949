ghost use Rattle.std.specs.Prelude.{◌<◌, ◌≡◌, IfOk, vec_len};
ghost use Rattle.server_links.specs.Asking.{AsksAt};
ghost use Rattle.server_links.specs.Links.{ExchangesList};
ghost use Rattle.server_links.specs.LongLists.{IsListWithin};

use crate::link::Link;
use crate::list_reply::ListReply;
use crate::reply_limit::ReplyLimit;
use byte_streams::{ByteIn, ByteOut};
use cluster_admin::PortFault;
use key_slots::NodeId;
use std::alloc::Global;

/// Sends a request for a list over the connection of the node, and reads its reply, which may have more texts than an
/// array has otherwise, and is no longer than the limit.
pub fn ask_list_at<I: ByteIn + Drop, O: ByteOut + Drop>(
    alloc: Global,
    links: &mut Vec<Link<I, O>>,
    node: NodeId,
    request: &[u8],
    limit: ReplyLimit,
) -> Result<ListReply, PortFault>
    requires { node < vec_len links.old }
    ensures asked { AsksAt (ExchangesList (record { gave = I.gave; took = O.took }) request.now) links.old.items node
        result links.new.items }
    ensures within { IfOk result (IsListWithin limit) }
    ensures count { vec_len links.new ≡ vec_len links.old }
{
    let link = &mut links[usize::from(node.get())];
    link.ask_list(alloc, request, limit)
}
