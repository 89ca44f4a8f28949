ghost use Rattle.std.specs.Prelude.{◌<◌, ◌≡◌, IfOk, vec_len};
ghost use Rattle.server_links.specs.Asking.{AsksAt};
ghost use Rattle.server_links.specs.Links.{ExchangesText};
ghost use Rattle.server_links.specs.LongTexts.{IsTextWithin};

use crate::link::Link;
use crate::reply_limit::ReplyLimit;
use crate::text_reply::TextReply;
use byte_streams::{ByteIn, ByteOut};
use cluster_admin::PortFault;
use key_slots::NodeId;
use std::alloc::Global;

/// Sends a request for a text over the connection of the node, and reads its reply, which may be longer than an
/// argument, and no longer than the limit.
pub fn ask_text_at<I: ByteIn + Drop, O: ByteOut + Drop>(
    alloc: Global,
    links: &mut Vec<Link<I, O>>,
    node: NodeId,
    request: &[u8],
    limit: ReplyLimit,
) -> Result<TextReply, PortFault>
    requires { node < vec_len links.old }
    ensures asked { AsksAt (ExchangesText (record { gave = I.gave; took = O.took }) request.now) links.old.items node
        result links.new.items }
    ensures within { IfOk result (IsTextWithin limit) }
    ensures count { vec_len links.new ≡ vec_len links.old }
{
    let link = &mut links[usize::from(node.get())];
    link.ask_text(alloc, request, limit)
}
