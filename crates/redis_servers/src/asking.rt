//! A request goes to one of the servers.
ghost use Rattle.std.specs.Prelude.{◌≡◌, ◌<◌, Some, length, slice_get, vec_len};
ghost use Rattle.redis_servers.specs.Asking.{AsksNode, HearsFrom, IsSilent, SendsTo, sent_question};

use crate::port_stop::PortStop;
use crate::words::silence;
use byte_streams::{ByteIn, ByteOut};
use byte_texts::Text;
use key_slots::NodeId;
use resp2_wire::Reply;
use server_links::{Link, ReplyLimit, ask_at, receive_at, send_at};
use std::alloc::Global;

/// Sends the request to the node, and reads its reply; or why there is none, in words.
pub(crate) fn ask_node<I: ByteIn + Drop, O: ByteOut + Drop>(
    alloc: Global,
    links: &mut Vec<Link<I, O>>,
    node: NodeId,
    request: &[u8],
    limit: ReplyLimit,
) -> Result<Reply, PortStop>
    requires { node < vec_len links.old }
    ensures asked { AsksNode (record { gave = I.gave; took = O.took })
        (record { request = request.now; limit = limit }) links.old.items node result links.new.items }
    ensures count { vec_len links.new ≡ vec_len links.old }
{
    match ask_at(alloc, links, node, request, limit) {
        Ok(reply) => Ok(reply),
        Err(fault) => Err(PortStop {
            fault,
            said: silence_at(alloc, links.as_slice(), node),
        }),
    }
}

/// Sends the request to the node, and leaves its reply to be read; or why it is not sent, in words.
pub(crate) fn send_to<I: ByteIn + Drop, O: ByteOut + Drop>(
    alloc: Global,
    links: &mut Vec<Link<I, O>>,
    node: NodeId,
    request: &[u8],
) -> Result<(), PortStop>
    requires { node < vec_len links.old }
    ensures sent { SendsTo (record { gave = I.gave; took = O.took }) request.now links.old.items node result
        links.new.items }
    ensures count { vec_len links.new ≡ vec_len links.old }
{
    match send_at(links, node, request) {
        Ok(()) => Ok(()),
        Err(fault) => Err(PortStop {
            fault,
            said: silence_at(alloc, links.as_slice(), node),
        }),
    }
}

/// Reads the reply of the node to what was sent to it; or why there is none, in words.
pub(crate) fn hear_from<I: ByteIn + Drop, O: ByteOut + Drop>(
    alloc: Global,
    links: &mut Vec<Link<I, O>>,
    node: NodeId,
    limit: ReplyLimit,
) -> Result<Reply, PortStop>
    requires { node < vec_len links.old }
    ensures heard { HearsFrom (record { gave = I.gave; took = O.took }) (sent_question limit) links.old.items node
        result links.new.items }
    ensures count { vec_len links.new ≡ vec_len links.old }
{
    match receive_at(alloc, links, node, limit) {
        Ok(reply) => Ok(reply),
        Err(fault) => Err(PortStop {
            fault,
            said: silence_at(alloc, links.as_slice(), node),
        }),
    }
}

/// What is said of the connection to the node, which is gone.
fn silence_at<I: ByteIn + Drop, O: ByteOut + Drop>(
    alloc: Global,
    links: &[Link<I, O>],
    node: NodeId,
) -> Option<Text>
    requires { node < length links.now }
    ensures { IsSilent node links.now result }
{
    let link = link_of(links, node);
    silence(alloc, node, link.fault())
}

/// The connection to the node.
fn link_of<I: ByteIn + Drop, O: ByteOut + Drop>(links: &[Link<I, O>], node: NodeId) -> &Link<I, O>
    requires { node < length links.now }
    ensures { slice_get links.now node ≡ Some result.now }
{
    &links[usize::from(node.get())]
}
