//! A request goes to one of the servers.
ghost use Rattle.std.specs.Prelude.{◌≡◌, ◌<◌, Some, length, slice_get, vec_len};
ghost use Rattle.server_settling.specs.Asking.{IsAsked, IsGone, Sends, answer_of, listing_of, stop_for};

use crate::fault::SettleFault;
use crate::stop::{SettleStop, stop_by};
use byte_streams::{ByteIn, ByteOut};
use byte_texts::TextList;
use key_slots::NodeId;
use resp2_wire::{Reply, encode_request};
use server_links::{Link, LinkFault, ListReply, ReplyLimit, TextReply};
use std::alloc::Global;

/// Sends the words to the node, and reads its reply, which may be no longer than the limit. Out of memory comes before
/// anything is sent, or says that there was none for the reply.
pub(crate) fn ask_at<I: ByteIn + Drop, O: ByteOut + Drop>(
    alloc: Global,
    links: &mut Vec<Link<I, O>>,
    node: NodeId,
    words: &TextList,
    limit: ReplyLimit,
) -> Result<Reply, SettleStop>
    requires { node < vec_len links.old }
    ensures asked { IsAsked (Sends (record { gave = I.gave; took = O.took }))
        (record { node = node; words = words.now; limit = limit }) links.old.items result links.new.items }
    ensures count { vec_len links.new ≡ vec_len links.old }
{
    let Ok(request) = encode_request(alloc, words.get()) else {
        return Err(stop_by(SettleFault::Memory));
    };
    match server_links::ask_at(alloc, links, node, request.as_slice(), limit) {
        Ok(reply) => Ok(reply),
        Err(_) => Err(gone(links.as_slice(), node)),
    }
}

/// Asks with words that are answered by a text, which may be longer than an argument.
pub(crate) fn ask_text_at<I: ByteIn + Drop, O: ByteOut + Drop>(
    alloc: Global,
    links: &mut Vec<Link<I, O>>,
    node: NodeId,
    words: &TextList,
    limit: ReplyLimit,
) -> Result<TextReply, SettleStop>
    requires { node < vec_len links.old }
    ensures asked { IsAsked (Sends (record { gave = I.gave; took = O.took }))
        (record { node = node; words = words.now; limit = limit }) links.old.items (answer_of result) links.new.items }
    ensures count { vec_len links.new ≡ vec_len links.old }
{
    let Ok(request) = encode_request(alloc, words.get()) else {
        return Err(stop_by(SettleFault::Memory));
    };
    match server_links::ask_text_at(alloc, links, node, request.as_slice(), limit) {
        Ok(reply) => Ok(reply),
        Err(_) => Err(gone(links.as_slice(), node)),
    }
}

/// Asks with words that are answered by a list, which may have more texts than an array has otherwise.
pub(crate) fn ask_list_at<I: ByteIn + Drop, O: ByteOut + Drop>(
    alloc: Global,
    links: &mut Vec<Link<I, O>>,
    node: NodeId,
    words: &TextList,
    limit: ReplyLimit,
) -> Result<ListReply, SettleStop>
    requires { node < vec_len links.old }
    ensures asked { IsAsked (Sends (record { gave = I.gave; took = O.took }))
        (record { node = node; words = words.now; limit = limit }) links.old.items (listing_of result) links.new.items }
    ensures count { vec_len links.new ≡ vec_len links.old }
{
    let Ok(request) = encode_request(alloc, words.get()) else {
        return Err(stop_by(SettleFault::Memory));
    };
    match server_links::ask_list_at(alloc, links, node, request.as_slice(), limit) {
        Ok(reply) => Ok(reply),
        Err(_) => Err(gone(links.as_slice(), node)),
    }
}

/// Why the connection to the node is gone.
fn gone<I: ByteIn + Drop, O: ByteOut + Drop>(links: &[Link<I, O>], node: NodeId) -> SettleStop
    requires { node < length links.now }
    ensures { IsGone node links.now result }
{
    let link = link_of(links, node);
    stop_for(node, link.fault())
}

/// The connection to the node.
fn link_of<I: ByteIn + Drop, O: ByteOut + Drop>(links: &[Link<I, O>], node: NodeId) -> &Link<I, O>
    requires { node < length links.now }
    ensures { slice_get links.now node ≡ Some result.now }
{
    &links[usize::from(node.get())]
}

/// Why the node gives no reply.
fn stop_for(node: NodeId, fault: Option<LinkFault>) -> SettleStop
    ensures { result ≡ stop_for node fault }
{
    match fault {
        Some(LinkFault::NoMemory) => stop_by(SettleFault::Memory),
        Some(LinkFault::TooLong) => stop_by(SettleFault::TooLong(node)),
        Some(LinkFault::NoReply) => stop_by(SettleFault::NoReply(node)),
        Some(LinkFault::Silent) | None => stop_by(SettleFault::NoAnswer(node)),
    }
}
