//! How many keys one slot has at one node.
ghost use Rattle.std.specs.Prelude.{◌≡◌, ◌<◌, Ok, vec_len};
ghost use Rattle.slot_key_counts.specs.Counting.{AsksCount, Counts, IsCounted};
ghost use Rattle.server_links.specs.Asking.{AsksAt};

use byte_streams::{ByteIn, ByteOut};
use cluster_views::SurveyFault;
use key_slots::{NodeId, Slot};
use resp2_wire::{Reply, encode_request};
use server_commands::count_words;
use server_links::{Link, ReplyLimit};
use std::alloc::Global;

/// How many keys the slot has at the node, as [`keys_of_slot`] says, over the node's own connection.
pub fn keys_at<I: ByteIn + Drop, O: ByteOut + Drop>(
    alloc: Global,
    links: &mut Vec<Link<I, O>>,
    node: NodeId,
    slot: Slot,
) -> Result<u32, SurveyFault>
    requires { node < vec_len links.old }
    ensures counted { AsksAt (IsCounted (AsksCount (record { gave = I.gave; took = O.took }) slot) node)
        links.old.items node result links.new.items }
    ensures count { vec_len links.new ≡ vec_len links.old }
{
    let link = &mut links[usize::from(node.get())];
    keys_of_slot(alloc, link, node, slot)
}

/// How many keys the slot has at the node (CLUSTER COUNTKEYSINSLOT), whoever owns the slot. A server whose answer is no
/// such number is at fault, and so is one that gives none. Out of memory comes before anything is sent.
#[tactic(auto, unfolding(crate::specs::Counting::AsksCount))]
pub fn keys_of_slot<I: ByteIn + Drop, O: ByteOut + Drop>(
    alloc: Global,
    link: &mut Link<I, O>,
    node: NodeId,
    slot: Slot,
) -> Result<u32, SurveyFault>
    ensures { IsCounted (AsksCount (record { gave = I.gave; took = O.took }) slot) node link.old result link.new }
{
    let words = count_words(alloc, slot)?;
    let request = encode_request(alloc, words.get())?;
    match link.ask(alloc, request.as_slice(), ReplyLimit::line()) {
        Ok(reply) => count_in(&reply, node),
        Err(_) => Err(SurveyFault::NoAnswer(node)),
    }
}

/// The number that the reply is.
pub(crate) fn count_in(reply: &Reply, node: NodeId) -> Result<u32, SurveyFault>
    ensures { Counts node (Ok reply.now) result }
{
    match reply {
        Reply::Number(number) => match u32::try_from(*number) {
            Ok(count) => Ok(count),
            Err(_) => Err(SurveyFault::Strange(node)),
        },
        Reply::Error(text) => Err(SurveyFault::of_error(node, text.get())),
        _ => Err(SurveyFault::Strange(node)),
    }
}
