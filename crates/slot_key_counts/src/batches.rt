//! A batch of requests for the keys of slots, which goes to one node, and the replies to it.
ghost use Rattle.std.specs.Prelude.{◌≡◌, ◌<◌, ◌++◌, Err, IfOk, MatchResult, Ok, OnOk, vec_len};
ghost use Rattle.slot_key_counts.specs.Rounds.{HearsBatch, HearsKeys, SendsAll, SendsBatch, requests_for, talk};
ghost use Rattle.slot_key_counts.specs.Counting.{count_request};
ghost use Rattle.slot_key_counts.specs.Tables.{told_in};

use crate::counting::count_in;
use crate::key_table::KeyTable;
use byte_streams::{ByteIn, ByteOut};
use cluster_views::SurveyFault;
use key_slots::{NodeId, Slot};
use resp2_wire::encode_request;
use server_commands::count_words;
use server_links::{Link, ReplyLimit, receive_of, send_at};
use std::alloc::{AllocError, Global};

/// Sends the requests for these slots to the node, in one go. Where there is none, nothing is sent.
pub(crate) fn send_batch<I: ByteIn + Drop, O: ByteOut + Drop>(
    alloc: Global,
    links: &mut Vec<Link<I, O>>,
    node: NodeId,
    slots: &[Slot],
) -> Result<(), SurveyFault>
    requires { node < vec_len links.old }
    ensures sent { SendsBatch (talk (record { gave = I.gave; took = O.took })) node slots.now links.old.items result
        links.new.items }
    ensures count { vec_len links.new ≡ vec_len links.old }
{
    match slots {
        [] => Ok(()),
        [_, ..] => send_all(alloc, links, node, slots),
    }
}

/// Sends the requests for these slots.
fn send_all<I: ByteIn + Drop, O: ByteOut + Drop>(
    alloc: Global,
    links: &mut Vec<Link<I, O>>,
    node: NodeId,
    slots: &[Slot],
) -> Result<(), SurveyFault>
    requires { node < vec_len links.old }
    ensures sent { SendsAll (talk (record { gave = I.gave; took = O.took })) node slots.now links.old.items result
        links.new.items }
    ensures count { vec_len links.new ≡ vec_len links.old }
{
    let requests = requests_for(alloc, slots)?;
    match send_at(links, node, requests.as_slice()) {
        Ok(()) => Ok(()),
        Err(_) => Err(SurveyFault::NoAnswer(node)),
    }
}

/// The requests for these slots, one after the other.
fn requests_for(alloc: Global, slots: &[Slot]) -> Result<Vec<u8>, AllocError>
    ensures { IfOk result (λ v. v.items ≡ requests_for slots.now) }
{
    let mut requests = Vec::new(alloc);
    let mut left = slots;
    while let [slot, others @ ..] = left {
        put_request(alloc, &mut requests, *slot)?;
        left = others;
    }
    Ok(requests)
}

/// Puts the request for the slot.
fn put_request(alloc: Global, requests: &mut Vec<u8>, slot: Slot) -> Result<(), AllocError>
    ensures { OnOk result (requests.new.items ≡ requests.old.items ++ count_request slot) }
{
    let words = count_words(alloc, slot)?;
    let request = encode_request(alloc, words.get())?;
    requests.extend_from_slice(request.as_slice())?;
    Ok(())
}

/// Reads the replies to the requests for these slots from the node, each into the table. A server whose answer is no
/// number is at fault, and so is one that gives none; what comes after it is not read then.
pub(crate) fn hear_batch<I: ByteIn + Drop, O: ByteOut + Drop>(
    alloc: Global,
    links: &mut Vec<Link<I, O>>,
    node: NodeId,
    slots: &[Slot],
    table: &mut KeyTable,
) -> Result<(), SurveyFault>
    requires node { node < vec_len links.old }
    requires table { table.old.nodes ≡ vec_len links.old }
    ensures heard { MatchResult result
        (λ _. HearsBatch (talk (record { gave = I.gave; took = O.took })) node slots.now (told_in table.old)
        links.old.items (Ok (told_in table.new)) links.new.items)
        (λ e. HearsBatch (talk (record { gave = I.gave; took = O.took })) node slots.now (told_in table.old)
        links.old.items (Err e) links.new.items) }
    ensures table { table.new.nodes ≡ table.old.nodes }
    ensures count { vec_len links.new ≡ vec_len links.old }
{
    for place in 0..slots.len() {
        let is_last = place + 1 == slots.len();
        match hear_keys(alloc, links, node, is_last) {
            Ok(keys) => table.put(node, slots[place], keys),
            Err(fault) => return Err(fault),
        }
    }
    Ok(())
}

/// Reads one reply, which says how many keys a slot has at the node.
fn hear_keys<I: ByteIn + Drop, O: ByteOut + Drop>(
    alloc: Global,
    links: &mut Vec<Link<I, O>>,
    node: NodeId,
    is_last: bool,
) -> Result<u32, SurveyFault>
    requires { node < vec_len links.old }
    ensures heard { HearsKeys (talk (record { gave = I.gave; took = O.took })) node is_last links.old.items result
        links.new.items }
    ensures count { vec_len links.new ≡ vec_len links.old }
{
    match receive_of(alloc, links, node, ReplyLimit::line(), is_last) {
        Ok(reply) => count_in(&reply, node),
        Err(_) => Err(SurveyFault::NoAnswer(node)),
    }
}
