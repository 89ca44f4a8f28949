//! The keys of a slot at both nodes.
ghost use Rattle.std.specs.Prelude.{◌≡◌, ◌<◌, ℕ, IsSorted, vec_len};
ghost use Rattle.std.specs.Ordering.{nat_cmp};
ghost use Rattle.std.specs.Cmp.Lexicographic.{slice_cmp};
ghost use Rattle.server_links.specs.LongLists.{list_of};
ghost use Rattle.server_links.specs.declared.list_reply.ListReply.TheVariants.{Texts};
ghost use Rattle.server_settling.specs.Asking.{Sends};
ghost use Rattle.server_settling.specs.Listing.{AreHeld, AreKeysAt, Counts, IsCountAt, IsListAt, Lists, SortsKeys};
ghost use Rattle.server_settling.specs.Listing.{SortsKeysOf, few_in, few_keys, few_of, listing_limit};

use crate::asking::{ask_at, ask_list_at};
use crate::fault::SettleFault;
use crate::setup::OpenSlot;
use crate::sorted_keys::{SortedKeys, sorted};
use crate::stop::{SettleStop, stop_by, useless};
use byte_streams::{ByteIn, ByteOut};
use byte_texts::TextList;
use cluster_admin::{AdminCommand, AdminReply};
use key_slots::{NodeId, Slot};
use resp2_wire::Reply;
use server_commands::{Answered, answered_by, count_words, listing_words};
use server_links::{Link, ListReply, ReplyLimit};
use std::alloc::Global;

/// The keys of a slot at its source and at its target.
#[derive(Drop)]
pub(crate) struct Held {
    pub at_source: SortedKeys,
    pub at_target: SortedKeys,
}

/// Lists the slot's keys at the source, and then at the target.
pub(crate) fn held_keys<I: ByteIn + Drop, O: ByteOut + Drop>(
    alloc: Global,
    links: &mut Vec<Link<I, O>>,
    open: &OpenSlot,
) -> Result<Held, SettleStop>
    requires source { open.now.source < vec_len links.old }
    requires target { open.now.target < vec_len links.old }
    ensures held { AreHeld (Sends (record { gave = I.gave; took = O.took })) open.now links.old.items
        result links.new.items }
    ensures count { vec_len links.new ≡ vec_len links.old }
{
    match keys_at(alloc, links, open.source, open.slot) {
        Ok(at_source) => match keys_at(alloc, links, open.target, open.slot) {
            Ok(at_target) => Ok(Held {
                at_source,
                at_target,
            }),
            Err(stop) => Err(stop),
        },
        Err(stop) => Err(stop),
    }
}

/// How many keys more than were counted are asked for: keys may come in between, and servers list the newest first.
const SLACK: u32 = 1_000;

/// Asks the node how many keys of the slot it has, and then for all of them.
fn keys_at<I: ByteIn + Drop, O: ByteOut + Drop>(
    alloc: Global,
    links: &mut Vec<Link<I, O>>,
    node: NodeId,
    slot: Slot,
) -> Result<SortedKeys, SettleStop>
    requires { node < vec_len links.old }
    ensures keys { AreKeysAt (Sends (record { gave = I.gave; took = O.took })) node slot links.old.items
        result links.new.items }
    ensures count { vec_len links.new ≡ vec_len links.old }
{
    match count_at(alloc, links, node, slot) {
        Ok(count) => list_at(alloc, links, node, slot, count.saturating_add(SLACK)),
        Err(stop) => Err(stop),
    }
}

/// Asks the node how many keys of the slot it has.
pub(crate) fn count_at<I: ByteIn + Drop, O: ByteOut + Drop>(
    alloc: Global,
    links: &mut Vec<Link<I, O>>,
    node: NodeId,
    slot: Slot,
) -> Result<u32, SettleStop>
    requires { node < vec_len links.old }
    ensures counts { IsCountAt (Sends (record { gave = I.gave; took = O.took })) node slot links.old.items
        result links.new.items }
    ensures count { vec_len links.new ≡ vec_len links.old }
{
    let Ok(words) = count_words(alloc, slot) else {
        return Err(stop_by(SettleFault::Memory));
    };
    match ask_at(alloc, links, node, &words, ReplyLimit::line()) {
        Ok(reply) => count_in(alloc, node, &reply),
        Err(stop) => Err(stop),
    }
}

/// The number that the reply is.
fn count_in(alloc: Global, node: NodeId, reply: &Reply) -> Result<u32, SettleStop>
    ensures { Counts node reply.now result }
{
    match reply {
        Reply::Number(number) => match u32::try_from(*number) {
            Ok(count) => Ok(count),
            Err(_) => Err(stop_by(SettleFault::Strange(node))),
        },
        _ => Err(useless(alloc, node, reply)),
    }
}

fn list_at<I: ByteIn + Drop, O: ByteOut + Drop>(
    alloc: Global,
    links: &mut Vec<Link<I, O>>,
    node: NodeId,
    slot: Slot,
    most: u32,
) -> Result<SortedKeys, SettleStop>
    requires { node < vec_len links.old }
    ensures lists { IsListAt (Sends (record { gave = I.gave; took = O.took })) node slot most
        links.old.items result links.new.items }
    ensures count { vec_len links.new ≡ vec_len links.old }
{
    let Ok(words) = listing_words(alloc, slot, most) else {
        return Err(stop_by(SettleFault::Memory));
    };
    match ask_list_at(alloc, links, node, &words, listing_limit(most)) {
        Ok(reply) => keys_listed(alloc, node, slot, most, reply),
        Err(stop) => Err(stop),
    }
}

/// How long a list of so many keys may be: whatever a node says that it has, no longer than one of 1,000 keys.
fn listing_limit(most: u32) -> ReplyLimit
    ensures { result ≡ listing_limit most }
{
    ReplyLimit::texts(most.min(1_000))
}

/// The keys that the reply lists, of which there may be so many, and more than an array has otherwise.
fn keys_listed(
    alloc: Global,
    node: NodeId,
    slot: Slot,
    most: u32,
    reply: ListReply,
) -> Result<SortedKeys, SettleStop>
    ensures { Lists node slot most (list_of reply) result }
{
    match reply {
        ListReply::Texts(texts) => few_texts(node, texts, most),
        ListReply::Other(reply) => keys_in(alloc, node, slot, most, &reply),
    }
}

/// These keys in order, if they are at most so many.
fn few_texts(node: NodeId, texts: TextList, most: u32) -> Result<SortedKeys, SettleStop>
    ensures { (s : ℕ) → Lists node s most (list_of (Texts texts)) result }
{
    match few_in(sorted(texts), most) {
        Some(keys) => Ok(keys),
        None => Err(stop_by(SettleFault::Strange(node))),
    }
}

/// The keys that the reply lists, of which there may be so many.
fn keys_in(
    alloc: Global,
    node: NodeId,
    slot: Slot,
    most: u32,
    reply: &Reply,
) -> Result<SortedKeys, SettleStop>
    ensures { Lists node slot most reply.now result }
{
    match answered_by(alloc, node, &AdminCommand::KeysIn(slot, 0), reply) {
        Ok(answered) => match few_keys(answered, most) {
            Some(keys) => Ok(keys),
            None => Err(useless(alloc, node, reply)),
        },
        Err(_) => Err(stop_by(SettleFault::Memory)),
    }
}

/// The keys of the answer, if it is a listing of at most so many.
fn few_keys(answered: Answered, most: u32) -> Option<SortedKeys>
    requires { SortsKeys answered }
    ensures { result ≡ few_keys most answered }
{
    match answered {
        Answered::Reply(reply) => few_of(reply, most),
        Answered::Error(text) => {
            drop(text);
            None
        }
        Answered::Strange => None,
    }
}

fn few_of(reply: AdminReply, most: u32) -> Option<SortedKeys>
    requires { SortsKeysOf reply }
    ensures { result ≡ few_of most reply }
{
    match reply {
        AdminReply::Keys(keys) => few_in(keys, most),
        _ => None,
    }
}

fn few_in(keys: TextList, most: u32) -> Option<SortedKeys>
    requires { IsSorted (slice_cmp nat_cmp) keys }
    ensures { result ≡ few_in most keys }
{
    if keys.len() <= most as usize {
        Some(SortedKeys::of(keys))
    } else {
        None
    }
}
