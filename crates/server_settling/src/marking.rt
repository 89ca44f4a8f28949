//! The target of an open slot is told once more that it imports the slot.
ghost use Rattle.std.specs.Prelude.{◌≡◌, ◌<◌, length, vec_len};
ghost use Rattle.server_settling.specs.Asking.{IsAsked, Sends};
ghost use Rattle.server_settling.specs.Marking.{Answers, Marks, is_ok, is_slow, mark_message};

use crate::asking::ask_at;
use crate::fault::SettleFault;
use crate::setup::{OpenSlot, SettleSetup};
use crate::stop::{SettleStop, accept, stop_by};
use crate::words::importing_words;
use byte_streams::{ByteIn, ByteOut};
use byte_texts::{begins, is};
use resp2_wire::Reply;
use server_links::{Link, ReplyLimit};
use std::alloc::Global;

/// How many milliseconds a node waits for its replicas to do a command (Valkey).
const REPLICAS: u32 = 2000;

/// Tells the target that it imports the slot from the source. It has that mark already, and at Redis nothing changes.
/// At Valkey a replica of the target that was away when it was told before has the mark then, too: without one it would
/// delete the keys that have moved when it takes the target's place.
pub(crate) fn mark<I: ByteIn + Drop, O: ByteOut + Drop>(
    alloc: Global,
    links: &mut Vec<Link<I, O>>,
    setup: &SettleSetup,
    open: &OpenSlot,
) -> Result<(), SettleStop>
    requires links { vec_len links.old ≡ length setup.now.book }
    requires source { open.now.source < length setup.now.book }
    requires target { open.now.target < length setup.now.book }
    ensures marks { Marks (Sends (record { gave = I.gave; took = O.took })) setup.now open.now
        links.old.items result links.new.items }
    ensures count { vec_len links.new ≡ vec_len links.old }
{
    match last_answer(alloc, links, setup, open) {
        Ok(reply) => accept(alloc, open.target, &reply, is_ok(&reply)),
        Err(stop) => Err(stop),
    }
}

/// What the target answers, once its replicas are not too slow for it, or the time of a MIGRATE has passed.
#[tactic(auto, using(crate::proofs::Answered::answering))]
fn last_answer<I: ByteIn + Drop, O: ByteOut + Drop>(
    alloc: Global,
    links: &mut Vec<Link<I, O>>,
    setup: &SettleSetup,
    open: &OpenSlot,
) -> Result<Reply, SettleStop>
    requires links { vec_len links.old ≡ length setup.now.book }
    requires source { open.now.source < length setup.now.book }
    requires target { open.now.target < length setup.now.book }
    ensures answers { Answers (Sends (record { gave = I.gave; took = O.took })) setup.now open.now
        links.old.items result links.new.items }
    ensures count { vec_len links.new ≡ vec_len links.old }
{
    for _again in 0..setup.timeout / REPLICAS {
        match tell(alloc, links, setup, open) {
            Ok(reply) => {
                if !is_slow(&reply) {
                    return Ok(reply);
                }
            }
            Err(stop) => return Err(stop),
        }
    }
    tell(alloc, links, setup, open)
}

fn tell<I: ByteIn + Drop, O: ByteOut + Drop>(
    alloc: Global,
    links: &mut Vec<Link<I, O>>,
    setup: &SettleSetup,
    open: &OpenSlot,
) -> Result<Reply, SettleStop>
    requires links { vec_len links.old ≡ length setup.now.book }
    requires source { open.now.source < length setup.now.book }
    requires target { open.now.target < length setup.now.book }
    ensures asked { IsAsked (Sends (record { gave = I.gave; took = O.took })) (mark_message setup.now open.now)
        links.old.items result links.new.items }
    ensures count { vec_len links.new ≡ vec_len links.old }
{
    let source = setup.book.server(open.source);
    let Ok(words) = importing_words(alloc, open.slot, source) else {
        return Err(stop_by(SettleFault::Memory));
    };
    ask_at(alloc, links, open.target, &words, ReplyLimit::line())
}

fn is_ok(reply: &Reply) -> bool
    ensures { result ≡ is_ok reply.now }
{
    match reply {
        Reply::Simple(text) => is(text.get(), b"OK"),
        _ => false,
    }
}

fn is_slow(reply: &Reply) -> bool
    ensures { result ≡ is_slow reply.now }
{
    match reply {
        Reply::Error(text) => begins(text.get(), b"NOREPLICAS "),
        _ => false,
    }
}
