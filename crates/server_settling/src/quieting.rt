//! The wait until no MIGRATE of the source can act late at the target.
ghost use Rattle.std.specs.Prelude.{◌≡◌, ◌<◌, ◌+◌, ◌==◌, IfSome, vec_len};
ghost use Rattle.server_settling.specs.Asking.{Sends};
ghost use Rattle.server_links.specs.LongTexts.{reply_of};
ghost use Rattle.server_settling.specs.Quieting.{Ends, EndsAll, Looks, Quiets, Round, Shows, ShowsIn, is_gone};
ghost use Rattle.server_settling.specs.Quieting.{is_second};

use crate::asking::{ask_at, ask_text_at};
use crate::client_ids::ClientIds;
use crate::client_list::late_ids_in;
use crate::fault::SettleFault;
use crate::stop::{SettleStop, accept, stop_by, useless};
use crate::words::{clients_words, kill_words};
use byte_streams::{ByteIn, ByteOut};
use byte_texts::Text;
use key_slots::NodeId;
use redis_servers::Pause;
use resp2_wire::Reply;
use server_links::{Link, ReplyLimit, TextReply};
use std::alloc::Global;

/// The most looks at the target's connections.
const MAX_ROUNDS: u8 = 100;

/// What was seen so far: how many connections were ended, and whether the last look showed none.
#[derive(Clone, Copy)]
struct Seen {
    ended: u32,
    is_quiet: bool,
}

/// Ends the connections from the host over which keys may still come to the target, until none is shown twice in a row.
/// How many were ended.
pub(crate) fn quiet<I: ByteIn + Drop, O: ByteOut + Drop, P: Pause>(
    alloc: Global,
    links: &mut Vec<Link<I, O>>,
    pause: &mut P,
    target: NodeId,
    host: &Text,
) -> Result<u32, SettleStop>
    requires { target < vec_len links.old }
    ensures quiets { Quiets (Sends (record { gave = I.gave; took = O.took })) target host.now
        links.old.items result links.new.items }
    ensures count { vec_len links.new ≡ vec_len links.old }
{
    let mut seen = Seen {
        ended: 0,
        is_quiet: false,
    };
    pause.begin();
    for _ in 0..MAX_ROUNDS {
        let count = match round(alloc, links, target, host) {
            Ok(count) => count,
            Err(stop) => return Err(stop),
        };
        if is_second(seen, count) {
            return Ok(seen.ended);
        }
        match seen_after(seen, count) {
            Some(next) => seen = next,
            None => return Err(stop_by(SettleFault::Restless(target))),
        }
        if !pause.pause() {
            return Err(stop_by(SettleFault::Restless(target)));
        }
    }
    Err(stop_by(SettleFault::Restless(target)))
}

/// Whether no connection was shown twice in a row.
fn is_second(seen: Seen, count: usize) -> bool
    ensures { result ≡ is_second seen.is_quiet count }
{
    seen.is_quiet && count == 0
}

/// What was seen after a look that showed so many.
fn seen_after(seen: Seen, count: usize) -> Option<Seen>
    ensures { IfSome result (λ s. (s.ended ≡ seen.ended + count) × (s.is_quiet ≡ (count == 0))) }
{
    let count32 = u32::try_from(count).ok()?;
    let ended = seen.ended.checked_add(count32)?;
    Some(Seen {
        ended,
        is_quiet: count == 0,
    })
}

/// Looks once, and ends what is shown. How many these were.
fn round<I: ByteIn + Drop, O: ByteOut + Drop>(
    alloc: Global,
    links: &mut Vec<Link<I, O>>,
    target: NodeId,
    host: &Text,
) -> Result<usize, SettleStop>
    requires { target < vec_len links.old }
    ensures round { Round (Sends (record { gave = I.gave; took = O.took })) target host.now
        links.old.items result links.new.items }
    ensures count { vec_len links.new ≡ vec_len links.old }
{
    match look(alloc, links, target, host) {
        Ok(ids) => end_all(alloc, links, target, ids.get()),
        Err(stop) => Err(stop),
    }
}

/// Asks the target for the connections from the host over which keys may still come.
fn look<I: ByteIn + Drop, O: ByteOut + Drop>(
    alloc: Global,
    links: &mut Vec<Link<I, O>>,
    target: NodeId,
    host: &Text,
) -> Result<ClientIds, SettleStop>
    requires { target < vec_len links.old }
    ensures looks { Looks (Sends (record { gave = I.gave; took = O.took })) target host.now
        links.old.items result links.new.items }
    ensures count { vec_len links.new ≡ vec_len links.old }
{
    let Ok(words) = clients_words(alloc) else {
        return Err(stop_by(SettleFault::Memory));
    };
    match ask_text_at(alloc, links, target, &words, ReplyLimit::list()) {
        Ok(reply) => shown_by(alloc, target, host, &reply),
        Err(stop) => Err(stop),
    }
}

/// Those that the reply shows, which may be a long one.
fn shown_by(
    alloc: Global,
    target: NodeId,
    host: &Text,
    reply: &TextReply,
) -> Result<ClientIds, SettleStop>
    ensures { Shows target host.now (reply_of reply.now) result }
{
    match reply {
        TextReply::Text(text) => shown_in_text(alloc, target, host, text.as_slice()),
        TextReply::Other(reply) => shown_in(alloc, target, host, reply),
    }
}

/// Those that the reply shows.
fn shown_in(
    alloc: Global,
    target: NodeId,
    host: &Text,
    reply: &Reply,
) -> Result<ClientIds, SettleStop>
    ensures { Shows target host.now reply.now result }
{
    match reply {
        Reply::Bulk(text) => shown_in_text(alloc, target, host, text.get()),
        _ => Err(useless(alloc, target, reply)),
    }
}

/// Those that the text shows.
fn shown_in_text(
    alloc: Global,
    target: NodeId,
    host: &Text,
    text: &[u8],
) -> Result<ClientIds, SettleStop>
    ensures { ShowsIn target host.now text.now result }
{
    match late_ids_in(alloc, text, host.get()) {
        Ok(Some(ids)) => Ok(ids),
        Ok(None) => Err(stop_by(SettleFault::Strange(target))),
        Err(_) => Err(stop_by(SettleFault::Memory)),
    }
}

/// Ends these connections, one after the other. How many they are.
fn end_all<I: ByteIn + Drop, O: ByteOut + Drop>(
    alloc: Global,
    links: &mut Vec<Link<I, O>>,
    target: NodeId,
    ids: &[u64],
) -> Result<usize, SettleStop>
    requires { target < vec_len links.old }
    ensures ends { EndsAll (Sends (record { gave = I.gave; took = O.took })) target ids.now links.old.items
        result links.new.items }
    ensures count { vec_len links.new ≡ vec_len links.old }
{
    let mut rest = ids;
    while let [id, others @ ..] = rest {
        match end(alloc, links, target, *id) {
            Ok(()) => rest = others,
            Err(stop) => return Err(stop),
        }
    }
    Ok(ids.len())
}

/// Ends the connection. One that is gone already is none to end.
fn end<I: ByteIn + Drop, O: ByteOut + Drop>(
    alloc: Global,
    links: &mut Vec<Link<I, O>>,
    target: NodeId,
    id: u64,
) -> Result<(), SettleStop>
    requires { target < vec_len links.old }
    ensures ends { Ends (Sends (record { gave = I.gave; took = O.took })) target id links.old.items result
        links.new.items }
    ensures count { vec_len links.new ≡ vec_len links.old }
{
    let Ok(words) = kill_words(alloc, id) else {
        return Err(stop_by(SettleFault::Memory));
    };
    match ask_at(alloc, links, target, &words, ReplyLimit::line()) {
        Ok(reply) => accept(alloc, target, &reply, is_gone(&reply)),
        Err(stop) => Err(stop),
    }
}

/// Whether the reply to CLIENT KILL says that the connection is gone.
fn is_gone(reply: &Reply) -> bool
    ensures { result ≡ is_gone reply.now }
{
    match reply {
        Reply::Simple(text) => text.get() == b"OK".as_slice(),
        Reply::Number(_) => true,
        Reply::Error(text) => text.get().starts_with(b"ERR No such client"),
        _ => false,
    }
}
