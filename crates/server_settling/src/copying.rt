//! Stale copies at the target are overwritten by the source's keys.
ghost use Rattle.std.specs.Prelude.{◌≡◌, ◌<◌, drop, length, take, vec_len};
ghost use Rattle.server_settling.specs.Asking.{Sends};
ghost use Rattle.server_settling.specs.Copying.{Copies, CopiesAll, is_done, is_ok_or_nokey};

use crate::asking::ask_at;
use crate::fault::SettleFault;
use crate::setup::{OpenSlot, SettleSetup};
use crate::stop::{SettleStop, accept, stop_by};
use crate::words::replace_words;
use byte_streams::{ByteIn, ByteOut};
use byte_texts::Text;
use resp2_wire::Reply;
use server_links::{Link, ReplyLimit};
use std::alloc::Global;

/// Sends the keys from the source to the target, whose copies they replace, in batches.
pub(crate) fn copy_all<I: ByteIn + Drop, O: ByteOut + Drop>(
    alloc: Global,
    links: &mut Vec<Link<I, O>>,
    setup: &SettleSetup,
    open: &OpenSlot,
    keys: &[Text],
) -> Result<(), SettleStop>
    requires source { open.now.source < vec_len links.old }
    requires target { open.now.target < length setup.now.book }
    ensures copies { CopiesAll (Sends (record { gave = I.gave; took = O.took })) setup.now open.now keys.now
        links.old.items result links.new.items }
    ensures count { vec_len links.new ≡ vec_len links.old }
{
    let mut rest = keys;
    while !rest.is_empty() {
        let (batch, others) = batch_of(rest, usize::from(setup.batch));
        match copy(alloc, links, setup, open, batch) {
            Ok(()) => rest = others,
            Err(stop) => return Err(stop),
        }
    }
    Ok(())
}

/// The first keys, so many at most, and the others.
fn batch_of(keys: &[Text], size: usize) -> (&[Text], &[Text])
    ensures first { result.0.now ≡ take size keys.now }
    ensures others { result.1.now ≡ drop size keys.now }
{
    keys.split_at(size.min(keys.len()))
}

/// Sends the keys from the source to the target.
fn copy<I: ByteIn + Drop, O: ByteOut + Drop>(
    alloc: Global,
    links: &mut Vec<Link<I, O>>,
    setup: &SettleSetup,
    open: &OpenSlot,
    keys: &[Text],
) -> Result<(), SettleStop>
    requires source { open.now.source < vec_len links.old }
    requires target { open.now.target < length setup.now.book }
    ensures copies { Copies (Sends (record { gave = I.gave; took = O.took })) setup.now open.now keys.now
        links.old.items result links.new.items }
    ensures count { vec_len links.new ≡ vec_len links.old }
{
    let target = setup.book.server(open.target);
    let Ok(words) = replace_words(alloc, target, setup.timeout, &setup.credentials, keys) else {
        return Err(stop_by(SettleFault::Memory));
    };
    match ask_at(alloc, links, open.source, &words, ReplyLimit::line()) {
        Ok(reply) => accept(alloc, open.source, &reply, is_done(&reply)),
        Err(stop) => Err(stop),
    }
}

/// Whether the reply to MIGRATE says that the keys, or those of them that are there, are at the target.
fn is_done(reply: &Reply) -> bool
    ensures { result ≡ is_done reply.now }
{
    match reply {
        Reply::Simple(text) => is_ok_or_nokey(text.get()),
        _ => false,
    }
}

fn is_ok_or_nokey(text: &[u8]) -> bool
    ensures { result ≡ is_ok_or_nokey text.now }
{
    if text == b"OK".as_slice() {
        true
    } else {
        text == b"NOKEY".as_slice()
    }
}
