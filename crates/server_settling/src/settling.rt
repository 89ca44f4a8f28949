ghost use Rattle.std.specs.Prelude.{◌≡◌, ◌≢◌, ◌<◌, length, vec_len};
ghost use Rattle.server_settling.specs.Asking.{Sends};
ghost use Rattle.server_settling.specs.Settling.{Overwrites, Replaces, Settles, SettlesMarked};

use crate::copying::copy_all;
use crate::fault::SettleFault;
use crate::listing::{Held, held_keys};
use crate::marking::mark;
use crate::quieting::quiet;
use crate::setup::{OpenSlot, SettleSetup};
use crate::stop::{SettleStop, stop_by};
use byte_streams::{ByteIn, ByteOut};
use redis_servers::Pause;
use server_links::Link;
use std::alloc::Global;

/// What was found of an open slot.
#[derive(Clone, Copy, Debug, PartialEq, Eq)]
pub struct Settled {
    /// How many connections were ended at the target.
    pub ended: u32,
    /// How many keys both nodes held. The source's are at the target now.
    pub at_both: u32,
    /// How many keys the target holds alone: keys that moved, or late copies of keys that clients deleted at the source
    /// meanwhile. They can't be told apart.
    pub at_target_alone: u32,
}

/// Settles an open slot, after a MIGRATE whose answer was an error or did not come, or which was cut short. The source
/// has to have a migrating mark of the slot, and the target an importing mark: else clients would miss what is sent.
///
/// First the target is told once more that it imports the slot (CLUSTER SETSLOT): at Valkey that goes to its replicas
/// before, so that none lacks the mark which was away when the target was told. While they are too slow for it
/// (NOREPLICAS), it is told again, as long as a MIGRATE may take.
///
/// Then the target is asked (CLIENT LIST), again and again with a pause in between, for connections from the source's
/// host over which keys may still come, and these are ended (CLIENT KILL), until it has shown none twice in a row. What
/// no longer stands open can bring no key. A client of that host that shows the same is ended too, and connects again.
///
/// After that the slot's keys are listed at the source and at the target (CLUSTER COUNTKEYSINSLOT and GETKEYSINSLOT).
/// Of a key that both hold the target's copy is stale, since the source owns the slot, and gained no key of it since
/// the marks stand: exactly these keys go from the source to the target once more (MIGRATE with REPLACE). Nothing is
/// deleted otherwise.
///
/// A connection is known by its address: the source has to reach the target from the host that the book gives, with no
/// address translated in between. A server's list of connections may have at most 67,108,864 bytes, which are some
/// 190,000 connections; a longer one is no answer.
///
/// The fault is Memory where an allocation fails, NoAnswer where a connection is gone or its reply is late, NoReply
/// where what came is no reply, TooLong where it is longer than any to the request, Strange where a reply is none to
/// the request, Refused where it is an error, and Restless where connections are still shown after 100 looks or when
/// the pause says that its time is over.
pub fn settle<I: ByteIn + Drop, O: ByteOut + Drop, P: Pause>(
    alloc: Global,
    links: &mut Vec<Link<I, O>>,
    pause: &mut P,
    setup: &SettleSetup,
    open: &OpenSlot,
) -> Result<Settled, SettleStop>
    requires links { vec_len links.old ≡ length setup.now.book }
    requires source { open.now.source < length setup.now.book }
    requires target { open.now.target < length setup.now.book }
    requires other { open.now.source ≢ open.now.target }
    ensures settles { Settles (Sends (record { gave = I.gave; took = O.took })) setup.now open.now
        links.old.items result links.new.items }
    ensures count { vec_len links.new ≡ vec_len links.old }
{
    match mark(alloc, links, setup, open) {
        Ok(()) => settle_marked(alloc, links, pause, setup, open),
        Err(stop) => Err(stop),
    }
}

/// Settles the slot, whose target has its mark.
fn settle_marked<I: ByteIn + Drop, O: ByteOut + Drop, P: Pause>(
    alloc: Global,
    links: &mut Vec<Link<I, O>>,
    pause: &mut P,
    setup: &SettleSetup,
    open: &OpenSlot,
) -> Result<Settled, SettleStop>
    requires links { vec_len links.old ≡ length setup.now.book }
    requires source { open.now.source < length setup.now.book }
    requires target { open.now.target < length setup.now.book }
    ensures settles { SettlesMarked (Sends (record { gave = I.gave; took = O.took })) setup.now open.now
        links.old.items result links.new.items }
    ensures count { vec_len links.new ≡ vec_len links.old }
{
    let host = &setup.book.server(open.source).host;
    match quiet(alloc, links, pause, open.target, host) {
        Ok(ended) => overwrite(alloc, links, setup, open, ended),
        Err(stop) => Err(stop),
    }
}

/// Finds the keys that both nodes hold, and sends them once more.
fn overwrite<I: ByteIn + Drop, O: ByteOut + Drop>(
    alloc: Global,
    links: &mut Vec<Link<I, O>>,
    setup: &SettleSetup,
    open: &OpenSlot,
    ended: u32,
) -> Result<Settled, SettleStop>
    requires links { vec_len links.old ≡ length setup.now.book }
    requires source { open.now.source < length setup.now.book }
    requires target { open.now.target < length setup.now.book }
    ensures overwrites { Overwrites (Sends (record { gave = I.gave; took = O.took })) setup.now open.now ended
        links.old.items result links.new.items }
    ensures count { vec_len links.new ≡ vec_len links.old }
{
    match held_keys(alloc, links, open) {
        Ok(held) => replace(alloc, links, setup, open, &held, ended),
        Err(stop) => Err(stop),
    }
}

/// Sends the keys that both nodes hold from the source to the target.
fn replace<I: ByteIn + Drop, O: ByteOut + Drop>(
    alloc: Global,
    links: &mut Vec<Link<I, O>>,
    setup: &SettleSetup,
    open: &OpenSlot,
    held: &Held,
    ended: u32,
) -> Result<Settled, SettleStop>
    requires links { vec_len links.old ≡ length setup.now.book }
    requires source { open.now.source < length setup.now.book }
    requires target { open.now.target < length setup.now.book }
    ensures replaces { Replaces (Sends (record { gave = I.gave; took = O.took })) setup.now open.now held.now ended
        links.old.items result links.new.items }
    ensures count { vec_len links.new ≡ vec_len links.old }
{
    let Ok(shared) = held.at_source.shared_with(alloc, &held.at_target) else {
        return Err(stop_by(SettleFault::Memory));
    };
    match copy_all(alloc, links, setup, open, shared.get()) {
        Ok(()) => Ok(Settled {
            ended,
            at_both: shared.len() as u32,
            at_target_alone: held.at_target.count_without(&held.at_source),
        }),
        Err(stop) => Err(stop),
    }
}
