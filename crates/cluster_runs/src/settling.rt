//! Open slots before a plan continues with them: each is settled.
ghost use Rattle.std.specs.Prelude.{◌≡◌, ◌<◌, IfErr, IfOk, Ok, OnOk, length, vec_len};
ghost use Rattle.cluster_inspection.specs.Refusals.{IsRefusal};
ghost use Rattle.cluster_runs.specs.Settling.{AreSettled, IsStopOf};
ghost use Rattle.server_settling.specs.Asking.{Sends};
ghost use Rattle.server_settling.specs.Opened.{ChecksEmpty, SettlesBelow, Writes};

use crate::patience::Patience;
use byte_streams::{ByteIn, ByteOut};
use cluster_inspection::{Refusal, refused};
use cluster_views::ServerSurvey;
use key_slots::{NodeId, Slot};
use server_commands::Credentials;
use server_links::Link;
use server_runs::Counts;
use server_settling::{OpenStop, SettleSetup, check_empty, settle_all};
use std::alloc::Global;
use std::time::Clock;

/// Settles all slots that are migrating, as [`settle_all`] does, and counts the open ones, and the nodes that were told
/// the owner of one. The lines of what was found go to `told`.
pub(crate) fn settle_open<H: Clock, I: ByteIn + Drop, O: ByteOut + Drop, E: ByteOut>(
    rt: &H,
    alloc: Global,
    links: &mut Vec<Link<I, O>>,
    survey: &ServerSurvey,
    setup: &SettleSetup,
    told: &mut E,
) -> Result<Counts, Refusal>
    requires links { vec_len links.old ≡ length setup.now.book }
    requires survey { length survey.now.rows ≡ length setup.now.book }
    ensures settled { IfOk result (AreSettled (SettlesBelow (Sends (record { gave = I.gave; took = O.took }))
        (Writes E.took E.failures) setup.now survey.now 16384 links.old.items told.old) links.new.items told.new) }
    ensures count { vec_len links.new ≡ vec_len links.old }
    ensures refusal { IfErr result IsRefusal }
{
    let mut pause = Patience::new(rt);
    match settle_all(alloc, links, &mut pause, survey, setup, told) {
        Ok(opened) => Ok(Counts::of_open(u64::from(opened.slots), u64::from(opened.told))),
        Err(stop) => Err(stopped_by(alloc, &setup.credentials, stop)?),
    }
}

/// Refuses a slot of which its target holds keys, though its source does not migrate it.
pub(crate) fn refuse_stranded<I: ByteIn + Drop, O: ByteOut + Drop>(
    alloc: Global,
    links: &mut Vec<Link<I, O>>,
    login: &Option<Credentials>,
    slot: Slot,
    source: NodeId,
    target: NodeId,
) -> Result<(), Refusal>
    requires { target < vec_len links.old }
    ensures empty { OnOk result
        (ChecksEmpty (Sends (record { gave = I.gave; took = O.took }))
        (record { slot = slot; source = source; target = target }) links.old.items (Ok tt) links.new.items) }
    ensures count { vec_len links.new ≡ vec_len links.old }
    ensures refusal { IfErr result IsRefusal }
{
    match check_empty(alloc, links, slot, source, target) {
        Ok(()) => Ok(()),
        Err(stop) => Err(stopped_by(alloc, login, stop)?),
    }
}

/// What is said of slots with which a plan can't continue.
fn stopped_by(
    alloc: Global,
    login: &Option<Credentials>,
    stop: OpenStop,
) -> Result<Refusal, Refusal>
    ensures stopped { IfOk result (IsStopOf login.now stop) }
    ensures told { IfOk result IsRefusal }
    ensures refusal { IfErr result IsRefusal }
{
    match stop {
        OpenStop::Memory => Ok(Refusal::Memory),
        stop => {
            let reason = stop.text(alloc, login)?;
            Ok(refused(alloc, reason.as_slice())?)
        }
    }
}
