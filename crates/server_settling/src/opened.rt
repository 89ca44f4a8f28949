//! All slots before a plan continues: each that is migrating is settled.
ghost use Rattle.std.specs.Prelude.{◌≡◌, ◌≢◌, ◌<◌, ◌∷◌, ◌++◌, [], Err, IfOk, MatchResult, Ok, length, vec_len};
ghost use Rattle.server_phases.specs.ServerPhases.{IsPhaseAt};
ghost use Rattle.server_phases.specs.declared.server_phase.ServerPhase.{ServerPhase as PhaseShown};
ghost use Rattle.server_settling.specs.Asking.{Sends};
ghost use Rattle.server_settling.specs.Opened.{ChecksEmpty, HasEnds, IsEmptyBy, SettlesBelow, SettlesOne, StopsBelow};
ghost use Rattle.server_settling.specs.OpenStops.{settled_text};
ghost use Rattle.server_settling.specs.Opened.{TellsSettled, Treats, Writes, opened_with};

use crate::listing::count_at;
use crate::open_stop::{OpenStop, uncounted, unsettled};
use crate::settled_slot::SettledSlot;
use crate::settling::settle;
use crate::setup::{OpenSlot, SettleSetup};
use crate::stop::SettleStop;
use crate::stranded::Stranded;
use byte_streams::{ByteIn, ByteOut, write_whole};
use byte_texts::Memory;
use cluster_views::ServerSurvey;
use key_slots::{NodeId, SLOTS, Slot};
use redis_servers::Pause;
use server_links::Link;
use server_phases::{ServerPhase, phase_at};
use std::alloc::Global;
use std::fmt::Write;

/// How many slots are open.
#[derive(Clone, Copy, Debug, PartialEq, Eq)]
pub struct Opened {
    /// All of them.
    pub slots: u16,
    /// Those whose target was told that the slot is its own.
    pub told: u16,
}

impl Opened {
    /// The slots so far, and one more in this phase.
    fn with(self, phase: &ServerPhase) -> Self
        requires slots { self.slots < 16384 }
        requires told { self.told < 16384 }
        ensures { result ≡ opened_with phase.now self }
    {
        match *phase {
            ServerPhase::Closed(_) | ServerPhase::Strange(_) => self,
            ServerPhase::Importing { .. } | ServerPhase::Migrating { .. } => Self {
                slots: self.slots + 1,
                ..self
            },
            ServerPhase::Told { .. } => Self {
                slots: self.slots + 1,
                told: self.told + 1,
            },
        }
    }
}

/// Settles all slots that are migrating, ascending, each as [`settle`] does, and writes a line of what was found of it.
/// How many slots are open.
///
/// A slot that its target imports, and its source does not migrate, has no keys at the target: its rest takes the mark
/// back, which would hide them. Where it has some, it is refused, with what to do.
///
/// At the first slot that can't be settled, or is refused, the slots below it are settled, and those above it are as
/// they were. A line that can't be written is left out, and does not stop the others.
pub fn settle_all<I: ByteIn + Drop, O: ByteOut + Drop, P: Pause, E: ByteOut>(
    alloc: Global,
    links: &mut Vec<Link<I, O>>,
    pause: &mut P,
    survey: &ServerSurvey,
    setup: &SettleSetup,
    errors: &mut E,
) -> Result<Opened, OpenStop>
    requires links { vec_len links.old ≡ length setup.now.book }
    requires survey { length survey.now.rows ≡ length setup.now.book }
    ensures settles { MatchResult result
        (λ opened. SettlesBelow (Sends (record { gave = I.gave; took = O.took })) (Writes E.took E.failures)
        setup.now survey.now 16384 links.old.items errors.old opened links.new.items errors.new)
        (λ e. StopsBelow (Sends (record { gave = I.gave; took = O.took })) (Writes E.took E.failures)
        setup.now survey.now 16384 links.old.items errors.old e links.new.items errors.new) }
    ensures count { vec_len links.new ≡ vec_len links.old }
{
    let mut opened = Opened { slots: 0, told: 0 };
    for number in 0..SLOTS as u16 {
        match settle_slot(alloc, links, pause, survey, setup, Slot::of(number), errors) {
            Ok(phase) => opened = opened.with(&phase),
            Err(stop) => return Err(stop),
        }
    }
    Ok(opened)
}

/// Does what the slot's phase asks for, and gives the phase.
fn settle_slot<I: ByteIn + Drop, O: ByteOut + Drop, P: Pause, E: ByteOut>(
    alloc: Global,
    links: &mut Vec<Link<I, O>>,
    pause: &mut P,
    survey: &ServerSurvey,
    setup: &SettleSetup,
    slot: Slot,
    errors: &mut E,
) -> Result<ServerPhase, OpenStop>
    requires links { vec_len links.old ≡ length setup.now.book }
    requires survey { length survey.now.rows ≡ length setup.now.book }
    ensures treats { MatchResult result
        (λ p. IsPhaseAt survey.now slot p × Treats (Sends (record { gave = I.gave; took = O.took }))
        (Writes E.took E.failures) setup.now slot p links.old.items errors.old (Ok tt) links.new.items errors.new)
        (λ e. (p : PhaseShown) × IsPhaseAt survey.now slot p × Treats (Sends (record { gave = I.gave; took = O.took }))
        (Writes E.took E.failures) setup.now slot p links.old.items errors.old (Err e) links.new.items errors.new) }
    ensures count { vec_len links.new ≡ vec_len links.old }
{
    let phase = phase_at(survey, slot);
    match settle_in(alloc, links, pause, setup, slot, &phase, errors) {
        Ok(()) => Ok(phase),
        Err(stop) => Err(stop),
    }
}

/// Does what the phase of the slot asks for.
fn settle_in<I: ByteIn + Drop, O: ByteOut + Drop, P: Pause, E: ByteOut>(
    alloc: Global,
    links: &mut Vec<Link<I, O>>,
    pause: &mut P,
    setup: &SettleSetup,
    slot: Slot,
    phase: &ServerPhase,
    errors: &mut E,
) -> Result<(), OpenStop>
    requires links { vec_len links.old ≡ length setup.now.book }
    requires ends { HasEnds (length setup.now.book) phase.now }
    ensures treats { Treats (Sends (record { gave = I.gave; took = O.took })) (Writes E.took E.failures) setup.now
        slot phase.now links.old.items errors.old result links.new.items errors.new }
    ensures count { vec_len links.new ≡ vec_len links.old }
{
    match *phase {
        ServerPhase::Importing { source, target } => {
            check_empty(alloc, links, slot, source, target)
        }
        ServerPhase::Migrating { source, target } => {
            let open = OpenSlot {
                slot,
                source,
                target,
            };
            settle_one(alloc, links, pause, setup, &open, errors)
        }
        ServerPhase::Closed(_) | ServerPhase::Told { .. } | ServerPhase::Strange(_) => Ok(()),
    }
}

/// Settles the slot, and says what was found.
fn settle_one<I: ByteIn + Drop, O: ByteOut + Drop, P: Pause, E: ByteOut>(
    alloc: Global,
    links: &mut Vec<Link<I, O>>,
    pause: &mut P,
    setup: &SettleSetup,
    open: &OpenSlot,
    errors: &mut E,
) -> Result<(), OpenStop>
    requires links { vec_len links.old ≡ length setup.now.book }
    requires source { open.now.source < length setup.now.book }
    requires target { open.now.target < length setup.now.book }
    requires other { open.now.source ≢ open.now.target }
    ensures settles { SettlesOne (Sends (record { gave = I.gave; took = O.took })) (Writes E.took E.failures)
        setup.now open.now links.old.items errors.old result links.new.items errors.new }
    ensures count { vec_len links.new ≡ vec_len links.old }
{
    match settle(alloc, links, pause, setup, open) {
        Ok(found) => {
            let settled = SettledSlot {
                course: *open,
                found,
            };
            tell(alloc, settled, errors)
        }
        Err(stop) => Err(unsettled(open.slot, stop)),
    }
}

/// Writes what was found of a slot that is settled.
fn tell<E: ByteOut>(alloc: Global, settled: SettledSlot, errors: &mut E) -> Result<(), OpenStop>
    ensures { TellsSettled (Writes E.took E.failures) settled errors.old result errors.new }
{
    match line_of(alloc, settled) {
        Ok(line) => {
            write_line(errors, line.as_slice());
            Ok(())
        }
        Err(_) => Err(OpenStop::Memory),
    }
}

/// The line of a slot that is settled.
fn line_of(alloc: Global, settled: SettledSlot) -> Result<Vec<u8>, Memory>
    ensures { IfOk result (λ v. v.items ≡ settled_text settled.course settled.found ++ 10 ∷ []) }
{
    let mut line = String::new(alloc);
    writeln!(line, "{settled}")?;
    Ok(line.into_bytes())
}

/// Writes the line, as far as that can be done.
fn write_line<E: ByteOut>(errors: &mut E, line: &[u8])
    ensures { Writes E.took E.failures line.now errors.old errors.new }
{
    let _written = write_whole(errors, line);
}

/// Refuses a slot of which its target holds keys, though its source does not migrate it.
pub fn check_empty<I: ByteIn + Drop, O: ByteOut + Drop>(
    alloc: Global,
    links: &mut Vec<Link<I, O>>,
    slot: Slot,
    source: NodeId,
    target: NodeId,
) -> Result<(), OpenStop>
    requires { target < vec_len links.old }
    ensures empty { ChecksEmpty (Sends (record { gave = I.gave; took = O.took }))
        (record { slot = slot; source = source; target = target }) links.old.items result links.new.items }
    ensures count { vec_len links.new ≡ vec_len links.old }
{
    let count = count_at(alloc, links, target, slot);
    empty_by(slot, source, target, count)
}

/// Refuses a slot of which the target has this count of keys.
fn empty_by(
    slot: Slot,
    source: NodeId,
    target: NodeId,
    count: Result<u32, SettleStop>,
) -> Result<(), OpenStop>
    ensures { IsEmptyBy (record { slot = slot; source = source; target = target }) count result }
{
    match count {
        Ok(keys) => {
            if keys == 0 {
                return Ok(());
            }
            Err(OpenStop::Stranded(Stranded {
                slot,
                source,
                target,
                keys,
            }))
        }
        Err(stop) => Err(uncounted(stop)),
    }
}
