//! The lines of open slots.
ghost use Rattle.std.specs.Prelude.{◌≡◌, ◌≤◌, ◌++◌, ◌∷◌, [], List, ℕ, MatchResult, OnOk, length};
ghost use Rattle.server_phases.specs.Faults.{strange_text};
ghost use Rattle.server_phases.specs.ServerPhases.{IsPhaseAt, ServerPhases, ShowsPhases};
ghost use Rattle.server_phases.specs.Texts.{AreLines, IsCounted, IsPhaseLine, IsSlotText, IsUncounted, course_text};
ghost use Rattle.server_phases.specs.Texts.{keys_text, source_text, target_text};
ghost use Rattle.server_phases.specs.declared.server_phase.ServerPhase.{ServerPhase as PhaseShown};

use crate::key_counts::KeyCounts;
use crate::phases::phase_at;
use crate::rests::put_rest;
use crate::server_phase::ServerPhase;
use crate::strange_slot::StrangeSlot;
use byte_texts::Memory;
use cluster_views::{ServerSurvey, SurveyFault};
use key_slots::{NodeId, SLOTS, Slot};
use survey_texts::{put, put_node, put_number};

/// Puts the lines of each open slot, ascending: its phase with the keys at both ends, as `slot 24 is migrating from n0
/// to n1: 51 keys at n0, 52 at n1`, and the commands that close it, in the words of plans and by 10 keys at a time, as
/// `rest of slot 24: setslot 24 node n1 at n0 / setslot 24 node n1 at n2`; or what keeps it from being in a phase, and
/// what to do by hand (the pages of CLUSTER COUNTKEYSINSLOT and CLUSTER SETSLOT). Keys are counted at the source and
/// then at the target, slot by slot, up to the first count that fails, whose fault is reported; out of memory comes
/// too. After a fault some of the lines may stand there.
pub fn put_phase_lines<C: KeyCounts>(
    out: &mut Vec<u8>,
    survey: &ServerSurvey,
    counts: &mut C,
) -> Result<(), SurveyFault>
    ensures { MatchResult result
        (λ _. (phases : ServerPhases) → ShowsPhases survey.now phases
        → (text : List ℕ) × AreLines C.counts (length survey.now.rows) phases 16384 counts.old text counts.new
        × (out.new.items ≡ out.old.items ++ text))
        (IsUncounted C.fails) }
{
    for number in 0..SLOTS as u16 {
        put_slot(out, survey, Slot::of(number), counts)?;
    }
    Ok(())
}

/// Puts the lines of the slot.
fn put_slot<C: KeyCounts>(
    out: &mut Vec<u8>,
    survey: &ServerSurvey,
    slot: Slot,
    counts: &mut C,
) -> Result<(), SurveyFault>
    ensures { MatchResult result
        (λ _. (p : PhaseShown) → IsPhaseAt survey.now slot p
        → (text : List ℕ) × IsSlotText C.counts (length survey.now.rows) slot p counts.old text counts.new
        × (out.new.items ≡ out.old.items ++ text))
        (IsUncounted C.fails) }
{
    let nodes = survey.nodes();
    let phase = phase_at(survey, slot);
    put_lines(out, nodes, slot, &phase, counts)
}

/// Puts the lines of the slot, which is in this phase.
fn put_lines<C: KeyCounts>(
    out: &mut Vec<u8>,
    nodes: u8,
    slot: Slot,
    phase: &ServerPhase,
    counts: &mut C,
) -> Result<(), SurveyFault>
    requires { nodes ≤ 255 }
    ensures { MatchResult result
        (λ _. (text : List ℕ) × IsSlotText C.counts nodes slot phase.now counts.old text counts.new
        × (out.new.items ≡ out.old.items ++ text))
        (IsUncounted C.fails) }
{
    put_phase(out, slot, phase, counts)?;
    put_rest(out, nodes, slot, phase)?;
    Ok(())
}

/// Puts the line of the phase.
fn put_phase<C: KeyCounts>(
    out: &mut Vec<u8>,
    slot: Slot,
    phase: &ServerPhase,
    counts: &mut C,
) -> Result<(), SurveyFault>
    ensures { MatchResult result
        (λ _. (line : List ℕ) × IsPhaseLine C.counts slot phase.now counts.old line counts.new
        × (out.new.items ≡ out.old.items ++ line))
        (IsUncounted C.fails) }
{
    match *phase {
        ServerPhase::Closed(_) => Ok(()),
        ServerPhase::Importing { source, target } => {
            put_counted(out, slot, b" is importing from ", source, target, counts)
        }
        ServerPhase::Migrating { source, target } => {
            put_counted(out, slot, b" is migrating from ", source, target, counts)
        }
        ServerPhase::Told { source, target } => {
            put_counted(out, slot, b" is told from ", source, target, counts)
        }
        ServerPhase::Strange(strangeness) => {
            put_strange(out, &StrangeSlot { slot, strangeness })?;
            Ok(())
        }
    }
}

/// Puts the line of a slot on its way, whose keys are counted at the source and then at the target.
fn put_counted<C: KeyCounts>(
    out: &mut Vec<u8>,
    slot: Slot,
    how: &[u8],
    source: NodeId,
    target: NodeId,
    counts: &mut C,
) -> Result<(), SurveyFault>
    ensures { MatchResult result
        (λ _. (line : List ℕ) × IsCounted C.counts slot how.now source target counts.old line counts.new
        × (out.new.items ≡ out.old.items ++ line))
        (IsUncounted C.fails) }
{
    let source_keys = counts.keys(source, slot)?;
    let target_keys = counts.keys(target, slot)?;
    put_line(out, slot, how, (source, source_keys), (target, target_keys))?;
    Ok(())
}

/// Puts the line of a slot on its way, with the keys at both ends.
fn put_line(
    out: &mut Vec<u8>,
    slot: Slot,
    how: &[u8],
    source: (NodeId, u32),
    target: (NodeId, u32),
) -> Result<(), Memory>
    ensures { OnOk result (out.new.items ≡ out.old.items
        ++ (course_text slot how.now source.0 target.0 ++ keys_text source.0 source.1 target.0 target.1)) }
{
    put_course(out, slot, how, source.0, target.0)?;
    put_source_keys(out, source.0, source.1)?;
    put_target_keys(out, target.0, target.1)
}

/// Puts the slot and both ends.
fn put_course(
    out: &mut Vec<u8>,
    slot: Slot,
    how: &[u8],
    source: NodeId,
    target: NodeId,
) -> Result<(), Memory>
    ensures { OnOk result (out.new.items ≡ out.old.items ++ course_text slot how.now source target) }
{
    put(out, b"slot ")?;
    put_number(out, u32::from(slot.get()))?;
    put(out, how)?;
    put_node(out, source)?;
    put(out, b" to ")?;
    put_node(out, target)
}

/// Puts the keys at the source.
fn put_source_keys(out: &mut Vec<u8>, source: NodeId, keys: u32) -> Result<(), Memory>
    ensures { OnOk result (out.new.items ≡ out.old.items ++ source_text source keys) }
{
    put(out, b": ")?;
    put_number(out, keys)?;
    put(out, b" keys at ")?;
    put_node(out, source)
}

/// Puts the keys at the target.
fn put_target_keys(out: &mut Vec<u8>, target: NodeId, keys: u32) -> Result<(), Memory>
    ensures { OnOk result (out.new.items ≡ out.old.items ++ target_text target keys) }
{
    put(out, b", ")?;
    put_number(out, keys)?;
    put(out, b" at ")?;
    put_node(out, target)?;
    put(out, b"\n")
}

/// Puts what keeps the slot from being in a phase, and what to do by hand.
fn put_strange(out: &mut Vec<u8>, strange: &StrangeSlot) -> Result<(), Memory>
    ensures { OnOk result
        (out.new.items ≡ out.old.items ++ (strange_text strange.now.slot strange.now.strangeness ++ 10 ∷ [])) }
{
    let mut text = String::new(*out.allocator());
    writeln!(text, "{strange}")?;
    put(out, text.as_bytes())
}
