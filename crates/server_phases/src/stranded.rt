//! Keys that lie at a node that does not own their slot, where no mark leads to them.
ghost use Rattle.std.specs.Prelude.{◌≡◌, ◌≤◌, ◌++◌, List, ℕ, MatchResult, OnOk, length};
ghost use Rattle.plan_language.specs.Texts.{line_text};
ghost use Rattle.plan_language.specs.declared.line.Line.TheVariants as planned;
ghost use Rattle.server_phases.specs.ServerPhases.{IsPhaseAt, ServerPhases, ShowsPhases};
ghost use Rattle.server_phases.specs.Stranded.{ArePut, AreStranded, IsNodeText, IsStrandedText, gathered_text};
ghost use Rattle.server_phases.specs.Stranded.{held_text, owned_text, stranded_text};
ghost use Rattle.server_phases.specs.Texts.{IsUncounted};
ghost use Rattle.server_phases.specs.declared.server_phase.ServerPhase.{ServerPhase as PhaseShown};

use crate::key_counts::KeyCounts;
use crate::phases::phase_at;
use crate::rests::REST_BATCH;
use crate::server_phase::ServerPhase;
use byte_texts::Memory;
use cluster_views::{ServerSurvey, SurveyFault};
use key_slots::{NodeId, SLOTS, Slot};
use plan_language::Line;
use survey_texts::{put, put_node, put_number};

/// Puts a line for each closed slot and each node beside its owner that holds keys of it, by slots and then by nodes,
/// ascending, as `slot 5: 3 keys at n1, and n0 owns it; a plan with 'move 5 from n0 to n1 by 10' brings them together`.
/// No client is answered by such keys, and no mark leads to them: CLUSTER SETSLOT STABLE leaves them so in mid-move,
/// and a move of the slot to where they are keeps them (the pages of CLUSTER SETSLOT and CLUSTER COUNTKEYSINSLOT). Each
/// of these nodes is asked for each of these slots, up to the first count that fails, whose fault is reported; out of
/// memory comes too. After a fault some of the lines may stand there.
pub fn put_stranded_lines<C: KeyCounts>(
    out: &mut Vec<u8>,
    survey: &ServerSurvey,
    counts: &mut C,
) -> Result<(), SurveyFault>
    ensures { MatchResult result
        (λ _. (phases : ServerPhases) → ShowsPhases survey.now phases
        → (text : List ℕ) × AreStranded C.counts (length survey.now.rows) phases 16384 counts.old text counts.new
        × (out.new.items ≡ out.old.items ++ text))
        (IsUncounted C.fails) }
{
    for number in 0..SLOTS as u16 {
        put_slot(out, survey, Slot::of(number), counts)?;
    }
    Ok(())
}

/// Puts the lines of the slot.
fn put_slot<C: KeyCounts>(
    out: &mut Vec<u8>,
    survey: &ServerSurvey,
    slot: Slot,
    counts: &mut C,
) -> Result<(), SurveyFault>
    ensures { MatchResult result
        (λ _. (p : PhaseShown) → IsPhaseAt survey.now slot p
        → (text : List ℕ) × IsStrandedText C.counts (length survey.now.rows) slot p counts.old text counts.new
        × (out.new.items ≡ out.old.items ++ text))
        (IsUncounted C.fails) }
{
    let nodes = survey.nodes();
    let phase = phase_at(survey, slot);
    put_closed(out, nodes, slot, &phase, counts)
}

/// Puts the lines of the slot, which is in this phase.
fn put_closed<C: KeyCounts>(
    out: &mut Vec<u8>,
    nodes: u8,
    slot: Slot,
    phase: &ServerPhase,
    counts: &mut C,
) -> Result<(), SurveyFault>
    requires { nodes ≤ 255 }
    ensures { MatchResult result
        (λ _. (text : List ℕ) × IsStrandedText C.counts nodes slot phase.now counts.old text counts.new
        × (out.new.items ≡ out.old.items ++ text))
        (IsUncounted C.fails) }
{
    match *phase {
        ServerPhase::Closed(owner) => put_nodes(out, nodes, slot, owner, counts),
        _ => Ok(()),
    }
}

/// Puts the lines of the slot, which has this owner.
fn put_nodes<C: KeyCounts>(
    out: &mut Vec<u8>,
    nodes: u8,
    slot: Slot,
    owner: NodeId,
    counts: &mut C,
) -> Result<(), SurveyFault>
    requires { nodes ≤ 255 }
    ensures { MatchResult result
        (λ _. (text : List ℕ) × ArePut (IsNodeText C.counts slot owner) nodes counts.old text counts.new
        × (out.new.items ≡ out.old.items ++ text))
        (IsUncounted C.fails) }
{
    for number in 0..nodes {
        put_at(out, slot, owner, NodeId::of(number), counts)?;
    }
    Ok(())
}

/// Puts the line of the node, if it is not the owner and holds keys.
fn put_at<C: KeyCounts>(
    out: &mut Vec<u8>,
    slot: Slot,
    owner: NodeId,
    node: NodeId,
    counts: &mut C,
) -> Result<(), SurveyFault>
    ensures { MatchResult result
        (λ _. (text : List ℕ) × IsNodeText C.counts slot owner node counts.old text counts.new
        × (out.new.items ≡ out.old.items ++ text))
        (IsUncounted C.fails) }
{
    if node == owner {
        return Ok(());
    }
    let keys = counts.keys(node, slot)?;
    put_line(out, slot, owner, node, keys)?;
    Ok(())
}

/// Puts the line of so many keys, if there are any.
fn put_line(
    out: &mut Vec<u8>,
    slot: Slot,
    owner: NodeId,
    node: NodeId,
    keys: u32,
) -> Result<(), Memory>
    ensures { OnOk result (out.new.items ≡ out.old.items ++ stranded_text slot owner node keys) }
{
    if keys == 0 {
        return Ok(());
    }
    put_held(out, slot, node, keys)?;
    put_owned(out, owner)?;
    put_gathered(out, slot, owner, node)
}

/// Puts how many keys lie where.
fn put_held(out: &mut Vec<u8>, slot: Slot, node: NodeId, keys: u32) -> Result<(), Memory>
    ensures { OnOk result (out.new.items ≡ out.old.items ++ held_text slot node keys) }
{
    put(out, b"slot ")?;
    put_number(out, u32::from(slot.get()))?;
    put(out, b": ")?;
    put_number(out, keys)?;
    put(out, b" keys at ")?;
    put_node(out, node)
}

/// Puts whose the slot is.
fn put_owned(out: &mut Vec<u8>, owner: NodeId) -> Result<(), Memory>
    ensures { OnOk result (out.new.items ≡ out.old.items ++ owned_text owner) }
{
    put(out, b", and ")?;
    put_node(out, owner)?;
    put(out, b" owns it; a plan with '")
}

/// Puts the line of a plan that takes the slot to the node with the keys, and what becomes of them.
fn put_gathered(out: &mut Vec<u8>, slot: Slot, owner: NodeId, node: NodeId) -> Result<(), Memory>
    ensures { OnOk result (out.new.items ≡ out.old.items ++ gathered_text slot owner node) }
{
    put_move(out, slot, owner, node)?;
    put(out, b"' brings them together")?;
    put(out, b"\n")
}

/// Puts the plan's line.
fn put_move(out: &mut Vec<u8>, slot: Slot, source: NodeId, target: NodeId) -> Result<(), Memory>
    ensures { OnOk result (out.new.items ≡ out.old.items ++ line_text (planned.Move slot slot source target 10)) }
{
    let line = Line::Move {
        first: slot,
        last: slot,
        source,
        target,
        batch: REST_BATCH,
    };
    let mut text = String::new(*out.allocator());
    write!(text, "{line}")?;
    put(out, text.as_bytes())
}
