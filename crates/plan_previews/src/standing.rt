//! What is there to be drawn.
ghost use Rattle.std.specs.Prelude.{◌≡◌, ◌<◌, ◌++◌, ◌∷◌, [], IfOk, OnOk, length};
ghost use Rattle.std.specs.List.{All};
ghost use Rattle.plan_outlines.specs.Changes.{change_ranges};
ghost use Rattle.plan_outlines.specs.Nodes.{changes_of_nodes};
ghost use Rattle.plan_drawings.specs.Now.{now_text};
ghost use Rattle.server_phases.specs.Faults.{strange_text};
ghost use Rattle.server_phases.specs.ServerPhases.{IsPhaseAt};
ghost use Rattle.server_phases.specs.declared.server_phase.ServerPhase.{ServerPhase as PhaseShown};
ghost use Rattle.plan_previews.specs.Standing.{AreOpenSlots, AreStrangeLines, IsSeenIn, open_at, strange_line};

use byte_texts::Memory;
use cluster_views::ServerSurvey;
use key_slots::{NodeId, SLOTS, Slot};
use plan_changes::owners_before;
use plan_drawings::{OpenSlot, now_drawing};
use plan_outlines::{node_changes, range_changes};
use server_phases::{ServerPhase, StrangeSlot, phase_at};
use std::alloc::Global;

/// What is there to be drawn, and to be told beside it.
#[derive(Drop)]
pub struct Seen {
    /// The picture of the owners that n0 tells, and of the slots that stand open.
    pub picture: Vec<u8>,
    /// A line for each slot that is in no phase.
    pub strange: Vec<u8>,
}

/// What the survey shows.
pub fn seen_in(alloc: Global, survey: &ServerSurvey) -> Result<Seen, Memory>
    ensures { IfOk result (IsSeenIn survey.now) }
{
    let _nodes = survey.nodes();
    let table = survey.owners(NodeId::of(0));
    let nodes = table.nodes();
    let owners = owners_before(alloc, table)?;
    let slots = open_slots_in(alloc, survey)?;
    let picture = picture_of(alloc, nodes, owners.as_slice(), slots.as_slice())?;
    let strange = strange_lines(alloc, survey)?;
    Ok(Seen { picture, strange })
}

/// The picture of these owners, with the slots that stand open.
fn picture_of(
    alloc: Global,
    nodes: u8,
    owners: &[NodeId],
    slots: &[OpenSlot],
) -> Result<Vec<u8>, Memory>
    requires width { length owners.now ≡ 16384 }
    requires named { All (λ n. n < nodes) owners.now }
    ensures { IfOk result (λ t. t.items ≡ now_text (change_ranges owners.now owners.now)
        (changes_of_nodes nodes owners.now owners.now) slots.now) }
{
    let ranges = range_changes(alloc, owners, owners)?;
    let changes = node_changes(alloc, nodes, owners, owners)?;
    now_drawing(alloc, ranges.as_slice(), changes.as_slice(), slots)
}

/// The slots that stand open, ascending.
fn open_slots_in(alloc: Global, survey: &ServerSurvey) -> Result<Vec<OpenSlot>, Memory>
    ensures { IfOk result (λ v. AreOpenSlots survey.now v.items) }
{
    let mut slots = Vec::new(alloc);
    for number in 0..SLOTS as u16 {
        put_open(&mut slots, survey, Slot::of(number))?;
    }
    Ok(slots)
}

/// Puts the slot at the end, if it stands open.
fn put_open(slots: &mut Vec<OpenSlot>, survey: &ServerSurvey, slot: Slot) -> Result<(), Memory>
    ensures { (p : PhaseShown) → IsPhaseAt survey.now slot p
        → OnOk result (slots.new.items ≡ slots.old.items ++ open_at slot p) }
{
    put_phase(slots, slot, &phase_at(survey, slot))
}

/// Puts the slot at the end, if this phase is an open one.
fn put_phase(slots: &mut Vec<OpenSlot>, slot: Slot, phase: &ServerPhase) -> Result<(), Memory>
    ensures { OnOk result (slots.new.items ≡ slots.old.items ++ open_at slot phase.now) }
{
    match *phase {
        ServerPhase::Importing { source, target }
        | ServerPhase::Migrating { source, target }
        | ServerPhase::Told { source, target } => put_slot(
            slots,
            OpenSlot {
                slot,
                source,
                target,
            },
        ),
        ServerPhase::Closed(_) | ServerPhase::Strange(_) => Ok(()),
    }
}

fn put_slot(slots: &mut Vec<OpenSlot>, slot: OpenSlot) -> Result<(), Memory>
    ensures { OnOk result (slots.new.items ≡ slots.old.items ++ slot ∷ []) }
{
    slots.push(slot)?;
    Ok(())
}

/// A line for each slot that is in no phase, ascending.
fn strange_lines(alloc: Global, survey: &ServerSurvey) -> Result<Vec<u8>, Memory>
    ensures { IfOk result (λ t. AreStrangeLines survey.now t.items) }
{
    let mut lines = Vec::new(alloc);
    for number in 0..SLOTS as u16 {
        put_strange(&mut lines, survey, Slot::of(number))?;
    }
    Ok(lines)
}

/// Puts the line of the slot, if it is in no phase.
fn put_strange(lines: &mut Vec<u8>, survey: &ServerSurvey, slot: Slot) -> Result<(), Memory>
    ensures { (p : PhaseShown) → IsPhaseAt survey.now slot p
        → OnOk result (lines.new.items ≡ lines.old.items ++ strange_line slot p) }
{
    put_strange_phase(lines, slot, &phase_at(survey, slot))
}

/// Puts the line of the slot, if this is no phase.
fn put_strange_phase(lines: &mut Vec<u8>, slot: Slot, phase: &ServerPhase) -> Result<(), Memory>
    ensures { OnOk result (lines.new.items ≡ lines.old.items ++ strange_line slot phase.now) }
{
    match *phase {
        ServerPhase::Strange(strangeness) => { put_line(lines, &StrangeSlot { slot, strangeness }) }
        _ => Ok(()),
    }
}

fn put_line(lines: &mut Vec<u8>, strange: &StrangeSlot) -> Result<(), Memory>
    ensures { OnOk result (lines.new.items
        ≡ lines.old.items ++ (strange_text strange.now.slot strange.now.strangeness ++ 10 ∷ [])) }
{
    let text = format!(in *lines.allocator(); "{strange}")?;
    lines.extend_from_slice(text.as_bytes())?;
    lines.push(b'\n')?;
    Ok(())
}
