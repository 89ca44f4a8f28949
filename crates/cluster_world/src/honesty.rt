ghost use Rattle.std.specs.Prelude.{◌≡◌, ◌<◌, ◌≤◌, ◌||◌, length, IfOk, is_none, List};
ghost use Rattle.slot_marks.specs.Verdicts.{first_slot, is_cross};
ghost use Rattle.cluster_world.specs.Earning.{was_asked, IsFirstDishonest};
ghost use Rattle.cluster_world.specs.Imported.{since_in, one_slot, AreErrorsOf, ArePlacesOf};
ghost use Rattle.cluster_world.specs.WorldView.{new_world};
ghost use Rattle.cluster_world.specs.Searching.{is_earned};
ghost use Rattle.cluster_world.specs.Steps.{action_of, node_of, Run};
ghost use Rattle.cluster_world.specs.Trails.{IsRunFromOpening, opening};
ghost use Rattle.cluster_world.specs.Worlds.{World};
ghost use Rattle.cluster_world.specs.declared.event.Event.{Event};

use crate::answered_errors::AnsweredErrors;
use crate::event::Event;
use crate::import_marks::ImportMarks;
use crate::trail::Trail;
use byte_texts::{Memory, Text};
use cluster_node::ask_text;
use key_slots::{NodeId, OwnerTable, Slot, has_other_slot, slot_of};
use std::alloc::Global;

/// The slot of the keys, where all have one.
fn slot_if_one(keys: &[Text]) -> Option<Slot>
    requires { 0 < length keys.now }
    ensures { result ≡ one_slot keys.now }
{
    let slot = slot_of(keys[0].get());
    if has_other_slot(slot, keys) {
        None
    } else {
        Some(slot)
    }
}

/// Whether an ASKING of these keys at the node is earned by the events before it.
fn was_asked(
    alloc: Global,
    base_port: u16,
    marks: &ImportMarks,
    errors: &AnsweredErrors,
    node: NodeId,
    keys: &[Text],
) -> Result<bool, Memory>
    requires port { base_port ≤ 65528 }
    requires there { node < length marks.now }
    requires some { 0 < length keys.now }
    ensures { IfOk result
        (λ b. (past : List Event) → AreErrorsOf errors.now past → ArePlacesOf marks.now past
        → b
        ≡ (is_cross keys.now || is_none (since_in marks.now node (first_slot keys.now))
        || was_asked base_port past keys.now node)) }
{
    let Some(slot) = slot_if_one(keys) else {
        return Ok(true);
    };
    let Some(since) = marks.since(node, slot) else {
        return Ok(true);
    };
    let text = ask_text(alloc, base_port, slot, node)?;
    Ok(errors.has_after(alloc, text.get(), keys, since)?)
}

/// Whether the event is earned by those before it, with these importing marks and these errors so far.
fn is_earned(
    alloc: Global,
    base_port: u16,
    marks: &ImportMarks,
    errors: &AnsweredErrors,
    event: &Event,
) -> Result<bool, Memory>
    requires port { base_port ≤ 65528 }
    requires there { node_of (action_of event.now) < length marks.now }
    ensures { IfOk result
        (λ b. (past : List Event) → AreErrorsOf errors.now past → ArePlacesOf marks.now past
        → b ≡ is_earned base_port (since_in marks.now) past event.now) }
{
    match event {
        Event::Client {
            node,
            asking,
            command,
            ..
        } => {
            if *asking {
                was_asked(alloc, base_port, marks, errors, *node, command.keys())
            } else {
                Ok(true)
            }
        }
        _ => Ok(true),
    }
}

/// HonestyExact: the place, from 0, of the first event that is not honest: the first command sent with ASKING to a node
/// that has an importing mark of its slot, where no command with the same keys was answered with an ASK that names this
/// node since the last SETSLOT IMPORTING of the slot was accepted there. None where the trail is honest. The time,
/// measured and not proved, is near linear in the trail.
pub fn first_dishonest(alloc: Global, trail: &Trail) -> Result<Option<usize>, Memory>
    requires { IsRunFromOpening trail.now }
    ensures { IfOk result (λ o. IsFirstDishonest (opening trail.now) trail.now.events o) }
{
    first_unearned(alloc, trail.owners(), trail.base_port(), trail.events())
}

/// The place of the first event that is not earned, in a run from nodes with this table that hold nothing.
fn first_unearned(
    alloc: Global,
    owners: &OwnerTable,
    base_port: u16,
    events: &[Event],
) -> Result<Option<usize>, Memory>
    requires port { base_port ≤ 65528 }
    requires run { (last : World) × Run (new_world base_port owners.now.nodes owners.now.owners) events.now last }
    ensures { IfOk result (IsFirstDishonest (new_world base_port owners.now.nodes owners.now.owners) events.now) }
{
    let mut marks = ImportMarks::new(alloc, owners.nodes())?;
    let mut errors = AnsweredErrors::new(alloc);
    for place in 0..events.len() {
        let event = &events[place];
        if !is_earned(alloc, base_port, &marks, &errors, event)? {
            return Ok(Some(place));
        }
        marks.note(place, event);
        errors.note(alloc, place, event)?;
    }
    Ok(None)
}
