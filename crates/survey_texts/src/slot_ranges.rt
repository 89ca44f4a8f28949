//! The ranges of a master's slots.
ghost use Rattle.std.specs.Prelude.{◌≡◌, ◌<◌, ◌++◌, OnOk, length};
ghost use Rattle.std.specs.List.{flat_map};
ghost use Rattle.cluster_views.specs.Numbers.{numbers_to};
ghost use Rattle.survey_texts.specs.Details.{is_own_before, is_own_next, range_part, slots_line};
ghost use Rattle.survey_texts.specs.Texts.{is_own};

use crate::printing::slots_of;
use crate::putting::{put, put_number};
use byte_texts::Memory;
use cluster_views::ServerSurvey;
use key_slots::{NodeId, SLOTS, Slot};

/// Puts the ranges of the slots that are the node's, as it tells itself: `  slots 0-5460 10923`. There is no line for a
/// node without slots.
pub fn put_slots_line(out: &mut Vec<u8>, survey: &ServerSurvey, node: NodeId) -> Result<(), Memory>
    requires { node < length survey.now.rows }
    ensures { OnOk result (out.new.items ≡ out.old.items ++ slots_line survey.now node) }
{
    if slots_of(survey, node) == 0 {
        return Ok(());
    }
    put(out, b"  slots")?;
    put_ranges(out, survey, node)?;
    put(out, b"\n")
}

/// Puts each range, with a space in front.
fn put_ranges(out: &mut Vec<u8>, survey: &ServerSurvey, node: NodeId) -> Result<(), Memory>
    requires { node < length survey.now.rows }
    ensures { OnOk result
        (out.new.items ≡ out.old.items ++ flat_map (range_part survey.now node) (numbers_to 16384)) }
{
    for number in 0..SLOTS as u16 {
        put_part(out, survey, node, Slot::of(number))?;
    }
    Ok(())
}

/// Puts the slot, if a range begins or ends with it.
fn put_part(
    out: &mut Vec<u8>,
    survey: &ServerSurvey,
    node: NodeId,
    slot: Slot,
) -> Result<(), Memory>
    requires { node < length survey.now.rows }
    ensures { OnOk result (out.new.items ≡ out.old.items ++ range_part survey.now node slot) }
{
    if !is_own(survey, node, slot) {
        return Ok(());
    }
    if !is_own_before(survey, node, slot) {
        put(out, b" ")?;
        return put_number(out, u32::from(slot.get()));
    }
    if is_own_next(survey, node, slot) {
        return Ok(());
    }
    put(out, b"-")?;
    put_number(out, u32::from(slot.get()))
}

/// Whether the slot is the node's.
fn is_own(survey: &ServerSurvey, node: NodeId, slot: Slot) -> bool
    requires { node < length survey.now.rows }
    ensures { result ≡ is_own survey.now node slot }
{
    survey.owner(node, slot) == node
}

/// Whether there is a slot before it, which is the node's, too.
fn is_own_before(survey: &ServerSurvey, node: NodeId, slot: Slot) -> bool
    requires { node < length survey.now.rows }
    ensures { result ≡ is_own_before survey.now node slot }
{
    let number = slot.get();
    number > 0 && is_own(survey, node, Slot::of(number - 1))
}

/// Whether there is a slot after it, which is the node's, too.
fn is_own_next(survey: &ServerSurvey, node: NodeId, slot: Slot) -> bool
    requires { node < length survey.now.rows }
    ensures { result ≡ is_own_next survey.now node slot }
{
    let next = slot.get() + 1;
    next < SLOTS as u16 && is_own(survey, node, Slot::of(next))
}
