//! Slots that are still to move: their targets hold none of their keys.
ghost use Rattle.std.specs.Prelude.{◌≡◌, IfErr, OnOk, length, true, vec_len};
ghost use Rattle.cluster_inspection.specs.Refusals.{IsRefusal};
ghost use Rattle.cluster_runs.specs.Targets.{AreSlotsEmpty, AreTargetsEmpty, IsLineEmpty, IsTargetEmpty};
ghost use Rattle.server_phases.specs.ServerPhases.{IsPhaseAt};
ghost use Rattle.server_phases.specs.declared.server_phase.ServerPhase.TheVariants.{Closed};
ghost use Rattle.server_settling.specs.Asking.{Sends};

use crate::settling::refuse_stranded;
use byte_streams::{ByteIn, ByteOut};
use cluster_inspection::Refusal;
use cluster_views::ServerSurvey;
use key_slots::{NodeId, Slot};
use plan_runner::Line;
use server_commands::Credentials;
use server_links::Link;
use server_phases::{ServerPhase, phase_at};
use std::alloc::Global;

/// Refuses lines of which a slot that is to move, and is closed at its source, has some of its keys at its target
/// already: its move would send them once more.
pub(crate) fn check_targets<I: ByteIn + Drop, O: ByteOut + Drop>(
    alloc: Global,
    links: &mut Vec<Link<I, O>>,
    survey: &ServerSurvey,
    login: &Option<Credentials>,
    lines: &[Line],
) -> Result<(), Refusal>
    requires { vec_len links.old ≡ length survey.now.rows }
    ensures empty { OnOk result
        (AreTargetsEmpty (Sends (record { gave = I.gave; took = O.took })) survey.now lines.now) }
    ensures count { vec_len links.new ≡ vec_len links.old }
    ensures refusal { IfErr result IsRefusal }
{
    let mut left = lines;
    while let [line, others @ ..] = left {
        check_line(alloc, links, survey, login, line)?;
        left = others;
    }
    Ok(())
}

/// Refuses one such line.
fn check_line<I: ByteIn + Drop, O: ByteOut + Drop>(
    alloc: Global,
    links: &mut Vec<Link<I, O>>,
    survey: &ServerSurvey,
    login: &Option<Credentials>,
    line: &Line,
) -> Result<(), Refusal>
    requires { vec_len links.old ≡ length survey.now.rows }
    ensures empty { OnOk result (IsLineEmpty (Sends (record { gave = I.gave; took = O.took })) survey.now line.now) }
    ensures count { vec_len links.new ≡ vec_len links.old }
    ensures refusal { IfErr result IsRefusal }
{
    match *line {
        Line::Move {
            first,
            last,
            source,
            target,
            ..
        } => check_slots(
            alloc,
            links,
            survey,
            login,
            (first, last),
            &(source, target),
        ),
        Line::Command(_) => Ok(()),
    }
}

/// Refuses such a slot of those from the first to the last one, which go from the source to the target.
fn check_slots<I: ByteIn + Drop, O: ByteOut + Drop>(
    alloc: Global,
    links: &mut Vec<Link<I, O>>,
    survey: &ServerSurvey,
    login: &Option<Credentials>,
    slots: (Slot, Slot),
    ends: &(NodeId, NodeId),
) -> Result<(), Refusal>
    requires { vec_len links.old ≡ length survey.now.rows }
    ensures empty { OnOk result
        (AreSlotsEmpty (Sends (record { gave = I.gave; took = O.took })) survey.now ends.now.0 ends.now.1
        slots.0 slots.1) }
    ensures count { vec_len links.new ≡ vec_len links.old }
    ensures refusal { IfErr result IsRefusal }
{
    let (first, last) = slots;
    for number in first.get()..last.get() + 1 {
        check_target(alloc, links, survey, login, Slot::of(number), ends)?;
    }
    Ok(())
}

/// Refuses one such slot.
fn check_target<I: ByteIn + Drop, O: ByteOut + Drop>(
    alloc: Global,
    links: &mut Vec<Link<I, O>>,
    survey: &ServerSurvey,
    login: &Option<Credentials>,
    slot: Slot,
    ends: &(NodeId, NodeId),
) -> Result<(), Refusal>
    requires { vec_len links.old ≡ length survey.now.rows }
    ensures empty { OnOk result
        (IsTargetEmpty (Sends (record { gave = I.gave; took = O.took })) survey.now ends.now.0 ends.now.1 slot) }
    ensures count { vec_len links.new ≡ vec_len links.old }
    ensures refusal { IfErr result IsRefusal }
{
    let (source, target) = *ends;
    if target.get() >= survey.nodes() {
        return Ok(());
    }
    if !is_closed_at(survey, slot, source) {
        return Ok(());
    }
    refuse_stranded(alloc, links, login, slot, source, target)
}

/// Whether the slot is closed at the node.
fn is_closed_at(survey: &ServerSurvey, slot: Slot, node: NodeId) -> bool
    ensures { IsPhaseAt survey.now slot (Closed node) → result ≡ true }
{
    match phase_at(survey, slot) {
        ServerPhase::Closed(owner) => owner == node,
        _ => false,
    }
}
