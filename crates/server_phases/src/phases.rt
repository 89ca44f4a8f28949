//! In which phase a slot is.
ghost use Rattle.std.specs.Prelude.{◌≡◌, ◌↔◌, ◌<◌, ◌⊎◌, ℕ, None, Some, IsTrue, MatchOption, length};
ghost use Rattle.cluster_admin.specs.Phases.{AreTwo, IsPhase, comes_in, goes_in, owner_in};
ghost use Rattle.cluster_admin.specs.Surveys.{HasPhaseIn, IsSaid, NoneAt, StandsIn, importing_at, migrating_at};
ghost use Rattle.server_phases.specs.ServerPhases.{AreClosedBetween, AreOthersLeft, IsClosedAt, IsNextOpen};
ghost use Rattle.server_phases.specs.ServerPhases.{IsOrdinary, IsPhaseAt, IsTold, IsToldAt, modelled};
ghost use Rattle.server_phases.specs.declared.server_phase.ServerPhase.{ServerPhase as PhaseShown};

use crate::looking::{first_coming, first_going, owner_beside};
use crate::server_phase::ServerPhase;
use crate::strange::strangeness;
use cluster_views::ServerSurvey;
use key_slots::{NodeId, SLOTS, Slot};

/// The phase of the slot as the servers show it. Takes no memory, and looks at each node a few times (the page of
/// CLUSTER SETSLOT, "Redis Cluster live resharding explained").
pub fn phase_at(survey: &ServerSurvey, slot: Slot) -> ServerPhase
    ensures is { IsPhaseAt survey.now slot result }
    ensures only { (p : PhaseShown) → IsPhaseAt survey.now slot p → p ≡ result }
{
    let phase = likely_phase(survey, slot);
    if is_in(survey, slot, &phase) {
        phase
    } else {
        ServerPhase::Strange(strangeness(survey, slot))
    }
}

/// The lowest slot from this one on that is not closed, if there is one. Takes no memory.
pub fn next_open(survey: &ServerSurvey, from: Slot) -> Option<Slot>
    ensures { MatchOption result (AreClosedBetween survey.now from 16384) (IsNextOpen survey.now from) }
{
    for number in from.get()..SLOTS as u16 {
        let slot = Slot::of(number);
        if !is_closed(survey, slot) {
            return Some(slot);
        }
    }
    None
}

/// Whether all nodes tell one owner of the slot, and no mark stands.
fn is_closed(survey: &ServerSurvey, slot: Slot) -> bool
    ensures { IsTrue result ↔ IsClosedAt survey.now slot }
{
    matches!(phase_at(survey, slot), ServerPhase::Closed(_))
}

/// The only phase that the slot can be in but for strange ones.
#[tactic(auto, using(crate::proofs::Likely::likely_marked))]
fn likely_phase(survey: &ServerSurvey, slot: Slot) -> ServerPhase
    ensures { (p : PhaseShown) → IsOrdinary survey.now slot p → p ≡ result }
{
    match first_going(survey, slot) {
        None => match first_coming(survey, slot) {
            None => likely_unmarked(survey, slot),
            Some((target, source)) => ServerPhase::Importing { source, target },
        },
        Some((source, target)) => match first_coming(survey, slot) {
            None => ServerPhase::Told { source, target },
            Some(_) => ServerPhase::Migrating { source, target },
        },
    }
}

/// The only phase that a slot without marks can be in. Where the nodes do not agree, both that are told to own the slot
/// tell the same one, which is the target.
fn likely_unmarked(survey: &ServerSurvey, slot: Slot) -> ServerPhase
    requires goes { NoneAt (length survey.now.rows) (λ n. migrating_at survey.now n slot) }
    requires comes { NoneAt (length survey.now.rows) (λ n. importing_at survey.now n slot) }
    ensures { (p : PhaseShown) → IsOrdinary survey.now slot p → p ≡ result }
{
    let _nodes = survey.nodes();
    let first = survey.owner(NodeId::of(0), slot);
    let target = survey.owner(first, slot);
    match owner_beside(survey, slot, target) {
        None => ServerPhase::Closed(target),
        Some(source) => ServerPhase::Told { source, target },
    }
}

/// Whether the slot is in this phase, which is no strange one.
fn is_in(survey: &ServerSurvey, slot: Slot, phase: &ServerPhase) -> bool
    ensures { IsTrue result ↔ IsOrdinary survey.now slot phase.now }
{
    match *phase {
        ServerPhase::Told { source, target } => is_told(survey, slot, source, target),
        ServerPhase::Strange(_) => false,
        _ => is_modelled(survey, slot, phase),
    }
}

/// Whether the slot is in the phase of the model.
fn is_modelled(survey: &ServerSurvey, slot: Slot, phase: &ServerPhase) -> bool
    ensures { IsTrue result ↔ HasPhaseIn survey.now slot (modelled phase.now) }
{
    if !may_be(survey, phase) {
        return false;
    }
    for number in 0..survey.nodes() {
        if !stands(survey, NodeId::of(number), slot, phase) {
            return false;
        }
    }
    true
}

/// Whether there may be this phase among these nodes.
fn may_be(survey: &ServerSurvey, phase: &ServerPhase) -> bool
    ensures { IsTrue result ↔ IsPhase (length survey.now.rows) (modelled phase.now) }
{
    let nodes = survey.nodes();
    match *phase {
        ServerPhase::Closed(owner) => owner.get() < nodes,
        ServerPhase::Importing { source, target } => are_two(nodes, source, target),
        ServerPhase::Migrating { source, target } => are_two(nodes, source, target),
        ServerPhase::Told { source, target } => are_two(nodes, source, target),
        ServerPhase::Strange(_) => true,
    }
}

/// Whether these are two of so many nodes.
fn are_two(nodes: u8, source: NodeId, target: NodeId) -> bool
    ensures { IsTrue result ↔ AreTwo nodes source target }
{
    source != target && source.get() < nodes && target.get() < nodes
}

/// Whether what the node tells of the slot, and its marks, are what the phase of the model wants.
fn stands(survey: &ServerSurvey, node: NodeId, slot: Slot, phase: &ServerPhase) -> bool
    requires { node < length survey.now.rows }
    ensures { IsTrue result ↔ StandsIn survey.now slot (modelled phase.now) node }
{
    survey.owner(node, slot) == owner_by(node, phase)
        && survey.migrating(node, slot) == goes_by(node, phase)
        && survey.importing(node, slot) == comes_by(node, phase)
}

/// The owner that the node tells in the phase of the model.
fn owner_by(node: NodeId, phase: &ServerPhase) -> NodeId
    ensures { result ≡ owner_in (modelled phase.now) node }
{
    match *phase {
        ServerPhase::Closed(owner) => owner,
        ServerPhase::Importing { source, .. } => source,
        ServerPhase::Migrating { source, .. } => source,
        ServerPhase::Told { source, target } => { if node == target { target } else { source } }
        ServerPhase::Strange(_) => NodeId::of(0),
    }
}

/// The node's migrating mark in the phase of the model.
pub(crate) fn goes_by(node: NodeId, phase: &ServerPhase) -> Option<NodeId>
    ensures { result ≡ goes_in (modelled phase.now) node }
{
    match *phase {
        ServerPhase::Migrating { source, target } if node == source => Some(target),
        ServerPhase::Told { source, target } if node == source => Some(target),
        _ => None,
    }
}

/// The node's importing mark in the phase of the model.
pub(crate) fn comes_by(node: NodeId, phase: &ServerPhase) -> Option<NodeId>
    ensures { result ≡ comes_in (modelled phase.now) node }
{
    match *phase {
        ServerPhase::Importing { source, target } if node == target => Some(source),
        ServerPhase::Migrating { source, target } if node == target => Some(source),
        _ => None,
    }
}

/// Whether the target was told, and somebody is still to be told.
fn is_told(survey: &ServerSurvey, slot: Slot, source: NodeId, target: NodeId) -> bool
    ensures { IsTrue result ↔ IsTold survey.now slot source target }
{
    if !are_two(survey.nodes(), source, target) {
        return false;
    }
    if survey.owner(target, slot) != target {
        return false;
    }
    if !is_left(survey, slot, source, target) {
        return false;
    }
    are_told(survey, slot, source, target)
}

/// Whether what each node tells and has is that of a slot whose target was told.
fn are_told(survey: &ServerSurvey, slot: Slot, source: NodeId, target: NodeId) -> bool
    ensures { IsTrue result
        ↔ ((n : ℕ) → n < length survey.now.rows → IsToldAt survey.now slot source target n) }
{
    for number in 0..survey.nodes() {
        if !is_told_at(survey, slot, source, target, NodeId::of(number)) {
            return false;
        }
    }
    true
}

/// Whether what the node tells and has is that of a slot whose target was told.
fn is_told_at(
    survey: &ServerSurvey,
    slot: Slot,
    source: NodeId,
    target: NodeId,
    node: NodeId,
) -> bool
    requires { node < length survey.now.rows }
    ensures { IsTrue result ↔ IsToldAt survey.now slot source target node }
{
    let owner = survey.owner(node, slot);
    if owner != source && owner != target {
        return false;
    }
    if node != source && survey.migrating(node, slot).is_some() {
        return false;
    }
    survey.importing(node, slot).is_none()
}

/// Whether the source has its mark, or knows the target while some node does not.
fn is_left(survey: &ServerSurvey, slot: Slot, source: NodeId, target: NodeId) -> bool
    requires { source < length survey.now.rows }
    ensures { IsTrue result
        ↔ ((migrating_at survey.now source slot ≡ Some target) ⊎ AreOthersLeft survey.now slot source target) }
{
    match survey.migrating(source, slot) {
        Some(node) => node == target,
        None => are_others_left(survey, slot, source, target),
    }
}

/// Whether the source, which has no mark, knows the target, while some node does not.
fn are_others_left(survey: &ServerSurvey, slot: Slot, source: NodeId, target: NodeId) -> bool
    requires node { source < length survey.now.rows }
    requires unmarked { migrating_at survey.now source slot ≡ None }
    ensures { IsTrue result ↔ AreOthersLeft survey.now slot source target }
{
    if survey.owner(source, slot) != target {
        return false;
    }
    is_said(survey, slot, source)
}

/// Whether some node tells that this one owns the slot.
fn is_said(survey: &ServerSurvey, slot: Slot, owner: NodeId) -> bool
    ensures { IsTrue result ↔ IsSaid survey.now slot owner }
{
    for number in 0..survey.nodes() {
        if survey.owner(NodeId::of(number), slot) == owner {
            return true;
        }
    }
    false
}
