//! What keeps a slot from being in any phase.
ghost use Rattle.std.specs.Prelude.{◌≡◌, ◌<◌, None, Some, length};
ghost use Rattle.cluster_views.specs.Surveying.{dissenter};
ghost use Rattle.server_phases.specs.Strange.{first_coming, first_going, one_going, one_mark_each, stray, stray_coming};
ghost use Rattle.server_phases.specs.Strange.{stray_going, strangeness, two_coming, two_going, two_owners};
ghost use Rattle.server_phases.specs.Strange.{with_slots};

use crate::looking::{dissenter, first_coming, first_going, next_coming, next_going};
use crate::route::Route;
use crate::strangeness::Strangeness;
use cluster_views::ServerSurvey;
use key_slots::{NodeId, Slot};
use survey_texts::slots_of;

/// What keeps the slot from being in any phase, if it is in none.
pub(crate) fn strangeness(survey: &ServerSurvey, slot: Slot) -> Strangeness
    ensures { result ≡ strangeness survey.now slot }
{
    match two_going(survey, slot) {
        Some((first, second)) => Strangeness::TwoMigrate { first, second },
        None => one_going(survey, slot),
    }
}

/// The two lowest nodes that migrate the slot, if there are two.
fn two_going(survey: &ServerSurvey, slot: Slot) -> Option<(NodeId, NodeId)>
    ensures { result ≡ two_going survey.now slot }
{
    let (first, _target) = first_going(survey, slot)?;
    let (second, _other) = next_going(survey, slot, first)?;
    Some((first, second))
}

/// The two lowest nodes that import the slot, if there are two.
fn two_coming(survey: &ServerSurvey, slot: Slot) -> Option<(NodeId, NodeId)>
    ensures { result ≡ two_coming survey.now slot }
{
    let (first, _source) = first_coming(survey, slot)?;
    let (second, _other) = next_coming(survey, slot, first)?;
    Some((first, second))
}

/// What is strange about a slot that one node at most migrates.
fn one_going(survey: &ServerSurvey, slot: Slot) -> Strangeness
    ensures { result ≡ one_going survey.now slot (two_coming survey.now slot) }
{
    match two_coming(survey, slot) {
        Some((first, second)) => Strangeness::TwoImport { first, second },
        None => one_mark_each(survey, slot),
    }
}

/// What is strange about a slot that one node at most migrates, and one at most imports.
fn one_mark_each(survey: &ServerSurvey, slot: Slot) -> Strangeness
    ensures { result ≡ one_mark_each survey.now slot (dissenter survey.now slot) }
{
    match dissenter(survey, slot) {
        Some(at) => two_owners(survey, slot, at),
        None => stray(survey, slot),
    }
}

/// n0 and the node tell different owners.
fn two_owners(survey: &ServerSurvey, slot: Slot, at: NodeId) -> Strangeness
    requires { at < length survey.now.rows }
    ensures { result ≡ two_owners survey.now slot (Some at) }
{
    let _nodes = survey.nodes();
    Strangeness::TwoOwners {
        owner: survey.owner(NodeId::of(0), slot),
        at,
        other: survey.owner(at, slot),
    }
}

/// All nodes tell one owner, and the marks are not those of a move from there.
fn stray(survey: &ServerSurvey, slot: Slot) -> Strangeness
    ensures { result ≡ stray survey.now slot (first_going survey.now slot) (first_coming survey.now slot) }
{
    match first_going(survey, slot) {
        Some((source, target)) => stray_going(survey, slot, source, target),
        None => stray_coming(survey, slot),
    }
}

/// What is strange where all nodes tell one owner, and the source alone migrates the slot.
fn stray_going(survey: &ServerSurvey, slot: Slot, source: NodeId, target: NodeId) -> Strangeness
    requires { source < length survey.now.rows }
    ensures { result ≡ stray survey.now slot (Some (source, target)) (first_coming survey.now slot) }
{
    let _nodes = survey.nodes();
    let owner = survey.owner(NodeId::of(0), slot);
    if slots_of(survey, source) == 0 {
        Strangeness::WithoutSlots { owner, at: source }
    } else {
        stray_with_slots(survey, slot, source, target)
    }
}

/// What is strange where the source alone migrates the slot, and has slots.
fn stray_with_slots(
    survey: &ServerSurvey,
    slot: Slot,
    source: NodeId,
    target: NodeId,
) -> Strangeness
    ensures { result ≡ with_slots survey.now slot (source, target) (first_coming survey.now slot) }
{
    let _nodes = survey.nodes();
    let owner = survey.owner(NodeId::of(0), slot);
    match first_coming(survey, slot) {
        Some((importer, from)) => Strangeness::Crossed {
            owner,
            route: Route { source, target },
            importer,
            from,
        },
        None => stray_source(owner, source, target),
    }
}

/// The source has the only mark.
fn stray_source(owner: NodeId, source: NodeId, target: NodeId) -> Strangeness
    ensures { result ≡ stray_going owner (source, target) }
{
    if source == owner && target != owner {
        Strangeness::NotImported { source, target }
    } else {
        Strangeness::StrayMigrating { owner, at: source }
    }
}

/// What is strange where no node migrates the slot. Without any mark it would be closed.
fn stray_coming(survey: &ServerSurvey, slot: Slot) -> Strangeness
    ensures { result ≡ stray survey.now slot None (first_coming survey.now slot) }
{
    let _nodes = survey.nodes();
    let first = NodeId::of(0);
    let owner = survey.owner(first, slot);
    match first_coming(survey, slot) {
        Some((at, source)) => stray_target(owner, at, source),
        None => Strangeness::TwoOwners {
            owner,
            at: first,
            other: owner,
        },
    }
}

/// The target has the only mark.
fn stray_target(owner: NodeId, at: NodeId, source: NodeId) -> Strangeness
    ensures { result ≡ stray_coming owner (at, source) }
{
    if at == owner {
        Strangeness::OwnerImports { owner }
    } else {
        Strangeness::OtherSource { owner, source, at }
    }
}
