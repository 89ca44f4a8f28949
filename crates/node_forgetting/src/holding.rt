//! Whether a survey shows a node for which the others still need it.
ghost use Rattle.std.specs.Prelude.{◌≡◌, ◌<◌, ◌==◌, ◌||◌, ◌&&◌, length};
ghost use Rattle.std.specs.Option.{option_map_or};
ghost use Rattle.cluster_admin.specs.Surveys.{importing_at, migrating_at, owner_at};
ghost use Rattle.cluster_views.specs.Surveying.{has_mark};
ghost use Rattle.node_forgetting.specs.Holding.{hold, hold_at, hold_by, is_named, is_own_mark, names};

use crate::hold::Hold;
use cluster_views::ServerSurvey;
use key_slots::{NodeId, SLOTS, Slot};

/// The first that the servers tell of the node: a slot that it owns in the table of a master, or a mark that names it
/// or is its own. They are looked at in the order of the nodes, and at each in that of the slots.
pub(crate) fn hold(survey: &ServerSurvey, node: NodeId) -> Option<Hold>
    ensures { result ≡ hold survey.now node }
{
    for number in 0..survey.nodes() {
        let found = hold_by(survey, NodeId::of(number), node);
        if found.is_some() {
            return found;
        }
    }
    None
}

/// The first that the master tells of the node.
fn hold_by(survey: &ServerSurvey, at: NodeId, node: NodeId) -> Option<Hold>
    requires { at < length survey.now.rows }
    ensures { result ≡ hold_by survey.now node at }
{
    for number in 0..SLOTS as u16 {
        let found = hold_at(survey, at, node, Slot::of(number));
        if found.is_some() {
            return found;
        }
    }
    None
}

/// What the master tells of the node by this slot.
fn hold_at(survey: &ServerSurvey, at: NodeId, node: NodeId, slot: Slot) -> Option<Hold>
    requires { at < length survey.now.rows }
    ensures { result ≡ hold_at survey.now node at slot }
{
    if survey.owner(at, slot) == node {
        return Some(Hold::Owns { node, at, slot });
    }
    if is_named(survey, at, node, slot) {
        return Some(Hold::Named { node, at, slot });
    }
    if is_own_mark(survey, at, node, slot) {
        return Some(Hold::Marked { node, slot });
    }
    None
}

/// Whether a mark of the slot at the master names the node.
fn is_named(survey: &ServerSurvey, at: NodeId, node: NodeId, slot: Slot) -> bool
    requires { at < length survey.now.rows }
    ensures { result ≡ is_named survey.now node at slot }
{
    names(survey.migrating(at, slot), node) || names(survey.importing(at, slot), node)
}

/// Whether the mark, if there is one, names the node.
fn names(mark: Option<NodeId>, node: NodeId) -> bool
    ensures { result ≡ names node mark }
{
    match mark {
        Some(other) => other == node,
        None => false,
    }
}

/// Whether the master is the node, and has a mark of the slot.
fn is_own_mark(survey: &ServerSurvey, at: NodeId, node: NodeId, slot: Slot) -> bool
    requires { at < length survey.now.rows }
    ensures { result ≡ is_own_mark survey.now node at slot }
{
    at == node && has_mark(survey, at, slot)
}

/// Whether the master has a mark of the slot.
fn has_mark(survey: &ServerSurvey, at: NodeId, slot: Slot) -> bool
    requires { at < length survey.now.rows }
    ensures { result ≡ has_mark survey.now slot at }
{
    survey.migrating(at, slot).is_some() || survey.importing(at, slot).is_some()
}
