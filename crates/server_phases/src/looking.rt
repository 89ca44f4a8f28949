//! The lowest nodes that have a mark of a slot, or tell another owner.
ghost use Rattle.std.specs.Prelude.{◌≡◌, ◌<◌, ◌==◌, ℕ, None, Some, IfSome, MatchOption, cond, length};
ghost use Rattle.cluster_views.specs.Surveying.{differs, dissenter};
ghost use Rattle.cluster_admin.specs.Surveys.{IsOwnerBeside, NoneAt, importing_at, migrating_at, owner_at};
ghost use Rattle.server_phases.specs.Strange.{coming_at, first_coming, first_going, going_at, next_coming, next_going};

use cluster_views::ServerSurvey;
use key_slots::{NodeId, Slot};

/// The lowest node that migrates the slot, and where to.
pub(crate) fn first_going(survey: &ServerSurvey, slot: Slot) -> Option<(NodeId, NodeId)>
    ensures value { result ≡ first_going survey.now slot }
    ensures mark { MatchOption result (NoneAt (length survey.now.rows) (λ n. migrating_at survey.now n slot))
        (λ p. (p.0 < length survey.now.rows) × (migrating_at survey.now p.0 slot ≡ Some p.1)) }
{
    for number in 0..survey.nodes() {
        let mark = going_at(survey, slot, NodeId::of(number));
        if mark.is_some() {
            return mark;
        }
    }
    None
}

/// The lowest node that imports the slot, and where from.
pub(crate) fn first_coming(survey: &ServerSurvey, slot: Slot) -> Option<(NodeId, NodeId)>
    ensures value { result ≡ first_coming survey.now slot }
    ensures mark { MatchOption result (NoneAt (length survey.now.rows) (λ n. importing_at survey.now n slot))
        (λ p. (p.0 < length survey.now.rows) × (importing_at survey.now p.0 slot ≡ Some p.1)) }
{
    for number in 0..survey.nodes() {
        let mark = coming_at(survey, slot, NodeId::of(number));
        if mark.is_some() {
            return mark;
        }
    }
    None
}

/// The lowest node but this one that migrates the slot, and where to.
pub(crate) fn next_going(survey: &ServerSurvey, slot: Slot, but: NodeId) -> Option<(NodeId, NodeId)>
    ensures { result ≡ next_going survey.now slot but }
{
    for number in 0..survey.nodes() {
        let mark = going_beside(survey, slot, but, NodeId::of(number));
        if mark.is_some() {
            return mark;
        }
    }
    None
}

/// The lowest node but this one that imports the slot, and where from.
pub(crate) fn next_coming(
    survey: &ServerSurvey,
    slot: Slot,
    but: NodeId,
) -> Option<(NodeId, NodeId)>
    ensures { result ≡ next_coming survey.now slot but }
{
    for number in 0..survey.nodes() {
        let mark = coming_beside(survey, slot, but, NodeId::of(number));
        if mark.is_some() {
            return mark;
        }
    }
    None
}

/// The node, if it migrates the slot, and where to.
fn going_at(survey: &ServerSurvey, slot: Slot, node: NodeId) -> Option<(NodeId, NodeId)>
    requires { node < length survey.now.rows }
    ensures { result ≡ going_at survey.now slot node }
{
    match survey.migrating(node, slot) {
        Some(target) => Some((node, target)),
        None => None,
    }
}

/// The node, if it imports the slot, and where from.
fn coming_at(survey: &ServerSurvey, slot: Slot, node: NodeId) -> Option<(NodeId, NodeId)>
    requires { node < length survey.now.rows }
    ensures { result ≡ coming_at survey.now slot node }
{
    match survey.importing(node, slot) {
        Some(source) => Some((node, source)),
        None => None,
    }
}

/// The node, if it is not the other one and migrates the slot, and where to.
fn going_beside(
    survey: &ServerSurvey,
    slot: Slot,
    but: NodeId,
    node: NodeId,
) -> Option<(NodeId, NodeId)>
    requires { node < length survey.now.rows }
    ensures { result ≡ cond (node == but) None (going_at survey.now slot node) }
{
    if node == but {
        None
    } else {
        going_at(survey, slot, node)
    }
}

/// The node, if it is not the other one and imports the slot, and where from.
fn coming_beside(
    survey: &ServerSurvey,
    slot: Slot,
    but: NodeId,
    node: NodeId,
) -> Option<(NodeId, NodeId)>
    requires { node < length survey.now.rows }
    ensures { result ≡ cond (node == but) None (coming_at survey.now slot node) }
{
    if node == but {
        None
    } else {
        coming_at(survey, slot, node)
    }
}

/// The lowest node that tells another owner of the slot than n0 does.
pub(crate) fn dissenter(survey: &ServerSurvey, slot: Slot) -> Option<NodeId>
    ensures value { result ≡ dissenter survey.now slot }
    ensures named { IfSome result (λ n. n < length survey.now.rows) }
{
    for number in 0..survey.nodes() {
        let node = NodeId::of(number);
        if differs(survey, node, slot) {
            return Some(node);
        }
    }
    None
}

/// Whether the node tells another owner of the slot than n0 does.
fn differs(survey: &ServerSurvey, node: NodeId, slot: Slot) -> bool
    requires { node < length survey.now.rows }
    ensures { result ≡ differs survey.now slot node }
{
    let _nodes = survey.nodes();
    survey.owner(node, slot) != survey.owner(NodeId::of(0), slot)
}

/// Another owner than this one that some node tells.
pub(crate) fn owner_beside(survey: &ServerSurvey, slot: Slot, target: NodeId) -> Option<NodeId>
    ensures { MatchOption result ((n : ℕ) → n < length survey.now.rows → owner_at survey.now n slot ≡ target)
        (IsOwnerBeside survey.now slot target) }
{
    for number in 0..survey.nodes() {
        let owner = survey.owner(NodeId::of(number), slot);
        if owner != target {
            return Some(owner);
        }
    }
    None
}
