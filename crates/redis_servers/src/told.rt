//! What a survey tells, beside another one and beside a table.
ghost use Rattle.std.specs.Prelude.{◌≡◌, ◌<◌, ◌↔◌, IsTrue, length};
ghost use Rattle.redis_servers.specs.Told.{IsClosedAt, IsClosedSlot, SameAt, SameSlot, TellsClosed, TellsSame};

use cluster_admin::Survey;
use key_slots::{NodeId, OwnerTable, Slot};

/// Whether both surveys tell the same. Takes no memory.
pub(crate) fn tell_same(survey: &Survey, other: &Survey) -> bool
    ensures { IsTrue result ↔ TellsSame survey.now other.now }
{
    if survey.nodes() != other.nodes() {
        return false;
    }
    for number in 0..survey.nodes() {
        if !same_at(survey, other, NodeId::of(number)) {
            return false;
        }
    }
    true
}

fn same_at(survey: &Survey, other: &Survey, node: NodeId) -> bool
    requires here { node < length survey.now.rows }
    requires there { node < length other.now.rows }
    ensures { IsTrue result ↔ SameAt survey.now other.now node }
{
    for number in 0..16_384u16 {
        if !same_slot(survey, other, node, Slot::of(number)) {
            return false;
        }
    }
    true
}

fn same_slot(survey: &Survey, other: &Survey, node: NodeId, slot: Slot) -> bool
    requires here { node < length survey.now.rows }
    requires there { node < length other.now.rows }
    ensures { IsTrue result ↔ SameSlot survey.now other.now node slot }
{
    if survey.owner(node, slot) != other.owner(node, slot) {
        return false;
    }
    if survey.migrating(node, slot) != other.migrating(node, slot) {
        return false;
    }
    survey.importing(node, slot) == other.importing(node, slot)
}

/// Whether the survey tells of each node that it has this table and no mark. Takes no memory.
pub(crate) fn tells_closed(survey: &Survey, owners: &OwnerTable) -> bool
    ensures { IsTrue result ↔ TellsClosed survey.now owners.now }
{
    if survey.nodes() != owners.nodes() {
        return false;
    }
    for number in 0..survey.nodes() {
        if !is_closed_at(survey, owners, NodeId::of(number)) {
            return false;
        }
    }
    true
}

fn is_closed_at(survey: &Survey, owners: &OwnerTable, node: NodeId) -> bool
    requires { node < length survey.now.rows }
    ensures { IsTrue result ↔ IsClosedAt survey.now owners.now node }
{
    for number in 0..16_384u16 {
        if !is_closed_slot(survey, owners, node, Slot::of(number)) {
            return false;
        }
    }
    true
}

fn is_closed_slot(survey: &Survey, owners: &OwnerTable, node: NodeId, slot: Slot) -> bool
    requires { node < length survey.now.rows }
    ensures { IsTrue result ↔ IsClosedSlot survey.now owners.now node slot }
{
    if survey.owner(node, slot) != owners.owner(slot) {
        return false;
    }
    if survey.migrating(node, slot).is_some() {
        return false;
    }
    survey.importing(node, slot).is_none()
}
