ghost use Rattle.std.specs.Prelude.{◌≡◌, ◌↔◌, ◌<◌, ◌≤◌, length, IfSome, IsTrue};
ghost use Rattle.cluster_views.specs.Rows.{AreRows, survey_by};
ghost use Rattle.cluster_admin.specs.Surveys.{IsBlankBeyond, closed_survey, importing_at, migrating_at, owner_at};
ghost use Rattle.cluster_admin.specs.Surveys.{row_at};

use crate::server_row::ServerRow;
use key_slots::{NodeId, OwnerTable, Slot};
use std::marker::Model;

/// What each server of a cluster tells of the slots' owners, and its marks, just as they stand in its answer: contracts
/// see the same as of a [`Survey`](cluster_admin::Survey).
///
/// It can tell more than that one: servers hear of an owner from one another, so a source may know the target as the
/// owner while its migrating mark stands.
pub struct ServerSurvey {
    rows: Vec<ServerRow>,
}

/// Written out, so that a proof sees one call where such a value is dropped.
impl Drop for ServerSurvey {
    fn drop(self) {
        let Self { rows } = self;
        drop(rows);
    }
}

impl Model for ServerSurvey {
    ghost use Rattle.cluster_views.specs.Rows.{AreRows, survey_by};
    ghost use Rattle.cluster_admin.specs.Surveys.{Survey, survey_code};

    ghost Value = { Survey };

    ghost coded = { survey_code };

    ghost view = { λ v. survey_by v.rows.items };

    ghost invariant = { λ v. AreRows v.rows.items };
}

impl ServerSurvey {
    /// The survey of these rows.
    pub(crate) fn of(rows: Vec<ServerRow>) -> Self
        requires { AreRows rows.items }
        ensures { result ≡ survey_by rows.items }
    {
        Self { rows }
    }

    /// How many servers there are.
    pub fn nodes(&self) -> u8
        ensures value { result ≡ length self.now.rows }
        ensures least { 1 ≤ result }
        ensures most { result ≤ 255 }
        ensures slots { IsBlankBeyond self.now }
    {
        self.rows.len() as u8
    }

    /// The owners of all slots, as the server tells them.
    pub fn owners(&self, node: NodeId) -> &OwnerTable
        requires { node < length self.now.rows }
        ensures { result.now ≡ record { nodes = length self.now.rows; owners = (row_at self.now node).owners } }
    {
        &self.rows[usize::from(node.get())].owners
    }

    /// The slot's owner, as the server tells it.
    pub fn owner(&self, node: NodeId, slot: Slot) -> NodeId
        requires { node < length self.now.rows }
        ensures value { result ≡ owner_at self.now node slot }
        ensures named { result < length self.now.rows }
    {
        self.rows[usize::from(node.get())].owners.owner(slot)
    }

    /// The node to which the slot goes from this one.
    pub fn migrating(&self, node: NodeId, slot: Slot) -> Option<NodeId>
        requires { node < length self.now.rows }
        ensures value { result ≡ migrating_at self.now node slot }
        ensures named { IfSome result (λ m. m < length self.now.rows) }
    {
        self.rows[usize::from(node.get())].migrating.get(slot)
    }

    /// The node from which the slot comes to this one.
    pub fn importing(&self, node: NodeId, slot: Slot) -> Option<NodeId>
        requires { node < length self.now.rows }
        ensures value { result ≡ importing_at self.now node slot }
        ensures named { IfSome result (λ m. m < length self.now.rows) }
    {
        self.rows[usize::from(node.get())].importing.get(slot)
    }

    /// Whether all servers tell these owners, and none has a mark. Takes no memory.
    pub fn is_closed(&self, owners: &OwnerTable) -> bool
        ensures { IsTrue result ↔ (self.now ≡ closed_survey owners.now.nodes owners.now.owners) }
    {
        if self.nodes() != owners.nodes() {
            return false;
        }
        for row in &self.rows {
            if !row.is_closed(owners) {
                return false;
            }
        }
        true
    }

    /// Whether all servers tell the same owners, and none has a mark. Takes no memory.
    pub fn is_clean(&self) -> bool
        ensures { IsTrue result ↔ (self.now ≡ closed_survey (length self.now.rows) (row_at self.now 0).owners) }
    {
        let _nodes = self.nodes();
        self.is_closed(self.owners(NodeId::of(0)))
    }
}
