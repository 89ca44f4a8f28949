//! A survey of servers as the tables of a world's nodes.
ghost use Rattle.std.specs.Prelude.{◌≡◌, ◌<◌, ℕ, IfOk, IfSome, MatchOption, length};
ghost use Rattle.std.specs.Bool.{OnFalse, OnTrue};
ghost use Rattle.cluster_views.specs.Rows.{HasStrayMark, IsStrayGoing, IsStrayComing, IsStrayMark, with_coming};
ghost use Rattle.cluster_views.specs.Rows.{with_going};
ghost use Rattle.cluster_admin.specs.Surveys.{AreTables, IsTableOf, row_at, row_of_table, survey_by};

use crate::server_survey::ServerSurvey;
use byte_texts::Memory;
use key_slots::{NodeId, SLOTS, Slot};
use slot_marks::SlotTable;
use std::alloc::Global;

impl ServerSurvey {
    /// What each server tells as the table of a world's node, for [`Survey::of`](cluster_admin::Survey::of), unless
    /// some mark is none that such a table has: a slot that goes from a node which tells another owner, or comes to its
    /// own owner, or has a mark that names its own node.
    pub fn tables(&self, alloc: Global) -> Result<Option<Vec<SlotTable>>, Memory>
        ensures { IfOk result (λ o. MatchOption o (HasStrayMark self.now)
            (λ ts. AreTables ts.items × (survey_by ts.items ≡ self.now))) }
    {
        let mut tables = Vec::new(alloc);
        for number in 0..self.nodes() {
            match self.table(alloc, NodeId::of(number))? {
                Some(table) => tables.push(table)?,
                None => return Ok(None),
            }
        }
        Ok(Some(tables))
    }

    /// The node's table, unless it has some such mark.
    fn table(&self, alloc: Global, node: NodeId) -> Result<Option<SlotTable>, Memory>
        requires { node < length self.now.rows }
        ensures { IfOk result (λ o. MatchOption o ((s : ℕ) × (s < 16384) × IsStrayMark self.now node s)
            (λ t. IsTableOf (length self.now.rows) node t × (row_of_table t ≡ row_at self.now node))) }
    {
        let owners = self.owners(node).try_copy()?;
        let mut table = SlotTable::new(alloc, node, owners)?;
        for number in 0..SLOTS as u16 {
            let slot = Slot::of(number);
            if !put_going(&mut table, slot, self.migrating(node, slot)) {
                return Ok(None);
            }
            if !put_coming(&mut table, slot, self.importing(node, slot)) {
                return Ok(None);
            }
        }
        let _nodes = table.nodes();
        let _slots = self.nodes();
        Ok(Some(table))
    }
}

/// Marks the slot as one that goes to the node, if there is one and the table may have that mark.
fn put_going(table: &mut SlotTable, slot: Slot, target: Option<NodeId>) -> bool
    requires { IfSome target (λ m. m < table.old.nodes) }
    ensures done { OnTrue result (table.new ≡ with_going table.old slot target) }
    ensures stray { OnFalse result (IsStrayGoing table.old slot target) }
{
    match target {
        Some(target) => table.set_migrating(slot, target).is_ok(),
        None => true,
    }
}

/// Marks the slot as one that comes from the node, if there is one and the table may have that mark.
fn put_coming(table: &mut SlotTable, slot: Slot, source: Option<NodeId>) -> bool
    requires { IfSome source (λ m. m < table.old.nodes) }
    ensures done { OnTrue result (table.new ≡ with_coming table.old slot source) }
    ensures stray { OnFalse result (IsStrayComing table.old slot source) }
{
    match source {
        Some(source) => table.set_importing(slot, source).is_ok(),
        None => true,
    }
}
