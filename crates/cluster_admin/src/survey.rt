ghost use Rattle.std.specs.Prelude.{◌≡◌, ◌↔◌, ◌<◌, ◌≤◌, length, IfOk, IsTrue};
ghost use Rattle.slot_marks.specs.Tables.{Table};
ghost use Rattle.cluster_admin.specs.Surveys.{AreTables, IsBlankBeyond, closed_survey, importing_at, migrating_at};
ghost use Rattle.cluster_admin.specs.Surveys.{owner_at, row_at, row_of_table, survey_by};

use crate::surveying::add_copy;
use byte_texts::Memory;
use key_slots::{NodeId, OwnerTable, Slot};
use slot_marks::SlotTable;
use std::alloc::Global;
use std::marker::Model;

/// What each node of a cluster says of the slots' owners, and its marks.
pub struct Survey {
    tables: Vec<SlotTable>,
}

/// Written out, so that a proof sees one call where such a value is dropped.
impl Drop for Survey {
    fn drop(self) {
        let Self { tables } = self;
        drop(tables);
    }
}

impl Model for Survey {
    ghost use Rattle.cluster_admin.specs.Surveys.{Survey, survey_code, survey_by, AreTables};

    ghost Value = { Survey };

    ghost coded = { survey_code };

    ghost view = { λ v. survey_by v.tables.items };

    ghost invariant = { λ v. AreTables v.tables.items };
}

impl Survey {
    /// The survey of these tables, one for each node, in order. Takes no memory.
    pub fn of(tables: Vec<SlotTable>) -> Self
        requires { AreTables tables.items }
        ensures { result ≡ survey_by tables.items }
    {
        Self { tables }
    }

    /// The survey of nodes that all have this table and no mark.
    pub fn closed(alloc: Global, owners: &OwnerTable) -> Result<Self, Memory>
        ensures { IfOk result (λ v. v ≡ closed_survey owners.now.nodes owners.now.owners) }
    {
        let mut tables = Vec::with_capacity(alloc, usize::from(owners.nodes()))?;
        for number in 0..owners.nodes() {
            tables.push(SlotTable::new(alloc, NodeId::of(number), owners.try_copy()?)?)?;
        }
        Ok(Self { tables })
    }

    /// An equal survey of its own.
    pub fn try_copy(&self) -> Result<Self, Memory>
        ensures { IfOk result (λ v. v ≡ self.now) }
    {
        let mut tables = Vec::with_capacity(*self.tables.allocator(), self.tables.len())?;
        for table in &self.tables {
            add_copy(&mut tables, table)?;
        }
        Ok(Self { tables })
    }

    /// How many nodes there are.
    pub fn nodes(&self) -> u8
        ensures value { result ≡ length self.now.rows }
        ensures least { 1 ≤ result }
        ensures most { result ≤ 255 }
        ensures slots { IsBlankBeyond self.now }
    {
        self.tables.len() as u8
    }

    /// The slot's owner, as the node says.
    pub fn owner(&self, node: NodeId, slot: Slot) -> NodeId
        requires { node < length self.now.rows }
        ensures value { result ≡ owner_at self.now node slot }
        ensures named { result < length self.now.rows }
    {
        self.tables[usize::from(node.get())].owner(slot)
    }

    /// The node to which the slot goes from this one.
    pub fn migrating(&self, node: NodeId, slot: Slot) -> Option<NodeId>
        requires { node < length self.now.rows }
        ensures { result ≡ migrating_at self.now node slot }
    {
        self.tables[usize::from(node.get())].migrating(slot)
    }

    /// The node from which the slot comes to this one.
    pub fn importing(&self, node: NodeId, slot: Slot) -> Option<NodeId>
        requires { node < length self.now.rows }
        ensures { result ≡ importing_at self.now node slot }
    {
        self.tables[usize::from(node.get())].importing(slot)
    }

    /// Whether the table is that of its node here. It is a table of as many nodes. Takes no memory.
    pub fn has(&self, table: &SlotTable) -> bool
        requires { table.now.nodes ≡ length self.now.rows }
        ensures { IsTrue result ↔ (row_at self.now table.now.me ≡ row_of_table table.now) }
    {
        self.tables[usize::from(table.me().get())].same(table)
    }
}
