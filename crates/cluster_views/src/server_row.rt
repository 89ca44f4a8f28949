ghost use Rattle.std.specs.Prelude.{◌≡◌, ◌↔◌, IsTrue};
ghost use Rattle.std.specs.FinMap as finite;

use key_slots::OwnerTable;
use slot_marks::MarkRow;

/// What one server tells of the slots' owners, and its marks.
pub(crate) struct ServerRow {
    pub(crate) owners: OwnerTable,
    pub(crate) migrating: MarkRow,
    pub(crate) importing: MarkRow,
}

/// Written out, so that a proof sees one call where such a value is dropped.
impl Drop for ServerRow {
    fn drop(self) {
        let Self {
            owners,
            migrating,
            importing,
        } = self;
        drop(owners);
        drop(migrating);
        drop(importing);
    }
}

impl ServerRow {
    /// Whether the server tells these owners, and has no mark.
    pub(crate) fn is_closed(&self, owners: &OwnerTable) -> bool
        ensures { IsTrue result
            ↔ (self.now ≡ record { owners = owners.now; migrating = finite.empty; importing = finite.empty }) }
    {
        self.owners.same(owners) && self.migrating.is_empty() && self.importing.is_empty()
    }
}
