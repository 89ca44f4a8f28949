//! The keys of slots, as nodes told them when all of them were asked.
ghost use Rattle.std.specs.Prelude.{◌≡◌};

use cluster_views::SurveyFault;
use key_slots::{NodeId, Slot};
use server_phases::KeyCounts;
use slot_key_counts::KeyTable;

/// Reads keys that were told.
#[derive(Drop)]
pub(crate) struct TableCounts {
    table: KeyTable,
}

impl TableCounts {
    pub(crate) fn new(table: KeyTable) -> Self
        ensures { result.table ≡ table }
    {
        Self { table }
    }
}

impl KeyCounts for TableCounts {
    ghost use Rattle.std.specs.Prelude.{◌≡◌, None, Some};
    ghost use Rattle.cluster_views.specs.declared.fault.SurveyFault.TheVariants.{NoAnswer};
    ghost use Rattle.slot_key_counts.specs.Tables.{told_in};

    ghost counts = { λ c n s k d. (told_in c.table n s ≡ Some k) × (told_in d.table ≡ told_in c.table) };

    ghost fails = { λ c n s e d. (told_in c.table n s ≡ None) × (e ≡ NoAnswer n) };

    /// A node that was not asked for the slot gives no answer.
    fn keys(&mut self, node: NodeId, slot: Slot) -> Result<u32, SurveyFault> {
        match self.table.keys(node, slot) {
            Some(keys) => Ok(keys),
            None => Err(SurveyFault::NoAnswer(node)),
        }
    }
}
