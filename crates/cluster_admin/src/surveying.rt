ghost use Rattle.std.specs.Prelude.{◌≡◌, ◌++◌, ◌∷◌, [], ◌<◌, OnOk};
ghost use Rattle.cluster_admin.specs.Surveys.{IsWhole};

use byte_texts::Memory;
use slot_marks::SlotTable;

/// Puts a copy of the table at the end.
pub fn add_copy(tables: &mut Vec<SlotTable>, table: &SlotTable) -> Result<(), Memory>
    ensures items { OnOk result (tables.new.items ≡ tables.old.items ++ table.now ∷ []) }
    ensures whole { OnOk result (IsWhole table.now) }
{
    let _nodes = table.nodes();
    tables.push(table.try_copy()?)?;
    Ok(())
}
