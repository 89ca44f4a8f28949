//! Tables of owners, from the even split of three nodes on.
ghost use Rattle.std.specs.Prelude.{◌≡◌, ◌<◌, IfOk, slice_set};
ghost use Rattle.key_slots.specs.Owners.{IsEvenSplit};

use byte_texts::Memory;
use key_slots::{NodeId, OwnerTable, Slot};
use std::alloc::Global;

/// The even split of three nodes: node 0 owns slot 3300.
pub(crate) fn owners_of_three(alloc: Global) -> Result<OwnerTable, Memory>
    ensures { IfOk result (IsEvenSplit 3 3) }
{
    OwnerTable::even(alloc, 3, 3)
}

/// A copy of the table in which the node owns the slot.
pub(crate) fn with_owner(
    before: &OwnerTable,
    slot: Slot,
    node: NodeId,
) -> Result<OwnerTable, Memory>
    requires { node < before.now.nodes }
    ensures { IfOk result (λ t. t ≡ record before.now { owners = slice_set before.now.owners slot node }) }
{
    let mut table = before.try_copy()?;
    table.set(slot, node);
    Ok(table)
}
