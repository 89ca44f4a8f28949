ghost use Rattle.std.specs.Prelude.{◌≡◌, ℕ, length, slice_index};
ghost use Rattle.reshard_planner.specs.Holding.{held};
ghost use Rattle.reshard_planner.specs.Starts.{Lists};

use crate::starts::range_at;
use key_slots::OwnerTable;

/// A number for each node that a cluster can have, by the node's number.
pub(crate) type PerNode = [usize; 255];

/// Nothing for each node.
pub(crate) fn nothing() -> PerNode
    ensures width { length result ≡ 255 }
    ensures none { (node : ℕ) → slice_index result node ≡ 0 }
{
    [0; 255]
}

/// How many slots each node holds.
pub(crate) fn held_by_node(owners: &OwnerTable) -> PerNode
    requires { length owners.now.owners ≡ 16384 }
    ensures { Lists (held owners.now.owners) 255 result }
{
    let starts = owners.starts();
    let mut held = nothing();
    for place in 0..starts.len() {
        let range = range_at(starts, place);
        held[usize::from(range.owner.get())] += usize::from(range.end - range.first);
    }
    held
}
