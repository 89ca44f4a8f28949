ghost use Rattle.std.specs.Prelude.{◌≡◌, [], IfOk, MatchResult};
ghost use Rattle.script_lines.specs.Faults.{IsHaltOf};
ghost use Rattle.script_lines.specs.Forms.{opening};
ghost use Rattle.rehearsal.specs.Opening.{IsOpened};
ghost use Rattle.cluster_world.specs.Recorded.{IsRecord};

use cluster_world::{RecordedWorld, WorldSeat};
use key_slots::OwnerTable;
use script_lines::{ClusterSizes, Halt, sizes_of};
use std::alloc::Global;

/// The port of a rehearsal's first node.
const BASE_PORT: u16 = 7000;

/// The cluster of a first line `cluster N` or `cluster N even M`.
pub fn open(alloc: Global, line: &[u8]) -> Result<(RecordedWorld, WorldSeat), Halt>
    ensures world { MatchResult result (λ p. IsOpened line.now p.0) (λ h. IsHaltOf (opening line.now) h) }
    ensures kept { IfOk result (λ p. IsRecord p.0) }
    ensures seat { IfOk result (λ p. p.1 ≡ []) }
{
    let ClusterSizes { nodes, owning } = sizes_of(alloc, line)?;
    let owners = OwnerTable::even(alloc, nodes, owning)?;
    Ok(RecordedWorld::open(alloc, owners, BASE_PORT)?)
}
