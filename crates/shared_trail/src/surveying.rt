//! What a survey sees of a locked node.
ghost use Rattle.std.specs.Prelude.{◌≡◌, ◌↔◌, IsTrue, OnOk, length};
ghost use Rattle.cluster_admin.specs.Surveys.{row_at};
ghost use Rattle.cluster_world.specs.Worlds.{row_of};
ghost use Rattle.shared_trail.specs.Surveying.{AddsTable, row_by_calls};

use crate::brand::ClusterBrand;
use crate::locked_node::LockedNode;
use crate::locked_trail::LockedTrail;
use crate::seat_table::SeatTable;
use crate::seats::AdminSeat;
use crate::spinning::spin_then_lock;
use byte_texts::Memory;
use cluster_world::{Survey, add_copy};
use key_slots::NodeId;
use slot_marks::SlotTable;
use std::sync::{Mutex, Wait};

/// Puts a copy of the table of the node N at the end. It shows what the calls of the administrator tell, whose seat is
/// lent meanwhile: the trail, which is locked for a moment once the copy is made, has no other call of it.
pub fn survey_on<B: ClusterBrand, const N: u8, R: Wait>(
    rt: &R,
    table: &SeatTable<B>,
    trail: &Mutex<LockedTrail<B>>,
    locked: &mut LockedNode<B, N>,
    seat: &mut AdminSeat<B>,
    node: NodeId,
    tables: &mut Vec<SlotTable>,
) -> Result<(), Memory>
    requires { node ≡ N }
    ensures seat { seat.new ≡ seat.old }
    ensures ok { OnOk result
        (AddsTable (length B.setup.opening.nodes) node (row_by_calls B.setup.opening seat.old node) tables.old.items
        tables.new.items) }
{
    locked.copy_table(tables)?;
    let mut trail = spin_then_lock(rt, trail);
    confirm(table, &mut *trail, locked, seat);
    Ok(())
}

/// Whether the node N says and has what the survey tells of it. It says what the calls of the administrator tell, whose
/// seat is lent meanwhile. Takes no memory.
pub fn matches_on<B: ClusterBrand, const N: u8, R: Wait>(
    rt: &R,
    table: &SeatTable<B>,
    trail: &Mutex<LockedTrail<B>>,
    locked: &mut LockedNode<B, N>,
    seat: &mut AdminSeat<B>,
    survey: &Survey,
) -> bool
    requires { length survey.now.rows ≡ length B.setup.opening.nodes }
    ensures seat { seat.new ≡ seat.old }
    ensures same { IsTrue result ↔ (row_at survey.now N ≡ row_by_calls B.setup.opening seat.old N) }
{
    let same = locked.is_as_in(survey);
    let mut trail = spin_then_lock(rt, trail);
    confirm(table, &mut *trail, locked, seat);
    same
}

/// The owners and marks of the node N are what the administrator's calls tell.
fn confirm<B: ClusterBrand, const N: u8>(
    table: &SeatTable<B>,
    trail: &mut LockedTrail<B>,
    locked: &mut LockedNode<B, N>,
    seat: &mut AdminSeat<B>,
)
    ensures node { locked.new ≡ locked.old }
    ensures seat { seat.new ≡ seat.old }
    ensures row { row_of locked.old.node ≡ row_by_calls B.setup.opening seat.old N }
{
    trail.confirm_node::<N>(table, &mut locked.holder);
    trail.confirm_caller(table, &mut seat.holder);
}

impl<B: ClusterBrand, const N: u8> LockedNode<B, N> {
    /// Puts a copy of the node's table at the end.
    fn copy_table(&self, tables: &mut Vec<SlotTable>) -> Result<(), Memory>
        ensures { OnOk result
            (AddsTable (length B.setup.opening.nodes) N (row_of self.now.node) tables.old.items tables.new.items) }
    {
        add_copy(tables, self.node.table())?;
        Ok(())
    }

    /// Whether the node says and has what the survey tells of it. Takes no memory.
    fn is_as_in(&self, survey: &Survey) -> bool
        requires { length survey.now.rows ≡ length B.setup.opening.nodes }
        ensures { IsTrue result ↔ (row_at survey.now N ≡ row_of self.now.node) }
    {
        survey.has(self.node.table())
    }
}
