//! What is read of a locked node without a call.
ghost use Rattle.std.specs.Prelude.{◌≡◌, List};
ghost use Rattle.cluster_world.specs.declared.event.Event.{Event};
ghost use Rattle.shared_trail.specs.Reading.{IsNodeThen};

use crate::brand::ClusterBrand;
use crate::locked_node::LockedNode;
use crate::locked_trail::LockedTrail;
use crate::seat_table::SeatTable;
use crate::spinning::spin_then_lock;
use cluster_node::Node;
use cluster_world::PortFault;
use resp2_wire::Reply;
use std::sync::{Mutex, Wait};

/// Who reads a node while it is locked. That is no call: it stands on no trail, and the node stays as it is.
pub trait NodeReader {
    ghost use Rattle.cluster_node.specs.NodeView.{NodeView};
    ghost use Rattle.cluster_world.specs.Ports.{Answer};

    /// Of such a node this may be told.
    ghost tells: { Self → NodeView → Answer → Type 0 };

    /// What is told of the node. Its lock is held meanwhile, so a call at the cluster from here would wait for ever.
    fn read(&self, node: &Node) -> Result<Reply, PortFault>
        ensures { tells self.now node.now result };
}

/// What the reader tells of the node N, as it is when the trail, which is locked for a moment after that, has these
/// events. No seat is lent, so none of them comes of it, and the node stays as it is.
pub fn read_on<B: ClusterBrand, const N: u8, R: Wait, V: NodeReader>(
    rt: &R,
    table: &SeatTable<B>,
    trail: &Mutex<LockedTrail<B>>,
    locked: &mut LockedNode<B, N>,
    reader: &V,
) -> Result<Reply, PortFault>
    ensures node { locked.new ≡ locked.old }
    ensures told { V.tells reader.now locked.old result }
    ensures is_then { (events : List Event) × IsNodeThen B.setup.opening events N locked.old }
{
    let told = reader.read(locked.node());
    let mut trail = spin_then_lock(rt, trail);
    place_on(table, &mut *trail, locked);
    told
}

/// The node N is what the trail's events make of it. Neither changes.
fn place_on<B: ClusterBrand, const N: u8>(
    table: &SeatTable<B>,
    trail: &mut LockedTrail<B>,
    locked: &mut LockedNode<B, N>,
)
    ensures trail { trail.new ≡ trail.old }
    ensures node { locked.new ≡ locked.old }
    ensures is_then { IsNodeThen B.setup.opening trail.old.events N locked.old }
{
    trail.confirm_node::<N>(table, &mut locked.holder);
}
