//! What lies under the lock of a node.
ghost use Rattle.std.specs.Prelude.{◌≡◌, ℕ, ◌+◌, ◌<◌, length};
ghost use Rattle.cluster_world.specs.Earning.{world_after};
ghost use Rattle.cluster_world.specs.WorldView.{IsNode};
ghost use Rattle.cluster_world.specs.Worlds.{node_at};
ghost use Rattle.shared_trail.specs.declared.view.Part.TheVariants.{State};

use crate::brand::ClusterBrand;
use crate::locked_trail::LockedTrail;
use crate::seat_table::{Holder, SeatTable};
use cluster_node::Node;
use std::marker::Model;

/// The node N with its seat. Contracts see it as the node.
pub struct LockedNode<B: ClusterBrand, const N: u8> {
    pub(crate) node: Node,
    pub(crate) holder: Holder<B>,
}

/// Written out, so that a proof sees one call where such a value is dropped.
impl<B: ClusterBrand, const N: u8> Drop for LockedNode<B, N> {
    fn drop(self) {
        let Self { node, holder } = self;
        drop(node);
        drop(holder);
    }
}

impl<B: ClusterBrand, const N: u8> Model for LockedNode<B, N> {
    ghost use Rattle.std.specs.Prelude.{◌≡◌, ℕ, ◌+◌, length};
    ghost use Rattle.cluster_node.specs.NodeView.{NodeView, node_view_code};
    ghost use Rattle.cluster_world.specs.WorldView.{IsNode};
    ghost use Rattle.shared_trail.specs.declared.view.Part.TheVariants.{State};

    ghost Value = { NodeView };

    ghost coded = { node_view_code };

    ghost view = { λ d. d.node };

    ghost invariant = { λ d. (d.holder ≡ (33 + N, State d.node.node))
        × IsNode B.setup.opening.base_port (length B.setup.opening.nodes) N d.node };
}

impl<B: ClusterBrand, const N: u8> LockedNode<B, N> {
    /// The node N, with the holder of its state in the table.
    pub fn new(node: Node, holder: Holder<B>) -> LockedNode<B, N>
        requires node { IsNode B.setup.opening.base_port (length B.setup.opening.nodes) N node }
        requires holder { holder ≡ (33 + N, State node.node) }
        ensures { result ≡ node }
    {
        LockedNode { node, holder }
    }

    /// The node, to read it.
    pub fn node(&self) -> &Node
        ensures { result.now ≡ self.now }
    {
        &self.node
    }

    /// The node, which is what the trail says of it.
    pub fn settle(self, table: &SeatTable<B>, trail: &mut LockedTrail<B>) -> Node
        ensures same { trail.new ≡ trail.old }
        ensures there { N < length (world_after B.setup.opening trail.old.events).nodes }
        ensures node { node_at (world_after B.setup.opening trail.old.events) N ≡ result.node }
        ensures whole { IsNode B.setup.opening.base_port (length B.setup.opening.nodes) N result }
    {
        let LockedNode { node, holder } = self;
        trail.settle_node::<N>(table, holder);
        node
    }
}
