ghost use Rattle.std.specs.Prelude.{◌≡◌, ◌≤◌, ◌<◌, true, false, slice_index_or, slice_set};
ghost use Rattle.plan_runner.specs.SlotStates.{all_told, none_told};

use key_slots::NodeId;
use std::marker::Model;

/// The width of the sets for a cluster of few nodes.
pub(crate) const FEW: usize = 8;

/// The width of the sets for any cluster.
pub(crate) const MANY: usize = 255;

/// A set of nodes below its width. The state of each slot holds such sets, so they are no wider than the cluster needs.
#[derive(Clone, Copy)]
pub(crate) struct NodeSet<const N: usize> {
    members: [bool; N],
}

/// Contracts see the set filled up to the most nodes that there can be, so that they need no width.
impl<const N: usize> Model for NodeSet<N> {
    ghost use Rattle.std.specs.Prelude.{◌≡◌, ◌≤◌, ◌++◌, ◌-◌, Bool, List, false, length, replicate, take};
    ghost use Rattle.plan_runner.specs.Widths.{taken_back};

    ghost Value = { List Bool };

    ghost view = { λ s. s.members ++ replicate (255 - N) false };

    ghost inverse = { λ l. record { members = take N l } };

    ghost inverse_ok = { λ s h i. record { members = taken_back s.members (replicate (255 - N) false) N h.0 i } };

    ghost invariant = { λ s. (length s.members ≡ N) × (N ≤ 255) };
}

impl<const N: usize> NodeSet<N> {
    /// The empty set.
    #[tactic(auto, using(crate::proofs::Widths::filled_up, crate::proofs::Widths::so_long))]
    pub(crate) fn empty() -> Self
        requires { N ≤ 255 }
        ensures { result ≡ none_told }
    {
        Self {
            members: [false; N],
        }
    }

    /// Whether the node is in the set.
    #[tactic(auto, using(crate::proofs::Widths::filled_has))]
    pub(crate) fn has(&self, node: NodeId) -> bool
        requires { node < N }
        ensures { result ≡ slice_index_or self.now node false }
    {
        self.members[usize::from(node.get())]
    }

    /// The set with the node.
    #[tactic(auto, using(crate::proofs::Widths::filled_with))]
    pub(crate) fn with(&self, node: NodeId) -> Self
        requires { node < N }
        ensures { result ≡ slice_set self.now node true }
    {
        let mut members = self.members;
        members[usize::from(node.get())] = true;
        Self { members }
    }

    /// Whether so many nodes are all in the set.
    #[tactic(auto, using(crate::proofs::Told::told_more), unfolding(crate::specs::SlotStates::all_told))]
    pub(crate) fn has_all(&self, nodes: u8) -> bool
        requires { nodes ≤ N }
        ensures { result ≡ all_told nodes self.now }
    {
        let mut all = true;
        for node in 0..nodes {
            all = all && self.members[usize::from(node)];
        }
        all
    }
}
