//! The locks of the nodes.
ghost use Rattle.std.specs.Prelude.{◌≡◌, ℕ, ◌+◌, ◌<◌, ◌≤◌, [], is_some, nat_lt, min, length, vec_capacity};
ghost use Rattle.cluster_world.specs.Earning.{world_after};
ghost use Rattle.live_cluster.specs.Rests.{IsRest, IsRow};
ghost use Rattle.shared_trail.specs.Rule.{opening_ledger};

use cluster_node::Node;
use shared_trail::{ClusterBrand, Keeper, LockedNode, LockedTrail, SeatTable};
use std::sync::Mutex;

/// A lock for each node of the cluster, and none for a number that is no node. Which node a lock holds is in its type,
/// so that two locks' contents can't be mistaken for each other.
pub struct NodeLocks<B: ClusterBrand> {
    pub(crate) n0: Option<Mutex<LockedNode<B, 0>>>,
    pub(crate) n1: Option<Mutex<LockedNode<B, 1>>>,
    pub(crate) n2: Option<Mutex<LockedNode<B, 2>>>,
    pub(crate) n3: Option<Mutex<LockedNode<B, 3>>>,
    pub(crate) n4: Option<Mutex<LockedNode<B, 4>>>,
    pub(crate) n5: Option<Mutex<LockedNode<B, 5>>>,
    pub(crate) n6: Option<Mutex<LockedNode<B, 6>>>,
    pub(crate) n7: Option<Mutex<LockedNode<B, 7>>>,
    ghost has0: { is_some n0 ≡ nat_lt 0 (length B.setup.opening.nodes) },
    ghost has1: { is_some n1 ≡ nat_lt 1 (length B.setup.opening.nodes) },
    ghost has2: { is_some n2 ≡ nat_lt 2 (length B.setup.opening.nodes) },
    ghost has3: { is_some n3 ≡ nat_lt 3 (length B.setup.opening.nodes) },
    ghost has4: { is_some n4 ≡ nat_lt 4 (length B.setup.opening.nodes) },
    ghost has5: { is_some n5 ≡ nat_lt 5 (length B.setup.opening.nodes) },
    ghost has6: { is_some n6 ≡ nat_lt 6 (length B.setup.opening.nodes) },
    ghost has7: { is_some n7 ≡ nat_lt 7 (length B.setup.opening.nodes) },
}

/// Written out, so that a proof sees one call where such a value is dropped.
impl<B: ClusterBrand> Drop for NodeLocks<B> {
    fn drop(self) {
        let Self {
            n0,
            n1,
            n2,
            n3,
            n4,
            n5,
            n6,
            n7,
        } = self;
        drop(n0);
        drop(n1);
        drop(n2);
        drop(n3);
        drop(n4);
        drop(n5);
        drop(n6);
        drop(n7);
    }
}

impl<B: ClusterBrand> NodeLocks<B> {
    /// The nodes in order, each with its seat under a lock of its own. The list of nodes is left empty, with its room.
    pub(crate) fn open(table: &SeatTable<B>, keeper: &mut Keeper<B>, nodes: &mut Vec<Node>) -> Self
        requires rest { IsRest B.setup.opening 0 nodes.old.items }
        requires keeper { keeper.old ≡ opening_ledger B.setup.opening (33 + min 0 (length B.setup.opening.nodes)) }
        requires room { length B.setup.opening.nodes ≤ vec_capacity nodes.old }
        ensures rest { IsRest B.setup.opening 8 nodes.new.items }
        ensures keeper { keeper.new ≡ opening_ledger B.setup.opening (33 + min 8 (length B.setup.opening.nodes)) }
        ensures room { length B.setup.opening.nodes ≤ vec_capacity nodes.new }
    {
        let n0 = open_at(table, keeper, nodes);
        let n1 = open_at(table, keeper, nodes);
        let n2 = open_at(table, keeper, nodes);
        let n3 = open_at(table, keeper, nodes);
        let n4 = open_at(table, keeper, nodes);
        let n5 = open_at(table, keeper, nodes);
        let n6 = open_at(table, keeper, nodes);
        let n7 = open_at(table, keeper, nodes);
        NodeLocks {
            n0,
            n1,
            n2,
            n3,
            n4,
            n5,
            n6,
            n7,
        }
    }

    /// Puts the nodes into the list, in order. Takes no memory.
    pub(crate) fn close(
        self,
        table: &SeatTable<B>,
        trail: &mut LockedTrail<B>,
        nodes: &mut Vec<Node>,
    )
        requires row { IsRow B.setup.opening 0 (world_after B.setup.opening trail.old.events) nodes.old.items }
        requires room { length B.setup.opening.nodes ≤ vec_capacity nodes.old }
        ensures same { trail.new ≡ trail.old }
        ensures row { IsRow B.setup.opening 8 (world_after B.setup.opening trail.old.events) nodes.new.items }
    {
        let NodeLocks {
            n0,
            n1,
            n2,
            n3,
            n4,
            n5,
            n6,
            n7,
        } = self;
        close_at(table, trail, nodes, n0);
        close_at(table, trail, nodes, n1);
        close_at(table, trail, nodes, n2);
        close_at(table, trail, nodes, n3);
        close_at(table, trail, nodes, n4);
        close_at(table, trail, nodes, n5);
        close_at(table, trail, nodes, n6);
        close_at(table, trail, nodes, n7);
    }
}

/// Makes the lock of node N, if there is one.
fn open_at<B: ClusterBrand, const N: u8>(
    table: &SeatTable<B>,
    keeper: &mut Keeper<B>,
    nodes: &mut Vec<Node>,
) -> Option<Mutex<LockedNode<B, N>>>
    requires rest { IsRest B.setup.opening N nodes.old.items }
    requires keeper { keeper.old ≡ opening_ledger B.setup.opening (33 + min N (length B.setup.opening.nodes)) }
    requires room { length B.setup.opening.nodes ≤ vec_capacity nodes.old }
    ensures place { is_some result ≡ nat_lt N (length B.setup.opening.nodes) }
    ensures rest { IsRest B.setup.opening (N + 1) nodes.new.items }
    ensures keeper { keeper.new ≡ opening_ledger B.setup.opening (33 + min (N + 1) (length B.setup.opening.nodes)) }
    ensures room { length B.setup.opening.nodes ≤ vec_capacity nodes.new }
{
    if nodes.is_empty() {
        return None;
    }
    let node = nodes.remove(0);
    Some(Mutex::new(LockedNode::new(node, table.deal(keeper))))
}

/// Puts node N into the list, if there is one.
fn close_at<B: ClusterBrand, const N: u8>(
    table: &SeatTable<B>,
    trail: &mut LockedTrail<B>,
    row: &mut Vec<Node>,
    place: Option<Mutex<LockedNode<B, N>>>,
)
    requires place { is_some place ≡ nat_lt N (length B.setup.opening.nodes) }
    requires row { IsRow B.setup.opening N (world_after B.setup.opening trail.old.events) row.old.items }
    requires room { length B.setup.opening.nodes ≤ vec_capacity row.old }
    ensures same { trail.new ≡ trail.old }
    ensures room { length B.setup.opening.nodes ≤ vec_capacity row.new }
    ensures row { IsRow B.setup.opening (N + 1) (world_after B.setup.opening trail.old.events) row.new.items }
{
    if let Some(lock) = place {
        let node = lock.into_inner().settle(table, trail);
        row.push_reserved(node);
    }
}
