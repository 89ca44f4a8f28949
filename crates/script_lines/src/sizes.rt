//! The sizes of a cluster.
/// How many nodes a cluster has, 1 to 8, and how many of them own slots, 1 at least.
#[derive(Clone, Copy, Debug, PartialEq, Eq)]
pub struct ClusterSizes {
    pub nodes: u8,
    pub owning: u8,
}
