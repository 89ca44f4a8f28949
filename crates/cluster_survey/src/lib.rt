//! A Redis Cluster that is found by some of its nodes: connections to all its masters, which are surveyed until they
//! agree.
#![tactic(auto)]

mod agreeing;
mod arranging;
mod asking;
mod cluster_fault;
mod finding;
mod ipv4;
mod linking;
mod listing;
mod masters;
mod opening;
mod reach;

pub use asking::{survey, view_of};
pub use cluster_fault::ClusterFault;
pub use finding::{FoundCluster, find};
pub use ipv4::ipv4_in;
pub use listing::view_at;
pub use masters::masters_of;
pub use opening::link_to;
pub use reach::Reach;
