//! A running cluster is clean where each of its nodes is, and matches a survey where each does: a mark at any of them
//! is seen.
ghost use Rattle.std.specs.Prelude.{◌≡◌};
ghost use Rattle.cluster_admin.specs.Commands.{IsCommand};

use crate::clusters::open_cluster;
use cluster_node::{AdminCommand, AdminReply};
use key_slots::{NODES, NodeId, OwnerTable, Slot};
use live_cluster::{AdminSeat, ClusterBrand, ClusterSetup, LiveCluster};
use std::alloc::Global;
use std::marker::Brand;
use std::sync::Wait;
use std::test::Fail;

/// What marks slot 0, which is node 0's, at the node.
fn mark(node: u8) -> AdminCommand
    ensures { IsCommand result }
{
    if node == 0 {
        AdminCommand::Migrating(Slot::of(0), NodeId::of(1))
    } else {
        AdminCommand::Importing(Slot::of(0), NodeId::of(0))
    }
}

/// Marks the slot at the node. Whether that was accepted.
fn put_mark<B: ClusterBrand, R: Wait>(
    rt: &R,
    cluster: &LiveCluster<B>,
    admin: &mut AdminSeat<B>,
    node: u8,
) -> bool {
    if node >= cluster.nodes() {
        return false;
    }
    let reply = cluster.admin(rt, admin, NodeId::of(node), mark(node));
    matches!(reply, Ok(AdminReply::Ok))
}

/// Whether a new cluster is clean, and whether it is once the node has a mark.
fn clean_then_marked<B: ClusterBrand, R: Wait>(
    rt: &R,
    alloc: Global,
    setup: ClusterSetup,
    owners: &OwnerTable,
    node: u8,
) -> Option<(bool, bool)>
    requires { setup ≡ B.setup }
{
    let cluster = open_cluster::<B>(alloc, setup)?;
    let mut admin = cluster.admin_seat(rt).ok()?;
    let before = cluster.is_clean(rt, owners);
    if !put_mark(rt, &cluster, &mut admin, node) {
        return None;
    }
    Some((before, cluster.is_clean(rt, owners)))
}

fn of_eight<R: Wait>(rt: &R, alloc: Global, node: u8) -> Option<(bool, bool)> {
    let owners = OwnerTable::even(alloc, 8, 8).ok()?;
    let setup = ClusterSetup::new(alloc, owners.try_copy().ok()?, 7000).ok()?;
    clean_then_marked::<Brand, R>(rt, alloc, setup, &owners, node)
}

/// Whether a new cluster matches its survey, and whether it does once the node has a mark.
fn surveyed_then_marked<B: ClusterBrand, R: Wait>(
    rt: &R,
    alloc: Global,
    setup: ClusterSetup,
    node: u8,
) -> Option<(bool, bool)>
    requires { setup ≡ B.setup }
{
    let cluster = open_cluster::<B>(alloc, setup)?;
    let mut admin = cluster.admin_seat(rt).ok()?;
    let survey = cluster.survey(rt, &mut admin).ok()?;
    let before = cluster.matches(rt, &mut admin, &survey);
    if !put_mark(rt, &cluster, &mut admin, node) {
        return None;
    }
    Some((before, cluster.matches(rt, &mut admin, &survey)))
}

fn surveyed_of_eight<R: Wait>(rt: &R, alloc: Global, node: u8) -> Option<(bool, bool)> {
    let owners = OwnerTable::even(alloc, 8, 8).ok()?;
    let setup = ClusterSetup::new(alloc, owners, 7000).ok()?;
    surveyed_then_marked::<Brand, R>(rt, alloc, setup, node)
}

#[test]
fn a_survey_matches_until_a_node_has_a_mark(rt: HostRuntime) -> Result<(), Fail> {
    for node in 0..NODES {
        assert!(rt;
            matches!(
                surveyed_of_eight(&rt, rt.alloc(), node),
                Some((true, false))
            )
        );
    }
    Ok(())
}

#[test]
fn a_mark_at_any_node_is_seen(rt: HostRuntime) -> Result<(), Fail> {
    for node in 0..NODES {
        assert!(rt; matches!(of_eight(&rt, rt.alloc(), node), Some((true, false))));
    }
    Ok(())
}
