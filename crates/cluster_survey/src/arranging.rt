//! The masters of a cluster in the order of a plan's names.
ghost use Rattle.std.specs.Prelude.{◌≡◌, ◌<◌, ◌≤◌, All, IfOk, MatchResult, length, vec_len};
ghost use Rattle.std.specs.List.{list_any};
ghost use Rattle.byte_texts.specs.Words.{is};
ghost use Rattle.cluster_survey.specs.Arranging.{AreArranged, AreUnarranged, arranged, name_fault, names_fault};
ghost use Rattle.cluster_survey.specs.Arranging.{put_at, strange_name};
ghost use Rattle.cluster_survey.specs.Masters.{AreAddressed};

use crate::cluster_fault::ClusterFault;
use crate::masters::servers_in;
use byte_texts::is;
use cluster_views::place_of_name;
use key_slots::NodeId;
use listed_nodes::NodeLine;
use node_names::NodeName;
use server_commands::{Server, ServerBook};
use std::alloc::Global;

/// All masters that the lines list, each of those that the names tell as its node, and the others as they come.
pub(crate) fn book_of(
    alloc: Global,
    lines: &[NodeLine],
    names: &[(NodeId, NodeName)],
) -> Result<ServerBook, ClusterFault>
    ensures order { MatchResult result (AreArranged lines.now names.now) (AreUnarranged lines.now names.now) }
    ensures addressed { IfOk result AreAddressed }
{
    let mut servers = servers_in(alloc, lines)?;
    if let Some(fault) = names_fault(lines, servers.as_slice(), names) {
        return Err(fault);
    }
    arrange(&mut servers, names);
    Ok(ServerBook::of(servers))
}

/// What is wrong with the first name that can't be put at its place.
fn names_fault(
    lines: &[NodeLine],
    servers: &[Server],
    names: &[(NodeId, NodeName)],
) -> Option<ClusterFault>
    requires { length servers.now ≤ 255 }
    ensures { result ≡ names_fault lines.now servers.now names.now }
{
    for (node, name) in names {
        let fault = name_fault(lines, servers, *node, name);
        if fault.is_some() {
            return fault;
        }
    }
    None
}

fn name_fault(
    lines: &[NodeLine],
    servers: &[Server],
    node: NodeId,
    name: &NodeName,
) -> Option<ClusterFault>
    requires { length servers.now ≤ 255 }
    ensures { result ≡ name_fault lines.now servers.now (node, name.now) }
{
    if place_of_name(servers, name.get()).is_none() {
        return Some(strange_name(lines, node, name));
    }
    if servers.len() <= usize::from(node.get()) {
        let masters = servers.len() as u8;
        return Some(ClusterFault::BeyondMasters { node, masters });
    }
    None
}

/// What is said of a name that no master has.
fn strange_name(lines: &[NodeLine], node: NodeId, name: &NodeName) -> ClusterFault
    ensures { result ≡ strange_name lines.now (node, name.now) }
{
    let name = *name;
    if is_listed(lines, name.get()) {
        ClusterFault::NoMaster { node, name }
    } else {
        ClusterFault::MissingNode { node, name }
    }
}

/// Whether a line has the name.
fn is_listed(lines: &[NodeLine], name: &[u8]) -> bool
    ensures { result ≡ list_any (λ l. is name.now l.name) lines.now }
{
    lines.iter().any(|line| is(line.name.get(), name))
}

/// Puts each name at its node's place.
fn arrange(servers: &mut Vec<Server>, names: &[(NodeId, NodeName)])
    requires { All (λ p. p.0 < vec_len servers.old) names.now }
    ensures value { servers.new.items ≡ arranged names.now servers.old.items }
    ensures len { vec_len servers.new ≡ vec_len servers.old }
{
    for (node, name) in names {
        put_at(servers, *node, name);
    }
}

/// Lets the node and the server of the name, if there is one, stand in each other's place.
fn put_at(servers: &mut Vec<Server>, node: NodeId, name: &NodeName)
    requires { node < vec_len servers.old }
    ensures value { servers.new.items ≡ put_at (node, name.now) servers.old.items }
    ensures len { vec_len servers.new ≡ vec_len servers.old }
{
    if let Some(place) = place_of_name(servers.as_slice(), name.get()) {
        servers.swap(place, usize::from(node.get()));
    }
}
