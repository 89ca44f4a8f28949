//! The nodes that a command drains, and those that take their slots.
ghost use Rattle.std.specs.Prelude.{◌≡◌, ◌≤◌, ◌<◌, IfOk, IfSome, option_map, string_bytes};
ghost use Rattle.std.specs.List.{All};
ghost use Rattle.cluster_cli.specs.DrainedNodes.{all_but, drain_named, is_one, nodes_listed, targets_of};

use crate::node_lists::nodes_in;
use byte_texts::part_list;
use command_words::DrainWords;
use key_slots::NodeId;
use std::alloc::{AllocError, Global};

/// The nodes that give all of their slots and the nodes that take them, where the words name nodes of a cluster of so
/// many. Where they name none that take slots, all others do.
pub fn drain_named(
    words: &DrainWords,
    alloc: Global,
    nodes: u8,
) -> Result<Option<(Vec<NodeId>, Vec<NodeId>)>, AllocError>
    requires { nodes ≤ 255 }
    ensures named { IfOk result (λ o. option_map (λ p. (p.0.items, p.1.items)) o ≡ drain_named nodes words.now) }
    ensures exist { IfOk result (λ o. IfSome o (λ p. All (λ t. t < nodes) p.1.items)) }
{
    let Some(sources) = nodes_listed(alloc, words.from.as_bytes(), nodes)? else {
        return Ok(None);
    };
    match targets_of(alloc, &words.to, nodes, sources.as_slice())? {
        Some(targets) => Ok(Some((sources, targets))),
        None => Ok(None),
    }
}

/// The nodes with commas between them.
fn nodes_listed(alloc: Global, text: &[u8], nodes: u8) -> Result<Option<Vec<NodeId>>, AllocError>
    ensures nodes { IfOk result (λ o. option_map (λ v. v.items) o ≡ nodes_listed nodes text.now) }
    ensures exist { IfOk result (λ o. IfSome o (λ v. All (λ s. s < nodes) v.items)) }
{
    let words = part_list(alloc, text, b',')?;
    nodes_in(alloc, words.as_slice(), nodes)
}

/// The nodes that are given, or all but the sources.
fn targets_of(
    alloc: Global,
    given: &Option<String>,
    nodes: u8,
    sources: &[NodeId],
) -> Result<Option<Vec<NodeId>>, AllocError>
    requires { nodes ≤ 255 }
    ensures targets { IfOk result (λ o. option_map (λ v. v.items) o
        ≡ targets_of nodes sources.now (option_map string_bytes given.now)) }
    ensures exist { IfOk result (λ o. IfSome o (λ v. All (λ s. s < nodes) v.items)) }
{
    match given {
        Some(text) => nodes_listed(alloc, text.as_bytes(), nodes),
        None => Ok(Some(all_but(alloc, nodes, sources)?)),
    }
}

/// Every node of the cluster that is none of the sources.
fn all_but(alloc: Global, nodes: u8, sources: &[NodeId]) -> Result<Vec<NodeId>, AllocError>
    requires { nodes ≤ 255 }
    ensures others { IfOk result (λ v. v.items ≡ all_but nodes sources.now) }
    ensures exist { IfOk result (λ v. All (λ s. s < nodes) v.items) }
{
    let mut found = Vec::new(alloc);
    for number in 0..nodes {
        let node = NodeId::of(number);
        if !is_one(sources, node) {
            found.push(node)?;
        }
    }
    Ok(found)
}

/// Whether the node is one of these.
pub(crate) fn is_one(nodes: &[NodeId], node: NodeId) -> bool
    ensures { result ≡ is_one nodes.now node }
{
    nodes.iter().any(|other| node == *other)
}
