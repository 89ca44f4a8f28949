//! Lists in words: nodes and weights, with commas between them.
ghost use Rattle.std.specs.Prelude.{◌≡◌, ◌≤◌, ◌<◌, IfOk, IfSome, codes, length, map, option_map};
ghost use Rattle.std.specs.List.{All};
ghost use Rattle.byte_texts.specs.Decimals.{number_in};
ghost use Rattle.cluster_cli.specs.NodeLists.{all_read, node_of, others, sources_of, weights_of};

use byte_texts::{number_in, part_list};
use key_slots::{MAX_NODES, NodeId};
use std::alloc::{AllocError, Global};

/// The nodes that give slots: `all`, which is every node but the target, or nodes with commas between them.
pub(crate) fn sources_in(
    alloc: Global,
    text: &[u8],
    nodes: u8,
    target: NodeId,
) -> Result<Option<Vec<NodeId>>, AllocError>
    requires { nodes ≤ 255 }
    ensures sources { IfOk result (λ o. option_map (λ v. v.items) o ≡ sources_of nodes target text.now) }
    ensures exist { IfOk result (λ o. IfSome o (λ v. All (λ s. s < nodes) v.items)) }
{
    if text == b"all".as_slice() {
        Ok(Some(others(alloc, nodes, target)?))
    } else {
        let words = part_list(alloc, text, b',')?;
        nodes_in(alloc, words.as_slice(), nodes)
    }
}

/// One weight for each node, with commas between them.
pub(crate) fn weights_in(
    alloc: Global,
    text: &[u8],
    nodes: u8,
) -> Result<Option<Vec<u16>>, AllocError>
    ensures weights { IfOk result (λ o. option_map (λ v. v.items) o ≡ weights_of nodes text.now) }
    ensures one_each { IfOk result (λ o. IfSome o (λ v. length v.items ≡ nodes)) }
    ensures light { IfOk result (λ o. IfSome o (λ v. All (λ w. w ≤ 1000) v.items)) }
{
    let words = part_list(alloc, text, b',')?;
    match numbers_in(alloc, words.as_slice())? {
        Some(weights) if weights.len() == usize::from(nodes) => Ok(Some(weights)),
        _ => Ok(None),
    }
}

/// The node of the cluster that the word names.
pub(crate) fn node_in(word: &[u8], nodes: u8) -> Option<NodeId>
    ensures node { result ≡ node_of nodes word.now }
    ensures exists { IfSome result (λ n. n < nodes) }
{
    let node = NodeId::parse_among(MAX_NODES, word)?;
    if node.get() < nodes { Some(node) } else { None }
}

/// Every node of the cluster but the target.
fn others(alloc: Global, nodes: u8, target: NodeId) -> Result<Vec<NodeId>, AllocError>
    requires { nodes ≤ 255 }
    ensures others { IfOk result (λ v. v.items ≡ others nodes target) }
    ensures exist { IfOk result (λ v. All (λ s. s < nodes) v.items) }
{
    let mut found = Vec::new(alloc);
    for number in 0..nodes {
        let node = NodeId::of(number);
        if node != target {
            found.push(node)?;
        }
    }
    Ok(found)
}

/// The nodes that the words name, where each names one of the cluster.
pub(crate) fn nodes_in(
    alloc: Global,
    words: &[&[u8]],
    nodes: u8,
) -> Result<Option<Vec<NodeId>>, AllocError>
    ensures nodes { IfOk result (λ o. option_map (λ v. v.items) o
        ≡ all_read (node_of nodes) (map (λ w. w.now) words.now)) }
    ensures exist { IfOk result (λ o. IfSome o (λ v. All (λ s. s < nodes) v.items)) }
{
    let mut found = Vec::new(alloc);
    for word in words {
        let Some(node) = node_in(word, nodes) else {
            return Ok(None);
        };
        found.push(node)?;
    }
    Ok(Some(found))
}

/// The weights that the words write, where each writes one.
fn numbers_in(alloc: Global, words: &[&[u8]]) -> Result<Option<Vec<u16>>, AllocError>
    ensures numbers { IfOk result (λ o. option_map (λ v. v.items) o
        ≡ all_read (number_in 0 1000) (map (λ w. w.now) words.now)) }
    ensures light { IfOk result (λ o. IfSome o (λ v. All (λ w. w ≤ 1000) v.items)) }
{
    let mut found = Vec::new(alloc);
    for word in words {
        let Some(number) = number_in(word, 0, 1_000) else {
            return Ok(None);
        };
        found.push(number as u16)?;
    }
    Ok(Some(found))
}
