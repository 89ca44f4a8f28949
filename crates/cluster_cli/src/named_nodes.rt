//! What the words of a command that plans name: nodes of the cluster, and a weight for each.
ghost use Rattle.std.specs.Prelude.{◌≡◌, ◌≤◌, ◌<◌, IfOk, IfSome, length, option_map, replicate};
ghost use Rattle.std.specs.List.{All};
ghost use Rattle.cluster_cli.specs.NodeLists.{nodes_named, weights_named};

use crate::node_lists::{node_in, sources_in, weights_in};
use command_words::{RebalanceWords, ReshardWords};
use key_slots::NodeId;
use std::alloc::{AllocError, Global};

/// The nodes that give slots and the node that takes them, where the words name nodes of a cluster of so many.
pub fn nodes_named(
    words: &ReshardWords,
    alloc: Global,
    nodes: u8,
) -> Result<Option<(Vec<NodeId>, NodeId)>, AllocError>
    requires { nodes ≤ 255 }
    ensures named { IfOk result (λ o. option_map (λ p. (p.0.items, p.1)) o ≡ nodes_named nodes words.now) }
    ensures exist { IfOk result (λ o. IfSome o (λ p. All (λ s. s < nodes) p.0.items)) }
    ensures exists { IfOk result (λ o. IfSome o (λ p. p.1 < nodes)) }
{
    let Some(target) = node_in(words.to.as_bytes(), nodes) else {
        return Ok(None);
    };
    match sources_in(alloc, words.from.as_bytes(), nodes, target)? {
        Some(sources) => Ok(Some((sources, target))),
        None => Ok(None),
    }
}

/// The weight that the words give to each node of a cluster of so many, or 1.
pub(crate) fn weights_named(
    words: &RebalanceWords,
    alloc: Global,
    nodes: u8,
) -> Result<Option<Vec<u16>>, AllocError>
    ensures weights { IfOk result (λ o. option_map (λ v. v.items) o ≡ weights_named nodes words.now) }
    ensures one_each { IfOk result (λ o. IfSome o (λ v. length v.items ≡ nodes)) }
    ensures light { IfOk result (λ o. IfSome o (λ v. All (λ w. w ≤ 1000) v.items)) }
{
    match &words.weights {
        Some(text) => weights_in(alloc, text.as_bytes(), nodes),
        None => Ok(Some(ones(alloc, nodes)?)),
    }
}

/// A weight of 1 for each node.
fn ones(alloc: Global, nodes: u8) -> Result<Vec<u16>, AllocError>
    ensures { IfOk result (λ v. v.items ≡ replicate nodes 1) }
{
    let mut weights = Vec::new(alloc);
    weights.resize(usize::from(nodes), 1)?;
    Ok(weights)
}
