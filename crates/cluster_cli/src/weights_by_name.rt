//! Weights for some of the nodes, each by its name: the others weigh 1.
ghost use Rattle.std.specs.Prelude.{◌≡◌, ◌≤◌, ◌<◌, IfOk, IfSome, None, length, map, option_map, replicate, unwrap_or};
ghost use Rattle.std.specs.List.{All};
ghost use Rattle.cluster_cli.specs.WeightsByName.{item_of, row_of, weights_of_some};

use crate::node_lists::node_in;
use byte_texts::{number_in, part_list, split_once};
use key_slots::NodeId;
use std::alloc::{AllocError, Global};

/// The weight of each node, where the text gives some nodes theirs, each once, as `n1=0,n2=2`.
pub(crate) fn weights_of_some(
    alloc: Global,
    text: &[u8],
    nodes: u8,
) -> Result<Option<Vec<u16>>, AllocError>
    ensures weights { IfOk result (λ o. option_map (λ v. v.items) o ≡ weights_of_some nodes text.now) }
    ensures one_each { IfOk result (λ o. IfSome o (λ v. length v.items ≡ nodes)) }
    ensures light { IfOk result (λ o. IfSome o (λ v. All (λ w. w ≤ 1000) v.items)) }
{
    let items = part_list(alloc, text, b',')?;
    match row_of(alloc, items.as_slice(), nodes)? {
        Some(row) => Ok(Some(or_ones(alloc, row.as_slice())?)),
        None => Ok(None),
    }
}

/// The weights that the items give to nodes of the cluster, where each gives one to a node that has none yet.
fn row_of(alloc: Global, items: &[&[u8]], nodes: u8) -> Result<Option<Vec<Option<u16>>>, AllocError>
    ensures row { IfOk result (λ o. option_map (λ v. v.items) o
        ≡ row_of nodes (replicate nodes None) (map (λ w. w.now) items.now)) }
    ensures one_each { IfOk result (λ o. IfSome o (λ v. length v.items ≡ nodes)) }
    ensures light { IfOk result (λ o. IfSome o (λ v. All (λ w. IfSome w (λ x. x ≤ 1000)) v.items)) }
{
    let mut row = Vec::new(alloc);
    row.resize(usize::from(nodes), None)?;
    for item in items {
        let Some((node, weight)) = item_of(item, nodes) else {
            return Ok(None);
        };
        let place = usize::from(node.get());
        if row[place].is_some() {
            return Ok(None);
        }
        row[place] = Some(weight);
    }
    Ok(Some(row))
}

/// The node of the cluster that the item names, and the weight that it gives to it.
pub(crate) fn item_of(item: &[u8], nodes: u8) -> Option<(NodeId, u16)>
    ensures value { result ≡ item_of nodes item.now }
    ensures exists { IfSome result (λ p. p.0 < nodes) }
    ensures light { IfSome result (λ p. p.1 ≤ 1000) }
{
    let (name, weight) = split_once(item, b'=')?;
    let node = node_in(name, nodes)?;
    let weight = number_in(weight, 0, 1_000)?;
    Some((node, weight as u16))
}

/// The weights, each 1 where the row has none.
fn or_ones(alloc: Global, row: &[Option<u16>]) -> Result<Vec<u16>, AllocError>
    ensures { IfOk result (λ v. v.items ≡ map (λ w. unwrap_or w 1) row.now) }
{
    row.iter().map(|weight| weight.unwrap_or(1)).collect(alloc)
}
