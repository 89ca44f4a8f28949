//! What each node has before and after.
ghost use Rattle.std.specs.Prelude.{◌≡◌, ◌<◌, IfOk, length};
ghost use Rattle.std.specs.List.{All};
ghost use Rattle.plan_outlines.specs.Nodes.{changes_of_nodes};

use crate::counting::counts_of_nodes;
use crate::nodes::NodeChange;
use byte_texts::Memory;
use key_slots::NodeId;
use std::alloc::Global;

/// How many slots each of so many nodes has in the first table and in the second, from node 0 on.
pub fn node_changes(
    alloc: Global,
    nodes: u8,
    before: &[NodeId],
    after: &[NodeId],
) -> Result<Vec<NodeChange>, Memory>
    requires before { length before.now ≡ 16384 }
    requires after { length after.now ≡ 16384 }
    requires named_before { All (λ n. n < nodes) before.now }
    requires named_after { All (λ n. n < nodes) after.now }
    ensures { IfOk result (λ v. v.items ≡ changes_of_nodes nodes before.now after.now) }
{
    let held = counts_of_nodes(alloc, nodes, before)?;
    let then = counts_of_nodes(alloc, nodes, after)?;
    let mut changes = Vec::new(alloc);
    for number in 0..nodes {
        changes.push(NodeChange {
            node: NodeId::of(number),
            before: held[usize::from(number)],
            after: then[usize::from(number)],
        })?;
    }
    Ok(changes)
}
