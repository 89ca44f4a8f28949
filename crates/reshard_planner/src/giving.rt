ghost use Rattle.std.specs.Prelude.{◌≡◌, ℕ, ◌≤◌, ◌++◌, IfOk, List, OnOk, length, map, replicate, slice_index, take};
ghost use Rattle.reshard_planner.specs.Sums.{sum_below};
ghost use Rattle.reshard_planner.specs.Starts.{AreSlotsOf};
ghost use Rattle.reshard_planner.specs.Transfers.{slots_given, transfers_between, nodes_taking, transfers};

use crate::held::PerNode;
use crate::slot_list::{SlotList, slots_by_node};
use crate::transfer::Transfer;
use byte_texts::Memory;
use key_slots::{NodeId, OwnerTable, Slot};
use std::alloc::Global;

/// Which slots go from which node to which, where each node gives and takes so many.
pub(crate) fn transfers(
    alloc: Global,
    owners: &OwnerTable,
    gives: &PerNode,
    takes: &PerNode,
) -> Result<Vec<Transfer>, Memory>
    ensures { IfOk result (λ v. v.items ≡ transfers owners.now.owners (λ node. slice_index gives.now node)
        (λ node. slice_index takes.now node) owners.now.nodes) }
{
    let nodes = owners.nodes();
    let lists = slots_by_node(alloc, owners)?;
    let slots_given = slots_given(alloc, lists.as_slice(), gives, nodes)?;
    let targets = nodes_taking(alloc, takes, nodes)?;
    transfers_between(alloc, slots_given.as_slice(), targets.as_slice())
}

/// The slots that are given and the nodes that take them, in order.
fn transfers_between(
    alloc: Global,
    slots_given: &[(Slot, NodeId)],
    targets: &[NodeId],
) -> Result<Vec<Transfer>, Memory>
    ensures { IfOk result (λ v. v.items ≡ transfers_between slots_given.now targets.now) }
{
    let mut transfers = Vec::new(alloc);
    for place in 0..slots_given.len().min(targets.len()) {
        let (slot, source) = slots_given[place];
        transfers.push(Transfer {
            slot,
            source,
            target: targets[place],
        })?;
    }
    Ok(transfers)
}

/// The slots that are given, each with its node: the lowest ones of each node.
fn slots_given(
    alloc: Global,
    lists: &[SlotList],
    gives: &PerNode,
    nodes: u8,
) -> Result<Vec<(Slot, NodeId)>, Memory>
    requires lists { length lists.now ≡ nodes }
    ensures { (owners : List ℕ) → AreSlotsOf nodes owners lists.now
        → IfOk result (λ v. v.items ≡ slots_given owners (λ node. slice_index gives.now node) nodes) }
{
    let mut slots_given = Vec::new(alloc);
    for node in 0..nodes {
        let slots = lists[usize::from(node)].lowest(gives[usize::from(node)]);
        give(&mut slots_given, slots, NodeId::of(node))?;
    }
    Ok(slots_given)
}

/// Puts the node's slots at the end.
fn give(slots_given: &mut Vec<(Slot, NodeId)>, slots: &[Slot], node: NodeId) -> Result<(), Memory>
    ensures { OnOk result (slots_given.new.items ≡ slots_given.old.items ++ map (λ s. (s, node)) slots.now) }
{
    for slot in slots {
        slots_given.push((*slot, node))?;
    }
    Ok(())
}

/// The nodes that take slots, each as many times as it takes one.
fn nodes_taking(alloc: Global, takes: &PerNode, nodes: u8) -> Result<Vec<NodeId>, Memory>
    ensures { IfOk result (λ v. v.items ≡ nodes_taking (λ node. slice_index takes.now node) nodes) }
{
    let mut targets = Vec::new(alloc);
    for node in 0..nodes {
        list(&mut targets, NodeId::of(node), takes[usize::from(node)])?;
    }
    Ok(targets)
}

/// Puts the node at the end, so many times.
fn list(targets: &mut Vec<NodeId>, node: NodeId, times: usize) -> Result<(), Memory>
    ensures { OnOk result (targets.new.items ≡ targets.old.items ++ replicate times node) }
{
    for _ in 0..times {
        targets.push(node)?;
    }
    Ok(())
}
