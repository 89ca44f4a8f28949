//! Tables that count.
ghost use Rattle.std.specs.Prelude.{◌≡◌, ◌+◌, ◌*◌, ◌≤◌, ◌<◌, IfOk, ℕ, length, slice_index};
ghost use Rattle.std.specs.List.{All};
ghost use Rattle.plan_outlines.specs.Nodes.{held};
ghost use Rattle.plan_outlines.specs.Pairs.{pair_keys, pair_slots};

use byte_texts::Memory;
use key_slots::NodeId;
use std::alloc::Global;

/// How many slots each of so many nodes owns, from node 0 on.
pub fn counts_of_nodes(alloc: Global, nodes: u8, owners: &[NodeId]) -> Result<Vec<u32>, Memory>
    requires width { length owners.now ≡ 16384 }
    requires named { All (λ n. n < nodes) owners.now }
    ensures width { IfOk result (λ v. length v.items ≡ nodes) }
    ensures counts { IfOk result (λ v. (k : ℕ) → k < nodes → slice_index v.items k ≡ held owners.now k) }
{
    let mut counts = vec![in alloc; 0u32; usize::from(nodes)]?;
    for owner in owners {
        counts[usize::from(owner.get())] += 1;
    }
    Ok(counts)
}

/// Where a table of the pairs of so many nodes has this pair.
pub fn pair_place(nodes: u8, source: NodeId, target: NodeId) -> usize
    requires source { source < nodes }
    requires target { target < nodes }
    ensures value { result ≡ source * nodes + target }
    ensures within { result < nodes * nodes }
{
    usize::from(source.get()) * usize::from(nodes) + usize::from(target.get())
}

/// How many slots are the source's before and the target's after, by the places of the pairs.
pub fn counts_of_pairs(
    alloc: Global,
    nodes: u8,
    before: &[NodeId],
    after: &[NodeId],
) -> Result<Vec<u32>, Memory>
    requires before { length before.now ≡ 16384 }
    requires after { length after.now ≡ 16384 }
    requires named_before { All (λ n. n < nodes) before.now }
    requires named_after { All (λ n. n < nodes) after.now }
    ensures width { IfOk result (λ v. length v.items ≡ nodes * nodes) }
    ensures counts { IfOk result
        (λ v. (s : ℕ) (t : ℕ) → s < nodes → t < nodes
        → slice_index v.items (s * nodes + t) ≡ pair_slots before.now after.now s t) }
{
    let mut counts = vec![in alloc; 0u32; usize::from(nodes) * usize::from(nodes)]?;
    for slot in 0..before.len() {
        let place = pair_place(nodes, before[slot], after[slot]);
        counts[place] += 1;
    }
    Ok(counts)
}

/// How many keys these slots have, by the places of the pairs.
pub fn keys_of_pairs(
    alloc: Global,
    nodes: u8,
    before: &[NodeId],
    after: &[NodeId],
    keys: &[u32],
) -> Result<Vec<u64>, Memory>
    requires before { length before.now ≡ 16384 }
    requires after { length after.now ≡ 16384 }
    requires named_before { All (λ n. n < nodes) before.now }
    requires named_after { All (λ n. n < nodes) after.now }
    ensures width { IfOk result (λ v. length v.items ≡ nodes * nodes) }
    ensures counts { IfOk result
        (λ v. (s : ℕ) (t : ℕ) → s < nodes → t < nodes
        → slice_index v.items (s * nodes + t) ≡ pair_keys keys.now before.now after.now s t) }
{
    let mut counts = vec![in alloc; 0u64; usize::from(nodes) * usize::from(nodes)]?;
    for slot in 0..before.len() {
        let place = pair_place(nodes, before[slot], after[slot]);
        counts[place] += u64::from(keys_at(keys, slot));
    }
    Ok(counts)
}

/// How many keys the slot has: none where the table ends before it.
fn keys_at(keys: &[u32], slot: usize) -> u32
    ensures { result ≡ slice_index keys.now slot }
{
    keys.get(slot).copied().unwrap_or(0)
}
