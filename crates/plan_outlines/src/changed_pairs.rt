//! What moves from one node to another.
ghost use Rattle.std.specs.Prelude.{◌≡◌, ◌*◌, ◌<◌, IfOk, OnOk, [], ◌∷◌, ◌++◌, cond, length};
ghost use Rattle.std.specs.List.{All};
ghost use Rattle.std.specs.List.Sorted.{IsPermutation, IsSorted};
ghost use Rattle.plan_outlines.specs.Pairs.{is_move, moved_pairs, moving, moving_from, pair_cmp, pair_in};

use crate::counting::{counts_of_pairs, keys_of_pairs, pair_place};
use crate::pairs::PairChange;
use byte_texts::Memory;
use key_slots::NodeId;
use std::alloc::Global;
use std::cmp::Reverse;

/// The pairs of different nodes, of so many, where slots are the source's in the first table and the target's in the
/// second: those with the most slots first, and equal ones by source and then by target. Each has the number of these
/// slots and the sum of their keys, where `keys` has the number of keys of each slot, from slot 0 on; a slot past its
/// end counts as empty.
pub fn pair_changes(
    alloc: Global,
    nodes: u8,
    before: &[NodeId],
    after: &[NodeId],
    keys: &[u32],
) -> Result<Vec<PairChange>, Memory>
    requires before { length before.now ≡ 16384 }
    requires after { length after.now ≡ 16384 }
    requires named_before { All (λ n. n < nodes) before.now }
    requires named_after { All (λ n. n < nodes) after.now }
    ensures pairs { IfOk result
        (λ v. IsPermutation (moved_pairs nodes before.now after.now keys.now) v.items) }
    ensures sorted { IfOk result (λ v. IsSorted pair_cmp v.items) }
{
    let slots = counts_of_pairs(alloc, nodes, before, after)?;
    let keys = keys_of_pairs(alloc, nodes, before, after, keys)?;
    let mut pairs = moving_pairs(alloc, nodes, slots.as_slice(), keys.as_slice())?;
    sort_pairs(&mut pairs);
    Ok(pairs)
}

/// Most slots first, and then by source and by target.
fn sort_pairs(pairs: &mut Vec<PairChange>)
    ensures pairs { IsPermutation pairs.old.items pairs.new.items }
    ensures sorted { IsSorted pair_cmp pairs.new.items }
{
    pairs.as_mut_slice().sort_unstable_by_key(
        |pair: &PairChange| -> (Reverse<u32>, u8, u8)
            ensures { result ≡ (record { 0 = pair.now.slots }, pair.now.source, pair.now.target) }
        { (Reverse(pair.slots), pair.source.get(), pair.target.get()) },
    );
}

/// The pairs between which slots move, by source and then by target, where the tables have the slots and the keys of
/// each pair.
fn moving_pairs(
    alloc: Global,
    nodes: u8,
    slots: &[u32],
    keys: &[u64],
) -> Result<Vec<PairChange>, Memory>
    requires slots { length slots.now ≡ nodes * nodes }
    requires keys { length keys.now ≡ nodes * nodes }
    ensures { IfOk result (λ v. v.items ≡ moving (pair_in nodes slots.now keys.now) nodes) }
{
    let mut pairs = Vec::new(alloc);
    for source in 0..nodes {
        put_pairs_from(&mut pairs, nodes, NodeId::of(source), slots, keys)?;
    }
    Ok(pairs)
}

/// Puts the pairs of this source between which slots move at the end.
fn put_pairs_from(
    pairs: &mut Vec<PairChange>,
    nodes: u8,
    source: NodeId,
    slots: &[u32],
    keys: &[u64],
) -> Result<(), Memory>
    requires source { source < nodes }
    requires slots { length slots.now ≡ nodes * nodes }
    requires keys { length keys.now ≡ nodes * nodes }
    ensures { OnOk result
        (pairs.new.items ≡ pairs.old.items ++ moving_from (pair_in nodes slots.now keys.now source) nodes) }
{
    for number in 0..nodes {
        let target = NodeId::of(number);
        let place = pair_place(nodes, source, target);
        let pair = PairChange {
            source,
            target,
            slots: slots[place],
            keys: keys[place],
        };
        put_moving(pairs, pair)?;
    }
    Ok(())
}

/// Puts the pair at the end, if slots move.
fn put_moving(pairs: &mut Vec<PairChange>, pair: PairChange) -> Result<(), Memory>
    ensures { OnOk result (pairs.new.items ≡ pairs.old.items ++ cond (is_move pair) (pair ∷ []) []) }
{
    if pair.source == pair.target {
        return Ok(());
    }
    if pair.slots == 0 {
        return Ok(());
    }
    pairs.push(pair)?;
    Ok(())
}
