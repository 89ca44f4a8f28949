ghost use Rattle.std.specs.Prelude.{◌≡◌, ◌∷◌, [], ◌≤◌, length, take, IfOk};
ghost use Rattle.slot_keyspace.specs.Batches.{HasEachKeyOnce, batch_of};
ghost use Rattle.slot_keyspace.specs.Listing.{keys_of};
ghost use Rattle.typed_values.specs.declared.value.Value.TheVariants as value;

use byte_texts::{Memory, Text};
use key_slots::Slot;
use slot_keyspace::Keyspace;
use std::alloc::Global;
use typed_values::Value;

/// A batch without a key.
#[tactic(auto, using(slot_keyspace::proofs::Distinct::few_are_once))]
pub fn empty_batch(alloc: Global) -> Vec<(Text, Value)>
    ensures empty { result.items ≡ [] }
    ensures once { HasEachKeyOnce result.items }
{
    Vec::new(alloc)
}

/// The key alone, with an empty text.
#[tactic(auto, using(slot_keyspace::proofs::Distinct::few_are_once))]
pub fn batch_of_one(alloc: Global, key: &[u8]) -> Result<Vec<(Text, Value)>, Memory>
    requires { length key.now ≤ 1048576 }
    ensures entry { IfOk result (λ v. v.items ≡ (key.now, value.Text []) ∷ []) }
    ensures once { IfOk result (λ v. HasEachKeyOnce v.items) }
{
    let mut batch = Vec::new(alloc);
    let key = Text::from_slice(alloc, key)?;
    batch.push((key, Value::Text(Text::empty(alloc))))?;
    Ok(batch)
}

/// Copies of the first keys of the slot with their values.
pub fn copied_batch(
    source: &Keyspace,
    slot: Slot,
    count: usize,
) -> Result<Vec<(Text, Value)>, Memory>
    ensures copies { IfOk result (λ v. v.items ≡ batch_of source.now (take count (keys_of source.now slot))) }
    ensures once { IfOk result (λ v. HasEachKeyOnce v.items) }
{
    let keys = source.keys_in(slot, count)?;
    source.copy_all(keys.get())
}
