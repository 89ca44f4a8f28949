ghost use Rattle.std.specs.Prelude.{◌≡◌, ◌<◌, Some, IfOk, OnOk, OnErr, IsSome, option_map};
ghost use Rattle.std.specs.FinMap as finite;
ghost use Rattle.key_slots.specs.HashSlot.{slot_of};
ghost use Rattle.slot_keyspace.specs.Union.{empty_maps};

use crate::slot_keys::SlotKeys;
use byte_texts::{Memory, Text};
use key_slots::{SLOTS, slot_of};
use std::alloc::{AllocError, Global};
use std::marker::Model;
use typed_values::Value;

mod batches;
mod commands;
mod entries;
mod listing;

/// The keys of a node with their values: an ordered map for each slot, made at once, so that a listing, a count and a
/// batch cost what their slot holds.
pub struct Keyspace {
    alloc: Global,
    slots: Vec<SlotKeys>,
}

/// Written out, so that a proof sees one call where such a value is dropped.
impl Drop for Keyspace {
    fn drop(self) {
        let Self { alloc: _, slots } = self;
        drop(slots);
    }
}

impl Model for Keyspace {
    ghost use Rattle.std.specs.FinMap as finite;
    ghost use Rattle.std.specs.Coded.{coded_list, coded_ℕ};
    ghost use Rattle.store_commands.specs.Store.{Store};
    ghost use Rattle.typed_values.specs.contracts.value.Value as value;

    ghost Value = { Store };

    ghost coded = { finite.code (coded_list coded_ℕ) value.the_row.coded };

    ghost use Rattle.slot_keyspace.specs.Union.{AreBySlot, union_of};

    ghost view = { λ k. union_of k.slots.items };

    ghost invariant = { λ k. AreBySlot k.slots.items };
}

impl Keyspace {
    /// No keys, with an empty map for each slot.
    pub fn new(alloc: Global) -> Result<Self, Memory>
        ensures { IfOk result (λ k. k ≡ finite.empty) }
    {
        let slots = empty_slots(alloc)?;
        Ok(Self { alloc, slots })
    }

    /// The value of the key, if it is there.
    pub fn get(&self, key: &[u8]) -> Option<&Value>
        ensures { option_map (λ v. v.now) result ≡ finite.get self.now key.now }
    {
        self.slots[place_of(key)].get(key)
    }

    /// Puts `value` in the place of the one at `key`, which is handed back.
    fn exchange(&mut self, key: &[u8], value: Value) -> Value
        requires { IsSome (finite.get self.old key.now) }
        ensures old { finite.get self.old key.now ≡ Some result }
        ensures new { self.new ≡ finite.insert self.old key.now value }
    {
        let place = place_of(key);
        self.slots[place].exchange(key, value)
    }

    fn remove(&mut self, key: &[u8]) -> Option<Value>
        ensures old { result ≡ finite.get self.old key.now }
        ensures new { self.new ≡ finite.remove self.old key.now }
    {
        let place = place_of(key);
        self.slots[place].remove(key)
    }

    /// Puts `value` at `key`, and hands back the one that stood there.
    fn put(&mut self, key: Text, value: Value) -> Result<Option<Value>, AllocError>
        ensures old { IfOk result (λ old. old ≡ finite.get self.old key) }
        ensures ok { OnOk result (self.new ≡ finite.insert self.old key value) }
        ensures err { OnErr result (self.new ≡ self.old) }
    {
        let place = place_of(key.get());
        self.slots[place].put(key, value)
    }
}

/// The place of the key's slot.
fn place_of(key: &[u8]) -> usize
    ensures value { result ≡ slot_of key.now }
    ensures within { result < 16384 }
{
    usize::from(slot_of(key).get())
}

#[tactic(auto, using(crate::proofs::Union::one_more_empty))]
fn empty_slots(alloc: Global) -> Result<Vec<SlotKeys>, Memory>
    ensures { IfOk result (λ v. v.items ≡ empty_maps 16384) }
{
    let mut slots = Vec::with_capacity(alloc, SLOTS)?;
    for _ in 0..SLOTS {
        slots.push(SlotKeys::new(alloc))?;
    }
    Ok(slots)
}
