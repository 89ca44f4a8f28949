ghost use Rattle.std.specs.Prelude.{◌≡◌, length, take, None, Some, IfOk, OnOk, OnErr, IsSome, option_map};
ghost use Rattle.std.specs.FinMap as finite;

use byte_texts::{Memory, Text, TextList};
use std::alloc::{AllocError, Global};
use std::collections::BTreeMap;
use std::marker::Model;
use std::mem;
use typed_values::Value;

mod entries;

/// Keys with their values, ordered by the keys' bytes: those of one slot.
pub struct SlotKeys {
    alloc: Global,
    map: BTreeMap<Vec<u8>, Value>,
}

/// Written out, so that a proof sees one call where such a value is dropped.
impl Drop for SlotKeys {
    fn drop(self) {
        let Self { alloc: _, map } = self;
        drop(map);
    }
}

impl Model for SlotKeys {
    ghost use Rattle.std.specs.FinMap as finite;
    ghost use Rattle.std.specs.Coded.{coded_list, coded_ℕ};
    ghost use Rattle.store_commands.specs.Store.{Store};
    ghost use Rattle.typed_values.specs.contracts.value.Value as value;

    ghost Value = { Store };

    ghost coded = { finite.code (coded_list coded_ℕ) value.the_row.coded };

    ghost use Rattle.slot_keyspace.specs.KeyspaceView.{HasKeys, store_of};

    ghost view = { λ k. store_of k.map.entries };

    ghost invariant = { λ k. HasKeys k.map.entries };
}

impl SlotKeys {
    /// No keys. Takes no memory.
    pub fn new(alloc: Global) -> Self
        ensures { result ≡ finite.empty }
    {
        Self {
            alloc,
            map: BTreeMap::new(alloc),
        }
    }

    pub fn get(&self, key: &[u8]) -> Option<&Value>
        ensures { option_map (λ v. v.now) result ≡ finite.get self.now key.now }
    {
        self.map.get(key)
    }

    /// Puts `value` in the place of the one at `key`, which is handed back. Takes no memory.
    pub fn exchange(&mut self, key: &[u8], value: Value) -> Value
        requires { IsSome (finite.get self.old key.now) }
        ensures old { finite.get self.old key.now ≡ Some result }
        ensures new { self.new ≡ finite.insert self.old key.now value }
    {
        let place = self.map.get_mut(key).unwrap();
        mem::replace(place, value)
    }

    /// Puts `value` at `key`, and hands back the one that stood there. Takes no memory where one stands there.
    pub fn put(&mut self, key: Text, value: Value) -> Result<Option<Value>, AllocError>
        ensures old { IfOk result (λ old. old ≡ finite.get self.old key) }
        ensures ok { OnOk result (self.new ≡ finite.insert self.old key value) }
        ensures err { OnErr result (self.new ≡ self.old) }
        ensures absent { OnErr result (finite.get self.old key ≡ None) }
    {
        Ok(self.map.insert(key.into_vec(), value)?)
    }

    /// Takes `key` out. Takes no memory.
    pub fn remove(&mut self, key: &[u8]) -> Option<Value>
        ensures old { result ≡ finite.get self.old key.now }
        ensures new { self.new ≡ finite.remove self.old key.now }
    {
        let _ = self.map.len();
        self.map.remove(key)
    }

    /// How many keys there are. Takes no memory.
    pub fn len(&self) -> usize
        ensures { result ≡ length (finite.keys self.now) }
    {
        self.map.len()
    }

    /// The first keys, in the order of their bytes, and no more than `count`.
    pub fn first_keys(&self, count: usize) -> Result<TextList, Memory>
        ensures { IfOk result (λ keys. keys ≡ take count (finite.keys self.now)) }
    {
        let mut found = TextList::new(self.alloc);
        for key in self.map.keys() {
            if found.len() == count {
                break;
            }
            found.push(Text::from_slice(self.alloc, key)?)?;
        }
        Ok(found)
    }
}
