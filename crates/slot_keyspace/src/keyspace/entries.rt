//! The keys of all slots as entries.
use crate::key_map::KeyMap;
use crate::keyspace::Keyspace;
use crate::writing::write_each;
use byte_texts::Text;
use std::alloc::AllocError;
use store_commands::Entries;
use typed_values::Value;

impl KeyMap for Keyspace {
    ghost store = { λ k. k };

    fn put(&mut self, key: Text, value: Value) -> Result<Option<Value>, AllocError> {
        self.put(key, value)
    }

    fn exchange(&mut self, key: &[u8], value: Value) -> Value {
        self.exchange(key, value)
    }

    fn remove(&mut self, key: &[u8]) -> Option<Value> {
        self.remove(key)
    }
}

impl Entries for Keyspace {
    ghost entries = { λ k. k };

    fn get(&self, key: &[u8]) -> Option<&Value> {
        self.get(key)
    }

    fn write_all(&mut self, writes: Vec<(Text, Option<Value>)>) -> Result<(), AllocError> {
        write_each(self.alloc, self, writes)
    }

    fn put(&mut self, key: Text, value: Value) -> Result<(), AllocError> {
        drop(self.put(key, value)?);
        Ok(())
    }

    fn exchange(&mut self, key: &[u8], value: Value) -> Value {
        self.exchange(key, value)
    }

    fn remove(&mut self, key: &[u8]) -> Option<Value> {
        self.remove(key)
    }
}
