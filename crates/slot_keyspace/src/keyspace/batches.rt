ghost use Rattle.std.specs.Prelude.{◌≡◌, ◌<◌, IfOk, OnOk, OnErr, length, map, Some};
ghost use Rattle.store_commands.specs.Effects.{without};
ghost use Rattle.slot_keyspace.specs.Batches.{batch_of, with_entries, HasEachKeyOnce};

use crate::keyspace::Keyspace;
use crate::writing::{remove_each, write_each};
use byte_texts::{Memory, Text};
use std::alloc::Global;
use typed_values::Value;

impl Keyspace {
    /// KeyspaceExact: those of the keys at which something stands, in their order, with what stands there. Nothing is
    /// copied, and that nothing stands at any of them takes no memory.
    pub fn entries_at<'a>(&'a self, keys: &'a [Text]) -> Result<Vec<(&'a Text, &'a Value)>, Memory>
        ensures entries { IfOk result
            (λ batch. map (λ e. (e.0.now, e.1.now)) batch.items ≡ batch_of self.now keys.now) }
        ensures memory { OnErr result (0 < length (batch_of self.now keys.now)) }
    {
        let mut batch = Vec::new(self.alloc);
        for key in keys {
            if let Some(value) = self.get(key.get()) {
                batch.push((key, value))?;
            }
        }
        Ok(batch)
    }

    /// Copies of those of the keys at which something stands, in their order, with what stands there.
    pub fn copy_all(&self, keys: &[Text]) -> Result<Vec<(Text, Value)>, Memory>
        ensures { IfOk result (λ batch. batch.items ≡ batch_of self.now keys.now) }
    {
        let batch = self.entries_at(keys)?;
        let mut copies = Vec::with_capacity(self.alloc, batch.len())?;
        for item in batch.as_slice() {
            let (key, value) = *item;
            copies.push((key.try_copy(self.alloc)?, value.try_copy(self.alloc)?))?;
        }
        Ok(copies)
    }

    /// Takes the keys out, where they stand. Takes no memory.
    pub fn remove_all(&mut self, keys: &[Text])
        ensures { self.new ≡ without self.old keys.now }
    {
        remove_each(self, keys);
    }

    /// KeyspaceExact: puts each value at its key, in the place of what stands there, or leaves all as it is.
    pub fn put_all(&mut self, batch: Vec<(Text, Value)>) -> Result<(), Memory>
        requires { HasEachKeyOnce batch.items }
        ensures ok { OnOk result (self.new ≡ with_entries self.old batch.items) }
        ensures err { OnErr result (self.new ≡ self.old) }
    {
        let writes = writes_of(self.alloc, batch)?;
        write_each(self.alloc, self, writes)
    }
}

fn writes_of(alloc: Global, batch: Vec<(Text, Value)>) -> Result<Vec<(Text, Option<Value>)>, Memory>
    ensures { IfOk result (λ writes. writes.items ≡ map (λ e. (e.0, Some e.1)) batch.items) }
{
    batch
        .into_iter()
        .map(|(key, value)| (key, Some(value)))
        .collect(alloc)
}
