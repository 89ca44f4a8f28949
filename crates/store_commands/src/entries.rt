ghost use Rattle.std.specs.Prelude.{◌≡◌, Some, OnOk, OnErr, option_map, IsSome};
ghost use Rattle.std.specs.FinMap as finite;
ghost use Rattle.store_commands.specs.Store.{Store, after_writes, HasDistinctKeys};

use byte_texts::Text;
use std::alloc::AllocError;
use typed_values::Value;

/// A finite map from keys to values, which several writes change together or not at all.
pub trait Entries {
    ghost entries: { Self → Store };

    /// The value at `key`.
    fn get(&self, key: &[u8]) -> Option<&Value>
        ensures { option_map (λ v. v.now) result ≡ finite.get (entries self.now) key.now };

    /// Puts each value at its key, and takes a key with none out: all or nothing.
    fn write_all(&mut self, writes: Vec<(Text, Option<Value>)>) -> Result<(), AllocError>
        requires { HasDistinctKeys writes.items }
        ensures ok { OnOk result (entries self.new ≡ after_writes (entries self.old) writes.items) }
        ensures err { OnErr result (entries self.new ≡ entries self.old) };

    /// Puts `value` at `key`, or nothing.
    fn put(&mut self, key: Text, value: Value) -> Result<(), AllocError>
        ensures ok { OnOk result (entries self.new ≡ finite.insert (entries self.old) key value) }
        ensures err { OnErr result (entries self.new ≡ entries self.old) };

    /// Puts `value` in the place of the one at `key`, which is handed back. Takes no memory,
    /// so a large value can be taken out, changed and put back with no copy.
    fn exchange(&mut self, key: &[u8], value: Value) -> Value
        requires { IsSome (finite.get (entries self.old) key.now) }
        ensures old { finite.get (entries self.old) key.now ≡ Some result }
        ensures new { entries self.new ≡ finite.insert (entries self.old) key.now value };

    /// Takes `key` out. Takes no memory.
    fn remove(&mut self, key: &[u8]) -> Option<Value>
        ensures old { result ≡ finite.get (entries self.old) key.now }
        ensures new { entries self.new ≡ finite.remove (entries self.old) key.now };
}
