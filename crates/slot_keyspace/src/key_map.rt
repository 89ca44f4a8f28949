ghost use Rattle.std.specs.Prelude.{◌≡◌, Some, IfOk, OnOk, OnErr, IsSome};
ghost use Rattle.std.specs.FinMap as finite;
ghost use Rattle.store_commands.specs.Store.{Store};

use byte_texts::Text;
use std::alloc::AllocError;
use typed_values::Value;

/// Keys with their values, changed at one key at a time: those of one slot, or of all slots.
pub trait KeyMap {
    ghost store: { Self → Store };

    /// Puts `value` at `key`, and hands back the one that stood there.
    fn put(&mut self, key: Text, value: Value) -> Result<Option<Value>, AllocError>
        ensures old { IfOk result (λ old. old ≡ finite.get (store self.old) key) }
        ensures ok { OnOk result (store self.new ≡ finite.insert (store self.old) key value) }
        ensures err { OnErr result (store self.new ≡ store self.old) };

    /// Puts `value` in the place of the one at `key`, which is handed back. Takes no memory.
    fn exchange(&mut self, key: &[u8], value: Value) -> Value
        requires { IsSome (finite.get (store self.old) key.now) }
        ensures old { finite.get (store self.old) key.now ≡ Some result }
        ensures new { store self.new ≡ finite.insert (store self.old) key.now value };

    /// Takes `key` out. Takes no memory.
    fn remove(&mut self, key: &[u8]) -> Option<Value>
        ensures old { result ≡ finite.get (store self.old) key.now }
        ensures new { store self.new ≡ finite.remove (store self.old) key.now };
}
