ghost use Rattle.std.specs.Prelude.{◌≡◌, [], ◌∷◌, length, IfOk};

use byte_texts::Text;
use std::alloc::{AllocError, Global};
use std::marker::Model;

/// The two keys of a command that moves something from the first to the second. They may be equal.
pub struct KeyPair {
    keys: [Text; 2],
}

/// Written out, so that a proof sees one call where such a value is dropped.
impl Drop for KeyPair {
    fn drop(self) {
        let Self { keys } = self;
        drop(keys);
    }
}

impl Model for KeyPair {
    ghost use Rattle.std.specs.Prelude.{◌≡◌, List, ℕ, length};

    ghost Value = { List (List ℕ) };

    ghost view = { λ p. p.keys };

    ghost invariant = { λ p. length p.keys ≡ 2 };
}

impl KeyPair {
    /// The pair of these keys, which are not copied.
    pub fn new(from: Text, to: Text) -> Self
        ensures { result ≡ from ∷ to ∷ [] }
    {
        Self { keys: [from, to] }
    }

    /// Both keys, in order.
    pub fn get(&self) -> &[Text]
        ensures value { result.now ≡ self.now }
        ensures count { length result.now ≡ 2 }
    {
        &self.keys
    }

    /// The key that is moved from, and the key that is moved to.
    pub fn both(&self) -> (&Text, &Text)
        ensures { self.now ≡ result.0.now ∷ result.1.now ∷ [] }
    {
        let [from, to] = &self.keys;
        (from, to)
    }

    /// An equal pair of its own.
    pub fn try_copy(&self, alloc: Global) -> Result<Self, AllocError>
        ensures { IfOk result (λ p. p ≡ self.now) }
    {
        let [from, to] = &self.keys;
        Ok(Self {
            keys: [from.try_copy(alloc)?, to.try_copy(alloc)?],
        })
    }

    /// Gives back the room beyond the two keys.
    pub(crate) fn shrink_to_fit(&mut self)
        ensures { self.new ≡ self.old }
    {
        for key in self.keys.iter_mut() {
            key.shrink_to_fit();
        }
    }
}
