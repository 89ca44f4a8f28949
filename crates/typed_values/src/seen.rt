//! The names that were read so far.
ghost use Rattle.std.specs.Prelude.{◌≡◌, [], IfOk, OnOk, OnErr};
ghost use Rattle.typed_values.specs.Members.{has, with_member};

use indexmap::IndexSet;
use std::alloc::{AllocError, Global};
use std::marker::Model;

/// The names that were read so far, which are not copied.
#[derive(Drop)]
pub struct NamesSeen<'b> {
    set: IndexSet<&'b [u8]>,
}

impl<'b> Model for NamesSeen<'b> {
    ghost use Rattle.std.specs.Prelude.{List, ℕ, map};

    ghost Value = { List (List ℕ) };

    ghost view = { λ n. map (λ b. b.now) n.set.keys };
}

impl<'b> NamesSeen<'b> {
    /// No name; it takes no memory.
    pub fn new(alloc: Global) -> Self
        ensures { result ≡ [] }
    {
        Self {
            set: IndexSet::new(alloc),
        }
    }

    /// Puts a new name last, and answers whether it was there already.
    pub fn note(&mut self, name: &'b [u8]) -> Result<bool, AllocError>
        ensures repeated { IfOk result (λ b. b ≡ has self.old name.now) }
        ensures noted { OnOk result (self.new ≡ with_member self.old name.now) }
        ensures err { OnErr result (self.new ≡ self.old) }
    {
        Ok(!self.set.insert(name)?)
    }
}
