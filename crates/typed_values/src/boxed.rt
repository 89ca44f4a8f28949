ghost use Rattle.std.specs.Prelude.{◌≡◌, IfOk};
ghost use Rattle.std.specs.Borrow.{Lends, sem};
ghost use Rattle.typed_values.specs.contracts.boxed.Boxed.{the_row};

use std::alloc::{AllocError, Global};
use std::marker::Model;

/// What it holds, behind a pointer: an enum has the room of its largest variant in each of its values, so a large part
/// stands apart. Contracts see it as what it holds.
pub struct Boxed<T> {
    inner: Box<T>,
}

/// Written out, so that a proof sees one call where such a value is dropped.
impl<T: Drop> Drop for Boxed<T> {
    fn drop(self) {
        let Self { inner } = self;
        drop(inner);
    }
}

impl<T> Model for Boxed<T> {
    // Its own, so that the row of the type is not among its imports.
    ghost use Rattle.std.specs.Prelude.{◌≡◌};

    ghost Value = { T };

    ghost coded = { T.code };

    ghost view = { λ b. b.inner.value };
}

impl<T: Drop> Boxed<T> {
    /// This value behind a pointer.
    pub fn new(alloc: Global, value: T) -> Result<Self, AllocError>
        ensures { IfOk result (λ b. b ≡ value) }
    {
        Ok(Self {
            inner: Box::new(alloc, value)?,
        })
    }
}

impl<T> Boxed<T> {
    /// What it holds.
    pub fn get(&self) -> &T
        ensures { result.now ≡ self.now }
    {
        &self.inner
    }

    /// What it holds, to change.
    pub fn get_mut(&mut self) -> &mut T
        ensures* writes_back { sem 𝓛 (Lends (the_row T.row) T.row self.entry result (λ w. w)) }
        ensures value { result.now ≡ self.old }
    {
        &mut *self.inner
    }
}
