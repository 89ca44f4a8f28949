ghost use Rattle.std.specs.Prelude.{◌≡◌, ◌<◌, ◌≤◌, map, length, IfOk};
ghost use Rattle.client_commands.specs.Arguments.{IsArguments};

use byte_texts::{Text, TextList};
use std::alloc::{AllocError, Global};
use std::marker::Model;
use typed_values::PairList;

/// Keys, and a text for each: one key at least, and at most 1,024.
pub struct Assignments {
    keys: TextList,
    values: TextList,
}

/// Written out, so that a proof sees one call where such a value is dropped.
impl Drop for Assignments {
    fn drop(self) {
        let Self { keys, values } = self;
        drop(keys);
        drop(values);
    }
}

impl Model for Assignments {
    ghost use Rattle.std.specs.Prelude.{◌≡◌, List, ℕ, length};
    ghost use Rattle.client_commands.specs.Arguments.{IsArguments};

    ghost Value = { List (List ℕ) × List (List ℕ) };

    ghost view = { λ a. (a.keys, a.values) };

    ghost invariant = { λ a. IsArguments a.keys × (length a.keys ≡ length a.values) };
}

impl Assignments {
    /// The pairs' names as keys, each with its value.
    pub fn of_pairs(alloc: Global, pairs: PairList) -> Result<Self, AllocError>
        requires { IsArguments (map (λ p. p.0) pairs) }
        ensures { IfOk result (λ a. a ≡ (map (λ p. p.0) pairs, map (λ p. p.1) pairs)) }
    {
        let mut keys = Vec::with_capacity(alloc, pairs.len())?;
        let mut values = Vec::with_capacity(alloc, pairs.len())?;
        for (key, value) in pairs.into_vec() {
            keys.push(key)?;
            values.push(value)?;
        }
        Ok(Self {
            keys: TextList::from_vec(keys),
            values: TextList::from_vec(values),
        })
    }

    /// The keys, in order.
    pub fn keys(&self) -> &[Text]
        ensures value { result.now ≡ self.now.0 }
        ensures some { 0 < length result.now }
        ensures limit { length result.now ≤ 1024 }
    {
        self.keys.get()
    }

    /// The texts, in the order of their keys.
    pub fn values(&self) -> &[Text]
        ensures value { result.now ≡ self.now.1 }
        ensures count { length result.now ≡ length self.now.0 }
    {
        self.values.get()
    }

    /// Equal assignments of their own.
    pub fn try_copy(&self, alloc: Global) -> Result<Self, AllocError>
        ensures { IfOk result (λ a. a ≡ self.now) }
    {
        Ok(Self {
            keys: self.keys.try_copy(alloc)?,
            values: self.values.try_copy(alloc)?,
        })
    }

    /// Gives back the room beyond the keys and the texts.
    pub(crate) fn shrink_to_fit(&mut self)
        ensures { self.new ≡ self.old }
    {
        self.keys.shrink_to_fit();
        self.values.shrink_to_fit();
    }
}
