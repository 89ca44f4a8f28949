ghost use Rattle.std.specs.Prelude.{◌≡◌, ◌<◌, ◌≤◌, length, IfOk};
ghost use Rattle.client_commands.specs.Arguments.{IsArguments};

use byte_texts::{Text, TextList};
use std::alloc::{AllocError, Global};
use std::marker::Model;

/// The arguments of a command that takes any number of them: one at least, and at most 1,024.
pub struct Arguments {
    texts: TextList,
}

/// Written out, so that a proof sees one call where such a value is dropped.
impl Drop for Arguments {
    fn drop(self) {
        let Self { texts } = self;
        drop(texts);
    }
}

impl Model for Arguments {
    ghost use Rattle.std.specs.Prelude.{List, ℕ};
    ghost use Rattle.client_commands.specs.Arguments.{IsArguments};

    ghost Value = { List (List ℕ) };

    ghost view = { λ a. a.texts };

    ghost invariant = { λ a. IsArguments a.texts };
}

impl Arguments {
    /// The arguments of these texts, which are not copied.
    pub fn from_vec(texts: Vec<Text>) -> Self
        requires { IsArguments texts.items }
        ensures { result ≡ texts.items }
    {
        Self {
            texts: TextList::from_vec(texts),
        }
    }

    /// Copies of the texts.
    pub fn copy_of(alloc: Global, texts: &[Text]) -> Result<Self, AllocError>
        requires { IsArguments texts.now }
        ensures { IfOk result (λ a. a ≡ texts.now) }
    {
        Ok(Self {
            texts: TextList::copy_of(alloc, texts)?,
        })
    }

    /// The arguments, in order.
    pub fn get(&self) -> &[Text]
        ensures value { result.now ≡ self.now }
        ensures some { 0 < length result.now }
        ensures limit { length result.now ≤ 1024 }
    {
        self.texts.get()
    }

    /// The arguments, which are not copied.
    pub fn into_vec(self) -> Vec<Text>
        ensures { result.items ≡ self }
    {
        let Self { texts } = self;
        texts.into_vec()
    }

    /// Equal arguments of their own.
    pub fn try_copy(&self, alloc: Global) -> Result<Self, AllocError>
        ensures { IfOk result (λ a. a ≡ self.now) }
    {
        Self::copy_of(alloc, self.get())
    }

    /// Gives back the room beyond the arguments.
    pub(crate) fn shrink_to_fit(&mut self)
        ensures { self.new ≡ self.old }
    {
        self.texts.shrink_to_fit();
    }
}
