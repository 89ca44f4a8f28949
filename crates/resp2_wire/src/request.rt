ghost use Rattle.std.specs.Prelude.{◌≡◌, ◌≤◌, length, IfOk};

use byte_texts::{Text, TextList};
use std::alloc::{AllocError, Global};
use std::marker::Model;

/// The most words of one request.
pub const MAX_WORDS: usize = 1024;

/// A request: at most [`MAX_WORDS`] words, of which the first is the command's name.
///
/// The empty request is one too; a session passes over it without a reply.
pub struct Request {
    words: TextList,
}

/// Written out, so that a proof sees one call where such a value is dropped.
impl Drop for Request {
    fn drop(self) {
        let Self { words } = self;
        drop(words);
    }
}

impl Model for Request {
    ghost use Rattle.std.specs.Prelude.{List, ℕ, length, ◌≤◌};
    ghost use Rattle.resp2_wire.specs.declared.request.TheConstants.{MAX_WORDS};

    ghost Value = { List (List ℕ) };

    ghost view = { λ r. r.words };

    ghost invariant = { λ r. length r.words ≤ MAX_WORDS };
}

impl Request {
    /// The request of these words, which are not copied.
    pub fn from_vec(words: Vec<Text>) -> Self
        requires { length words.items ≤ MAX_WORDS }
        ensures { result ≡ words.items }
    {
        Self {
            words: TextList::from_vec(words),
        }
    }

    /// The words, which are not copied.
    pub fn into_vec(self) -> Vec<Text>
        ensures value { result.items ≡ self }
        ensures limit { length result.items ≤ MAX_WORDS }
    {
        let Self { words } = self;
        words.into_vec()
    }

    /// The words.
    pub fn get(&self) -> &[Text]
        ensures value { result.now ≡ self.now }
        ensures limit { length result.now ≤ MAX_WORDS }
    {
        self.words.get()
    }

    /// An equal request of its own.
    pub fn try_copy(&self, alloc: Global) -> Result<Self, AllocError>
        ensures { IfOk result (λ r. r ≡ self.now) }
    {
        Ok(Self {
            words: self.words.try_copy(alloc)?,
        })
    }
}
