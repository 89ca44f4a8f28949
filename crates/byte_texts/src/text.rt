ghost use Rattle.std.specs.Prelude.{◌≡◌, ◌+◌, ◌≤◌, [], ◌++◌, length, IfOk, IfSome, IsNone, IsSome, OnErr, OnOk, ◌↔◌};

use std::alloc::{AllocError, Global};
use std::marker::Model;

/// The most bytes of a key, an argument, a text or an element: 1 MiB.
pub const MAX_BYTES: usize = 1_048_576;

/// A byte text of at most [`MAX_BYTES`] bytes: a key, an argument, or an element of a value.
pub struct Text {
    buffer: Vec<u8>,
}

/// Written out, so that a proof sees one call where such a value is dropped.
impl Drop for Text {
    fn drop(self) {
        let Self { buffer } = self;
        drop(buffer);
    }
}

impl Model for Text {
    ghost use Rattle.std.specs.Prelude.{List, ℕ, length, ◌≤◌};
    ghost use Rattle.byte_texts.specs.declared.text.TheConstants.{MAX_BYTES};

    ghost Value = { List ℕ };

    ghost view = { λ t. t.buffer.items };

    ghost invariant = { λ t. length t.buffer.items ≤ MAX_BYTES };
}

impl Text {
    /// The empty text, which takes no memory.
    pub fn empty(alloc: Global) -> Self
        ensures { result ≡ [] }
    {
        Self {
            buffer: Vec::new(alloc),
        }
    }

    /// The text that the buffer holds; its bytes are not copied.
    pub fn from_vec(buffer: Vec<u8>) -> Self
        requires { length buffer.items ≤ MAX_BYTES }
        ensures { result ≡ buffer.items }
    {
        Self { buffer }
    }

    /// A copy of the bytes.
    pub fn from_slice(alloc: Global, bytes: &[u8]) -> Result<Self, AllocError>
        requires { length bytes.now ≤ MAX_BYTES }
        ensures { IfOk result (λ t. t ≡ bytes.now) }
    {
        let buffer = Vec::from_slice(alloc, bytes)?;
        Ok(Self { buffer })
    }

    /// The buffer, which is not copied.
    pub fn into_vec(self) -> Vec<u8>
        ensures value { result.items ≡ self }
        ensures limit { length result.items ≤ MAX_BYTES }
    {
        let Self { buffer } = self;
        buffer
    }

    /// The bytes.
    pub fn get(&self) -> &[u8]
        ensures value { result.now ≡ self.now }
        ensures limit { length result.now ≤ MAX_BYTES }
    {
        self.buffer.as_slice()
    }

    /// An equal text of its own.
    pub fn try_copy(&self, alloc: Global) -> Result<Self, AllocError>
        ensures { IfOk result (λ t. t ≡ self.now) }
    {
        let buffer = Vec::from_slice(alloc, self.buffer.as_slice())?;
        Ok(Self { buffer })
    }

    /// Puts copies of the bytes after the text's own, or leaves it as it is.
    pub fn append(&mut self, more: &[u8]) -> Result<(), AllocError>
        requires { length self.old + length more.now ≤ MAX_BYTES }
        ensures ok { OnOk result (self.new ≡ self.old ++ more.now) }
        ensures err { OnErr result (self.new ≡ self.old) }
    {
        self.buffer.extend_from_slice(more)
    }

    /// Gives back the room that the text has beyond its bytes. Where it has none, nothing is asked for, and where the
    /// smaller block is refused, it keeps its own.
    pub fn shrink_to_fit(&mut self)
        ensures { self.new ≡ self.old }
    {
        self.buffer.shrink_to_fit();
    }
}
