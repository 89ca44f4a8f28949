ghost use Rattle.std.specs.Prelude.{◌≡◌, ◌≤◌, [], ◌∷◌, ◌++◌, length, IfOk, OnErr, OnOk};

use crate::text::Text;
use std::alloc::{AllocError, Global};
use std::marker::Model;

/// A list of byte texts.
pub struct TextList {
    texts: Vec<Text>,
}

/// Written out, so that a proof sees one call where such a value is dropped.
impl Drop for TextList {
    fn drop(self) {
        let Self { texts } = self;
        drop(texts);
    }
}

impl Model for TextList {
    ghost use Rattle.std.specs.Prelude.{List, ℕ};

    ghost Value = { List (List ℕ) };

    ghost view = { λ l. l.texts.items };
}

impl TextList {
    /// The empty list, which takes no memory.
    pub fn new(alloc: Global) -> Self
        ensures { result ≡ [] }
    {
        Self {
            texts: Vec::new(alloc),
        }
    }

    /// The list of these texts, which are not copied.
    pub fn from_vec(texts: Vec<Text>) -> Self
        ensures { result ≡ texts.items }
    {
        Self { texts }
    }

    /// The texts, which are not copied.
    pub fn into_vec(self) -> Vec<Text>
        ensures { result.items ≡ self }
    {
        let Self { texts } = self;
        texts
    }

    /// The texts.
    pub fn get(&self) -> &[Text]
        ensures { result.now ≡ self.now }
    {
        self.texts.as_slice()
    }

    /// How many texts there are.
    pub fn len(&self) -> usize
        ensures { result ≡ length self.now }
    {
        self.texts.len()
    }

    /// Puts the text at the end, or leaves the list as it is.
    pub fn push(&mut self, text: Text) -> Result<(), AllocError>
        ensures ok { OnOk result (self.new ≡ self.old ++ text ∷ []) }
        ensures err { OnErr result (self.new ≡ self.old) }
    {
        self.texts.push(text)?;
        Ok(())
    }

    /// Copies of the texts.
    pub fn copy_of(alloc: Global, texts: &[Text]) -> Result<Self, AllocError>
        ensures { IfOk result (λ l. l ≡ texts.now) }
    {
        let mut copies = Vec::with_capacity(alloc, texts.len())?;
        for text in texts {
            copies.push(text.try_copy(alloc)?)?;
        }
        Ok(Self { texts: copies })
    }

    /// An equal list of its own.
    pub fn try_copy(&self, alloc: Global) -> Result<Self, AllocError>
        ensures { IfOk result (λ l. l ≡ self.now) }
    {
        Self::copy_of(alloc, self.get())
    }

    /// Gives back the room that the list and its texts have beyond what they hold. Where there is none, nothing is
    /// asked for, and where a smaller block is refused, the one that there is stays.
    pub fn shrink_to_fit(&mut self)
        ensures { self.new ≡ self.old }
    {
        for text in self.texts.iter_mut() {
            text.shrink_to_fit();
        }
        self.texts.shrink_to_fit();
    }
}
