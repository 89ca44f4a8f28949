ghost use Rattle.std.specs.Prelude.{◌≡◌, [], ◌∷◌, ◌++◌, length, IfOk, OnErr, OnOk};

use byte_texts::Text;
use std::alloc::{AllocError, Global};
use std::marker::Model;

/// A list of pairs of byte texts: names of fields with their values.
pub struct PairList {
    pairs: Vec<(Text, Text)>,
}

/// Written out, so that a proof sees one call where such a value is dropped.
impl Drop for PairList {
    fn drop(self) {
        let Self { pairs } = self;
        drop(pairs);
    }
}

impl Model for PairList {
    ghost use Rattle.std.specs.Prelude.{List, ℕ};

    ghost Value = { List (List ℕ × List ℕ) };

    ghost view = { λ l. l.pairs.items };
}

impl PairList {
    /// The empty list, which takes no memory.
    pub fn new(alloc: Global) -> Self
        ensures { result ≡ [] }
    {
        Self {
            pairs: Vec::new(alloc),
        }
    }

    /// The list of these pairs, which are not copied.
    pub fn from_vec(pairs: Vec<(Text, Text)>) -> Self
        ensures { result ≡ pairs.items }
    {
        Self { pairs }
    }

    /// The pairs, which are not copied.
    pub fn into_vec(self) -> Vec<(Text, Text)>
        ensures { result.items ≡ self }
    {
        let Self { pairs } = self;
        pairs
    }

    /// The pairs.
    pub fn get(&self) -> &[(Text, Text)]
        ensures { result.now ≡ self.now }
    {
        self.pairs.as_slice()
    }

    /// How many pairs there are.
    pub fn len(&self) -> usize
        ensures { result ≡ length self.now }
    {
        self.pairs.len()
    }

    /// Puts the pair at the end, or leaves the list as it is.
    pub fn push(&mut self, name: Text, value: Text) -> Result<(), AllocError>
        ensures ok { OnOk result (self.new ≡ self.old ++ (name, value) ∷ []) }
        ensures err { OnErr result (self.new ≡ self.old) }
    {
        self.pairs.push((name, value))?;
        Ok(())
    }

    /// An equal list of its own.
    pub fn try_copy(&self, alloc: Global) -> Result<Self, AllocError>
        ensures { IfOk result (λ l. l ≡ self.now) }
    {
        let mut copies = Vec::with_capacity(alloc, self.len())?;
        for pair in &self.pairs {
            copies.push((pair.0.try_copy(alloc)?, pair.1.try_copy(alloc)?))?;
        }
        Ok(Self { pairs: copies })
    }

    /// Gives back the room that the list and its texts have beyond what they hold. Where there is none, nothing is
    /// asked for, and where a smaller block is refused, the one that there is stays.
    pub fn shrink_to_fit(&mut self)
        ensures { self.new ≡ self.old }
    {
        for (name, value) in self.pairs.iter_mut() {
            name.shrink_to_fit();
            value.shrink_to_fit();
        }
        self.pairs.shrink_to_fit();
    }
}
