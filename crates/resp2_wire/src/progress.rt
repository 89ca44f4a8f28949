ghost use Rattle.std.specs.Prelude.{◌≡◌, ◌<◌, ◌+◌, length, OnOk, IfErr};
ghost use Rattle.resp2_wire.specs.Progress.{Follows, Stops, words_of};
ghost use Rattle.resp2_wire.specs.Stream.{NoEmptyFirst};

use crate::fault::Stop;
use crate::reading::{count_at, word_at};
use byte_texts::Text;
use std::alloc::Global;

/// The words so far, of how many, and how many bytes they took with the count.
///
/// Where `count` is 0, nothing is read yet.
#[derive(Drop)]
pub struct Progress {
    pub count: usize,
    pub words: Vec<Text>,
    pub at: usize,
}

impl Progress {
    /// Reads the count.
    fn begin(&mut self, bytes: &[u8]) -> Result<(), Stop>
        requires follows { Follows self.old bytes.now }
        requires nothing { self.old.count ≡ 0 }
        ensures follows { Follows self.new bytes.now }
        ensures ok { OnOk result (0 < self.new.count) }
        ensures err { IfErr result (λ e. Stops e bytes.now) }
    {
        let (count, rest) = count_at(bytes)?;
        self.count = count;
        self.at = bytes.len() - rest.len();
        Ok(())
    }

    /// Reads one more word.
    fn read_word(&mut self, alloc: Global, bytes: &[u8]) -> Result<(), Stop>
        requires follows { Follows self.old bytes.now }
        requires missing { length (words_of self.old) < self.old.count }
        ensures follows { Follows self.new bytes.now }
        ensures count { self.new.count ≡ self.old.count }
        ensures ok { OnOk result (length (words_of self.new) ≡ length (words_of self.old) + 1) }
        ensures err { IfErr result (λ e. Stops e bytes.now) }
    {
        let (_, unread) = bytes.split_at(self.at);
        let (word, rest) = word_at(unread)?;
        self.words.push(Text::from_slice(alloc, word)?)?;
        self.at = bytes.len() - rest.len();
        Ok(())
    }

    /// Reads on until the request is whole.
    pub fn read_on(&mut self, alloc: Global, bytes: &[u8]) -> Result<(), Stop>
        requires { Follows self.old bytes.now }
        ensures follows { Follows self.new bytes.now }
        ensures ok { OnOk result ((0 < self.new.count) × (length (words_of self.new) ≡ self.new.count)) }
        ensures err { IfErr result (λ e. Stops e bytes.now) }
    {
        if self.count == 0 {
            self.begin(bytes)?;
        }
        while self.words.len() < self.count {
            self.read_word(alloc, bytes)?;
        }
        Ok(())
    }
}
