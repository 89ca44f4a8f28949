ghost use Rattle.std.specs.Prelude.{Ok};
ghost use Rattle.script_lines.specs.Faults.{Gives};
ghost use Rattle.script_lines.specs.Forms.{verb_word};

use crate::fault::Halt;
use crate::words::is_verb;
use std::alloc::Global;

/// The word that a line begins with.
#[derive(Clone, Copy)]
pub enum Verb {
    At,
    Asking,
    SetSlot,
    GetKeysInSlot,
    Migrate,
    Step,
    Run,
    Honest,
    Abandon,
    Resume,
}

impl Verb {
    /// The verb that a word stands for.
    pub fn read(alloc: Global, word: &[u8]) -> Result<Option<Self>, Halt>
        ensures { Gives (Ok (verb_word word.now)) result }
    {
        if is_verb(alloc, word, b"at")? {
            return Ok(Some(Self::At));
        }
        if is_verb(alloc, word, b"asking")? {
            return Ok(Some(Self::Asking));
        }
        if is_verb(alloc, word, b"setslot")? {
            return Ok(Some(Self::SetSlot));
        }
        if is_verb(alloc, word, b"getkeysinslot")? {
            return Ok(Some(Self::GetKeysInSlot));
        }
        if is_verb(alloc, word, b"migrate")? {
            return Ok(Some(Self::Migrate));
        }
        if is_verb(alloc, word, b"step")? {
            return Ok(Some(Self::Step));
        }
        if is_verb(alloc, word, b"run")? {
            return Ok(Some(Self::Run));
        }
        if is_verb(alloc, word, b"honest")? {
            return Ok(Some(Self::Honest));
        }
        if is_verb(alloc, word, b"abandon")? {
            return Ok(Some(Self::Abandon));
        }
        if is_verb(alloc, word, b"resume")? {
            return Ok(Some(Self::Resume));
        }
        Ok(None)
    }
}
