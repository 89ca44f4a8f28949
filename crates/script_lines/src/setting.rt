//! What a `setslot` line sets.
ghost use Rattle.script_lines.specs.Faults.{Gives};
ghost use Rattle.script_lines.specs.Forms.{setting_word, setting_words};

use crate::fault::{Halt, ScriptFault};
use crate::words::is_verb;
use std::alloc::Global;

/// What a `setslot` line sets.
#[derive(Clone, Copy)]
pub enum Setting {
    Importing,
    Migrating,
    Node,
}

/// What the fixed words of a `setslot` line set.
pub fn setting_words(alloc: Global, kind: &[u8], at: &[u8]) -> Result<Setting, Halt>
    ensures { Gives (setting_words kind.now at.now) result }
{
    let setting = setting_of(alloc, kind)?;
    if is_verb(alloc, at, b"at")? {
        Ok(setting)
    } else {
        Err(Halt::Fault(ScriptFault::Verb))
    }
}

fn setting_of(alloc: Global, word: &[u8]) -> Result<Setting, Halt>
    ensures { Gives (setting_word word.now) result }
{
    if is_verb(alloc, word, b"importing")? {
        return Ok(Setting::Importing);
    }
    if is_verb(alloc, word, b"migrating")? {
        return Ok(Setting::Migrating);
    }
    if is_verb(alloc, word, b"node")? {
        return Ok(Setting::Node);
    }
    Err(Halt::Fault(ScriptFault::Verb))
}
