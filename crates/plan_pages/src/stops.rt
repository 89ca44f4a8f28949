//! What a stop half way leaves.
ghost use Rattle.std.specs.Prelude.{◌≡◌, ◌≤◌, ◌+◌, ◌++◌, OnOk, length};
ghost use Rattle.plan_pages.specs.Stops.{open_words, stand_word, stop_heading, stop_section};

use crate::putting::{put, put_number};
use byte_texts::Memory;

/// Puts how many slots stand open, and the command line that continues.
#[tactic(auto, unfolding(crate::specs::Stops::stop_section))]
pub(crate) fn put_stop(out: &mut Vec<u8>, most_open: u32, resume: &[u8]) -> Result<(), Memory>
    ensures text { OnOk result (out.new.items ≡ out.old.items ++ stop_section most_open resume.now) }
    ensures few { OnOk result (length out.new.items ≤ length out.old.items + (110 + length resume.now)) }
{
    put(out, stop_heading())?;
    put_number(out, u64::from(most_open))?;
    put(out, stand_word(most_open))?;
    put(out, open_words())?;
    put(out, resume)?;
    put(out, b"\n")
}

#[tactic(auto, unfolding(crate::specs::Stops::stop_heading))]
fn stop_heading() -> &'static [u8]
    ensures word { result.now ≡ stop_heading }
    ensures few { length result.now ≤ 20 }
{
    b"\nstopped half way\n  "
}

fn stand_word(count: u32) -> &'static [u8]
    ensures word { result.now ≡ stand_word count }
    ensures few { length result.now ≤ 13 }
{
    if count == 1 {
        b" slot stands"
    } else {
        b" slots stand"
    }
}

#[tactic(auto, unfolding(crate::specs::Stops::open_words))]
fn open_words() -> &'static [u8]
    ensures word { result.now ≡ open_words }
    ensures few { length result.now ≤ 50 }
{
    b" open at most, at any time. This goes on:\n  "
}
