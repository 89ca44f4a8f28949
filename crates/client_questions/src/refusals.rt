//! Replies to words that are none of a question's.
ghost use Rattle.std.specs.Prelude.{◌≡◌, ◌≤◌, ◌==◌, IfOk, length, map, not, take, take_while};
ghost use Rattle.client_questions.specs.Refusals.{in_line, not_an_integer, ok, quoted, unknown_subcommand, wrong_count};

use byte_texts::{Memory, Text};
use resp2_wire::Reply;
use std::alloc::Global;

/// The most bytes of an unknown subcommand that its refusal shows.
const SHOWN_BYTES: usize = 128;

pub(crate) fn ok(alloc: Global) -> Result<Reply, Memory>
    ensures { IfOk result (λ r. r ≡ ok) }
{
    Reply::simple(alloc, b"OK")
}

/// The reply to a wrong number of words of the command with this name, which has a bar before a subcommand.
pub(crate) fn wrong_count(alloc: Global, name: &[u8]) -> Result<Reply, Memory>
    requires { length name.now ≤ 100 }
    ensures { IfOk result (λ r. r ≡ wrong_count name.now) }
{
    let mut text = Text::from_slice(alloc, b"ERR wrong number of arguments for '")?;
    text.append(name)?;
    text.append(b"' command")?;
    Ok(Reply::Error(text))
}

pub(crate) fn not_an_integer(alloc: Global) -> Result<Reply, Memory>
    ensures { IfOk result (λ r. r ≡ not_an_integer) }
{
    Reply::error(alloc, b"ERR value is not an integer or out of range")
}

/// The reply to a word that is no subcommand of the command with this name, which is in upper case.
#[tactic(auto, unfolding(crate::specs::Refusals::unknown_subcommand))]
pub(crate) fn unknown_subcommand(alloc: Global, name: &[u8], word: &[u8]) -> Result<Reply, Memory>
    requires { length name.now ≤ 100 }
    ensures { IfOk result (λ r. r ≡ unknown_subcommand name.now word.now) }
{
    let word = quoted(alloc, SHOWN_BYTES, word)?;
    let mut text = Text::from_slice(alloc, b"ERR unknown subcommand '")?;
    text.append(word.as_slice())?;
    text.append(b"'. Try ")?;
    text.append(name)?;
    text.append(b" HELP.")?;
    Ok(Reply::Error(text))
}

/// The part of the word that a refusal shows: at most so many bytes, up to the first zero byte, with no end of a line.
pub(crate) fn quoted(alloc: Global, most: usize, word: &[u8]) -> Result<Vec<u8>, Memory>
    ensures value { IfOk result (λ v. v.items ≡ quoted most word.now) }
    ensures short { IfOk result (λ v. length v.items ≤ most) }
{
    first_bytes(most, word)
        .iter()
        .take_while(|byte| **byte != 0)
        .map(|byte| in_line(*byte))
        .collect(alloc)
}

/// At most so many bytes of the word.
#[tactic(auto, using(std::proofs::lemmas::List::take_all))]
fn first_bytes(most: usize, word: &[u8]) -> &[u8]
    ensures value { result.now ≡ take most word.now }
    ensures short { length result.now ≤ most }
{
    if word.len() > most {
        &word[..most]
    } else {
        word
    }
}

/// The byte, or a space in place of the end of a line.
fn in_line(byte: u8) -> u8
    ensures { result ≡ in_line byte }
{
    match byte {
        b'\r' | b'\n' => b' ',
        _ => byte,
    }
}
