ghost use Rattle.std.specs.Prelude.{◌≡◌, IfOk};
ghost use Rattle.std.specs.List.{list_all};
ghost use Rattle.listed_nodes.specs.Names.{closed_name_in, is_hex, is_name, name_in};

use byte_texts::{Memory, Text, is};
use std::alloc::Global;

fn is_hex(byte: u8) -> bool
    ensures { result ≡ is_hex byte }
{
    (b'0' <= byte && byte <= b'9') || (b'a' <= byte && byte <= b'f')
}

/// Whether the word is a node's ID: 40 digits 0 to 9 and a to f.
pub fn is_name(word: &[u8]) -> bool
    ensures { result ≡ is_name word.now }
{
    word.len() == 40 && are_hex(word)
}

fn are_hex(word: &[u8]) -> bool
    ensures { result ≡ list_all is_hex word.now }
{
    word.iter().all(|byte| is_hex(*byte))
}

/// The ID that the word is.
pub(crate) fn name_in(alloc: Global, word: &[u8]) -> Result<Option<Text>, Memory>
    ensures { IfOk result (λ o. o ≡ name_in word.now) }
{
    if is_name(word) {
        Ok(Some(Text::from_slice(alloc, word)?))
    } else {
        Ok(None)
    }
}

/// The ID that stands before the `]` of a mark.
pub(crate) fn closed_name_in(alloc: Global, word: &[u8]) -> Result<Option<Text>, Memory>
    ensures { IfOk result (λ o. o ≡ closed_name_in word.now) }
{
    if word.len() != 41 {
        return Ok(None);
    }
    let (name, rest) = word.split_at(40);
    if is(rest, b"]") {
        name_in(alloc, name)
    } else {
        Ok(None)
    }
}
