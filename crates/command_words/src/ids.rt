//! IDs of nodes in words, with commas between them.
ghost use Rattle.std.specs.Prelude.{◌≡◌, option_map, string_bytes};
ghost use Rattle.command_words.specs.Ids.{are_ids, are_ids_if_given};

use byte_texts::Parts;
use listed_nodes::is_name;

/// Whether the text is the IDs of nodes, or none is given.
pub(crate) fn are_ids_if_given(text: &Option<String>) -> bool
    ensures { result ≡ are_ids_if_given (option_map string_bytes text.now) }
{
    match text {
        Some(ids) => are_ids(ids.as_bytes()),
        None => true,
    }
}

/// Whether each part of the text, which has commas between them, is the ID of a node.
fn are_ids(text: &[u8]) -> bool
    ensures { result ≡ are_ids text.now }
{
    let mut parts = Parts::of(text, b',');
    while let Some(part) = parts.next() {
        if !is_name(part) {
            return false;
        }
    }
    true
}
