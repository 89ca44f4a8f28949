//! The weights that a command asks for, by where its plan starts.
ghost use Rattle.std.specs.Prelude.{◌≡◌, ◌≤◌, IfOk, IfSome, length, option_map};
ghost use Rattle.std.specs.List.{All};
ghost use Rattle.cluster_cli.specs.WeightsByName.{weights_asked};

use crate::misnaming::knows_names;
use crate::named_nodes::weights_named;
use crate::weights_by_name::weights_of_some;
use command_words::RebalanceWords;
use std::alloc::{AllocError, Global};

/// The weight of each node of a cluster of so many: as the words list them, or 1. Where the
/// plan starts at a cluster of servers or from a survey, the words may also give some nodes theirs by name.
pub fn weights_asked(
    words: &RebalanceWords,
    alloc: Global,
    nodes: u8,
) -> Result<Option<Vec<u16>>, AllocError>
    ensures weights { IfOk result (λ o. option_map (λ v. v.items) o ≡ weights_asked nodes words.now) }
    ensures one_each { IfOk result (λ o. IfSome o (λ v. length v.items ≡ nodes)) }
    ensures light { IfOk result (λ o. IfSome o (λ v. All (λ w. w ≤ 1000) v.items)) }
{
    if let Some(weights) = weights_named(words, alloc, nodes)? {
        return Ok(Some(weights));
    }
    match &words.weights {
        Some(text) if knows_names(&words.start) => {
            weights_of_some(alloc, text.as_bytes(), nodes)
        }
        _ => Ok(None),
    }
}
