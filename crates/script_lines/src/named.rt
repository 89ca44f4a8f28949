ghost use Rattle.std.specs.Prelude.{◌≡◌, ◌<◌, ◌≤◌, IfOk, IfSome, MatchResult, Ok, length, map};
ghost use Rattle.key_slots.specs.Numbers.{node_in};
ghost use Rattle.script_lines.specs.Faults.{Gives, IsHaltOf};
ghost use Rattle.script_lines.specs.Forms.{slot_word, number_word, node_word, node_below, request, texts};

use crate::fault::{Halt, ScriptFault};
use crate::words::text_of;
use byte_texts::{Text, number_in};
use key_slots::{NodeId, Slot};
use plan_runner::batch_in;
use resp2_wire::{MAX_WORDS, Request};
use std::alloc::Global;

/// The slot that a word names: 0 to 16383.
pub fn slot_named(alloc: Global, word: &[u8]) -> Result<Slot, Halt>
    ensures { Gives (slot_word word.now) result }
{
    let text = text_of(alloc, word)?;
    Slot::parse(text.get()).ok_or(Halt::Fault(ScriptFault::Number))
}

/// The count that a word names: 1 to 1,000.
pub fn count_named(alloc: Global, word: &[u8]) -> Result<u16, Halt>
    ensures value { Gives (number_word 1 1000 word.now) result }
    ensures within { IfOk result (λ n. (1 ≤ n) × (n ≤ 1000)) }
{
    let text = text_of(alloc, word)?;
    batch_in(text.get()).ok_or(Halt::Fault(ScriptFault::Number))
}

/// The number of nodes that a word names, one to so many.
pub fn count_of_nodes(alloc: Global, word: &[u8], most: u8) -> Result<u8, Halt>
    ensures value { Gives (number_word 1 most word.now) result }
    ensures within { IfOk result (λ n. (1 ≤ n) × (n ≤ most)) }
{
    let text = text_of(alloc, word)?;
    match number_in(text.get(), 1, u32::from(most)) {
        Some(number) => Ok(number as u8),
        None => Err(Halt::Fault(ScriptFault::Number)),
    }
}

/// A node of a cluster of so many.
pub fn node_named(alloc: Global, word: &[u8], nodes: u8) -> Result<NodeId, Halt>
    ensures value { Gives (node_word nodes word.now) result }
    ensures within { IfOk result (λ n. n < nodes) }
{
    let text = text_of(alloc, word)?;
    node_in_cluster(text.get(), nodes).ok_or(Halt::Fault(ScriptFault::Node))
}

/// The node that the text names, `n` and its number, if the cluster has it.
fn node_in_cluster(text: &[u8], nodes: u8) -> Option<NodeId>
    ensures value { result ≡ node_below nodes (node_in text.now) }
    ensures within { IfSome result (λ n. n < nodes) }
{
    match NodeId::parse(text) {
        Some(node) if node.get() < nodes => Some(node),
        _ => None,
    }
}

/// The request of these words: at most 1,024.
pub fn request_named(alloc: Global, words: &[&[u8]]) -> Result<Request, Halt>
    ensures { Gives (request (map (λ w. w.now) words.now)) result }
{
    if words.len() > MAX_WORDS {
        return Err(Halt::Fault(ScriptFault::Word));
    }
    Ok(Request::from_vec(texts_of(alloc, words)?))
}

/// The texts that the words stand for.
pub fn texts_of(alloc: Global, words: &[&[u8]]) -> Result<Vec<Text>, Halt>
    ensures value { MatchResult result (λ ts. texts (map (λ w. w.now) words.now) ≡ Ok ts.items)
        (λ h. IsHaltOf (texts (map (λ w. w.now) words.now)) h) }
    ensures count { IfOk result (λ ts. length ts.items ≡ length words.now) }
{
    let mut texts = Vec::with_capacity(alloc, words.len())?;
    for word in words {
        texts.push(text_of(alloc, word)?)?;
    }
    Ok(texts)
}
