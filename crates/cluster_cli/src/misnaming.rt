//! Which word names no node of the cluster, or gives no weight.
ghost use Rattle.std.specs.Prelude.{◌≡◌, ◌≤◌, ◌++◌, IfOk, codes, map, option_map};
ghost use Rattle.cluster_cli.specs.Misnaming.{first_no_item, first_no_weight, first_unnamed, has_name, is_by_name};
ghost use Rattle.cluster_cli.specs.Misnaming.{misnamed_drain, misnamed_nodes, misnamed_weights, misnamed_weights_in};
ghost use Rattle.cluster_cli.specs.Misnaming.{knows_names, no_node_text, unlisted_weights, unnamed_in, unnamed_weights};

use crate::node_lists::node_in;
use crate::weights_by_name::item_of;
use byte_texts::{number_in, part_list};
use command_words::{DrainWords, RebalanceWords, ReshardWords, Start};
use std::alloc::{AllocError, Global};

/// What is reported of words whose nodes to give or to take slots are not all those of a cluster of so many.
pub(crate) fn misnamed_nodes(
    alloc: Global,
    words: &ReshardWords,
    nodes: u8,
) -> Result<Vec<u8>, AllocError>
    requires { 1 ≤ nodes }
    ensures { IfOk result (λ t. t.items ≡ misnamed_nodes nodes words.now) }
{
    let to = words.to.as_bytes();
    if node_in(to, nodes).is_none() {
        return no_node_text(alloc, "--to", to, nodes);
    }
    let word = unnamed_in(alloc, words.from.as_bytes(), nodes)?;
    no_node_text(alloc, "--from", word.unwrap_or(b""), nodes)
}

/// What is reported of words whose nodes to drain, or to take their slots, are not all those of a cluster of so many.
pub(crate) fn misnamed_drain(
    alloc: Global,
    words: &DrainWords,
    nodes: u8,
) -> Result<Vec<u8>, AllocError>
    requires { 1 ≤ nodes }
    ensures { IfOk result (λ t. t.items ≡ misnamed_drain nodes words.now) }
{
    if let Some(word) = unnamed_in(alloc, words.from.as_bytes(), nodes)? {
        return no_node_text(alloc, "--from", word, nodes);
    }
    let to = match &words.to {
        Some(text) => text.as_bytes(),
        None => b"",
    };
    let word = unnamed_in(alloc, to, nodes)?;
    no_node_text(alloc, "--to", word.unwrap_or(b""), nodes)
}

/// What is reported of words that do not give each node of a cluster of so many its weight.
pub(crate) fn misnamed_weights(
    alloc: Global,
    words: &RebalanceWords,
    nodes: u8,
) -> Result<Vec<u8>, AllocError>
    requires { 1 ≤ nodes }
    ensures { IfOk result (λ t. t.items ≡ misnamed_weights nodes words.now) }
{
    match &words.weights {
        Some(text) => misnamed_weights_in(alloc, &words.start, text.as_bytes(), nodes),
        None => misnamed_weights_in(alloc, &words.start, b"", nodes),
    }
}

/// What is reported of a text with weights, where the plan starts so.
fn misnamed_weights_in(
    alloc: Global,
    start: &Start,
    text: &[u8],
    nodes: u8,
) -> Result<Vec<u8>, AllocError>
    requires { 1 ≤ nodes }
    ensures { IfOk result (λ t. t.items ≡ misnamed_weights_in nodes start.now text.now) }
{
    let words = part_list(alloc, text, b',')?;
    if is_by_name(start, text) {
        unnamed_weights(alloc, words.as_slice(), nodes)
    } else {
        unlisted_weights(alloc, words.as_slice(), nodes)
    }
}

/// Whether the text gives some nodes their weights by name, where that may be.
fn is_by_name(start: &Start, text: &[u8]) -> bool
    ensures { result ≡ is_by_name start.now text.now }
{
    knows_names(start) && has_name(text)
}

fn has_name(text: &[u8]) -> bool
    ensures { result ≡ has_name text.now }
{
    text.iter().any(|byte| *byte == b'=')
}

/// Whether nodes may be given their weights by name where a plan starts so.
pub(crate) fn knows_names(start: &Start) -> bool
    ensures { result ≡ knows_names start.now }
{
    match start {
        Start::Even(_) => false,
        Start::Cluster(_) => true,
        Start::Survey(_) => true,
    }
}

/// The first of the nodes in the text, with commas between them, that is none of the cluster.
fn unnamed_in<'a>(alloc: Global, text: &'a [u8], nodes: u8) -> Result<Option<&'a [u8]>, AllocError>
    ensures { IfOk result (λ o. option_map (λ w. w.now) o ≡ unnamed_in nodes text.now) }
{
    let words = part_list(alloc, text, b',')?;
    Ok(first_unnamed(words.as_slice(), nodes))
}

fn first_unnamed<'a>(words: &[&'a [u8]], nodes: u8) -> Option<&'a [u8]>
    ensures { option_map (λ w. w.now) result ≡ first_unnamed nodes (map (λ w. w.now) words.now) }
{
    for word in words {
        if node_in(word, nodes).is_none() {
            return Some(word);
        }
    }
    None
}

/// The first of the words that is no weight.
fn first_no_weight<'a>(words: &[&'a [u8]]) -> Option<&'a [u8]>
    ensures { option_map (λ w. w.now) result ≡ first_no_weight (map (λ w. w.now) words.now) }
{
    for word in words {
        if number_in(word, 0, 1_000).is_none() {
            return Some(word);
        }
    }
    None
}

/// The first of the items that gives no node of the cluster a weight.
fn first_no_item<'a>(items: &[&'a [u8]], nodes: u8) -> Option<&'a [u8]>
    ensures { option_map (λ w. w.now) result ≡ first_no_item nodes (map (λ w. w.now) items.now) }
{
    for item in items {
        if item_of(item, nodes).is_none() {
            return Some(item);
        }
    }
    None
}

fn no_node_text(alloc: Global, option: &str, word: &[u8], nodes: u8) -> Result<Vec<u8>, AllocError>
    requires { 1 ≤ nodes }
    ensures { IfOk result (λ t. t.items ≡ no_node_text option.now word.now nodes) }
{
    let last = nodes - 1;
    let tail = format!(in alloc; "' is no node of the cluster, which has n0 to n{last}\n")?;
    let mut text = Vec::from_slice(alloc, b"error: ")?;
    text.extend_from_slice(option.as_bytes())?;
    text.extend_from_slice(b": '")?;
    text.extend_from_slice(word)?;
    text.extend_from_slice(tail.as_bytes())?;
    Ok(text)
}

/// What is reported of weights that are listed, of which one is none, or which are too many or too few.
fn unlisted_weights(alloc: Global, words: &[&[u8]], nodes: u8) -> Result<Vec<u8>, AllocError>
    requires { 1 ≤ nodes }
    ensures { IfOk result (λ t. t.items
        ≡ unlisted_weights nodes (first_no_weight (map (λ w. w.now) words.now))) }
{
    match first_no_weight(words) {
        Some(word) => wrong_weight(alloc, word, b"' is no weight, a number from 0 to 1000\n"),
        None => {
            let last = nodes - 1;
            let text = format!(in alloc; "error: --weights: n0 to n{last} want one weight each\n")?;
            Ok(text.into_bytes())
        }
    }
}

/// What is reported of weights by name, of which one is none of a node, or two are of one node.
fn unnamed_weights(alloc: Global, items: &[&[u8]], nodes: u8) -> Result<Vec<u8>, AllocError>
    ensures { IfOk result (λ t. t.items
        ≡ unnamed_weights (first_no_item nodes (map (λ w. w.now) items.now))) }
{
    match first_no_item(items, nodes) {
        Some(item) => wrong_weight(
            alloc,
            item,
            b"' is no weight of a node, as n1=0, from 0 to 1000\n",
        ),
        None => Vec::from_slice(alloc, b"error: --weights: a node is given two weights\n"),
    }
}

/// The word in its quotes, with what it is not.
fn wrong_weight(alloc: Global, word: &[u8], tail: &[u8]) -> Result<Vec<u8>, AllocError>
    ensures { IfOk result (λ t. t.items ≡ codes "error: --weights: '" ++ (word.now ++ tail.now)) }
{
    let mut text = Vec::from_slice(alloc, b"error: --weights: '")?;
    text.extend_from_slice(word)?;
    text.extend_from_slice(tail)?;
    Ok(text)
}
