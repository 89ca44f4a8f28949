//! CLUSTER INFO, NODES, SHARDS, MYID and COUNTKEYSINSLOT.
ghost use Rattle.std.specs.Prelude.{◌≡◌, ◌≤◌, IfOk, length};
ghost use Rattle.client_questions.specs.Cluster.{alone, asked_of_node, cluster_refusal, count_refusal, counted};
ghost use Rattle.slot_keyspace.specs.Listing.{keys_of};
ghost use Rattle.client_questions.specs.Cluster.{counted_keys, node_reply, not_a_slot, not_one_slot, refusal_unless};
ghost use Rattle.typed_values.specs.Numbers.{number};

use crate::refusals::{not_an_integer, unknown_subcommand, wrong_count};
use byte_texts::{Memory, Text};
use cluster_node::{Node, id_text};
use cluster_reports::{nodes_text, shards_reply, state_text};
use key_slots::Slot;
use resp2_wire::Reply;
use std::alloc::Global;
use typed_values::read_number;

/// What CLUSTER asks of a node.
#[derive(Clone, Copy)]
pub(crate) enum NodeQuestion {
    /// The state of the cluster.
    State,
    /// All nodes, with their slots and marks.
    Nodes,
    /// All nodes, by their slots.
    Shards,
    /// The node's own id.
    MyId,
    /// How many keys of the slot the node holds.
    Count(Slot),
}

/// The reply to CLUSTER with these further words, or none where they ask something of the node.
pub(crate) fn cluster(alloc: Global, words: &[Text]) -> Result<Option<Reply>, Memory>
    ensures { IfOk result (λ r. r ≡ refusal_unless (asked_of_node words.now) words.now) }
{
    match asked_of_node(words) {
        Some(_) => Ok(None),
        None => Ok(Some(refusal(alloc, words)?)),
    }
}

/// What the words after CLUSTER ask of the node, if they do.
#[tactic(auto, unfolding(crate::specs::Cluster::asked_of_node))]
pub(crate) fn asked_of_node(words: &[Text]) -> Option<NodeQuestion>
    ensures { result ≡ asked_of_node words.now }
{
    let (word, further) = words.split_first()?;
    let word = word.get();
    if word.eq_ignore_ascii_case(b"info") {
        return alone(NodeQuestion::State, further);
    }
    if word.eq_ignore_ascii_case(b"nodes") {
        return alone(NodeQuestion::Nodes, further);
    }
    if word.eq_ignore_ascii_case(b"shards") {
        return alone(NodeQuestion::Shards, further);
    }
    if word.eq_ignore_ascii_case(b"myid") {
        return alone(NodeQuestion::MyId, further);
    }
    if word.eq_ignore_ascii_case(b"countkeysinslot") {
        return counted(further);
    }
    None
}

/// The question, where nothing stands after it.
fn alone(question: NodeQuestion, further: &[Text]) -> Option<NodeQuestion>
    ensures { result ≡ alone question further.now }
{
    match further {
        [] => Some(question),
        _ => None,
    }
}

fn counted(further: &[Text]) -> Option<NodeQuestion>
    ensures { result ≡ counted further.now }
{
    match further {
        [slot] => Some(NodeQuestion::Count(Slot::parse(slot.get())?)),
        _ => None,
    }
}

/// The reply to words after CLUSTER that ask the node for nothing.
#[tactic(auto, unfolding(crate::specs::Cluster::cluster_refusal))]
fn refusal(alloc: Global, words: &[Text]) -> Result<Reply, Memory>
    ensures { IfOk result (λ r. r ≡ cluster_refusal words.now) }
{
    let Some((word, further)) = words.split_first() else {
        return wrong_count(alloc, b"cluster");
    };
    let word = word.get();
    if word.eq_ignore_ascii_case(b"info") {
        return wrong_count(alloc, b"cluster|info");
    }
    if word.eq_ignore_ascii_case(b"nodes") {
        return wrong_count(alloc, b"cluster|nodes");
    }
    if word.eq_ignore_ascii_case(b"shards") {
        return wrong_count(alloc, b"cluster|shards");
    }
    if word.eq_ignore_ascii_case(b"myid") {
        return wrong_count(alloc, b"cluster|myid");
    }
    if word.eq_ignore_ascii_case(b"countkeysinslot") {
        return count_refusal(alloc, further);
    }
    unknown_subcommand(alloc, b"CLUSTER", word)
}

fn count_refusal(alloc: Global, further: &[Text]) -> Result<Reply, Memory>
    ensures { IfOk result (λ r. r ≡ count_refusal further.now) }
{
    match further {
        [slot] => not_a_slot(alloc, slot.get()),
        _ => not_one_slot(alloc),
    }
}

/// The reply where not exactly one word stands after COUNTKEYSINSLOT.
#[tactic(auto, unfolding(crate::specs::Cluster::not_one_slot))]
fn not_one_slot(alloc: Global) -> Result<Reply, Memory>
    ensures { IfOk result (λ r. r ≡ not_one_slot) }
{
    wrong_count(alloc, b"cluster|countkeysinslot")
}

/// The reply to a word that is no slot's number.
fn not_a_slot(alloc: Global, word: &[u8]) -> Result<Reply, Memory>
    ensures { IfOk result (λ r. r ≡ not_a_slot (number word.now)) }
{
    match read_number(word) {
        None => not_an_integer(alloc),
        Some(_) => Reply::error(alloc, b"ERR Invalid slot"),
    }
}

/// What the node answers, out of its own table, or by a count of what it holds.
pub(crate) fn node_reply(
    alloc: Global,
    base_port: u16,
    node: &Node,
    question: NodeQuestion,
) -> Result<Reply, Memory>
    requires { base_port ≤ 65528 }
    ensures { IfOk result (λ r. r ≡ node_reply base_port node.now question) }
{
    let table = node.table();
    match question {
        NodeQuestion::State => Ok(Reply::Bulk(state_text(alloc, table)?)),
        NodeQuestion::Nodes => Ok(Reply::Bulk(nodes_text(alloc, base_port, table)?)),
        NodeQuestion::Shards => shards_reply(alloc, base_port, table),
        NodeQuestion::MyId => Ok(Reply::Bulk(id_text(alloc, table.me())?)),
        NodeQuestion::Count(slot) => Ok(counted_keys(node, slot)),
    }
}

/// How many keys of the slot the node holds. Takes no memory.
fn counted_keys(node: &Node, slot: Slot) -> Reply
    ensures { result ≡ counted_keys (length (keys_of node.now.node.held slot)) }
{
    let keys = node.count_in(slot).min(9_223_372_036_854_775_807);
    Reply::Number(keys as i64)
}
