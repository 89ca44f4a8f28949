//! What a server's list of nodes shows.
ghost use Rattle.std.specs.Prelude.{◌≡◌, ◌↔◌, ◌<◌, ◌-◌, suc, IsTrue, length};
ghost use Rattle.redis_servers.specs.Looking.{AreApart, IsApart, ShowsNews, claims_any, claims_taken, clash, covers};
ghost use Rattle.redis_servers.specs.Looking.{has_slot, owns_slot, shows_owner, still_claims, taken_within};

use crate::hearing::{epoch_named, same_epoch};
use crate::run_history::RunHistory;
use crate::setup::PortSetup;
use byte_texts::is;
use cluster_admin::Survey;
use key_slots::{NodeId, Slot};
use listed_nodes::{NodeLine, SlotWord};
use server_commands::ServerBook;

/// Whether the node claims no slot any more that another one took over from it, and has heard of epochs of which no two
/// are the same. Takes no memory.
pub(crate) fn shows_news(
    setup: &PortSetup,
    history: &RunHistory,
    node: NodeId,
    nodes: &[NodeLine],
) -> bool
    requires { node < length setup.now.survey.rows }
    ensures { IsTrue result ↔ ShowsNews setup.now history.now node nodes.now }
{
    !still_claims(history, &setup.survey, node, nodes)
        && are_apart(&setup.book, history, node, nodes)
}

/// Whether the server that answers claims a slot that another one took over from it.
fn still_claims(history: &RunHistory, survey: &Survey, node: NodeId, nodes: &[NodeLine]) -> bool
    requires { node < length survey.now.rows }
    ensures { result ≡ still_claims history.now survey.now node nodes.now }
{
    nodes.iter().any(|line| line.is_myself && claims_any(history, survey, node, line.slots.get()))
}

fn claims_any(history: &RunHistory, survey: &Survey, node: NodeId, words: &[SlotWord]) -> bool
    requires { node < length survey.now.rows }
    ensures { result ≡ claims_any history.now survey.now node words.now }
{
    words
        .iter()
        .any(|word| claims_taken(history, survey, node, word))
}

fn claims_taken(history: &RunHistory, survey: &Survey, node: NodeId, word: &SlotWord) -> bool
    requires { node < length survey.now.rows }
    ensures { result ≡ claims_taken history.now survey.now node word.now }
{
    match word {
        SlotWord::Slots(first, last) => taken_within(history, survey, node, *first, *last),
        _ => false,
    }
}

/// Whether another node took one of these slots over from this one.
fn taken_within(
    history: &RunHistory,
    survey: &Survey,
    node: NodeId,
    first: Slot,
    last: Slot,
) -> bool
    requires { node < length survey.now.rows }
    ensures { result ≡ taken_within history.now survey.now node first (suc last - first) }
{
    let mut number = first.get();
    while number <= last.get() {
        if history.taken_from(survey, node, Slot::of(number)).is_some() {
            return true;
        }
        number += 1;
    }
    false
}

/// Whether the server that answers is a master, and the slot is its own.
pub(crate) fn owns_slot(slot: Slot, nodes: &[NodeLine]) -> bool
    ensures { result ≡ owns_slot slot nodes.now }
{
    nodes.iter().any(|line| line.is_myself && line.is_master && has_slot(slot, line.slots.get()))
}

/// Whether the slot is that of the server with this ID, which is a master.
pub(crate) fn shows_owner(name: &[u8], slot: Slot, nodes: &[NodeLine]) -> bool
    ensures { result ≡ shows_owner name.now slot nodes.now }
{
    nodes.iter().any(|line| {
        is(line.name.get(), name) && line.is_master && has_slot(slot, line.slots.get())
    })
}

fn has_slot(slot: Slot, words: &[SlotWord]) -> bool
    ensures { result ≡ has_slot slot words.now }
{
    words.iter().any(|word| covers(slot, word))
}

fn covers(slot: Slot, word: &SlotWord) -> bool
    ensures { result ≡ covers slot word.now }
{
    match word {
        SlotWord::Slots(first, last) => *first <= slot && slot <= *last,
        _ => false,
    }
}

fn are_apart(book: &ServerBook, history: &RunHistory, target: NodeId, nodes: &[NodeLine]) -> bool
    ensures { IsTrue result ↔ AreApart book.now target history.now.receivers nodes.now }
{
    for number in 0..book.nodes() {
        if !is_apart(book, history, target, nodes, NodeId::of(number)) {
            return false;
        }
    }
    true
}

/// Whether the epoch that is told of the node is that of none before it, of those that take slots over.
fn is_apart(
    book: &ServerBook,
    history: &RunHistory,
    target: NodeId,
    nodes: &[NodeLine],
    node: NodeId,
) -> bool
    requires { node < length book.now }
    ensures { IsTrue result ↔ IsApart book.now target history.now.receivers nodes.now node }
{
    for number in 0..node.get() {
        if clash(book, history, target, nodes, node, NodeId::of(number)) {
            return false;
        }
    }
    true
}

/// Whether both nodes take slots over, and one epoch is told of both.
fn clash(
    book: &ServerBook,
    history: &RunHistory,
    target: NodeId,
    nodes: &[NodeLine],
    node: NodeId,
    other: NodeId,
) -> bool
    requires here { node < length book.now }
    requires there { other < length book.now }
    ensures { result ≡ clash book.now target history.now.receivers nodes.now node other }
{
    history.takes_over(target, node)
        && history.takes_over(target, other)
        && same_epoch(
            epoch_named(nodes, book.server(node).name.get()),
            epoch_named(nodes, book.server(other).name.get()),
        )
}
