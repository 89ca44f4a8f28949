ghost use Rattle.std.specs.Prelude.{◌≡◌, ◌↔◌, ◌+◌, ◌≤◌, ℕ, [], if◌then◌else◌, IfOk, IfSome, IsTrue, MatchResult, Ok};
ghost use Rattle.std.specs.Prelude.{OnOk, Some};
ghost use Rattle.std.specs.Prelude.{drop, length, option_map};
ghost use Rattle.byte_texts.specs.Parts.{parts};
ghost use Rattle.survey_texts.specs.Expecting.{IsExpected, IsNotRead, IsRead, IsUnexpected, first_other, ids_in};
ghost use Rattle.survey_texts.specs.Expecting.{is_passed, node_of, node_of_words};

use crate::expect_fault::ExpectFault;
use byte_texts::{Parts, Text, TextList, is};
use key_slots::{MAX_NODES, NodeId};
use listed_nodes::is_name;
use server_commands::{Server, ServerBook};
use std::alloc::Global;

/// The first node that has another ID in the book than the text expects, or has one in either of them alone. The text
/// has lines as a survey prints them, and the IDs of its nodes alone are compared.
pub fn expected(
    alloc: Global,
    book: &ServerBook,
    text: &[u8],
) -> Result<Option<NodeId>, ExpectFault>
    ensures { MatchResult result (IsExpected book.now text.now) (IsUnexpected text.now) }
{
    let _nodes = book.nodes();
    let ids = ids_in(alloc, text)?;
    Ok(first_other(book.servers(), ids.get()))
}

/// The IDs that the text tells, n0's first.
fn ids_in(alloc: Global, text: &[u8]) -> Result<TextList, ExpectFault>
    ensures ids { MatchResult result (λ ids. ids_in text.now ≡ Ok ids) (IsUnexpected text.now) }
    ensures few { IfOk result (λ ids. length ids ≤ 255) }
{
    let mut lines = Parts::of(text, b'\n');
    let mut ids = TextList::new(alloc);
    let mut number = 0usize;
    while let Some(line) = lines.next() {
        number += 1;
        if is_end(line, &lines) {
            return Ok(ids);
        }
        add_line(alloc, &mut ids, line, number)?;
    }
    Ok(ids)
}

/// Whether nothing stands here, and no line follows.
fn is_end(line: &[u8], lines: &Parts) -> bool
    ensures { IsTrue result ↔ ((length line.now ≡ 0) × (lines.now ≡ [])) }
{
    line.is_empty() && lines.is_empty()
}

/// Puts the ID that the line tells at the end, if it is a node's. The line has this number.
fn add_line(
    alloc: Global,
    ids: &mut TextList,
    line: &[u8],
    number: usize,
) -> Result<(), ExpectFault>
    requires { length ids.old ≤ 255 }
    ensures read { MatchResult result (λ _. IsRead ids.old line.now number ids.new)
        (IsNotRead ids.old line.now number) }
    ensures few { OnOk result (length ids.new ≤ 255) }
{
    if is_passed(line) {
        return Ok(());
    }
    let Some((node, id)) = node_in_line(line) else {
        return Err(ExpectFault::Line(number));
    };
    if usize::from(node.get()) != ids.len() {
        return Err(ExpectFault::Line(number));
    }
    ids.push(Text::from_slice(alloc, id)?)?;
    Ok(())
}

/// The node and its ID.
fn node_in_line(line: &[u8]) -> Option<(NodeId, &[u8])>
    ensures value { option_map (λ p. (p.0, p.1.now)) result ≡ node_of_words (parts 32 line.now) }
    ensures width { IfSome result (λ p. length p.1.now ≡ 40) }
{
    let mut words = Parts::of(line, b' ');
    let node = words.next()?;
    let _address = words.next()?;
    let name = words.next()?;
    let _count = words.next()?;
    let last = words.next()?;
    if !words.is_empty() {
        return None;
    }
    node_with(node, name, last)
}

/// The node and its ID, of these words.
fn node_with<'a>(node: &[u8], name: &'a [u8], last: &[u8]) -> Option<(NodeId, &'a [u8])>
    ensures value { option_map (λ p. (p.0, p.1.now)) result ≡ node_of node.now name.entry.now last.now }
    ensures width { IfSome result (λ p. length p.1.now ≡ 40) }
{
    let node = NodeId::parse_among(MAX_NODES, node)?;
    if is_name(name) && is(last, b"slots") {
        Some((node, name))
    } else {
        None
    }
}

/// Whether the line is a mark's, that of a master that is left out, the last one, or says more of the node above it.
fn is_passed(line: &[u8]) -> bool
    ensures { result ≡ is_passed line.now }
{
    line.starts_with(b"slot ")
        || line.starts_with(b"left out ")
        || line.starts_with(b"  ")
        || is(line, b"clean")
        || is(line, b"open")
}

/// The first number at which the IDs are not the servers'.
fn first_other(servers: &[Server], ids: &[Text]) -> Option<NodeId>
    requires servers { length servers.now ≤ 255 }
    requires ids { length ids.now ≤ 255 }
    ensures { result ≡ first_other 0 ids.now servers.now }
{
    for number in 0..place_count(servers, ids) {
        if has_other(servers, ids, usize::from(number)) {
            return Some(NodeId::of(number));
        }
    }
    None
}

/// How many places there are with a server or an ID.
fn place_count(servers: &[Server], ids: &[Text]) -> u8
    requires servers { length servers.now ≤ 255 }
    requires ids { length ids.now ≤ 255 }
    ensures servers { length servers.now ≤ result }
    ensures ids { length ids.now ≤ result }
{
    if servers.len() < ids.len() {
        ids.len() as u8
    } else {
        servers.len() as u8
    }
}

/// Whether the ID at this place is not the server's.
fn has_other(servers: &[Server], ids: &[Text], place: usize) -> bool
    ensures { (n : ℕ) → first_other n (drop place ids.now) (drop place servers.now)
        ≡ (if result then Some n else first_other (n + 1) (drop (place + 1) ids.now) (drop (place + 1) servers.now)) }
{
    if place >= servers.len() {
        return place < ids.len();
    }
    if place >= ids.len() {
        return true;
    }
    !is(ids[place].get(), servers[place].name.get())
}
