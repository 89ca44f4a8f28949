//! The lines of nodes, which stand before the first command where a plan's version has them.
ghost use Rattle.std.specs.Prelude.{◌≡◌, ◌<◌, ◌≤◌, ◌∷◌, [], ℕ, true, false, length};
ghost use Rattle.std.specs.Prelude.{Err, IfOk, IfSome, MatchOption, MatchResult, Some};
ghost use Rattle.node_names.specs.Names.{IsNext};
ghost use Rattle.plan_language.specs.Texts.{as_plan, begins_with_node, is_of_node, lines_in, name_in, name_of};
ghost use Rattle.plan_language.specs.Texts.{name_row, names_in, parts};

use crate::parse_fault::{ParseCause, ParseFault};
use crate::plan_lines::fault;
use crate::words::{is_text, three};
use byte_texts::{Parts, split_once};
use key_slots::{MAX_NODES, NodeId};
use node_names::{NameTable, NodeName, are_below, has_name};

/// Puts the nodes into the table that the text's first lines list. Gives what follows them, and the number of its first
/// line, where the text's own is the second.
pub(crate) fn take_names<'a>(
    table: &mut NameTable,
    text: &'a [u8],
) -> Result<(&'a [u8], u32), ParseFault>
    requires { table.old ≡ [] }
    ensures read { (version : ℕ) → MatchResult result
        (λ p. names_in version 2 [] (parts 10 text.entry.now)
        ≡ as_plan version (Some table.new) (lines_in (Some table.new) version p.1 0 (parts 10 p.0.now)))
        (λ f. names_in version 2 [] (parts 10 text.entry.now) ≡ Err f) }
    ensures number { IfOk result (λ p. (2 ≤ p.1) × (p.1 ≤ 257)) }
{
    let mut rest = text;
    let mut number = 2;
    while let Some((line, more)) = name_line(rest) {
        match name_in(table.get(), line) {
            Ok((node, name)) => table.push(node, name),
            Err(cause) => return Err(fault(cause, number)),
        }
        number += 1;
        rest = more;
    }
    Ok((rest, number))
}

/// The text's first line, if it is one of a node, and what follows it.
fn name_line(text: &[u8]) -> Option<(&[u8], &[u8])>
    ensures line { MatchOption result (begins_with_node (parts 10 text.now) ≡ false)
        (λ p. (parts 10 text.now ≡ p.0.now ∷ parts 10 p.1.now) × (is_of_node (parts 32 p.0.now) ≡ true)) }
    ensures shorter { IfSome result (λ p. length p.1.now < length text.now) }
{
    let (line, rest) = split_once(text, b'\n')?;
    let word = Parts::of(line, b' ').next()?;
    if is_text(word, b"node") {
        Some((line, rest))
    } else {
        None
    }
}

/// The node and the name that the line lists after these.
fn name_in(names: &[(NodeId, NodeName)], line: &[u8]) -> Result<(NodeId, NodeName), ParseCause>
    ensures value { result ≡ name_in names.now (parts 32 line.now) }
    ensures next { IfOk result (IsNext names.now) }
{
    if Parts::of(line, b' ').are_words() {
        name_of(names, Parts::of(line, b' '))
    } else {
        Err(ParseCause::Verb)
    }
}

/// The node and the name that these words list.
fn name_of(names: &[(NodeId, NodeName)], words: Parts) -> Result<(NodeId, NodeName), ParseCause>
    ensures value { result ≡ name_of names.now words.entry }
    ensures next { IfOk result (IsNext names.now) }
{
    let (_verb, node, name) = three(words).ok_or(ParseCause::Verb)?;
    name_row(names, node, name)
}

/// The node and the name, if they may stand after these.
fn name_row(
    names: &[(NodeId, NodeName)],
    node: &[u8],
    name: &[u8],
) -> Result<(NodeId, NodeName), ParseCause>
    ensures value { result ≡ name_row names.now node.now name.now }
    ensures next { IfOk result (IsNext names.now) }
{
    let node = NodeId::parse_among(MAX_NODES, node).ok_or(ParseCause::Node)?;
    let name = NodeName::parse(name).ok_or(ParseCause::Name)?;
    if !are_below(names, node) {
        return Err(ParseCause::Order);
    }
    if has_name(names, name.get()) {
        return Err(ParseCause::SameName);
    }
    Ok((node, name))
}
