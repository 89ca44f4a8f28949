ghost use Rattle.std.specs.Prelude.{◌≡◌, ◌++◌, ◌<◌, ◌≤◌, if◌then◌else◌, IfOk, OnOk, length};
ghost use Rattle.std.specs.List.{flat_map};
ghost use Rattle.cluster_views.specs.Numbers.{numbers_to};
ghost use Rattle.survey_texts.specs.Texts.{IsSurveyText, coming_line, going_line, last_line, marks_of, node_line};
ghost use Rattle.survey_texts.specs.Texts.{node_lines, slots_of};

use crate::left_out::put_left_out;
use crate::putting::{put, put_mark, put_node, put_number, put_server};
use byte_texts::Memory;
use cluster_views::ServerSurvey;
use key_slots::{NodeId, SLOTS, Slot};
use server_commands::{Server, ServerBook};
use std::alloc::Global;

/// The survey as it is printed, with these lines of its nodes: then there is a line for each master that is left out,
/// one for each mark, ascending by slot, with migrating before importing marks, the lines that say more of it, and
/// `clean` or `open`.
pub fn survey_text(
    alloc: Global,
    nodes: &[u8],
    left_out: &[Server],
    survey: &ServerSurvey,
    more: &[u8],
) -> Result<Vec<u8>, Memory>
    ensures { IfOk result (λ t. IsSurveyText nodes.now left_out.now survey.now more.now t.items) }
{
    let mut out = Vec::new(alloc);
    put(&mut out, nodes)?;
    put_left_out(&mut out, left_out)?;
    put_all_marks(&mut out, survey)?;
    put(&mut out, more)?;
    put_last(&mut out, survey.is_clean())?;
    Ok(out)
}

/// The lines of the nodes alone.
pub fn node_lines(
    alloc: Global,
    book: &ServerBook,
    survey: &ServerSurvey,
) -> Result<Vec<u8>, Memory>
    requires { length survey.now.rows ≡ length book.now }
    ensures { IfOk result (λ t. t.items ≡ node_lines book.now survey.now) }
{
    let mut out = Vec::new(alloc);
    put_nodes(&mut out, book, survey)?;
    Ok(out)
}

fn put_last(out: &mut Vec<u8>, is_clean: bool) -> Result<(), Memory>
    ensures { OnOk result (out.new.items ≡ out.old.items ++ last_line is_clean) }
{
    if is_clean {
        put(out, b"clean\n")
    } else {
        put(out, b"open\n")
    }
}

/// Puts a line for each node.
fn put_nodes(out: &mut Vec<u8>, book: &ServerBook, survey: &ServerSurvey) -> Result<(), Memory>
    requires { length survey.now.rows ≡ length book.now }
    ensures { OnOk result (out.new.items ≡ out.old.items ++ node_lines book.now survey.now) }
{
    for number in 0..survey.nodes() {
        put_node_line(out, book, survey, NodeId::of(number))?;
    }
    Ok(())
}

/// Puts the node's line: `n0 127.0.0.1:7000 ID 5461 slots`.
pub fn put_node_line(
    out: &mut Vec<u8>,
    book: &ServerBook,
    survey: &ServerSurvey,
    node: NodeId,
) -> Result<(), Memory>
    requires book { node < length book.now }
    requires survey { node < length survey.now.rows }
    ensures { OnOk result (out.new.items ≡ out.old.items ++ node_line book.now survey.now node) }
{
    put_node(out, node)?;
    put(out, b" ")?;
    put_server(out, book.server(node))?;
    put(out, b" ")?;
    put_number(out, slots_of(survey, node))?;
    put(out, b" slots\n")
}

/// How many slots are the node's, as it tells itself.
pub fn slots_of(survey: &ServerSurvey, node: NodeId) -> u32
    requires { node < length survey.now.rows }
    ensures { result ≡ slots_of survey.now node }
{
    let mut count = 0u32;
    for number in 0..SLOTS as u16 {
        count += one_if(survey.owner(node, Slot::of(number)) == node);
    }
    count
}

/// 1 or 0.
fn one_if(test: bool) -> u32
    ensures value { result ≡ (if test then 1 else 0) }
    ensures most { result ≤ 1 }
{
    if test { 1 } else { 0 }
}

/// Puts a line for each mark.
fn put_all_marks(out: &mut Vec<u8>, survey: &ServerSurvey) -> Result<(), Memory>
    ensures { OnOk result (out.new.items ≡ out.old.items ++ flat_map (marks_of survey.now) (numbers_to 16384)) }
{
    for number in 0..SLOTS as u16 {
        put_marks(out, survey, Slot::of(number))?;
    }
    Ok(())
}

/// Puts a line for each mark of the slot.
fn put_marks(out: &mut Vec<u8>, survey: &ServerSurvey, slot: Slot) -> Result<(), Memory>
    ensures { OnOk result (out.new.items ≡ out.old.items ++ marks_of survey.now slot) }
{
    put_going(out, survey, slot)?;
    put_coming(out, survey, slot)
}

/// Puts a line for each node from which the slot goes.
fn put_going(out: &mut Vec<u8>, survey: &ServerSurvey, slot: Slot) -> Result<(), Memory>
    ensures { OnOk result (out.new.items
        ≡ out.old.items ++ flat_map (going_line survey.now slot) (numbers_to (length survey.now.rows))) }
{
    for number in 0..survey.nodes() {
        let node = NodeId::of(number);
        put_mark(
            out,
            slot,
            b" migrating to ",
            node,
            survey.migrating(node, slot),
        )?;
    }
    Ok(())
}

/// Puts a line for each node to which the slot comes.
fn put_coming(out: &mut Vec<u8>, survey: &ServerSurvey, slot: Slot) -> Result<(), Memory>
    ensures { OnOk result (out.new.items
        ≡ out.old.items ++ flat_map (coming_line survey.now slot) (numbers_to (length survey.now.rows))) }
{
    for number in 0..survey.nodes() {
        let node = NodeId::of(number);
        put_mark(
            out,
            slot,
            b" importing from ",
            node,
            survey.importing(node, slot),
        )?;
    }
    Ok(())
}
