//! The lines of a plan, put at the end of a text. The small functions are compiled into their callers, where the words
//! are known, so that each is put by a few stores and no call.
ghost use Rattle.std.specs.Prelude.{◌≡◌, ◌<◌, ◌++◌, OnOk, codes, decimal};
ghost use Rattle.plan_language.specs.Texts.{command_text, line_text, name_text, names_text, node_text, slots_text};

use crate::line::Line;
use crate::line_words::{
    AT, BY, DRAIN, FROM, IMPORTING, MIGRATING, MOVE, NODE, SETSLOT, STABLE_AT, TO,
};
use crate::plan_command::PlanCommand;
use byte_texts::Memory;
use itoa::Buffer;
use key_slots::{NodeId, Slot};
use node_names::NodeName;

/// Puts the words and the number after them.
#[inline(always)]
pub(crate) fn put_number(text: &mut Vec<u8>, words: &str, number: u16) -> Result<(), Memory>
    ensures { OnOk result (text.new.items ≡ text.old.items ++ (words.now ++ decimal number)) }
{
    text.extend_from_slice(words.as_bytes())?;
    let mut buffer = Buffer::new();
    text.extend_from_slice(buffer.format(u32::from(number)).as_bytes())
}

/// The node's name, of which the number is one digit.
#[tactic(auto, using(crate::proofs::Put::node_name))]
fn short_name(node: NodeId) -> [u8; 2]
    requires { node < 10 }
    ensures { result ≡ node_text node }
{
    [b'n', b'0' + node.get()]
}

/// Puts the node's name.
#[inline(always)]
fn put_name(text: &mut Vec<u8>, node: NodeId) -> Result<(), Memory>
    ensures { OnOk result (text.new.items ≡ text.old.items ++ node_text node) }
{
    if node.get() < 10 {
        text.extend_from_slice(&short_name(node))
    } else {
        put_long_name(text, node)
    }
}

/// Puts the node's name, of which the number may have several digits. It stands apart, so that what is put mostly stays
/// short.
#[inline(never)]
fn put_long_name(text: &mut Vec<u8>, node: NodeId) -> Result<(), Memory>
    ensures { OnOk result (text.new.items ≡ text.old.items ++ node_text node) }
{
    put_number(text, "n", u16::from(node.get()))
}

/// Puts the words and the node after them.
#[inline(always)]
fn put_node(text: &mut Vec<u8>, words: &str, node: NodeId) -> Result<(), Memory>
    ensures { OnOk result (text.new.items ≡ text.old.items ++ (words.now ++ node_text node)) }
{
    text.extend_from_slice(words.as_bytes())?;
    put_name(text, node)
}

/// Puts `setslot SLOT`, and the words and the node after it.
#[inline(always)]
fn put_slot(text: &mut Vec<u8>, slot: Slot, words: &str, node: NodeId) -> Result<(), Memory>
    ensures { OnOk result (text.new.items ≡ text.old.items
        ++ (codes "setslot " ++ (decimal slot ++ (words.now ++ node_text node)))) }
{
    put_number(text, SETSLOT, slot.get())?;
    put_node(text, words, node)
}

/// Puts the line `setslot SLOT HOW NODE at NODE`, where `how` has a space at each end.
#[inline(always)]
fn put_set(
    text: &mut Vec<u8>,
    slot: Slot,
    how: &str,
    node: NodeId,
    at: NodeId,
) -> Result<(), Memory>
    ensures { OnOk result (text.new.items ≡ text.old.items
        ++ (codes "setslot " ++ (decimal slot ++ (how.now ++ (node_text node ++ (codes " at " ++ node_text at)))))) }
{
    put_slot(text, slot, how, node)?;
    put_node(text, AT, at)
}

/// Puts `NODE to NODE by BATCH` after the words.
fn put_route(
    text: &mut Vec<u8>,
    words: &str,
    source: NodeId,
    target: NodeId,
    batch: u16,
) -> Result<(), Memory>
    ensures { OnOk result (text.new.items ≡ text.old.items
        ++ (words.now
        ++ (node_text source ++ (codes " to " ++ (node_text target ++ (codes " by " ++ decimal batch)))))) }
{
    put_node(text, words, source)?;
    put_node(text, TO, target)?;
    put_number(text, BY, batch)
}

/// Puts the line that stands for the command.
fn put_command(text: &mut Vec<u8>, command: &PlanCommand) -> Result<(), Memory>
    ensures { OnOk result (text.new.items ≡ text.old.items ++ command_text command.now) }
{
    match *command {
        PlanCommand::Importing { slot, source, at } => put_set(text, slot, IMPORTING, source, at),
        PlanCommand::Migrating { slot, target, at } => put_set(text, slot, MIGRATING, target, at),
        PlanCommand::SetNode { slot, owner, at } => put_set(text, slot, NODE, owner, at),
        PlanCommand::Stable { slot, at } => put_slot(text, slot, STABLE_AT, at),
        PlanCommand::Drain {
            slot,
            source,
            target,
            batch,
        } => put_drain(text, slot, source, target, batch),
    }
}

/// Puts `drain SLOT at NODE to NODE by BATCH`.
fn put_drain(
    text: &mut Vec<u8>,
    slot: Slot,
    source: NodeId,
    target: NodeId,
    batch: u16,
) -> Result<(), Memory>
    ensures { OnOk result (text.new.items ≡ text.old.items
        ++ (codes "drain " ++ (decimal slot ++ (codes " at " ++ (node_text source ++ (codes " to "
        ++ (node_text target ++ (codes " by " ++ decimal batch)))))))) }
{
    put_number(text, DRAIN, slot.get())?;
    put_route(text, AT, source, target, batch)
}

/// Puts `move` and the slots: one, or the first and the last.
fn put_slots(text: &mut Vec<u8>, first: Slot, last: Slot) -> Result<(), Memory>
    ensures { OnOk result (text.new.items ≡ text.old.items ++ (codes "move " ++ slots_text first last)) }
{
    put_number(text, MOVE, first.get())?;
    if first == last {
        Ok(())
    } else {
        put_number(text, "-", last.get())
    }
}

/// Puts the line without its line feed.
fn put_words(text: &mut Vec<u8>, line: &Line) -> Result<(), Memory>
    ensures { OnOk result (text.new.items ≡ text.old.items ++ line_text line.now) }
{
    match *line {
        Line::Command(command) => put_command(text, &command),
        Line::Move {
            first,
            last,
            source,
            target,
            batch,
        } => {
            put_slots(text, first, last)?;
            put_route(text, FROM, source, target, batch)
        }
    }
}

/// Puts the line and its line feed.
pub(crate) fn put_line(text: &mut Vec<u8>, line: &Line) -> Result<(), Memory>
    ensures { OnOk result (text.new.items ≡ text.old.items ++ (line_text line.now ++ codes "\n")) }
{
    put_words(text, line)?;
    text.extend_from_slice(b"\n")
}

/// Puts the lines that list these nodes.
pub(crate) fn put_names(text: &mut Vec<u8>, names: &[(NodeId, NodeName)]) -> Result<(), Memory>
    ensures { OnOk result (text.new.items ≡ text.old.items ++ names_text names.now) }
{
    for (node, name) in names {
        put_listed(text, *node, name)?;
    }
    Ok(())
}

/// Puts the line that lists the node, and its line feed.
fn put_listed(text: &mut Vec<u8>, node: NodeId, name: &NodeName) -> Result<(), Memory>
    ensures { OnOk result (text.new.items ≡ text.old.items ++ (name_text (node, name.now) ++ codes "\n")) }
{
    put_node(text, "node ", node)?;
    text.extend_from_slice(b" ")?;
    text.extend_from_slice(name.get())?;
    text.extend_from_slice(b"\n")
}
