//! Words and numbers, put in columns at the end of a text.
ghost use Rattle.std.specs.Prelude.{◌≡◌, ◌≤◌, ◌+◌, ◌++◌, ◌-◌, ◌==◌, [], cond, decimal, length, OnOk};
ghost use Rattle.plan_pages.specs.Words.{left, node_text, none_line, pair_text, right, slot_word, key_word};
ghost use Rattle.plan_pages.specs.Words.{slots_column, spaces};

use byte_texts::Memory;
use itoa::Buffer;
use key_slots::NodeId;

/// Puts the text at the end.
pub(crate) fn put(out: &mut Vec<u8>, text: &[u8]) -> Result<(), Memory>
    ensures text { OnOk result (out.new.items ≡ out.old.items ++ text.now) }
    ensures few { OnOk result (length out.new.items ≤ length out.old.items + length text.now) }
{
    out.extend_from_slice(text)
}

/// Puts so many spaces.
#[tactic(auto, using(crate::proofs::Columns::one_space))]
fn put_spaces(out: &mut Vec<u8>, count: usize) -> Result<(), Memory>
    ensures text { OnOk result (out.new.items ≡ out.old.items ++ spaces count) }
    ensures few { OnOk result (length out.new.items ≤ length out.old.items + count) }
{
    for _done in 0..count {
        out.push(b' ')?;
    }
    Ok(())
}

/// Puts the number, in digits.
pub(crate) fn put_number(out: &mut Vec<u8>, number: u64) -> Result<(), Memory>
    ensures text { OnOk result (out.new.items ≡ out.old.items ++ decimal number) }
    ensures few { OnOk result (length out.new.items ≤ length out.old.items + 20) }
{
    let mut buffer = Buffer::new();
    put(out, buffer.format(number).as_bytes())
}

/// Puts the number, with spaces before it.
pub(crate) fn put_right(out: &mut Vec<u8>, number: u64, width: usize) -> Result<(), Memory>
    ensures text { OnOk result (out.new.items ≡ out.old.items ++ right width (decimal number)) }
    ensures few { OnOk result (length out.new.items ≤ length out.old.items + (20 + width)) }
{
    let mut buffer = Buffer::new();
    let digits = buffer.format(number).as_bytes();
    put_spaces(out, width.saturating_sub(digits.len()))?;
    put(out, digits)
}

/// Puts spaces after the text that began where `start` bytes stood.
pub(crate) fn fill(out: &mut Vec<u8>, start: usize, width: usize) -> Result<(), Memory>
    ensures text { OnOk result (out.new.items
        ≡ out.old.items ++ spaces (width - (length out.old.items - start))) }
    ensures few { OnOk result (length out.new.items ≤ length out.old.items + width) }
{
    let written = out.as_slice().len().saturating_sub(start);
    put_spaces(out, width.saturating_sub(written))
}

/// Puts that there are no lines, unless some were put since `start` bytes stood there.
pub(crate) fn put_if_none(out: &mut Vec<u8>, start: usize) -> Result<(), Memory>
    ensures text { OnOk result (out.new.items
        ≡ out.old.items ++ cond (length out.old.items == start) none_line []) }
    ensures few { OnOk result (length out.new.items ≤ length out.old.items + 7) }
{
    if out.as_slice().len() == start {
        put_none(out)
    } else {
        Ok(())
    }
}

#[tactic(auto, unfolding(crate::specs::Words::none_line))]
fn put_none(out: &mut Vec<u8>) -> Result<(), Memory>
    ensures text { OnOk result (out.new.items ≡ out.old.items ++ none_line) }
    ensures few { OnOk result (length out.new.items ≤ length out.old.items + 7) }
{
    put(out, b"  none\n")
}

/// Puts the node's name, as `n0`.
pub(crate) fn put_node(out: &mut Vec<u8>, node: NodeId) -> Result<(), Memory>
    ensures text { OnOk result (out.new.items ≡ out.old.items ++ node_text node) }
    ensures few { OnOk result (length out.new.items ≤ length out.old.items + 21) }
{
    out.push(b'n')?;
    put_number(out, u64::from(node.get()))
}

/// Puts the node's name, with spaces after it.
#[tactic(auto, using(crate::proofs::Columns::filled))]
pub(crate) fn put_left_node(out: &mut Vec<u8>, node: NodeId, width: usize) -> Result<(), Memory>
    ensures text { OnOk result (out.new.items ≡ out.old.items ++ left width (node_text node)) }
    ensures few { OnOk result (length out.new.items ≤ length out.old.items + (21 + width)) }
{
    let start = out.as_slice().len();
    put_node(out, node)?;
    fill(out, start, width)
}

/// Puts the names of both nodes, as `n0 -> n2`.
pub(crate) fn put_pair(out: &mut Vec<u8>, source: NodeId, target: NodeId) -> Result<(), Memory>
    ensures text { OnOk result (out.new.items ≡ out.old.items ++ pair_text source target) }
    ensures few { OnOk result (length out.new.items ≤ length out.old.items + 46) }
{
    put_node(out, source)?;
    put(out, b" -> ")?;
    put_node(out, target)
}

/// Puts the names of both nodes, with spaces after them.
#[tactic(auto, using(crate::proofs::Columns::filled))]
pub(crate) fn put_left_pair(
    out: &mut Vec<u8>,
    source: NodeId,
    target: NodeId,
    width: usize,
) -> Result<(), Memory>
    ensures text { OnOk result (out.new.items ≡ out.old.items ++ left width (pair_text source target)) }
    ensures few { OnOk result (length out.new.items ≤ length out.old.items + (46 + width)) }
{
    let start = out.as_slice().len();
    put_pair(out, source, target)?;
    fill(out, start, width)
}

fn slot_word(count: u32) -> &'static [u8]
    ensures word { result.now ≡ slot_word count }
    ensures few { length result.now ≤ 6 }
{
    if count == 1 { b" slot" } else { b" slots" }
}

/// ` key` or ` keys`.
pub(crate) fn key_word(count: u64) -> &'static [u8]
    ensures word { result.now ≡ key_word count }
    ensures few { length result.now ≤ 5 }
{
    if count == 1 { b" key" } else { b" keys" }
}

/// Puts how many slots there are, as `683 slots`, with spaces before it.
#[tactic(auto, unfolding(crate::specs::Words::slots_column))]
pub(crate) fn put_slots(out: &mut Vec<u8>, count: u32, width: usize) -> Result<(), Memory>
    ensures text { OnOk result (out.new.items ≡ out.old.items ++ slots_column width count) }
    ensures few { OnOk result (length out.new.items ≤ length out.old.items + (26 + width)) }
{
    let word = slot_word(count);
    put_right(out, u64::from(count), width.saturating_sub(word.len()))?;
    put(out, word)
}
