//! Texts and numbers, put at the end of others.
ghost use Rattle.std.specs.Prelude.{◌≡◌, ◌++◌, Some, OnOk, decimal};
ghost use Rattle.survey_texts.specs.Texts.{mark_line, node_text, server_text};

use byte_texts::Memory;
use itoa::Buffer;
use key_slots::{NodeId, Slot};
use server_commands::Server;

/// Puts the text at the end.
pub fn put(out: &mut Vec<u8>, text: &[u8]) -> Result<(), Memory>
    ensures { OnOk result (out.new.items ≡ out.old.items ++ text.now) }
{
    out.extend_from_slice(text)
}

/// Puts the number, in digits.
pub fn put_number(out: &mut Vec<u8>, number: u32) -> Result<(), Memory>
    ensures { OnOk result (out.new.items ≡ out.old.items ++ decimal number) }
{
    let mut buffer = Buffer::new();
    put(out, buffer.format(number).as_bytes())
}

/// Puts the number, in digits.
pub(crate) fn put_long_number(out: &mut Vec<u8>, number: u64) -> Result<(), Memory>
    ensures { OnOk result (out.new.items ≡ out.old.items ++ decimal number) }
{
    let mut buffer = Buffer::new();
    put(out, buffer.format(number).as_bytes())
}

/// Puts the node's name, as `n0`.
pub fn put_node(out: &mut Vec<u8>, node: NodeId) -> Result<(), Memory>
    ensures { OnOk result (out.new.items ≡ out.old.items ++ node_text node) }
{
    out.push(b'n')?;
    put_number(out, u32::from(node.get()))
}

/// Puts the server's address, and its ID.
pub(crate) fn put_server(out: &mut Vec<u8>, server: &Server) -> Result<(), Memory>
    ensures { OnOk result (out.new.items ≡ out.old.items ++ server_text server.now) }
{
    put(out, server.host.get())?;
    out.push(b':')?;
    put_number(out, u32::from(server.port))?;
    out.push(b' ')?;
    put(out, server.name.get())
}

/// Puts the line of a mark at the node, if there is one.
pub(crate) fn put_mark(
    out: &mut Vec<u8>,
    slot: Slot,
    how: &[u8],
    at: NodeId,
    node: Option<NodeId>,
) -> Result<(), Memory>
    ensures { OnOk result (out.new.items ≡ out.old.items ++ mark_line slot how.now at node) }
{
    match node {
        Some(node) => put_mark_of(out, slot, how, at, node),
        None => Ok(()),
    }
}

fn put_mark_of(
    out: &mut Vec<u8>,
    slot: Slot,
    how: &[u8],
    at: NodeId,
    node: NodeId,
) -> Result<(), Memory>
    ensures { OnOk result (out.new.items ≡ out.old.items ++ mark_line slot how.now at (Some node)) }
{
    put(out, b"slot ")?;
    put_number(out, u32::from(slot.get()))?;
    put(out, how)?;
    put_node(out, node)?;
    put(out, b" at ")?;
    put_node(out, at)?;
    put(out, b"\n")
}
