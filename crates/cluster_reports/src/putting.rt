//! Texts and numbers, put at the end of others.
ghost use Rattle.std.specs.Prelude.{◌≡◌, ◌++◌, OnOk, decimal};
ghost use Rattle.cluster_node.specs.Redirections.{id_of};

use byte_texts::Memory;
use cluster_node::id_text;
use itoa::Buffer;
use key_slots::NodeId;

/// Puts the text at the end.
pub(crate) fn put(out: &mut Vec<u8>, text: &[u8]) -> Result<(), Memory>
    ensures { OnOk result (out.new.items ≡ out.old.items ++ text.now) }
{
    out.extend_from_slice(text)
}

/// Puts the number, in digits.
pub(crate) fn put_number(out: &mut Vec<u8>, number: u16) -> Result<(), Memory>
    ensures { OnOk result (out.new.items ≡ out.old.items ++ decimal number) }
{
    let mut buffer = Buffer::new();
    put(out, buffer.format(number).as_bytes())
}

/// Puts the port, in digits. Those of the last of many nodes may be numbers above all ports that there are.
pub(crate) fn put_port(out: &mut Vec<u8>, port: u32) -> Result<(), Memory>
    ensures { OnOk result (out.new.items ≡ out.old.items ++ decimal port) }
{
    let mut buffer = Buffer::new();
    put(out, buffer.format(port).as_bytes())
}

/// Puts the node's id.
pub(crate) fn put_id(out: &mut Vec<u8>, node: NodeId) -> Result<(), Memory>
    ensures { OnOk result (out.new.items ≡ out.old.items ++ id_of node) }
{
    let id = id_text(*out.allocator(), node)?;
    put(out, id.get())
}
