//! The lines of a survey.
ghost use Rattle.std.specs.Prelude.{◌≡◌, ◌≤◌, [], ◌∷◌, IfOk, IfSome, length, option_map};
ghost use Rattle.byte_texts.specs.Parts.{parts};
ghost use Rattle.survey_files.specs.Lines.{endpoint_in, endpoint_of, is_open, is_passed, master_of, master_of_words};
ghost use Rattle.survey_files.specs.Lines.{master_with, range_of_parts, size_of, slots_in};
ghost use Rattle.survey_files.specs.Lines.{has_id};

use byte_texts::{Memory, Parts, Text, is, number_in, split_once};
use key_slots::{MAX_NODES, NodeId, Slot};
use listed_nodes::{MAX_HOST, is_name};
use server_commands::Server;
use std::alloc::Global;

/// A master, and how many slots it owns.
#[derive(Clone, Copy)]
pub(crate) struct MasterWords<'a> {
    pub(crate) node: NodeId,
    pub(crate) name: &'a [u8],
    pub(crate) host: &'a [u8],
    pub(crate) port: u16,
    pub(crate) slots: u32,
}

/// The master of the line `n0 127.0.0.1:7000 ID 5461 slots`.
pub(crate) fn master_in(line: &[u8]) -> Option<MasterWords<'_>>
    ensures value { option_map (λ m. master_with m.node m.name.now m.host.now m.port m.slots) result
        ≡ master_of_words (parts 32 line.now) }
    ensures name { IfSome result (λ m. length m.name.now ≡ 40) }
    ensures host { IfSome result (λ m. length m.host.now ≤ 64) }
{
    let mut words = Parts::of(line, b' ');
    let node = words.next()?;
    let address = words.next()?;
    let name = words.next()?;
    let count = words.next()?;
    let last = words.next()?;
    if !words.is_empty() {
        return None;
    }
    if is(last, b"slots") {
        master_of(node, address, name, count)
    } else {
        None
    }
}

/// The master of these words.
fn master_of<'a>(
    node: &[u8],
    address: &'a [u8],
    name: &'a [u8],
    count: &[u8],
) -> Option<MasterWords<'a>>
    ensures value { option_map (λ m. master_with m.node m.name.now m.host.now m.port m.slots) result
        ≡ master_of node.now address.entry.now name.entry.now count.now }
    ensures name { IfSome result (λ m. length m.name.now ≡ 40) }
    ensures host { IfSome result (λ m. length m.host.now ≤ 64) }
{
    let node = NodeId::parse_among(MAX_NODES, node)?;
    let (host, port) = endpoint_in(address)?;
    let slots = number_in(count, 0, 16_384)?;
    if is_name(name) {
        Some(MasterWords {
            node,
            name,
            host,
            port,
            slots,
        })
    } else {
        None
    }
}

/// Its server.
pub(crate) fn server_of(alloc: Global, master: &MasterWords<'_>) -> Result<Server, Memory>
    requires name { length master.now.name.now ≡ 40 }
    requires host { length master.now.host.now ≤ 64 }
    ensures { IfOk result
        (λ s. s ≡ record { name = master.now.name.now; host = master.now.host.now; port = master.now.port }) }
{
    Ok(Server {
        name: Text::from_slice(alloc, master.name)?,
        host: Text::from_slice(alloc, master.host)?,
        port: master.port,
    })
}

/// Whether one of the servers has the ID.
pub(crate) fn has_id(servers: &[Server], id: &[u8]) -> bool
    ensures { result ≡ has_id servers.now id.now }
{
    servers.iter().any(|server| is(server.name.get(), id))
}

/// The host and the port, between which the first `:` stands.
fn endpoint_in(address: &[u8]) -> Option<(&[u8], u16)>
    ensures value { option_map (λ p. (p.0.now, p.1)) result ≡ endpoint_in address.now }
    ensures width { IfSome result (λ p. length p.0.now ≤ 64) }
{
    let (host, port) = split_once(address, b':')?;
    endpoint_of(host, port)
}

/// The host and the port that these texts are.
fn endpoint_of<'a>(host: &'a [u8], port: &[u8]) -> Option<(&'a [u8], u16)>
    ensures value { option_map (λ p. (p.0.now, p.1)) result ≡ endpoint_of host.entry.now port.now }
    ensures width { IfSome result (λ p. length p.0.now ≤ 64) }
{
    if host.len() > MAX_HOST {
        return None;
    }
    let port = number_in(port, 0, 65_535)?;
    Some((host, port as u16))
}

/// The first and the last slot of the word `0-5460` or `24`.
pub(crate) fn range_in(word: &[u8]) -> Option<(Slot, Slot)>
    ensures { result ≡ range_of_parts (parts 45 word.now) }
{
    let mut parts = Parts::of(word, b'-');
    let first = parts.next()?;
    let Some(last) = parts.next() else {
        let slot = Slot::parse(first)?;
        return Some((slot, slot));
    };
    if parts.is_empty() {
        range_of(first, last)
    } else {
        None
    }
}

/// The slots from the first to the last, which is the higher one.
fn range_of(first: &[u8], last: &[u8]) -> Option<(Slot, Slot)>
    ensures { result ≡ range_of_parts (first.now ∷ (last.now ∷ [])) }
{
    let first = Slot::parse(first)?;
    let last = Slot::parse(last)?;
    if first < last {
        Some((first, last))
    } else {
        None
    }
}

/// How many slots there are from the first to the last.
pub(crate) fn size_of(first: Slot, last: Slot) -> u32
    ensures { result ≡ size_of (first, last) }
{
    (u32::from(last.get()) + 1).saturating_sub(u32::from(first.get()))
}

/// What stands after `  slots `, where the line begins so.
pub(crate) fn slots_in(line: &[u8]) -> Option<&[u8]>
    ensures { option_map (λ t. t.now) result ≡ slots_in line.now }
{
    if line.len() < 8 {
        return None;
    }
    let (front, words) = line.split_at(8);
    if is(front, b"  slots ") {
        Some(words)
    } else {
        None
    }
}

/// Whether the line is a mark's, or the last one where slots are open.
pub(crate) fn is_open(line: &[u8]) -> bool
    ensures { result ≡ is_open line.now }
{
    line.starts_with(b"slot ") || is(line, b"open")
}

/// Whether the line is that of a master that is left out, or says something else of the master above it.
pub(crate) fn is_passed(line: &[u8]) -> bool
    ensures { result ≡ is_passed line.now }
{
    line.starts_with(b"left out ") || line.starts_with(b"  ")
}
