ghost use Rattle.std.specs.Prelude.{◌≡◌, ◌<◌, ◌||◌, ◌∷◌, IfOk, MatchOption, codes, length};
ghost use Rattle.byte_texts.specs.Parts.{parts};
ghost use Rattle.listed_nodes.specs.Nodes.{has_flag, line_in, line_of, nodes_of_text};

use crate::address::address_in;
use crate::name::name_in;
use crate::slot_word::{SlotWords, slot_words_in};
use byte_texts::{Memory, Parts, Text, is, wide_number};
use std::alloc::Global;
use std::marker::Model;

/// A node as a server knows it.
pub struct NodeLine {
    /// Its ID: 40 hexadecimal digits.
    pub name: Text,
    /// Its IP address, of at most [`MAX_HOST`](crate::MAX_HOST) bytes; empty where a server does not know its own yet.
    pub host: Text,
    /// Where it serves clients.
    pub port: u16,
    /// It is the server that answers.
    pub is_myself: bool,
    pub is_master: bool,
    /// It is down, by the server's own view (`fail?`) or by that of most masters (`fail`).
    pub is_failing: bool,
    /// It is down, by the view of most masters (`fail`).
    pub has_failed: bool,
    /// The bus to the node stands.
    pub is_linked: bool,
    /// Its config epoch; a replica's is its master's.
    pub epoch: u64,
    pub slots: SlotWords,
}

/// Written out, so that a proof sees one call where such a value is dropped.
impl Drop for NodeLine {
    fn drop(self) {
        let Self {
            name,
            host,
            port: _,
            is_myself: _,
            is_master: _,
            is_failing: _,
            has_failed: _,
            is_linked: _,
            epoch: _,
            slots,
        } = self;
        drop(name);
        drop(host);
        drop(slots);
    }
}

/// The nodes that a server knows, in the order of its answer.
pub struct NodeLines {
    lines: Vec<NodeLine>,
}

/// Written out, so that a proof sees one call where such a value is dropped.
impl Drop for NodeLines {
    fn drop(self) {
        let Self { lines } = self;
        drop(lines);
    }
}

impl Model for NodeLines {
    ghost use Rattle.std.specs.Prelude.{List};
    ghost use Rattle.listed_nodes.specs.declared.node_line.NodeLine.{NodeLine};

    ghost Value = { List NodeLine };

    ghost view = { λ n. n.lines.items };
}

impl NodeLines {
    /// The nodes.
    pub fn get(&self) -> &[NodeLine]
        ensures { result.now ≡ self.now }
    {
        self.lines.as_slice()
    }
}

/// Whether one of the words between the commas is this.
fn has_flag(flags: &[u8], flag: &[u8]) -> bool
    ensures { result ≡ has_flag flag.now flags.now }
{
    let mut words = Parts::of(flags, b',');
    while let Some(word) = words.next() {
        if is(word, flag) {
            return true;
        }
    }
    false
}

fn is_failing(flags: &[u8]) -> bool
    ensures { result ≡ (has_flag (codes "fail") flags.now || has_flag (codes "fail?") flags.now) }
{
    has_flag(flags, b"fail") || has_flag(flags, b"fail?")
}

/// The first eight words of a line.
#[derive(Clone, Copy)]
struct Fields<'a> {
    name: &'a [u8],
    address: &'a [u8],
    flags: &'a [u8],
    master: &'a [u8],
    ping: &'a [u8],
    pong: &'a [u8],
    epoch: &'a [u8],
    link: &'a [u8],
}

/// Takes eight words.
fn fields_in<'a>(words: &mut Parts<'a>) -> Option<Fields<'a>>
    ensures { MatchOption result (length words.old < 8)
        (λ f. words.old
        ≡ f.name.now ∷ (f.address.now ∷ (f.flags.now ∷ (f.master.now
        ∷ (f.ping.now ∷ (f.pong.now ∷ (f.epoch.now ∷ (f.link.now ∷ words.new)))))))) }
{
    let name = words.next()?;
    let address = words.next()?;
    let flags = words.next()?;
    let master = words.next()?;
    let ping = words.next()?;
    let pong = words.next()?;
    let epoch = words.next()?;
    let link = words.next()?;
    Some(Fields {
        name,
        address,
        flags,
        master,
        ping,
        pong,
        epoch,
        link,
    })
}

/// The node of these fields, with these words of slots.
fn line_of(alloc: Global, fields: Fields, words: Parts) -> Result<Option<NodeLine>, Memory>
    ensures { IfOk result (λ o. o
        ≡ line_of fields.entry.name.now fields.entry.address.now fields.entry.flags.now fields.entry.epoch.now
        fields.entry.link.now words.entry) }
{
    let Some(name) = name_in(alloc, fields.name)? else {
        return Ok(None);
    };
    let Some((host, port)) = address_in(alloc, fields.address)? else {
        return Ok(None);
    };
    let Some(epoch) = wide_number(fields.epoch) else {
        return Ok(None);
    };
    let Some(slots) = slot_words_in(alloc, words)? else {
        return Ok(None);
    };
    Ok(Some(NodeLine {
        name,
        host,
        port,
        is_myself: has_flag(fields.flags, b"myself"),
        is_master: has_flag(fields.flags, b"master"),
        is_failing: is_failing(fields.flags),
        has_failed: has_flag(fields.flags, b"fail"),
        is_linked: is(fields.link, b"connected"),
        epoch,
        slots,
    }))
}

/// The line that the text is, if it is one.
#[tactic(auto, using(crate::proofs::Reading::too_short))]
pub fn line_in(alloc: Global, text: &[u8]) -> Result<Option<NodeLine>, Memory>
    ensures { IfOk result (λ o. o ≡ line_in (parts 32 text.now)) }
{
    let mut words = Parts::of(text, b' ');
    match fields_in(&mut words) {
        Some(fields) => line_of(alloc, fields, words),
        None => Ok(None),
    }
}

/// The nodes that an answer to CLUSTER NODES lists, in its order, if it is one.
#[tactic(auto, using(crate::proofs::Reading::lines_read))]
pub fn nodes_in(alloc: Global, text: &[u8]) -> Result<Option<NodeLines>, Memory>
    ensures { IfOk result (λ o. o ≡ nodes_of_text text.now) }
{
    let mut lines = Parts::of(text, b'\n');
    let mut found = Vec::new(alloc);
    while let Some(line) = lines.next() {
        if lines.is_empty() {
            return if line.is_empty() {
                Ok(Some(NodeLines { lines: found }))
            } else {
                Ok(None)
            };
        }
        match line_in(alloc, line)? {
            Some(node) => found.push(node)?,
            None => return Ok(None),
        }
    }
    Ok(None)
}
