//! Large values at two nodes: made, read, thinned out in the middle, and moved to and fro.
ghost use Rattle.std.specs.Prelude.{◌≡◌, ◌<◌, length};
ghost use Rattle.script_lines.specs.Lines.{IsLine};

use crate::digest::Digest;
use crate::filler::Filler;
use crate::noting::{note_admin_reply, note_session};
use crate::random::Random;
use crate::requests::{begin, numbered, word};
use crate::words::{put, put_number};
use anyhow::anyhow;
use byte_streams::{MemoryIn, MemoryOut};
use cluster_world::World;
use key_slots::{NodeId, OwnerTable, Slot, slot_of};
use node_session::serve_session;
use script_lines::Line;
use std::alloc::{AllocError, Global};

/// How many pairs or elements a request brings.
const AT_ONCE: u64 = 250;

/// How many keys of a thousand bytes move in one batch.
const SMALL_KEYS: u64 = 1_000;

/// The world, and what its clients' requests are made of.
#[derive(Drop)]
struct Values {
    world: World,
    random: Random,
    filler: Filler,
    tag: u64,
    digest: Digest,
}

/// A hash, a list, a set of so many elements, a text of up to a megabyte, and a thousand small ones.
pub fn large_values(alloc: Global, elements: u64, seed: u64) -> anyhow::Result<u64> {
    let owners = OwnerTable::even(alloc, 2, 2)?;
    let mut random = Random::new(seed);
    let tag = tag_at(alloc, &owners, &mut random)?;
    let filler = Filler::new(alloc, &mut random)?;
    let (world, seat) = World::open(alloc, owners, 7000)?;
    drop(seat);
    let mut values = Values {
        world,
        random,
        filler,
        tag,
        digest: Digest::new(),
    };
    values.make(alloc, elements)?;
    values.ask(alloc, elements, 0)?;
    values.hand_over(alloc, 0, 1)?;
    values.thin(alloc, elements, 1)?;
    values.ask(alloc, elements, 1)?;
    values.hand_over(alloc, 1, 0)?;
    values.thin(alloc, elements, 0)?;
    values.ask(alloc, elements, 0)?;
    Ok(values.digest.get())
}

/// A hash tag whose slot the first node owns.
fn tag_at(alloc: Global, owners: &OwnerTable, random: &mut Random) -> Result<u64, AllocError> {
    let mut tag = random.next() % 1_000_000_000;
    for _ in 0..1_000 {
        let mut key = Vec::new(alloc);
        put(&mut key, b"{", tag, b"}")?;
        if owners.owner(slot_of(key.as_slice())).get() == 0 {
            break;
        }
        tag = tag.wrapping_add(1);
    }
    Ok(tag)
}

impl Values {
    /// Puts a key of the tag as the next word.
    fn key(&self, out: &mut Vec<u8>, kind: &[u8]) -> Result<(), AllocError> {
        let mut key = Vec::new(*out.allocator());
        put(&mut key, b"{", self.tag, b"}:")?;
        key.extend_from_slice(kind)?;
        word(out, key.as_slice())
    }

    fn begin(
        &self,
        out: &mut Vec<u8>,
        words: u64,
        name: &[u8],
        kind: &[u8],
    ) -> Result<(), AllocError> {
        begin(out, words)?;
        word(out, name)?;
        self.key(out, kind)
    }

    fn value(&mut self, out: &mut Vec<u8>, length: usize) -> Result<(), AllocError> {
        word(out, self.filler.value(&mut self.random, length))
    }

    /// Serves these requests at the node.
    fn serve(&mut self, alloc: Global, node: u8, requests: &[u8]) -> anyhow::Result<()>
        requires { node < 2 }
    {
        let node = NodeId::of(node);
        if node.get() >= self.world.nodes() {
            return Err(anyhow!("there is no such node"));
        }
        let mut reader = MemoryIn::new(requests, false);
        let mut writer = MemoryOut::new(alloc, usize::MAX);
        let (end, sent) = serve_session(alloc, &mut reader, &mut writer, &mut self.world, node);
        note_session(&mut self.digest, &end, sent, writer.bytes.as_slice());
        Ok(())
    }

    fn make(&mut self, alloc: Global, elements: u64) -> anyhow::Result<()> {
        let mut out = Vec::new(alloc);
        self.put_collections(&mut out, elements)?;
        self.put_texts(&mut out)?;
        self.serve(alloc, 0, out.as_slice())
    }

    fn put_collections(&mut self, out: &mut Vec<u8>, elements: u64) -> Result<(), AllocError> {
        for first in 0..elements / AT_ONCE + 1 {
            self.begin(out, 2 + 2 * AT_ONCE, b"HSET", b"hash")?;
            for number in 0..AT_ONCE {
                numbered(
                    out,
                    b"field:",
                    first.wrapping_mul(AT_ONCE).wrapping_add(number),
                )?;
                self.value(out, 20)?;
            }
            self.begin(out, 2 + AT_ONCE, b"SADD", b"set")?;
            for number in 0..AT_ONCE {
                numbered(
                    out,
                    b"member:",
                    first.wrapping_mul(AT_ONCE).wrapping_add(number),
                )?;
            }
            self.begin(out, 2 + AT_ONCE, b"RPUSH", b"list")?;
            for _ in 0..AT_ONCE {
                self.value(out, 24)?;
            }
        }
        Ok(())
    }

    fn put_texts(&mut self, out: &mut Vec<u8>) -> Result<(), AllocError> {
        for _ in 0..1_000 {
            self.begin(out, 3, b"APPEND", b"text")?;
            self.value(out, 1_000)?;
        }
        for number in 0..SMALL_KEYS {
            begin(out, 3)?;
            word(out, b"SET")?;
            self.small_key(out, number)?;
            self.value(out, 1_000)?;
        }
        Ok(())
    }

    fn small_key(&self, out: &mut Vec<u8>, number: u64) -> Result<(), AllocError> {
        let mut key = Vec::new(*out.allocator());
        put(&mut key, b"{", self.tag, b"}:")?;
        put_number(&mut key, number)?;
        word(out, key.as_slice())
    }

    /// Takes a few fields and members out of the middle, one and three at a time, and elements off both ends.
    fn thin(&mut self, alloc: Global, elements: u64, node: u8) -> anyhow::Result<()>
        requires { node < 2 }
    {
        let mut out = Vec::new(alloc);
        for turn in 0..20 {
            let count = if turn % 2 == 0 { 1 } else { 3 };
            self.begin(&mut out, 2 + count, b"HDEL", b"hash")?;
            for _ in 0..count {
                let number = self.random.next() % elements.max(1);
                numbered(&mut out, b"field:", number)?;
            }
            self.begin(&mut out, 2 + count, b"SREM", b"set")?;
            for _ in 0..count {
                let number = self.random.next() % elements.max(1);
                numbered(&mut out, b"member:", number)?;
            }
            self.begin(&mut out, 2, b"LPOP", b"list")?;
            self.begin(&mut out, 2, b"RPOP", b"list")?;
        }
        self.serve(alloc, node, out.as_slice())
    }

    /// Asks for all of each value, and for single fields and members.
    fn ask(&mut self, alloc: Global, elements: u64, node: u8) -> anyhow::Result<()>
        requires { node < 2 }
    {
        let mut out = Vec::new(alloc);
        self.begin(&mut out, 2, b"HGETALL", b"hash")?;
        self.begin(&mut out, 2, b"SMEMBERS", b"set")?;
        self.begin(&mut out, 4, b"LRANGE", b"list")?;
        word(&mut out, b"0")?;
        word(&mut out, b"-1")?;
        self.begin(&mut out, 2, b"GET", b"text")?;
        for _ in 0..elements / 10 {
            let number = self.random.next() % elements.max(1);
            self.begin(&mut out, 3, b"HGET", b"hash")?;
            numbered(&mut out, b"field:", number)?;
            self.begin(&mut out, 3, b"SISMEMBER", b"set")?;
            numbered(&mut out, b"member:", number)?;
        }
        self.serve(alloc, node, out.as_slice())
    }

    /// Moves all keys from one node to the other: the collections and the text one at a time, then the small ones.
    fn hand_over(&mut self, alloc: Global, from: u64, to: u64) -> anyhow::Result<()> {
        let mut key = Vec::new(alloc);
        put(&mut key, b"{", self.tag, b"}")?;
        let slot = slot_of(key.as_slice());
        self.set_slot(alloc, slot, b" importing n", from, to)?;
        self.set_slot(alloc, slot, b" migrating n", to, from)?;
        for kind in [
            b"hash".as_slice(),
            b"set".as_slice(),
            b"list".as_slice(),
            b"text".as_slice(),
        ] {
            let mut line = Vec::new(alloc);
            put(&mut line, b"migrate {", self.tag, b"}:")?;
            line.extend_from_slice(kind)?;
            self.migrate(alloc, line, from, to)?;
        }
        let mut line = Vec::new(alloc);
        line.extend_from_slice(b"migrate")?;
        for number in 0..SMALL_KEYS {
            put(&mut line, b" {", self.tag, b"}:")?;
            put_number(&mut line, number)?;
        }
        self.migrate(alloc, line, from, to)?;
        self.set_slot(alloc, slot, b" node n", to, to)?;
        self.set_slot(alloc, slot, b" node n", to, from)
    }

    fn set_slot(
        &mut self,
        alloc: Global,
        slot: Slot,
        how: &[u8],
        node: u64,
        at: u64,
    ) -> anyhow::Result<()> {
        let mut line = Vec::new(alloc);
        put(&mut line, b"setslot ", u64::from(slot.get()), how)?;
        put_number(&mut line, node)?;
        put(&mut line, b" at n", at, b"")?;
        self.administer(alloc, line.as_slice())
    }

    fn migrate(&mut self, alloc: Global, keys: Vec<u8>, from: u64, to: u64) -> anyhow::Result<()> {
        let mut line = keys;
        put(&mut line, b" at n", from, b" to n")?;
        put_number(&mut line, to)?;
        self.administer(alloc, line.as_slice())
    }

    /// Does what the line of a script says.
    fn administer(&mut self, alloc: Global, line: &[u8]) -> anyhow::Result<()> {
        let Ok(line) = Line::read(alloc, self.world.nodes(), line) else {
            return Err(anyhow!("a line was not read"));
        };
        self.play(line)
    }

    fn play(&mut self, line: Line) -> anyhow::Result<()>
        requires { IsLine (length self.old.world.nodes) line }
    {
        match line {
            Line::Admin { node, command } => {
                let reply = self.world.command(node, &command)?;
                note_admin_reply(&mut self.digest, &reply);
                Ok(())
            }
            _ => Err(anyhow!("a line is not the administrator's")),
        }
    }
}
