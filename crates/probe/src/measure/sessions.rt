use anyhow::anyhow;
use byte_streams::{ByteIn, Failed, MemoryIn, MemoryOut};
use cluster_world::World;
use key_slots::{NodeId, OwnerTable};
use node_session::{SessionEnd, serve_session};
use std::alloc::Global;

/// How the commands of a session come.
#[derive(Clone, Copy)]
pub enum Cut {
    /// Each in a read of its own.
    EachCommand,
    /// All in one read.
    None,
}

/// The commands of one session.
const COMMANDS: [&[u8]; 10] = [
    b"*3\r\n$3\r\nSET\r\n$5\r\nkey:0\r\n$11\r\nfirst value\r\n",
    b"*2\r\n$3\r\nGET\r\n$5\r\nkey:0\r\n",
    b"*3\r\n$3\r\nSET\r\n$5\r\nkey:1\r\n$11\r\nother value\r\n",
    b"*2\r\n$3\r\nGET\r\n$5\r\nkey:1\r\n",
    b"*3\r\n$3\r\nSET\r\n$5\r\nkey:2\r\n$11\r\nthird value\r\n",
    b"*2\r\n$3\r\nGET\r\n$5\r\nkey:2\r\n",
    b"*3\r\n$3\r\nSET\r\n$5\r\nkey:3\r\n$11\r\nnext value!\r\n",
    b"*2\r\n$3\r\nGET\r\n$5\r\nkey:3\r\n",
    b"*3\r\n$3\r\nSET\r\n$5\r\nkey:4\r\n$11\r\nfinal value\r\n",
    b"*2\r\n$3\r\nGET\r\n$5\r\nkey:4\r\n",
];

/// Gives one command a read.
#[derive(Drop)]
struct Commands<'a> {
    left: &'a [&'a [u8]],
    ends: u64,
}

impl ByteIn for Commands<'_> {
    ghost gave = { λ x n bytes y. Unit {0} };

    ghost ends = { λ x. x.ends };

    ghost failures = { λ x. 0 };

    fn read(&mut self, buffer: &mut [u8]) -> Result<usize, Failed> {
        match self.left {
            [first, rest @ ..] if !first.is_empty() => {
                let count = first.len().min(buffer.len());
                buffer[..count].copy_from_slice(&first[..count]);
                self.left = rest;
                Ok(count)
            }
            _ => {
                self.ends = self.ends.wrapping_add(1);
                Ok(0)
            }
        }
    }

    ghost gave_none = { λ x. tt };

    ghost gave_then = { λ x y z m n a b h k. tt };
}

/// Serves so many sessions, one after the other, at a cluster of one node, and returns how many bytes were answered.
pub fn serve(alloc: Global, cut: Cut, count: usize) -> anyhow::Result<u64> {
    let (mut world, seat) = World::open(alloc, OwnerTable::even(alloc, 1, 1)?, 7000)?;
    drop(seat);
    let mut input = Vec::new(alloc);
    for command in COMMANDS {
        input.extend_from_slice(command)?;
    }
    let mut answered = 0u64;
    for _ in 0..count {
        let (end, sent) = match cut {
            Cut::EachCommand => serve_commands(alloc, &mut world)?,
            Cut::None => serve_input(alloc, &mut world, input.as_slice())?,
        };
        if end != SessionEnd::Closed {
            return Err(anyhow!("a session was not served to its end"));
        }
        answered = answered.saturating_add(sent);
    }
    Ok(answered)
}

/// Serves a session of which each command comes in a read of its own.
fn serve_commands(alloc: Global, world: &mut World) -> anyhow::Result<(SessionEnd, u64)> {
    let mut reader = Commands {
        left: COMMANDS.as_slice(),
        ends: 0,
    };
    serve_reader(alloc, world, &mut reader)
}

/// Serves a session of which all commands come in one read.
fn serve_input(
    alloc: Global,
    world: &mut World,
    input: &[u8],
) -> anyhow::Result<(SessionEnd, u64)> {
    serve_reader(alloc, world, &mut MemoryIn::new(input, false))
}

fn serve_reader<R: ByteIn>(
    alloc: Global,
    world: &mut World,
    reader: &mut R,
) -> anyhow::Result<(SessionEnd, u64)> {
    let node = NodeId::of(0);
    if node.get() >= world.nodes() {
        return Err(anyhow!("the cluster has no node"));
    }
    let mut writer = MemoryOut::new(alloc, usize::MAX);
    Ok(serve_session(alloc, reader, &mut writer, world, node))
}
