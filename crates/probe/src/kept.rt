//! What a trail keeps of the commands that its port takes over. Each line of the input is a command in hexadecimal. All
//! are sent to a cluster of one node, and `kept` is printed while the trail is there: `tests/run_refusals.py` counts
//! the bytes that the allocator has out then, which are to be the same for commands that are lent, and copied with the
//! room that they need, as for those that are handed over.
ghost use Rattle.std.specs.Prelude.{◌≡◌};

use anyhow::anyhow;
use byte_texts::{MAX_BYTES, Text};
use cluster_world::{NodePort, RecordedWorld};
use key_slots::{NodeId, OwnerTable};
use live_cluster::{ClusterBrand, ClusterSetup, LiveClient, LiveCluster};
use resp2_wire::{Decoder, Reply, Request};
use script_lines::Line;
use std::alloc::Global;
use std::io::Write;
use std::marker::Brand;
use std::sync::Wait;
use store_commands::Command;

/// What is printed.
const KEPT: &[u8] = b"kept\n";

/// More room than any of the words needs.
const ROOM: usize = 65_536;

/// Who has the trail.
#[derive(Clone, Copy)]
enum Keeper {
    /// A recorded world.
    Recorded,
    /// A running cluster.
    Running,
}

/// How the port is given a command.
#[derive(Clone, Copy)]
enum Way {
    Lent,
    Handed,
}

/// What the bytes of a line are.
#[derive(Clone, Copy)]
enum Source {
    /// A request, as it comes from a socket.
    Wire,
    /// A line of a script.
    Script,
    /// Words with a space between each two, of which texts with much room are made.
    Roomy,
}

/// Commands that are kept.
#[derive(Clone, Copy)]
pub struct Keeping {
    keeper: Keeper,
    way: Way,
    source: Source,
}

impl Keeping {
    /// What the words of the command line ask for: `recorded` or `running`, `lent` or `handed`, and `wire`, `script`
    /// or `roomy`.
    pub fn read(words: &[String]) -> Option<Self> {
        let [keeper, way, source] = words else {
            return None;
        };
        Some(Self {
            keeper: match keeper.as_str() {
                "recorded" => Keeper::Recorded,
                "running" => Keeper::Running,
                _ => return None,
            },
            way: match way.as_str() {
                "lent" => Way::Lent,
                "handed" => Way::Handed,
                _ => return None,
            },
            source: match source.as_str() {
                "wire" => Source::Wire,
                "script" => Source::Script,
                "roomy" => Source::Roomy,
                _ => return None,
            },
        })
    }

    /// Sends the commands of the lines, and says so while their trail is there.
    pub fn run<R: Wait, W: Write>(
        self,
        rt: &R,
        alloc: Global,
        lines: &[String],
        out: &mut W,
    ) -> anyhow::Result<()> {
        let owners = OwnerTable::even(alloc, 1, 1)?;
        match self.keeper {
            Keeper::Recorded => self.keep_recorded(alloc, owners, lines, out),
            Keeper::Running => {
                let setup = ClusterSetup::new(alloc, owners, 7000)?;
                self.keep_running::<Brand, R, W>(rt, alloc, setup, lines, out)
            }
        }
    }

    fn keep_recorded<W: Write>(
        self,
        alloc: Global,
        owners: OwnerTable,
        lines: &[String],
        out: &mut W,
    ) -> anyhow::Result<()> {
        let (mut recorded, seat) = RecordedWorld::open(alloc, owners, 7000)?;
        drop(seat);
        for line in lines {
            let command = self.command(alloc, line.as_bytes())?;
            let reply = self.send(&mut recorded, command)?;
            recorded.put(reply);
        }
        out.write_all(KEPT)?;
        Ok(())
    }

    fn keep_running<B: ClusterBrand, R: Wait, W: Write>(
        self,
        rt: &R,
        alloc: Global,
        setup: ClusterSetup,
        lines: &[String],
        out: &mut W,
    ) -> anyhow::Result<()>
        requires { setup ≡ B.setup }
    {
        if setup.nodes() > 8 {
            return Err(anyhow!("a running cluster has at most eight nodes"));
        }
        let cluster = LiveCluster::<B>::open(alloc, setup)?;
        let Ok(seat) = cluster.client_seat(rt) else {
            return Err(anyhow!("there is no client's seat"));
        };
        let mut client = LiveClient::new(rt, alloc, &cluster, seat);
        for line in lines {
            let command = self.command(alloc, line.as_bytes())?;
            drop(self.send(&mut client, command)?);
        }
        out.write_all(KEPT)?;
        Ok(())
    }

    /// What the port's first node answers.
    fn send<P: NodePort>(self, port: &mut P, command: Command) -> anyhow::Result<Reply> {
        let node = NodeId::of(0);
        if node.get() >= port.nodes() {
            return Err(anyhow!("there is no node"));
        }
        let answer = match self.way {
            Way::Lent => port.send(node, false, &command),
            Way::Handed => port.send_owned(node, false, command),
        };
        match answer {
            Ok(reply) => Ok(reply),
            Err(_) => Err(anyhow!("a command was not answered")),
        }
    }

    /// The command that is written so.
    fn command(self, alloc: Global, written: &[u8]) -> anyhow::Result<Command> {
        let bytes = hex::decode(alloc, written)?;
        let request = match self.source {
            Source::Wire => request_on_the_wire(alloc, bytes.as_slice())?,
            Source::Script => request_of_a_line(alloc, bytes.as_slice())?,
            Source::Roomy => roomy_request(alloc, bytes.as_slice())?,
        };
        match Command::read(alloc, request) {
            Ok(command) => Ok(command),
            Err(_) => Err(anyhow!("a command was not read")),
        }
    }
}

fn request_on_the_wire(alloc: Global, bytes: &[u8]) -> anyhow::Result<Request> {
    let mut decoder = Decoder::new(alloc);
    decoder.feed(bytes)?;
    match decoder.next() {
        Ok(Some(request)) => Ok(request),
        _ => Err(anyhow!("a request was not read")),
    }
}

fn request_of_a_line(alloc: Global, line: &[u8]) -> anyhow::Result<Request> {
    match Line::read(alloc, 1, line) {
        Ok(Line::Call { request, .. }) => Ok(request),
        _ => Err(anyhow!("a line was not read")),
    }
}

/// A request of a few short words, with much room for each and for all.
fn roomy_request(alloc: Global, words: &[u8]) -> anyhow::Result<Request> {
    let mut texts = Vec::with_capacity(alloc, ROOM)?;
    for word in words.split(|byte| *byte == b' ') {
        let mut text = Vec::with_capacity(alloc, ROOM)?;
        text.extend_from_slice(word)?;
        if text.len() > MAX_BYTES {
            return Err(anyhow!("a word is too long"));
        }
        texts.push(Text::from_vec(text))?;
    }
    if texts.len() > 1024 {
        return Err(anyhow!("there are too many words"));
    }
    Ok(Request::from_vec(texts))
}
