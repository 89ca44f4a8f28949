//! Clients of a running cluster: pools of connections, which send one request at a time or sixteen, cut as a socket
//! cuts them.
ghost use Rattle.std.specs.Prelude.{◌≡◌};

use crate::digest::Digest;
use crate::filler::Filler;
use crate::noting::{note_session, note_trail};
use crate::random::Random;
use crate::requests::{begin, numbered, word};
use crate::users::{homes, put_key};
use anyhow::anyhow;
use byte_streams::{ByteIn, Failed, MemoryOut};
use cluster_admin::NodeCount;
use key_slots::{NodeId, OwnerTable};
use live_cluster::{ClientSeat, ClusterBrand, ClusterSetup, LiveClient, LiveCluster};
use node_session::serve_session;
use std::alloc::{AllocError, Global};
use std::marker::Brand;
use std::sync::Wait;

const NODES: u8 = 3;

const USERS: u64 = 16_384;

/// How many connections there are, each with a session of its own.
const SESSIONS: u64 = 32;

/// How many requests go out at once where a client sends several.
const PIPELINE: u64 = 16;

/// A stream that comes in pieces.
#[derive(Drop)]
struct Pieces<'a> {
    left: &'a [u8],
    lengths: &'a [usize],
    ends: u64,
}

impl ByteIn for Pieces<'_> {
    ghost gave = { λ x n bytes y. Unit {0} };

    ghost ends = { λ x. x.ends };

    ghost failures = { λ x. 0 };

    fn read(&mut self, buffer: &mut [u8]) -> Result<usize, Failed> {
        let mut count = self.left.len().min(buffer.len());
        if let [first, rest @ ..] = self.lengths {
            count = count.min(*first);
            self.lengths = rest;
        }
        if count == 0 {
            self.ends = self.ends.wrapping_add(1);
            return Ok(0);
        }
        let left = self.left;
        buffer[..count].copy_from_slice(&left[..count]);
        self.left = &left[count..];
        Ok(count)
    }

    ghost gave_none = { λ x. tt };

    ghost gave_then = { λ x y z m n a b h k. tt };
}

/// What a client sends, and how it is cut.
#[derive(Drop)]
struct Stream {
    bytes: Vec<u8>,
    lengths: Vec<usize>,
}

/// What the clients' requests are made of.
#[derive(Drop)]
struct Clients {
    random: Random,
    filler: Filler,
    homes: Vec<NodeId>,
}

/// So many requests by each connection to a running cluster.
pub fn serve<R: Wait>(rt: &R, alloc: Global, requests: u64, seed: u64) -> anyhow::Result<u64> {
    let owners = OwnerTable::even(alloc, NODES, NODES)?;
    let mut random = Random::new(seed);
    let filler = Filler::new(alloc, &mut random)?;
    let clients = Clients {
        random,
        filler,
        homes: homes(alloc, &owners, USERS)?,
    };
    let Ok(setup) = ClusterSetup::new(alloc, owners, 7000) else {
        return Err(anyhow!("no cluster was set up"));
    };
    serve_setup(rt, alloc, setup, clients, requests)
}

fn serve_setup<R: Wait>(
    rt: &R,
    alloc: Global,
    setup: ClusterSetup,
    clients: Clients,
    requests: u64,
) -> anyhow::Result<u64> {
    serve_cluster::<Brand, R>(rt, alloc, setup, clients, requests)
}

fn serve_cluster<B: ClusterBrand, R: Wait>(
    rt: &R,
    alloc: Global,
    setup: ClusterSetup,
    clients: Clients,
    requests: u64,
) -> anyhow::Result<u64>
    requires { setup ≡ B.setup }
{
    if setup.nodes() > 8 {
        return Err(anyhow!("a running cluster has at most eight nodes"));
    }
    let Ok(cluster) = LiveCluster::<B>::open(alloc, setup) else {
        return Err(anyhow!("no cluster was opened"));
    };
    let mut digest = Digest::new();
    let mut seats = Vec::new(alloc);
    let mut clients = clients;
    for number in 0..SESSIONS {
        let seat = session(
            rt,
            alloc,
            &cluster,
            &mut clients,
            number,
            requests,
            &mut digest,
        )?;
        seats.push(seat)?;
    }
    let Ok(admin) = cluster.admin_seat(rt) else {
        return Err(anyhow!("there is no administrator's seat"));
    };
    let closed = cluster.close(seats, admin);
    note_trail(alloc, &mut digest, &closed.trail)?;
    Ok(digest.get())
}

/// Serves one connection to its end.
fn session<B: ClusterBrand, R: Wait>(
    rt: &R,
    alloc: Global,
    cluster: &LiveCluster<B>,
    clients: &mut Clients,
    number: u64,
    requests: u64,
    digest: &mut Digest,
) -> anyhow::Result<ClientSeat<B>> {
    let node = NodeId::of((number % u64::from(NODES)) as u8);
    let at_once = if number % 2 == 0 { 1 } else { PIPELINE };
    let stream = clients.stream(alloc, node, requests, at_once)?;
    let mut reader = Pieces {
        left: stream.bytes.as_slice(),
        lengths: stream.lengths.as_slice(),
        ends: 0,
    };
    let Ok(seat) = cluster.client_seat(rt) else {
        return Err(anyhow!("there is no client's seat"));
    };
    let mut client = LiveClient::new(rt, alloc, cluster, seat);
    if node.get() < client.nodes() {
        let mut writer = MemoryOut::new(alloc, usize::MAX);
        let (end, sent) = serve_session(alloc, &mut reader, &mut writer, &mut client, node);
        note_session(digest, &end, sent, writer.bytes.as_slice());
    }
    Ok(client.into_seat())
}

impl Clients {
    /// So many requests to the node, which go out so many at once. Each write is cut in two now and then.
    fn stream(
        &mut self,
        alloc: Global,
        node: NodeId,
        requests: u64,
        at_once: u64,
    ) -> Result<Stream, AllocError> {
        let mut bytes = Vec::new(alloc);
        let mut lengths = Vec::new(alloc);
        let mut begun = 0;
        for number in 0..requests {
            self.request(&mut bytes, node)?;
            if number % at_once.max(1) == 0 {
                self.cut(&mut lengths, bytes.len() - begun.min(bytes.len()))?;
                begun = bytes.len();
            }
        }
        Ok(Stream { bytes, lengths })
    }

    /// Puts the length of what was written at once, in one piece or two.
    fn cut(&mut self, lengths: &mut Vec<usize>, length: usize) -> Result<(), AllocError> {
        let first = (self.random.next() as usize) % (length.saturating_mul(4).max(1));
        if first > 0 && first < length {
            lengths.push(first)?;
            lengths.push(length - first)?;
        } else if length > 0 {
            lengths.push(length)?;
        }
        Ok(())
    }

    /// One request, of a user whose keys the node owns, or now and then of any.
    fn request(&mut self, out: &mut Vec<u8>, node: NodeId) -> Result<(), AllocError> {
        let mut user = self.random.skewed();
        for _ in 0..64 {
            if self.random.below(50) == 0 || self.is_at(user, node) {
                break;
            }
            user = user.wrapping_add(1) % USERS;
        }
        match self.random.below(100) {
            0..=49 => self.with_key(out, 2, b"GET", user, b"name"),
            50..=69 => {
                self.with_key(out, 3, b"SET", user, b"name")?;
                self.value(out)
            }
            70..=74 => self.with_key(out, 2, b"INCR", user, b"visits"),
            75..=79 => self.several(out, user),
            80..=84 => {
                self.with_key(out, 4, b"HSET", user, b"cart")?;
                numbered(out, b"field:", self.random.below(16))?;
                self.value(out)
            }
            85..=89 => {
                self.with_key(out, 3, b"HGET", user, b"cart")?;
                numbered(out, b"field:", self.random.below(16))
            }
            90..=92 => {
                self.with_key(out, 3, b"LPUSH", user, b"log")?;
                self.value(out)
            }
            93..=94 => self.with_key(out, 2, b"RPOP", user, b"log"),
            95 => self.with_key(out, 2, b"HGETALL", user, b"cart"),
            96 => self.with_key(out, 2, b"DEL", user, b"name"),
            97 => {
                begin(out, 1)?;
                word(out, b"PING")
            }
            _ => {
                self.with_key(out, 3, b"SADD", user, b"tags")?;
                numbered(out, b"tag:", self.random.below(64))
            }
        }
    }

    fn is_at(&self, user: u64, node: NodeId) -> bool {
        match self.homes.as_slice().get(user as usize) {
            Some(home) => *home == node,
            None => true,
        }
    }

    fn with_key(
        &mut self,
        out: &mut Vec<u8>,
        words: u64,
        name: &[u8],
        user: u64,
        kind: &[u8],
    ) -> Result<(), AllocError> {
        begin(out, words)?;
        word(out, name)?;
        self.key(out, user, kind)
    }

    fn key(&mut self, out: &mut Vec<u8>, user: u64, kind: &[u8]) -> Result<(), AllocError> {
        let mut key = Vec::new(*out.allocator());
        put_key(&mut key, user, kind)?;
        word(out, key.as_slice())
    }

    fn value(&mut self, out: &mut Vec<u8>) -> Result<(), AllocError> {
        word(out, self.filler.usual(&mut self.random))
    }

    fn several(&mut self, out: &mut Vec<u8>, user: u64) -> Result<(), AllocError> {
        self.with_key(out, 4, b"MGET", user, b"name")?;
        self.key(out, user, b"mail")?;
        self.key(out, user, b"visits")
    }
}
