//! Clients that follow redirections over sockets, while a plan moves slots.
use crate::commands::{get_b, is_same, numbered, text};
use cluster_admin::{NodeCount, PortFault};
use cluster_cli::TcpPort;
use cluster_world::NodePort;
use key_slots::OwnerTable;
use redirect_client::{Client, ClientFault};
use resp2_wire::Reply;
use slot_keyspace::Keyspace;
use std::alloc::Global;
use std::net::{Net, TcpListener, TcpStream};
use std::sync::atomic::{AtomicU64, Ordering};
use std::thread;
use store_commands::{Command, apply};

/// How often a client tries to connect.
const TRIES: u64 = 1_000_000;

/// How many turns somebody waits for all clients to be answered.
const TURNS: u64 = 100_000_000;

/// A client with its port.
pub(crate) struct Follower<P: NodePort + Drop> {
    alloc: Global,
    client: Client,
    port: P,
}

/// Written out, so that a proof sees one call where such a value is dropped.
impl<P: NodePort + Drop> Drop for Follower<P> {
    fn drop(self) {
        let Self {
            alloc: _,
            client,
            port,
        } = self;
        drop(client);
        drop(port);
    }
}

impl<'a, R: Net<Listener = TcpListener, Stream = TcpStream>> Follower<TcpPort<'a, R>> {
    /// A client of three nodes, whose table is that of the even split.
    fn new(rt: &'a R, alloc: Global, base_port: u16) -> Option<Self> {
        if base_port > 65528 {
            return None;
        }
        let owners = OwnerTable::even(alloc, 3, 3).ok()?;
        Some(Self {
            alloc,
            client: Client::new(owners, base_port),
            port: TcpPort::new(rt, alloc, 3, base_port).ok()?,
        })
    }
}

impl<P: NodePort + Drop> Follower<P> {
    fn ask(&mut self, command: &Command) -> Option<Result<Reply, ClientFault>> {
        if self.client.owners().nodes() > self.port.nodes() {
            return None;
        }
        Some(self.client.execute(&mut self.port, command))
    }

    /// Whether the key has no value.
    fn finds_nothing(&mut self, key: &[u8]) -> bool {
        let Some(key) = text(self.alloc, key) else {
            return false;
        };
        matches!(&self.ask(&Command::get(key)), Some(Ok(Reply::Null)))
    }
}

/// Whether somebody listens and answers that the key has no value. None where that is answered by anything else.
fn is_begun(answer: &Result<Reply, ClientFault>) -> Option<bool> {
    match answer {
        Ok(Reply::Null) => Some(true),
        Err(ClientFault::Port(PortFault::Io)) => Some(false),
        _ => None,
    }
}

/// A client whose GET b is answered, as soon as somebody listens.
pub(crate) fn begin<R: Net<Listener = TcpListener, Stream = TcpStream>>(
    rt: &R,
    alloc: Global,
    base_port: u16,
) -> Option<Follower<TcpPort<'_, R>>> {
    let command = get_b(alloc)?;
    for _ in 0..TRIES {
        let mut follower = Follower::new(rt, alloc, base_port)?;
        if is_begun(&follower.ask(&command)?)? {
            return Some(follower);
        }
        thread::yield_now();
    }
    None
}

/// Begins with GET b, GET c and GET a, and keeps its connections until so many clients are answered.
pub(crate) fn begin_with_others<'a, R: Net<Listener = TcpListener, Stream = TcpStream>>(
    rt: &'a R,
    alloc: Global,
    base_port: u16,
    answered: &AtomicU64,
    clients: u64,
) -> Option<Follower<TcpPort<'a, R>>> {
    let mut follower = begin(rt, alloc, base_port)?;
    if !follower.finds_nothing(b"c") || !follower.finds_nothing(b"a") {
        return None;
    }
    answered.fetch_add(1, Ordering::SeqCst);
    if wait_for(answered, clients) {
        Some(follower)
    } else {
        None
    }
}

/// Whether so many clients are answered within some turns.
pub(crate) fn wait_for(answered: &AtomicU64, clients: u64) -> bool {
    for _ in 0..TURNS {
        if answered.load(Ordering::SeqCst) >= clients {
            return true;
        }
        thread::yield_now();
    }
    false
}

/// How many of so many commands were answered as by one store that nobody else uses.
pub(crate) fn work<R: Net<Listener = TcpListener, Stream = TcpStream>>(
    mut follower: Follower<TcpPort<'_, R>>,
    number: u64,
    commands: u64,
) -> Option<u64> {
    let alloc = follower.alloc;
    let mut store = Keyspace::new(alloc).ok()?;
    for round in 0..commands {
        let command = numbered(alloc, number, round)?;
        let wanted = apply(alloc, &mut store, &command).ok()?;
        let Ok(reply) = follower.ask(&command)? else {
            return Some(round);
        };
        if !is_same(&wanted, &reply) {
            return Some(round);
        }
    }
    Some(commands)
}
