//! Sessions of one pool: one waits for another's reply, and one is reset.
ghost use Rattle.std.specs.Prelude.{◌≡◌, ◌≤◌, IfSome, vec_len};

use byte_streams::{StandardIn, StandardOut};
use cluster_cli::{Connection, pool};
use crossbeam_channel::{Receiver, bounded};
use key_slots::{NodeId, OwnerTable};
use live_cluster::{ClientSeat, ClosedTrail, ClusterBrand, ClusterSetup, LiveCluster};
use std::alloc::{AllocError, Global};
use std::io::{Read, Write};
use std::marker::Brand;
use std::sync::atomic::{AtomicU64, Ordering};
use std::sync::{Arc, Wait};
use std::test::Fail;
use std::thread::Threads;
use std::{io, thread};

/// How many turns a reader waits.
const TURNS: u64 = 1_000_000;

/// What a session's reader does.
#[derive(Clone, Copy, PartialEq, Eq)]
enum Kind {
    /// It gives a request, once.
    Asks,
    /// It gives its next request after a reply was written elsewhere, or else it ends.
    Waits,
    /// The client resets the connection.
    Resets,
}

/// How many replies were written, for all who ask.
type Replied = Arc<AtomicU64>;

/// The reader of a session.
#[derive(Drop)]
struct OneRequest {
    replied: Replied,
    kind: Kind,
    given: bool,
}

const REQUEST: &[u8] = b"*2\r\n$3\r\nGET\r\n$1\r\nb\r\n";

impl Read for OneRequest {
    fn read(&mut self, buffer: &mut [u8]) -> io::Result<usize> {
        if self.given {
            return Ok(0);
        }
        self.given = true;
        match self.kind {
            Kind::Asks => {}
            Kind::Waits if waited(&self.replied) => {}
            Kind::Waits => return Ok(0),
            Kind::Resets => return Err(io::Error::from(io::ErrorKind::Other)),
        }
        let count = REQUEST.len().min(buffer.len());
        let (prefix, _) = REQUEST.split_at(count);
        buffer[..count].copy_from_slice(prefix);
        Ok(count)
    }
}

/// Whether the reply was written within so many turns.
fn waited(replied: &AtomicU64) -> bool {
    for _ in 0..TURNS {
        if replied.load(Ordering::SeqCst) > 0 {
            return true;
        }
        thread::yield_now();
    }
    false
}

/// Counts the replies that are written.
#[derive(Drop)]
struct Replies {
    replied: Replied,
}

impl Write for Replies {
    fn write(&mut self, bytes: &[u8]) -> io::Result<usize> {
        self.replied.fetch_add(1, Ordering::SeqCst);
        Ok(bytes.len())
    }

    fn flush(&mut self) -> io::Result<()> {
        Ok(())
    }
}

type TestConnection = Connection<StandardIn<OneRequest>, StandardOut<Replies>>;

fn connection_of(replied: &Replied, kind: Kind) -> Result<TestConnection, AllocError> {
    Ok(Connection {
        node: NodeId::of(0),
        reader: StandardIn::new(OneRequest {
            replied: Arc::try_clone(replied)?,
            kind,
            given: false,
        }),
        writer: StandardOut::new(Replies {
            replied: Arc::try_clone(replied)?,
        }),
    })
}

/// Seats for one worker, or for two.
fn seats_of<B: ClusterBrand, R: Wait>(
    rt: &R,
    alloc: Global,
    cluster: &LiveCluster<B>,
    both: bool,
) -> Option<Vec<ClientSeat<B>>>
    ensures { IfSome result (λ v. 1 ≤ vec_len v) }
{
    let mut seats = vec![in alloc; cluster.client_seat(rt).ok()?].ok()?;
    if both {
        seats.push(cluster.client_seat(rt).ok()?).ok()?;
    }
    Some(seats)
}

/// A queue with a session of this kind, and then one that asks.
fn queue_of<R: Wait>(
    rt: &R,
    alloc: Global,
    replied: &Replied,
    first: Kind,
) -> Option<Receiver<TestConnection>> {
    let (sender, receiver) = bounded(alloc, 2).ok()?;
    sender.send(rt, connection_of(replied, first).ok()?).ok()?;
    sender
        .send(rt, connection_of(replied, Kind::Asks).ok()?)
        .ok()?;
    Some(receiver)
}

/// A pool of one worker, or of two, gets both sessions.
fn serve_both<B: ClusterBrand + Send + Sync, R: Threads + Wait + Sync>(
    rt: &R,
    alloc: Global,
    setup: ClusterSetup,
    receiver: Receiver<TestConnection>,
    by_two: bool,
) -> Option<ClosedTrail>
    requires { setup ≡ B.setup }
{
    if setup.nodes() > 8 {
        return None;
    }
    let cluster = LiveCluster::<B>::open(alloc, setup).ok()?;
    let admin = cluster.admin_seat(rt).ok()?;
    let seats = seats_of(rt, alloc, &cluster, by_two)?;
    let seats = pool(rt, alloc, &cluster, seats, receiver).ok()?;
    Some(cluster.close(seats, admin))
}

/// Two workers serve first the session that waits, and then the one that it waits for.
#[test]
fn sessions_are_served_at_once(rt: HostRuntime) -> Result<(), Fail> {
    let alloc = rt.alloc();
    let setup = ClusterSetup::new(alloc, OwnerTable::even(alloc, 3, 3)?, 7000)?;
    let replied = Arc::new(alloc, AtomicU64::new(0))?;
    let receiver = queue_of(&rt, alloc, &replied, Kind::Waits).ok_or("no queue")?;
    let Some(closed) = serve_both::<Brand, _>(&rt, alloc, setup, receiver, true) else {
        return Err(Fail::from("out of memory"));
    };
    assert!(rt; replied.load(Ordering::SeqCst) == 2);
    assert!(rt; closed.trail.events().len() == 2);
    Ok(())
}

/// One worker serves first a session that is reset, and then one that asks.
#[test]
fn a_reset_ends_its_session_alone(rt: HostRuntime) -> Result<(), Fail> {
    let alloc = rt.alloc();
    let setup = ClusterSetup::new(alloc, OwnerTable::even(alloc, 3, 3)?, 7000)?;
    let replied = Arc::new(alloc, AtomicU64::new(0))?;
    let receiver = queue_of(&rt, alloc, &replied, Kind::Resets).ok_or("no queue")?;
    let Some(closed) = serve_both::<Brand, _>(&rt, alloc, setup, receiver, false) else {
        return Err(Fail::from("out of memory"));
    };
    assert!(rt; replied.load(Ordering::SeqCst) == 1);
    assert!(rt; closed.trail.events().len() == 1);
    Ok(())
}
