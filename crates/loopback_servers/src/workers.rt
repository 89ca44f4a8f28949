//! Threads that serve sessions, one client seat each.
ghost use Rattle.std.specs.Prelude.{◌≡◌, ◌<◌, ◌≤◌, ℕ, IfNone, IfOk, IfSome, IsSome, length, map, vec_len};
ghost use Rattle.live_cluster.specs.Sends.{IsListed};
ghost use Rattle.loopback_servers.specs.Working.{AreSessions, GrowEach, GrowsTo, IsPlain, IsSession};

use crate::connection::Connection;
use byte_streams::{ByteIn, ByteOut};
use byte_texts::Memory;
use crossbeam_channel::Receiver;
use live_cluster::{ClientSeat, ClusterBrand, LiveClient, LiveCluster};
use node_session::{SessionEnd, serve_session};
use std::alloc::Global;
use std::sync::Wait;
use std::thread;
use std::thread::Threads;

/// Serves one session after the other, until the channel is closed and empty. A connection to a node that the cluster
/// does not have is dropped. However a session ends, the next one is served.
pub fn work<B: ClusterBrand, R: Wait, I: ByteIn + Drop, O: ByteOut + Drop>(
    rt: &R,
    alloc: Global,
    cluster: &LiveCluster<B>,
    seat: ClientSeat<B>,
    connections: Receiver<Connection<I, O>>,
) -> ClientSeat<B>
    ensures grows { GrowsTo seat result }
    ensures sessions { (count : ℕ) × AreSessions (IsPlain B.setup.opening
        (λ a b. record { gave = I.gave; ends = I.ends; failures = I.failures; before = a; after = b })
        (λ a b. record { took = O.took; failures = O.failures; before = a; after = b })) count seat result }
{
    let mut port = LiveClient::new(rt, alloc, cluster, seat);
    for mut connection in connections.iter(rt) {
        let _ended = serve_connection(alloc, cluster, &mut port, &mut connection);
    }
    port.into_seat()
}

/// SessionExact of the connection, at its own node and through the worker's port: serves its session, if the cluster
/// has that node.
fn serve_connection<B: ClusterBrand, R: Wait, I: ByteIn + Drop, O: ByteOut + Drop>(
    alloc: Global,
    cluster: &LiveCluster<B>,
    port: &mut LiveClient<'_, B, R>,
    connection: &mut Connection<I, O>,
) -> Option<(SessionEnd, u64)>
    ensures served { IfSome result (λ end. IsSession
        (record {
          gave = I.gave;
          ends = I.ends;
          failures = I.failures;
          before = connection.old.reader;
          after = connection.new.reader;
        })
        (record {
          took = O.took;
          failures = O.failures;
          before = connection.old.writer;
          after = connection.new.writer;
        })
        (record {
          sends = λ p s q. IsListed p.seat s q.seat;
          node = connection.old.node;
          before = port.old;
          after = port.new;
        }) end.0 end.1) }
    ensures there { connection.old.node < length B.setup.opening.nodes → IsSome result }
    ensures stays { IfNone result ((connection.new ≡ connection.old) × (port.new.seat ≡ port.old.seat)) }
    ensures plain { IsPlain B.setup.opening
        (λ a b. record { gave = I.gave; ends = I.ends; failures = I.failures; before = a; after = b })
        (λ a b. record { took = O.took; failures = O.failures; before = a; after = b }) port.old.seat port.new.seat }
    ensures grows { GrowsTo port.old.seat port.new.seat }
{
    if connection.node.get() >= cluster.nodes() {
        return None;
    }
    Some(serve_at_node(alloc, port, connection))
}

/// Serves the session of a connection to a node that there is.
fn serve_at_node<B: ClusterBrand, R: Wait, I: ByteIn + Drop, O: ByteOut + Drop>(
    alloc: Global,
    port: &mut LiveClient<'_, B, R>,
    connection: &mut Connection<I, O>,
) -> (SessionEnd, u64)
    requires { connection.old.node < length B.setup.opening.nodes }
    ensures served { IsSession
        (record {
          gave = I.gave;
          ends = I.ends;
          failures = I.failures;
          before = connection.old.reader;
          after = connection.new.reader;
        })
        (record {
          took = O.took;
          failures = O.failures;
          before = connection.old.writer;
          after = connection.new.writer;
        })
        (record {
          sends = λ p s q. IsListed p.seat s q.seat;
          node = connection.old.node;
          before = port.old;
          after = port.new;
        }) result.0 result.1 }
    ensures plain { IsPlain B.setup.opening
        (λ a b. record { gave = I.gave; ends = I.ends; failures = I.failures; before = a; after = b })
        (λ a b. record { took = O.took; failures = O.failures; before = a; after = b }) port.old.seat port.new.seat }
    ensures grows { GrowsTo port.old.seat port.new.seat }
{
    serve_session(
        alloc,
        &mut connection.reader,
        &mut connection.writer,
        port,
        connection.node,
    )
}

/// Sessions that a seat serves one after the other.
pub(crate) trait Sessions {
    ghost use Rattle.std.specs.Prelude.{ℕ, List};
    ghost use Rattle.cluster_world.specs.Worlds.{World};
    ghost use Rattle.cluster_world.specs.declared.event.Event.{Event};

    /// In a cluster that was opened so they lead from this seat to that.
    ghost serves: { Self → World → ℕ × List Event → ℕ × List Event → Type 0 };

    fn serve<B: ClusterBrand, R: Wait>(
        self,
        rt: &R,
        alloc: Global,
        cluster: &LiveCluster<B>,
        seat: ClientSeat<B>,
    ) -> ClientSeat<B>
        ensures grows { GrowsTo seat result }
        ensures served { serves self B.setup.opening seat result };
}

impl<I: ByteIn + Drop, O: ByteOut + Drop> Sessions for Receiver<Connection<I, O>> {
    ghost use Rattle.std.specs.Prelude.{None};
    ghost use Rattle.loopback_servers.specs.Clients.{Works};

    ghost serves = { λ _ opening s t. Works opening
        (λ a b. record { gave = I.gave; ends = I.ends; failures = I.failures; before = a; after = b })
        (λ a b. record { took = O.took; failures = O.failures; before = a; after = b }) None s t };

    fn serve<B: ClusterBrand, R: Wait>(
        self,
        rt: &R,
        alloc: Global,
        cluster: &LiveCluster<B>,
        seat: ClientSeat<B>,
    ) -> ClientSeat<B> {
        work(rt, alloc, cluster, seat, self)
    }
}

/// A seat with the end of the channel that its worker takes connections from. Both types are parameters, so that `Send`
/// of a worker follows from `Send` of each by itself.
#[derive(Drop)]
pub(crate) struct Worker<S: Drop, C: Drop> {
    pub(crate) seat: S,
    pub(crate) connections: C,
}

/// Serves sessions by one thread for each seat, and gives the seats back. Where memory runs out no more threads are
/// started, those that were started are joined, and the seats are dropped, with the ends of the channel. Otherwise each
/// seat comes back at its place, with its sessions' calls after those that it had.
pub fn pool<
    B: ClusterBrand + Send + Sync,
    R: Threads + Wait + Sync,
    I: ByteIn + Drop + Send,
    O: ByteOut + Drop + Send,
>(
    rt: &R,
    alloc: Global,
    cluster: &LiveCluster<B>,
    seats: Vec<ClientSeat<B>>,
    connections: Receiver<Connection<I, O>>,
) -> Result<Vec<ClientSeat<B>>, Memory>
    requires { 1 ≤ vec_len seats }
    ensures count { IfOk result (λ v. vec_len v ≡ vec_len seats) }
    ensures seats { IfOk result (λ v. GrowEach seats.items v.items) }
{
    let workers = workers_of(alloc, seats, connections)?;
    run_workers(rt, alloc, cluster, workers)
}

/// Runs each worker by a thread of its own. What its sessions are is a parameter, so that `Sync` of the cluster is
/// found.
pub(crate) fn run_workers<
    B: ClusterBrand + Send + Sync,
    R: Threads + Wait + Sync,
    C: Sessions + Drop + Send,
>(
    rt: &R,
    alloc: Global,
    cluster: &LiveCluster<B>,
    workers: Vec<Worker<ClientSeat<B>, C>>,
) -> Result<Vec<ClientSeat<B>>, Memory>
    requires { 1 ≤ vec_len workers }
    ensures count { IfOk result (λ v. vec_len v ≡ vec_len workers) }
    ensures seats { IfOk result (λ v. GrowEach (map (λ w. w.seat) workers.items) v.items) }
{
    thread::map_vec(
        rt,
        workers,
        &|worker: Worker<ClientSeat<B>, C>| -> ClientSeat<B>
            ensures { GrowsTo worker.seat result }
        { work_as(rt, alloc, cluster, worker) },
    )
}

/// Works by the worker's seat.
fn work_as<B: ClusterBrand, R: Wait, C: Sessions + Drop>(
    rt: &R,
    alloc: Global,
    cluster: &LiveCluster<B>,
    worker: Worker<ClientSeat<B>, C>,
) -> ClientSeat<B>
    ensures { GrowsTo worker.seat result }
{
    let Worker { seat, connections } = worker;
    connections.serve(rt, alloc, cluster, seat)
}

/// Gives each seat an end of the channel.
pub(crate) fn workers_of<B: ClusterBrand, I: Drop, O: Drop>(
    alloc: Global,
    seats: Vec<ClientSeat<B>>,
    connections: Receiver<Connection<I, O>>,
) -> Result<Vec<Worker<ClientSeat<B>, Receiver<Connection<I, O>>>>, Memory>
    ensures { IfOk result (λ v. map (λ w. w.seat) v.items ≡ seats.items) }
{
    let mut workers = Vec::new(alloc);
    for seat in seats {
        workers.push(Worker {
            seat,
            connections: connections.clone()?,
        })?;
    }
    Ok(workers)
}
