//! A cluster that is opened, served and closed.
ghost use Rattle.std.specs.Prelude.{◌≡◌, ◌⊎◌, ◌≤◌, Ok, Some, IfErr, IfOk, length, map, vec_len};
ghost use Rattle.loopback_servers.specs.Carrying.{verified_commands};
ghost use Rattle.loopback_servers.specs.Clients.{firsts};
ghost use Rattle.loopback_servers.specs.Served.{IsServed, IsServedWhole};
ghost use Rattle.loopback_servers.specs.Servings.{IsServable};
ghost use Rattle.loopback_servers.specs.Telling.{IsRunBeside, IsTold, MayTellEnd};
ghost use Rattle.loopback_servers.specs.Verdicts.{IsLegalInSplit, IsLegalOr, JudgesPlan};
ghost use Rattle.loopback_servers.specs.declared.unserved.Unserved.TheVariants as unserved;
ghost use Rattle.key_slots.specs.Owners.{IsEvenSplit};

use crate::accepting::{Acceptor, accept_all, acceptors_of, listen};
use crate::announcing::{announce, announce_closed, announce_serving};
use crate::asking::{Clients, clients_of};
use crate::connection::Connection;
use crate::options::ServeOptions;
use crate::plan_beside::{announce_end, run_beside};
use crate::sockets::{SocketIn, SocketOut};
use crate::unheard::Unheard;
use crate::unserved::Unserved;
use crate::workers::{Sessions, Worker, run_workers};
use byte_streams::ByteOut;
use byte_texts::Memory;
use crossbeam_channel::{Receiver, bounded};
use key_slots::OwnerTable;
use live_cluster::{AdminSeat, ClientSeat, ClusterBrand, ClusterSetup, LiveCluster};
use plan_runner::{Plan, VerifiedPlan};
use std::alloc::Global;
use std::marker::Brand;
use std::net::{Net, TcpListener, TcpStream};
use std::sync::Wait;
use std::thread::{Threads, join};
use transcripts::{Transcript, verify_and_report};

/// How many accepted connections may wait for a worker.
const WAITING: usize = 32;

/// Serves a cluster of these options to real clients, with the plan beside them, and gives the status: 0 where all
/// acceptors, workers and the plan came to their end; 1 where the plan was refused or stopped, a listener could not be
/// opened, a write failed, or memory ran out. At 0 the plan's count, the ports, the plan's end and the number of events
/// were written, each as a line: those of a trail that is a run from the opening, in which the administrator's calls
/// carry out the plan. At 1 these lines were written as far as it came, each of them true, and after them that memory
/// ran out, where it did; or the fault of a plan that is refused.
pub fn serve<
    R: Net<Listener = TcpListener, Stream = TcpStream> + Threads + Wait + Sync,
    W: ByteOut,
>(rt: &R, alloc: Global, options: &ServeOptions, plan: Option<Plan>, writer: &mut W) -> u8
    requires { IsServable options.now }
    ensures status { result ≤ 1 }
    ensures announced { result ≡ 0 → IsServedWhole
        (record { took = W.took; failures = W.failures; before = writer.old; after = writer.new })
        options.now plan }
    ensures judged { JudgesPlan
        (record { took = W.took; failures = W.failures; before = writer.old; after = writer.new })
        options.now plan result }
{
    serve_and_explain(rt, alloc, options, plan, writer, &mut Unheard)
}

/// Serves the plan and, where a listener could not be opened, writes a line to `errors` with its port and the system's
/// reason, as far as that takes it. That a write failed the caller sees by the writer.
pub fn serve_and_explain<
    R: Net<Listener = TcpListener, Stream = TcpStream> + Threads + Wait + Sync,
    W: ByteOut,
    E: ByteOut,
>(
    rt: &R,
    alloc: Global,
    options: &ServeOptions,
    plan: Option<Plan>,
    writer: &mut W,
    errors: &mut E,
) -> u8
    requires { IsServable options.now }
    ensures status { result ≤ 1 }
    ensures announced { result ≡ 0 → IsServedWhole
        (record { took = W.took; failures = W.failures; before = writer.old; after = writer.new })
        options.now plan }
    ensures judged { JudgesPlan
        (record { took = W.took; failures = W.failures; before = writer.old; after = writer.new })
        options.now plan result }
    ensures silent { result ≡ 0 → errors.new ≡ errors.old }
{
    match serve_plan(rt, alloc, options, plan, writer) {
        Ok(status) => status,
        Err(Unserved::Memory) => {
            let _written = announce(writer, b"out of memory\n");
            1
        }
        Err(Unserved::Unwritten) => 1,
        Err(reason) => {
            explain(alloc, reason, errors);
            1
        }
    }
}

/// Writes the reason as a line, where there is memory for it.
fn explain<E: ByteOut>(alloc: Global, reason: Unserved, errors: &mut E) {
    if let Ok(line) = format!(in alloc; "error: {reason}\n") {
        let _written = announce(errors, line.as_bytes());
    }
}

fn serve_plan<
    R: Net<Listener = TcpListener, Stream = TcpStream> + Threads + Wait + Sync,
    W: ByteOut,
>(
    rt: &R,
    alloc: Global,
    options: &ServeOptions,
    plan: Option<Plan>,
    writer: &mut W,
) -> Result<u8, Unserved>
    requires { IsServable options.now }
    ensures status { IfOk result (λ s. s ≤ 1) }
    ensures announced { IfOk result (λ s. s ≡ 0 → IsServedWhole
        (record { took = W.took; failures = W.failures; before = writer.old; after = writer.new })
        options.now plan) }
    ensures judged { IfOk result (λ s. IsLegalInSplit
        (record { took = W.took; failures = W.failures; before = writer.old; after = writer.new })
        options.now plan (s ≡ 1)) }
    ensures failed { IfErr result (λ e. ((e ≡ unserved.Memory) × (writer.new ≡ writer.old)) ⊎ IsLegalInSplit
        (record { took = W.took; failures = W.failures; before = writer.old; after = writer.new })
        options.now plan (e ≡ unserved.Unwritten)) }
{
    let owners = OwnerTable::even(alloc, options.nodes, options.even)?;
    match plan {
        Some(plan) => serve_verified(rt, alloc, options, owners, plan, writer),
        None => serve_from(rt, alloc, options, owners, None, writer),
    }
}

/// Verifies the plan before anything is opened.
fn serve_verified<
    R: Net<Listener = TcpListener, Stream = TcpStream> + Threads + Wait + Sync,
    W: ByteOut,
>(
    rt: &R,
    alloc: Global,
    options: &ServeOptions,
    owners: OwnerTable,
    plan: Plan,
    writer: &mut W,
) -> Result<u8, Unserved>
    requires options { IsServable options.now }
    requires few { owners.nodes ≤ 8 }
    ensures status { IfOk result (λ s. s ≤ 1) }
    ensures announced { IsEvenSplit options.now.nodes options.now.even owners → IfOk result (λ s. s ≡ 0
        → IsServedWhole (record { took = W.took; failures = W.failures; before = writer.old; after = writer.new })
        options.now (Some plan)) }
    ensures judged { IfOk result (λ s. IsLegalOr
        (record { took = W.took; failures = W.failures; before = writer.old; after = writer.new })
        options.now owners (Some plan) (s ≡ 1)) }
    ensures failed { IfErr result (λ e. ((e ≡ unserved.Memory) × (writer.new ≡ writer.old)) ⊎ IsLegalOr
        (record { took = W.took; failures = W.failures; before = writer.old; after = writer.new })
        options.now owners (Some plan) (e ≡ unserved.Unwritten)) }
{
    let mut transcript = Transcript::new(alloc);
    let verified = verify_and_report(plan, &owners, &mut transcript)?;
    announce(writer, transcript.printed.as_slice())?;
    match verified {
        Some(plan) => serve_from(rt, alloc, options, owners, Some(plan), writer),
        None => Ok(1),
    }
}

fn serve_from<
    R: Net<Listener = TcpListener, Stream = TcpStream> + Threads + Wait + Sync,
    W: ByteOut,
>(
    rt: &R,
    alloc: Global,
    options: &ServeOptions,
    owners: OwnerTable,
    plan: Option<VerifiedPlan>,
    writer: &mut W,
) -> Result<u8, Unserved>
    requires options { IsServable options.now }
    requires few { owners.nodes ≤ 8 }
    ensures status { IfOk result (λ s. s ≤ 1) }
    ensures announced { IfOk result (λ s. s ≡ 0 → IsServed
        (record { took = W.took; failures = W.failures; before = writer.old; after = writer.new })
        options.now owners options.now.base_port (verified_commands plan)) }
    ensures told { IsTold (record { took = W.took; failures = W.failures; before = writer.old; after = writer.new })
        options.now owners options.now.base_port plan }
{
    let setup = ClusterSetup::new(alloc, owners, options.base_port)?;
    serve_setup::<Brand, R, W>(rt, alloc, setup, options, plan, writer)
}

/// Opens the cluster and its listeners, and serves it to its end.
fn serve_setup<
    B: ClusterBrand + Send + Sync,
    R: Net<Listener = TcpListener, Stream = TcpStream> + Threads + Wait + Sync,
    W: ByteOut,
>(
    rt: &R,
    alloc: Global,
    setup: ClusterSetup,
    options: &ServeOptions,
    plan: Option<VerifiedPlan>,
    writer: &mut W,
) -> Result<u8, Unserved>
    requires setup { setup ≡ B.setup }
    requires few { length setup.opening.nodes ≤ 8 }
    requires options { IsServable options.now }
    ensures status { IfOk result (λ s. s ≤ 1) }
    ensures announced { IfOk result (λ s. s ≡ 0 → IsServed
        (record { took = W.took; failures = W.failures; before = writer.old; after = writer.new })
        options.now setup.owners setup.opening.base_port (verified_commands plan)) }
    ensures told { IsTold (record { took = W.took; failures = W.failures; before = writer.old; after = writer.new })
        options.now setup.owners setup.opening.base_port plan }
{
    let cluster = LiveCluster::<B>::open(alloc, setup)?;
    let Ok(admin) = cluster.admin_seat(rt) else {
        return Err(Unserved::NoSeat);
    };
    let servers = open_servers(rt, alloc, &cluster, options)?;
    announce_serving(alloc, options, writer)?;
    let (seats, admin, status) = serve_beside(rt, alloc, &cluster, servers, plan, admin, writer)?;
    let closed = cluster.close(seats, admin);
    announce_closed(alloc, &closed, writer)?;
    Ok(status)
}

/// The workers of sockets, one at least. Their type is a parameter, so that `Send` follows from `Send` of it by itself.
#[derive(Drop)]
struct Crew<K: Drop> {
    workers: Vec<K>,
    ghost some: { 1 ≤ vec_len workers },
}

/// What threads are started with: acceptors, each of which accepts so many connections, and workers.
#[derive(Drop)]
struct Servers<A: Drop, K: Drop> {
    acceptors: Vec<A>,
    crew: Crew<K>,
    connections: u32,
}

/// A worker that takes the connections of sockets.
type SocketWorker<B> = Worker<ClientSeat<B>, Clients<Receiver<Connection<SocketIn, SocketOut>>>>;

/// So many client seats, of which there are 32.
fn seats_of<B: ClusterBrand, R: Wait>(
    rt: &R,
    alloc: Global,
    cluster: &LiveCluster<B>,
    workers: u8,
) -> Result<Vec<ClientSeat<B>>, Unserved>
    ensures { IfOk result (λ v. vec_len v ≡ workers) }
{
    let mut seats = Vec::new(alloc);
    for count in 0..workers {
        let Ok(seat) = cluster.client_seat(rt) else {
            return Err(Unserved::NoSeat);
        };
        seats.push(seat)?;
    }
    Ok(seats)
}

/// The listeners, the seats, and the queue between them. The sessions tell of questions, each client by an ID of its
/// own, where the options have it so, and otherwise hear none.
fn open_servers<B: ClusterBrand, R: Net<Listener = TcpListener, Stream = TcpStream> + Wait>(
    rt: &R,
    alloc: Global,
    cluster: &LiveCluster<B>,
    options: &ServeOptions,
) -> Result<Servers<Acceptor, SocketWorker<B>>, Unserved>
    requires { IsServable options.now }
    ensures told { IfOk result (λ s. map (λ w. w.connections.first) s.crew.workers.items
        ≡ firsts options.now.answers_clients options.now.workers) }
{
    let seats = seats_of(rt, alloc, cluster, options.workers)?;
    let places = listen(rt, alloc, options)?;
    let (sender, queue) = bounded(alloc, WAITING)?;
    let acceptors = acceptors_of(alloc, places, sender)?;
    let workers = clients_of(alloc, seats, queue, options.answers_clients)?;
    Ok(Servers {
        acceptors,
        crew: Crew { workers },
        connections: options.connections,
    })
}

/// Accepts and works by threads of their own until all acceptors have ended and the queue is empty, and runs the plan,
/// if there is one, by this thread.
fn serve_beside<B: ClusterBrand + Send + Sync, R: Threads + Wait + Sync, W: ByteOut>(
    rt: &R,
    alloc: Global,
    cluster: &LiveCluster<B>,
    servers: Servers<Acceptor, SocketWorker<B>>,
    plan: Option<VerifiedPlan>,
    admin: AdminSeat<B>,
    writer: &mut W,
) -> Result<(Vec<ClientSeat<B>>, AdminSeat<B>, u8), Unserved>
    ensures status { IfOk result (λ r. r.2 ≤ 1) }
    ensures announced { IfOk result (λ r. IsRunBeside
        (record { took = W.took; failures = W.failures; before = writer.old; after = writer.new })
        plan admin r.1 r.2) }
    ensures told { MayTellEnd
        (record { took = W.took; failures = W.failures; before = writer.old; after = writer.new }) plan admin }
{
    let Servers {
        acceptors,
        crew,
        connections,
    } = servers;
    let (accepted, (worked, _writer)) = join(
        rt,
        move || accept_all(rt, acceptors, connections),
        move || -> (
            Result<(Vec<ClientSeat<B>>, AdminSeat<B>, u8), Unserved>,
            &mut W,
        )
            ensures { (result.1.ghost_name ≡ writer.entry.ghost_name)
                × IfOk result.0 (λ r. (r.2 ≤ 1) × IsRunBeside
                (record { took = W.took; failures = W.failures; before = writer.entry.now; after = result.1.now })
                plan admin r.1 r.2)
                × MayTellEnd
                (record { took = W.took; failures = W.failures; before = writer.entry.now; after = result.1.now })
                plan admin }
        { work_beside(rt, alloc, cluster, crew, plan, admin, writer) },
    );
    accepted?;
    worked
}

/// Works by threads of their own, and runs the plan, if there is one, by this thread. The writer comes back, since what
/// a thread wrote through one that it borrowed is not known.
fn work_beside<
    'w,
    B: ClusterBrand + Send + Sync,
    R: Threads + Wait + Sync,
    C: Sessions + Drop + Send,
    W: ByteOut,
>(
    rt: &R,
    alloc: Global,
    cluster: &LiveCluster<B>,
    crew: Crew<Worker<ClientSeat<B>, C>>,
    plan: Option<VerifiedPlan>,
    admin: AdminSeat<B>,
    writer: &'w mut W,
) -> (
    Result<(Vec<ClientSeat<B>>, AdminSeat<B>, u8), Unserved>,
    &'w mut W,
)
    ensures status { IfOk result.0 (λ r. r.2 ≤ 1) }
    ensures name { result.1.ghost_name ≡ writer.entry.ghost_name }
    ensures announced { IfOk result.0 (λ r. IsRunBeside
        (record { took = W.took; failures = W.failures; before = writer.entry.now; after = result.1.now })
        plan admin r.1 r.2) }
    ensures told { MayTellEnd
        (record { took = W.took; failures = W.failures; before = writer.entry.now; after = result.1.now })
        plan admin }
{
    let (seats, (ended, writer)) = join(
        rt,
        move || run_crew(rt, alloc, cluster, crew),
        move || -> (Result<(AdminSeat<B>, u8), Unserved>, &mut W)
            ensures { (result.1.ghost_name ≡ writer.entry.ghost_name)
                × IfOk result.0 (λ r. (r.1 ≤ 1) × IsRunBeside
                (record { took = W.took; failures = W.failures; before = writer.entry.now; after = result.1.now })
                plan admin r.0 r.1)
                × MayTellEnd
                (record { took = W.took; failures = W.failures; before = writer.entry.now; after = result.1.now })
                plan admin }
        { run_and_announce(rt, alloc, cluster, plan, admin, writer) },
    );
    (with_seats(seats, ended), writer)
}

/// The workers' seats beside what the plan left, where neither has failed.
fn with_seats<B: ClusterBrand>(
    seats: Result<Vec<ClientSeat<B>>, Memory>,
    ended: Result<(AdminSeat<B>, u8), Unserved>,
) -> Result<(Vec<ClientSeat<B>>, AdminSeat<B>, u8), Unserved>
    ensures { IfOk result (λ r. ended ≡ Ok (r.1, r.2)) }
{
    let (admin, status) = ended?;
    Ok((seats?, admin, status))
}

/// Runs the plan, if there is one, and announces at once how it ended. The writer comes back, whatever became of that.
fn run_and_announce<'w, B: ClusterBrand, R: Wait, W: ByteOut>(
    rt: &R,
    alloc: Global,
    cluster: &LiveCluster<B>,
    plan: Option<VerifiedPlan>,
    admin: AdminSeat<B>,
    writer: &'w mut W,
) -> (Result<(AdminSeat<B>, u8), Unserved>, &'w mut W)
    ensures status { IfOk result.0 (λ r. r.1 ≤ 1) }
    ensures name { result.1.ghost_name ≡ writer.entry.ghost_name }
    ensures announced { IfOk result.0 (λ r. IsRunBeside
        (record { took = W.took; failures = W.failures; before = writer.entry.now; after = result.1.now })
        plan admin r.0 r.1) }
    ensures told { MayTellEnd
        (record { took = W.took; failures = W.failures; before = writer.entry.now; after = result.1.now })
        plan admin }
{
    let Some(plan) = plan else {
        return (Ok((admin, 0)), writer);
    };
    let (admin, end) = run_beside(rt, cluster, plan, admin);
    match announce_end(alloc, end, writer) {
        Ok(status) => (Ok((admin, status)), writer),
        Err(fault) => (Err(fault), writer),
    }
}

/// Runs the workers, each by a thread of its own.
fn run_crew<B: ClusterBrand + Send + Sync, R: Threads + Wait + Sync, C: Sessions + Drop + Send>(
    rt: &R,
    alloc: Global,
    cluster: &LiveCluster<B>,
    crew: Crew<Worker<ClientSeat<B>, C>>,
) -> Result<Vec<ClientSeat<B>>, Memory> {
    let Crew { workers } = crew;
    run_workers(rt, alloc, cluster, workers)
}
