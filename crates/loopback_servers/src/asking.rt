//! Workers whose sessions tell of questions.
ghost use Rattle.std.specs.Prelude.{◌≡◌, ℕ, ◌+◌, ◌<◌, ◌^◌, [], IfOk, None, Some, cond, length, map};
ghost use Rattle.client_questions.specs.Questions.{is_question};
ghost use Rattle.live_cluster.specs.Sends.{IsListed};
ghost use Rattle.loopback_servers.specs.Asking.{IsToldSession, Tells};
ghost use Rattle.loopback_servers.specs.Clients.{AreClients, IsClient, firsts, id_after};
ghost use Rattle.loopback_servers.specs.Working.{GrowsTo};

use crate::connection::Connection;
use crate::questions::SessionQuestions;
use crate::workers::{Sessions, Worker, work};
use byte_streams::{ByteIn, ByteOut};
use byte_texts::Memory;
use crossbeam_channel::Receiver;
use live_cluster::{ClientSeat, ClusterBrand, LiveClient, LiveCluster};
use node_session::{SessionEnd, serve_with_questions};
use std::alloc::Global;
use std::sync::Wait;

/// How far the IDs of one worker's clients are apart: no two of the 32 workers give the same.
const WORKERS: u64 = 32;

/// Serves one session after the other, as [`work`] does, and tells of questions. The clients of the worker get the IDs
/// `first`, `first` + 32 and so on.
pub(crate) fn work_and_tell<B: ClusterBrand, R: Wait, I: ByteIn + Drop, O: ByteOut + Drop>(
    rt: &R,
    alloc: Global,
    cluster: &LiveCluster<B>,
    seat: ClientSeat<B>,
    connections: Receiver<Connection<I, O>>,
    first: u64,
) -> ClientSeat<B>
    ensures grows { GrowsTo seat result }
    ensures clients { (count : ℕ) × AreClients (IsClient B.setup.opening
        (λ a b. record { gave = I.gave; ends = I.ends; failures = I.failures; before = a; after = b })
        (λ a b. record { took = O.took; failures = O.failures; before = a; after = b })) first count seat result }
{
    let mut port = LiveClient::new(rt, alloc, cluster, seat);
    let mut id = first;
    for mut connection in connections.iter(rt) {
        serve_client(rt, alloc, cluster, &mut port, &mut connection, id);
        id = id_after(id);
    }
    port.into_seat()
}

/// The ID of the worker's next client.
fn id_after(id: u64) -> u64
    ensures { result ≡ id_after id }
{
    id.wrapping_add(WORKERS)
}

/// Serves the session of the client with this ID, if the cluster has its node. However it ends, the next one is served.
fn serve_client<B: ClusterBrand, R: Wait, I: ByteIn + Drop, O: ByteOut + Drop>(
    rt: &R,
    alloc: Global,
    cluster: &LiveCluster<B>,
    port: &mut LiveClient<'_, B, R>,
    connection: &mut Connection<I, O>,
    id: u64,
)
    ensures grows { GrowsTo port.old.seat port.new.seat }
    ensures client { IsClient B.setup.opening
        (λ a b. record { gave = I.gave; ends = I.ends; failures = I.failures; before = a; after = b })
        (λ a b. record { took = O.took; failures = O.failures; before = a; after = b }) id port.old.seat port.new.seat }
{
    if let Some(questions) = SessionQuestions::at(rt, alloc, cluster, connection.node, id) {
        serve_new(alloc, port, questions, connection, id);
    }
}

/// Serves the session of the client with this ID, which has asked nothing yet.
fn serve_new<B: ClusterBrand, R: Wait, I: ByteIn + Drop, O: ByteOut + Drop>(
    alloc: Global,
    port: &mut LiveClient<'_, B, R>,
    mut questions: SessionQuestions<'_, B, R>,
    connection: &mut Connection<I, O>,
    id: u64,
)
    requires node { questions.node ≡ connection.old.node }
    requires there { connection.old.node < length B.setup.opening.nodes }
    requires new { questions.caller ≡ record { id = id; name = [] } }
    ensures grows { GrowsTo port.old.seat port.new.seat }
    ensures client { IsClient B.setup.opening
        (λ a b. record { gave = I.gave; ends = I.ends; failures = I.failures; before = a; after = b })
        (λ a b. record { took = O.took; failures = O.failures; before = a; after = b }) id port.old.seat port.new.seat }
{
    let _ended = tell_session(alloc, port, &mut questions, connection);
}

/// SessionExact of the connection, at its own node and through the worker's port, where questions are told of.
fn tell_session<B: ClusterBrand, R: Wait, I: ByteIn + Drop, O: ByteOut + Drop>(
    alloc: Global,
    port: &mut LiveClient<'_, B, R>,
    questions: &mut SessionQuestions<'_, B, R>,
    connection: &mut Connection<I, O>,
) -> (SessionEnd, u64)
    requires { questions.old.node ≡ connection.old.node }
    ensures served { IsToldSession
        (record {
          gave = I.gave;
          ends = I.ends;
          failures = I.failures;
          before = connection.old.reader;
          after = connection.new.reader;
        })
        (record {
          took = O.took;
          failures = O.failures;
          before = connection.old.writer;
          after = connection.new.writer;
        })
        (record {
          sends = λ p s q. IsListed p.seat s q.seat;
          node = connection.old.node;
          before = port.old;
          after = port.new;
        })
        (record {
          hears = is_question;
          tells = λ s q a t. (t.node ≡ s.node) × Tells B.setup.opening s.node s.caller q a t.caller;
          before = questions.old;
          after = questions.new;
        }) result.0 result.1 }
    ensures grows { GrowsTo port.old.seat port.new.seat }
{
    let node = connection.node;
    serve_with_questions(
        alloc,
        &mut connection.reader,
        &mut connection.writer,
        port,
        questions,
        node,
    )
}

/// The connections of a worker, with the ID of its first client where questions are told of. The type of the
/// connections is a parameter, so that `Send` follows from `Send` of it by itself.
#[derive(Drop)]
pub(crate) struct Clients<C: Drop> {
    connections: C,
    pub(crate) first: Option<u64>,
}

impl<I: ByteIn + Drop, O: ByteOut + Drop> Sessions for Clients<Receiver<Connection<I, O>>> {
    ghost use Rattle.loopback_servers.specs.Clients.{Works};

    ghost serves = { λ c opening s t. Works opening
        (λ a b. record { gave = I.gave; ends = I.ends; failures = I.failures; before = a; after = b })
        (λ a b. record { took = O.took; failures = O.failures; before = a; after = b }) c.first s t };

    fn serve<B: ClusterBrand, R: Wait>(
        self,
        rt: &R,
        alloc: Global,
        cluster: &LiveCluster<B>,
        seat: ClientSeat<B>,
    ) -> ClientSeat<B> {
        let Clients { connections, first } = self;
        match first {
            Some(first) => work_and_tell(rt, alloc, cluster, seat, connections, first),
            None => work(rt, alloc, cluster, seat, connections),
        }
    }
}

/// Gives each seat an end of the channel; where questions are told of, the first clients get the IDs 1, 2 and so on.
pub(crate) fn clients_of<B: ClusterBrand, I: Drop, O: Drop>(
    alloc: Global,
    seats: Vec<ClientSeat<B>>,
    connections: Receiver<Connection<I, O>>,
    answers_clients: bool,
) -> Result<Vec<Worker<ClientSeat<B>, Clients<Receiver<Connection<I, O>>>>>, Memory>
    ensures seats { IfOk result (λ v. map (λ w. w.seat) v.items ≡ seats.items) }
    ensures told { IfOk result (λ v. map (λ w. w.connections.first) v.items
        ≡ firsts answers_clients (length seats.items)) }
{
    let mut workers = Vec::new(alloc);
    for seat in seats {
        let first = first_id(answers_clients, workers.len());
        let connections = connections.clone()?;
        workers.push(Worker {
            seat,
            connections: Clients { connections, first },
        })?;
    }
    Ok(workers)
}

/// The ID of the first client of the worker after so many others, where questions are told of.
fn first_id(answers_clients: bool, before: usize) -> Option<u64>
    requires { before < 2 ^ 63 }
    ensures { result ≡ cond answers_clients (Some (before + 1)) None }
{
    answers_clients.then_some(before as u64 + 1)
}
