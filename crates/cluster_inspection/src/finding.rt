//! Clusters of servers, as the words name them.
ghost use Rattle.std.specs.Prelude.{⊤, IfErr, IfOk, vec_len};
ghost use Rattle.cluster_survey.specs.ClusterFaults.{text_of};
ghost use Rattle.cluster_survey.specs.Found.{IsFound, IsFoundBeside};
ghost use Rattle.cluster_inspection.specs.Starts.{IsExpectedBy, IsNumberedBy, IsUnfound, IsUnsurveyed};
ghost use Rattle.command_words.specs.Clusters.{IsAddressed};
ghost use Rattle.node_names.specs.Names.{AreNames};

use crate::expected::as_expected;
use crate::no_cluster::{NoCluster, unsurveyed};
use crate::system::System;
use cluster_survey::{ClusterFault, FoundCluster, Reach, find};
use cluster_views::SurveyFault;
use command_words::ClusterWords;
use key_slots::NodeId;
use node_names::NodeName;
use server_links::{ServerInput, ServerOutput, Unreached, connect};
use std::alloc::{AllocError, Global};
use std::fs::{File, Files};
use std::net::{Net, SocketAddrV4, TcpListener, TcpStream};
use std::thread;
use std::time::{Clock, Duration, Instant};

/// How many milliseconds a connection to a server may take.
const CONNECTING: u64 = 5000;

/// How many milliseconds servers may take at most until they have heard of the same.
pub const AGREEING: u64 = 2000;

/// How many milliseconds lie between two surveys of servers that do not agree.
const BETWEEN_SURVEYS: u64 = 20;

/// How many milliseconds a server may take for an answer that is no MIGRATE's.
pub const ASKING: u64 = 2000;

/// A cluster whose servers are reached over sockets.
pub type Servers<'a, H> = FoundCluster<ServerInput<'a, H>, ServerOutput<'a, H>>;

/// Opens sockets, and waits by the clock.
#[derive(Drop)]
pub struct Sockets<'a, H> {
    rt: &'a H,
    waiting: u64,
    began: Option<Instant>,
}

impl<'a, H> Sockets<'a, H> {
    /// Over these a server may take `waiting` milliseconds for each of its answers.
    pub fn new(system: &System<'a, H>, waiting: u64) -> Self {
        Self {
            rt: system.rt,
            waiting,
            began: None,
        }
    }
}

impl<'a, H: Net<Listener = TcpListener, Stream = TcpStream> + Clock + AllocGlobal> Reach
    for Sockets<'a, H> {
    type Input = ServerInput<'a, H>;

    type Output = ServerOutput<'a, H>;

    ghost reaches = { λ address input output. ⊤ };

    ghost refuses = { λ address cause. ⊤ };

    ghost over = { ⊤ };

    fn reach(&mut self, address: SocketAddrV4) -> Result<(Self::Input, Self::Output), Unreached> {
        connect(
            self.rt,
            address,
            Duration::from_millis(CONNECTING),
            Duration::from_millis(self.waiting),
        )
    }

    fn pause(&mut self) -> bool {
        thread::sleep(self.rt, Duration::from_millis(BETWEEN_SURVEYS));
        let Ok(now) = Instant::now(self.rt) else {
            return false;
        };
        match self.began {
            Some(began) => now.saturating_duration_since(began) < Duration::from_millis(AGREEING),
            None => {
                self.began = Some(now);
                true
            }
        }
    }
}

/// Finds the cluster and surveys it. A server may take `waiting` milliseconds for each of its answers. Each name has to
/// be that of a master, which is the node that it stands with. Where the words name a file with a survey, each name has
/// to stand for the same node as there.
pub fn find_cluster<
    'a,
    H: Net<Listener = TcpListener, Stream = TcpStream> + Clock + Files<File = File> + AllocGlobal,
>(
    system: &System<'a, H>,
    words: &ClusterWords,
    names: &[(NodeId, NodeName)],
    waiting: u64,
) -> Result<Servers<'a, H>, NoCluster>
    requires { IsAddressed words.now }
    ensures found { IfOk result
        (λ f. IsFound f.book f.surveyed.survey f.surveyed.epochs.items (vec_len f.links)) }
    ensures beside { IfOk result (λ f. IsFoundBeside f.left_out.items f.book f.surveyed.survey
        f.surveyed.epochs.items (vec_len f.links)) }
    ensures numbered { IfOk result (λ f. AreNames names.now → IsNumberedBy names.now f.book) }
    ensures expected { IfOk result (λ f. IsExpectedBy words.now.expect f.book) }
    ensures unfound { IfErr result IsUnfound }
{
    let mut sockets = Sockets::new(system, waiting);
    let addresses = words.addresses.as_slice();
    match find(
        system.alloc,
        &mut sockets,
        addresses,
        names,
        system.credentials,
    ) {
        Ok(servers) => as_expected(system, words, servers),
        Err(fault) => Err(unfound(system.alloc, fault)?),
    }
}

/// What is said of a cluster that was not found, or can't be surveyed.
pub fn unfound(alloc: Global, fault: ClusterFault) -> Result<NoCluster, AllocError>
    ensures unfound { IfOk result IsUnfound }
    ensures told { IfOk result (IsUnsurveyed (text_of fault)) }
{
    if let ClusterFault::Survey(SurveyFault::Memory) = fault {
        return Err(AllocError);
    }
    let reason = format!(in alloc; "{fault}")?;
    unsurveyed(alloc, reason.as_bytes())
}
