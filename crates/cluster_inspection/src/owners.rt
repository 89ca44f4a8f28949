//! The owners of the slots where a plan starts.
ghost use Rattle.std.specs.Prelude.{IfErr, IfOk};
ghost use Rattle.cluster_inspection.specs.Starts.{AreOwnersOf, IsUnfound, IsUnstarted, StartsFrom};
ghost use Rattle.command_words.specs.Clusters.{IsAddressed};
ghost use Rattle.command_words.specs.Starts.{IsStart};
ghost use Rattle.node_names.specs.Names.{AreNames};

use crate::finding::{ASKING, find_cluster};
use crate::no_cluster::{NoCluster, open_slots};
use crate::survey_file::owners_in_file;
use crate::system::System;
use cluster_survey::FoundCluster;
use command_words::{ClusterWords, Start};
use key_slots::{NodeId, OwnerTable};
use node_names::NodeName;
use server_commands::ServerBook;
use std::fs::{File, Files};
use std::net::{Net, TcpListener, TcpStream};
use std::time::Clock;

/// The table of the even split; or of the cluster of servers, or the survey in a file, with its book. No slot of the
/// cluster may be open, and its nodes are numbered by the names.
pub fn owners_at_start<
    H: Net<Listener = TcpListener, Stream = TcpStream> + Clock + Files<File = File> + AllocGlobal,
>(
    system: &System<'_, H>,
    start: &Start,
    names: &[(NodeId, NodeName)],
) -> Result<(OwnerTable, Option<ServerBook>), NoCluster>
    requires { IsStart start.now }
    ensures owners { IfOk result (λ r. AreNames names.now → StartsFrom start.now names.now r.1 r.0) }
    ensures unstarted { IfErr result (IsUnstarted start.now) }
{
    match start {
        Start::Even(sizes) => {
            let owners = OwnerTable::even(system.alloc, sizes.nodes, sizes.owning)?;
            Ok((owners, None))
        }
        Start::Cluster(words) => {
            let (owners, book) = owners_of_cluster(system, words, names)?;
            Ok((owners, Some(book)))
        }
        Start::Survey(path) => {
            let (owners, book) = owners_in_file(system, path.as_str(), names)?;
            Ok((owners, Some(book)))
        }
    }
}

/// The table of the cluster of servers, and its book.
fn owners_of_cluster<
    H: Net<Listener = TcpListener, Stream = TcpStream> + Clock + Files<File = File> + AllocGlobal,
>(
    system: &System<'_, H>,
    words: &ClusterWords,
    names: &[(NodeId, NodeName)],
) -> Result<(OwnerTable, ServerBook), NoCluster>
    requires { IsAddressed words.now }
    ensures owners { IfOk result (λ r. AreNames names.now → AreOwnersOf names.now r.1 r.0) }
    ensures unfound { IfErr result IsUnfound }
{
    let servers = find_cluster(system, words, names, ASKING)?;
    let survey = &servers.surveyed.survey;
    if !survey.is_clean() {
        return Err(open_slots(system.alloc)?);
    }
    let owners = survey.owners(NodeId::of(0)).try_copy()?;
    let FoundCluster { book, .. } = servers;
    Ok((owners, book))
}
