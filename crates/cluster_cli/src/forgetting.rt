//! The command by which a cluster forgets a node.
ghost use Rattle.cluster_cli.specs.Forgetting.{ForgetNamesNone, ForgetSays};
ghost use Rattle.cluster_cli.specs.Planning.{Plans};
ghost use Rattle.command_words.specs.Clusters.{IsAddressed};

use crate::misuse::misuse;
use byte_streams::ByteOut;
use cluster_inspection::{System, out_of_memory, report};
use command_words::ForgetWords;
use node_forgetting::forget_answer;
use std::alloc::AllocError;
use std::fs::{File, Files};
use std::net::{Net, TcpListener, TcpStream};
use std::time::Clock;

/// What is reported of a word that is no node of the cluster.
const MISNAMED_NODE: &str = "error: the node to forget is one of the cluster, as n3\n";

/// Lets all other nodes of the cluster forget a master without slots, and prints at how many it is forgotten, or why
/// it is kept. The status is 0 where all others have forgotten it; 1 where one was not told, the node is kept, servers
/// can't be surveyed, memory ran out or a write failed; and 2 where the word names no node of the cluster, which is
/// reported on `errors`.
pub fn forget_node<
    H: Net<Listener = TcpListener, Stream = TcpStream> + Clock + Files<File = File> + AllocGlobal,
    W: ByteOut,
    E: ByteOut,
>(system: &System<'_, H>, words: &ForgetWords, writer: &mut W, errors: &mut E) -> u8
    requires { IsAddressed words.now.cluster }
    ensures { Plans (ForgetSays words.now) (ForgetNamesNone words.now)
        (record { took = W.took; failures = W.failures; before = writer.old; after = writer.new })
        (record { took = E.took; failures = E.failures; before = errors.old; after = errors.new }) result }
{
    match forget_answer(system, words) {
        Ok(Some(answer)) => report(&answer, writer),
        Ok(None) => misuse(errors, MISNAMED_NODE.as_bytes()),
        Err(AllocError) => out_of_memory(writer),
    }
}
