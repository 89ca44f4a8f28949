//! Keys that nobody finds are looked for after what closes open slots.
ghost use Rattle.cluster_inspection.specs.Stranded.{SaysStranded, TellsKeys};
ghost use Rattle.cluster_runs.specs.Looking.{LooksFurther};
ghost use Rattle.command_words.specs.Resuming.{IsResume};

use byte_streams::{ByteIn, ByteOut};
use cluster_inspection::{System, tell_stranded};
use command_words::ResumeWords;
use server_links::{ServerInput, ServerOutput};
use std::fs::{File, Files};
use std::net::{Net, TcpListener, TcpStream};
use std::time::Clock;

/// Looks for keys that lie at a node which does not own their slot, as [`tell_stranded`] does, after what ended with
/// this status. It does so only where no slot is open any more, and no plan says where slots are to go. The cluster is
/// surveyed anew, since slots may have moved.
pub(crate) fn look_further<
    'a,
    H: Net<Listener = TcpListener, Stream = TcpStream> + Clock + Files<File = File> + AllocGlobal,
    W: ByteOut,
>(system: &System<'a, H>, words: &ResumeWords, status: u8, writer: &mut W) -> u8
    requires { IsResume words.now }
    ensures { LooksFurther (SaysStranded (TellsKeys (record {
      gave = ⟦<ServerInput<'a, H> as ByteIn>⟧.gave;
      took = ⟦<ServerOutput<'a, H> as ByteOut>⟧.took;
    }))) words.now.run.plan status
        (record { took = W.took; failures = W.failures; before = writer.old; after = writer.new }) result }
{
    match &words.run.plan {
        Some(_path) => status,
        None => {
            if status != 0 {
                return status;
            }
            tell_stranded(system, &words.run.cluster, writer)
        }
    }
}
