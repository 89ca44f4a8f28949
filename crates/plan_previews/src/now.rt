//! The command that draws what is there.
ghost use Rattle.std.specs.Prelude.{◌≡◌, IfErr, IfOk};
ghost use Rattle.cluster_inspection.specs.Starts.{IsUnfound};
ghost use Rattle.command_words.specs.Clusters.{IsAddressed};
ghost use Rattle.plan_previews.specs.Now.{DrawsNow, IsSeen, PutsSeen};

use crate::standing::{Seen, seen_in};
use crate::telling::tell;
use byte_streams::{ByteOut, write_whole};
use cluster_inspection::{ASKING, NoCluster, Refusal, System, find_cluster, show};
use command_words::ClusterWords;
use std::fs::{File, Files};
use std::net::{Net, TcpListener, TcpStream};
use std::time::Clock;

/// Writes the picture of what is there: who owns the slots, as n0 tells it, and the slots that stand open. A slot that
/// is in no phase is told on `errors`, with what to do by hand; and so is why there is nothing to draw. The status is 0
/// where the picture is written, and 1 where there is no survey, memory ran out, or a write failed.
pub fn draw_now<
    H: Net<Listener = TcpListener, Stream = TcpStream> + Clock + Files<File = File> + AllocGlobal,
    W: ByteOut,
    E: ByteOut,
>(system: &System<'_, H>, words: &ClusterWords, writer: &mut W, errors: &mut E) -> u8
    requires { IsAddressed words.now }
    ensures { DrawsNow
        (record { took = W.took; failures = W.failures; before = writer.old; after = writer.new })
        (record { took = E.took; failures = E.failures; before = errors.old; after = errors.new }) result }
{
    match look(system, words) {
        Ok(seen) => put_seen(&seen, writer, errors),
        Err(none) => tell(Refusal::from(none), errors),
    }
}

/// What is there to be drawn.
fn look<
    H: Net<Listener = TcpListener, Stream = TcpStream> + Clock + Files<File = File> + AllocGlobal,
>(system: &System<'_, H>, words: &ClusterWords) -> Result<Seen, NoCluster>
    requires { IsAddressed words.now }
    ensures seen { IfOk result IsSeen }
    ensures unfound { IfErr result IsUnfound }
{
    let servers = find_cluster(system, words, &[], ASKING)?;
    let seen = seen_in(system.alloc, &servers.surveyed.survey)?;
    Ok(seen)
}

/// Writes the picture, and tells of the slots in no phase.
fn put_seen<W: ByteOut, E: ByteOut>(seen: &Seen, writer: &mut W, errors: &mut E) -> u8
    ensures { PutsSeen seen.now
        (record { took = W.took; failures = W.failures; before = writer.old; after = writer.new })
        (record { took = E.took; failures = E.failures; before = errors.old; after = errors.new }) result }
{
    let _told = write_whole(errors, seen.strange.as_slice());
    show(writer, seen.picture.as_slice())
}
