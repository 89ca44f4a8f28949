//! The lines that are printed while a cluster is served.
ghost use Rattle.std.specs.Prelude.{OnOk, length};
ghost use Rattle.loopback_servers.specs.Announcing.{Announces, MayWrite, closed_text, serving_text};
ghost use Rattle.transcripts.specs.Writing.{Writes};

use crate::options::ServeOptions;
use crate::unserved::Unserved;
use byte_streams::{ByteOut, Failed, write_whole};
use live_cluster::ClosedTrail;
use std::alloc::Global;

/// Writes the whole text.
pub(crate) fn announce<W: ByteOut>(writer: &mut W, text: &[u8]) -> Result<(), Failed>
    ensures whole { OnOk result (Announces W.took W.failures text.now writer.old writer.new) }
    ensures wrote { Writes W.took W.failures text.now writer.old writer.new }
{
    write_whole(writer, text)
}

/// Every listener is open.
pub(crate) fn announce_serving<W: ByteOut>(
    alloc: Global,
    options: &ServeOptions,
    writer: &mut W,
) -> Result<(), Unserved>
    ensures announced { OnOk result (Announces W.took W.failures
        (serving_text options.now.nodes options.now.base_port) writer.old writer.new) }
    ensures wrote { MayWrite W.took W.failures (serving_text options.now.nodes options.now.base_port)
        writer.old writer.new }
{
    let nodes = options.nodes;
    let port = options.base_port;
    let line = format!(in alloc; "serving {nodes} nodes from port {port}\n")?;
    Ok(announce(writer, line.as_bytes())?)
}

/// The cluster is closed, with so many events on the trail that it leaves.
pub(crate) fn announce_closed<W: ByteOut>(
    alloc: Global,
    closed: &ClosedTrail,
    writer: &mut W,
) -> Result<(), Unserved>
    ensures announced { OnOk result (Announces W.took W.failures (closed_text (length closed.now.trail.events))
        writer.old writer.new) }
    ensures wrote { MayWrite W.took W.failures (closed_text (length closed.now.trail.events)) writer.old writer.new }
{
    let events = closed.trail.events().len();
    let line = format!(in alloc; "closed {events} events\n")?;
    Ok(announce(writer, line.as_bytes())?)
}
