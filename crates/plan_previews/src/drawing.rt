//! The command that draws a plan.
ghost use Rattle.command_words.specs.Starts.{IsStart};
ghost use Rattle.plan_drawings.specs.Drawings.{drawing_text};
ghost use Rattle.plan_previews.specs.Drawing.{Draws, Puts};

use crate::looking::plain_preview;
use crate::telling::tell;
use byte_streams::{ByteIn, ByteOut};
use cluster_inspection::{System, out_of_memory, show};
use command_words::Start;
use plan_drawings::drawing;
use plan_outlines::PlanOutline;
use std::alloc::{AllocError, Global};
use std::fs::{File, Files};
use std::net::{Net, TcpListener, TcpStream};
use std::time::Clock;

/// Writes the picture of what the plan does that the reader gives. Where it is refused, that is told on `errors`, as
/// `verify` does it, and nothing is drawn. The status is 0 where the plan is drawn, and 1 where it is refused, there is
/// no survey, memory ran out, or a read or write failed.
pub fn draw_plan<
    H: Net<Listener = TcpListener, Stream = TcpStream> + Clock + Files<File = File> + AllocGlobal,
    R: ByteIn,
    W: ByteOut,
    E: ByteOut,
>(system: &System<'_, H>, start: &Start, reader: &mut R, writer: &mut W, errors: &mut E) -> u8
    requires { IsStart start.now }
    ensures { Draws start.now
        (record { gave = R.gave; ends = R.ends; failures = R.failures; before = reader.old; after = reader.new })
        (record { took = W.took; failures = W.failures; before = writer.old; after = writer.new })
        (record { took = E.took; failures = E.failures; before = errors.old; after = errors.new }) result }
{
    match plain_preview(system, start, reader) {
        Ok(preview) => put_drawing(system.alloc, &preview.outline, writer, errors),
        Err(refusal) => tell(refusal, errors),
    }
}

/// Writes the picture; where memory ran out that is told on `errors`.
fn put_drawing<W: ByteOut, E: ByteOut>(
    alloc: Global,
    outline: &PlanOutline,
    writer: &mut W,
    errors: &mut E,
) -> u8
    ensures { Puts (drawing_text outline.now)
        (record { took = W.took; failures = W.failures; before = writer.old; after = writer.new })
        (record { took = E.took; failures = E.failures; before = errors.old; after = errors.new }) result }
{
    match drawing(alloc, outline) {
        Ok(text) => show(writer, text.as_slice()),
        Err(AllocError) => out_of_memory(errors),
    }
}
