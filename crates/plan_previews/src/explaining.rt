//! The command that explains a plan.
ghost use Rattle.std.specs.Prelude.{◌≡◌, IfOk, false, true};
ghost use Rattle.command_words.specs.Starts.{IsStart};
ghost use Rattle.plan_previews.specs.Explaining.{Explains, SaysExplained, explained_text};

use crate::going_on::resume_text;
use crate::looking::preview_from;
use crate::preview::Preview;
use crate::refusing::refused;
use byte_streams::{ByteIn, ByteOut, Unread};
use cluster_inspection::{System, out_of_memory, report};
use command_words::ExplainWords;
use plan_json::json;
use plan_pages::page;
use std::alloc::{AllocError, Global};
use std::fs::{File, Files};
use std::net::{Net, TcpListener, TcpStream};
use std::time::Clock;
use transcripts::Transcript;

/// Writes what the plan that the reader gives does, after what `verify` says of it; or that alone, where the plan is
/// refused. The status is 0 where the plan is legal, and 1 where it is refused, there is no survey, memory ran out, or
/// a read or write failed.
pub fn explain_plan<
    H: Net<Listener = TcpListener, Stream = TcpStream> + Clock + Files<File = File> + AllocGlobal,
    R: ByteIn,
    W: ByteOut,
>(system: &System<'_, H>, words: &ExplainWords, reader: &mut R, writer: &mut W) -> u8
    requires { IsStart words.now.start }
    ensures { Explains words.now
        (record { gave = R.gave; ends = R.ends; failures = R.failures; before = reader.old; after = reader.new })
        (record { took = W.took; failures = W.failures; before = writer.old; after = writer.new }) result }
{
    match explanation(system, words, reader) {
        Ok(answer) => report(&answer, writer),
        Err(Unread::Memory) => out_of_memory(writer),
        Err(Unread::Failed) => 1,
    }
}

/// What there is to write.
fn explanation<
    H: Net<Listener = TcpListener, Stream = TcpStream> + Clock + Files<File = File> + AllocGlobal,
    R: ByteIn,
>(system: &System<'_, H>, words: &ExplainWords, reader: &mut R) -> Result<Transcript, Unread>
    requires { IsStart words.now.start }
    ensures { IfOk result (λ t. SaysExplained words.now
        (record { gave = R.gave; ends = R.ends; failures = R.failures; before = reader.old; after = reader.new })
        t.status t.printed.items) }
{
    match preview_from(system, &words.start, reader) {
        Ok(preview) => Ok(explained(system.alloc, &preview, words.json)?),
        Err(refusal) => refused(system.alloc, refusal, words.json),
    }
}

/// What is written of a legal plan.
fn explained(alloc: Global, preview: &Preview, json: bool) -> Result<Transcript, AllocError>
    ensures status { IfOk result (λ t. t.status ≡ 0) }
    ensures text { IfOk result (λ t. t.printed.items ≡ explained_text json preview.now) }
{
    let mut answer = Transcript::new(alloc);
    answer.printed = if json {
        line_of(alloc, preview)?
    } else {
        page_of(alloc, preview)?
    };
    Ok(answer)
}

/// The line of JSON.
fn line_of(alloc: Global, preview: &Preview) -> Result<Vec<u8>, AllocError>
    ensures { IfOk result (λ t. t.items ≡ explained_text true preview.now) }
{
    json(
        alloc,
        &preview.outline,
        preview.servers.as_slice(),
        preview.commands,
        resume_text(preview.version),
    )
}

/// What `verify` says, and the page.
fn page_of(alloc: Global, preview: &Preview) -> Result<Vec<u8>, AllocError>
    ensures { IfOk result (λ t. t.items ≡ explained_text false preview.now) }
{
    let page = page(
        alloc,
        &preview.outline,
        preview.servers.as_slice(),
        resume_text(preview.version),
    )?;
    let mut text = Vec::from_slice(alloc, preview.verdict.printed.as_slice())?;
    text.push(b'\n')?;
    text.extend_from_slice(page.as_slice())?;
    Ok(text)
}
