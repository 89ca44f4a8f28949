//! Why there is nothing to show.
ghost use Rattle.std.specs.Prelude.{◌≡◌, IfErr, IfOk};
ghost use Rattle.plan_previews.specs.Refusing.{IsAnswerOf, first_line, reason_text, refused_text};

use byte_streams::Unread;
use byte_texts::split_once;
use cluster_inspection::Refusal;
use plan_json::refusal_json;
use std::alloc::{AllocError, Global};
use transcripts::Transcript;

/// The answer that says why, as it is or as JSON; or that memory ran out, or the plan could not be read.
pub fn refused(alloc: Global, refusal: Refusal, json: bool) -> Result<Transcript, Unread>
    ensures { IfOk result (IsAnswerOf json refusal) }
{
    match refusal {
        Refusal::Memory => Err(Unread::Memory),
        Refusal::Unread => Err(Unread::Failed),
        Refusal::Answer(answer) => Ok(told(alloc, answer, json)?),
    }
}

/// The answer as it is, or its line as the reason of a line of JSON.
fn told(alloc: Global, answer: Transcript, json: bool) -> Result<Transcript, AllocError>
    ensures status { IfOk result (λ t. t.status ≡ answer.status) }
    ensures text { IfOk result (λ t. t.printed.items ≡ refused_text json answer.printed.items) }
{
    if !json {
        return Ok(answer);
    }
    let mut line = Transcript::new(alloc);
    line.printed = reason_line(alloc, answer.printed.as_slice())?;
    line.status = answer.status;
    Ok(line)
}

/// The line of JSON that has the text's first line as its reason.
fn reason_line(alloc: Global, text: &[u8]) -> Result<Vec<u8>, AllocError>
    ensures { IfOk result (λ t. t.items ≡ reason_text text.now) }
{
    let reason = String::from_utf8_lossy(alloc, first_line(text))?;
    refusal_json(alloc, reason.as_str())
}

/// What stands before the first line feed.
fn first_line(text: &[u8]) -> &[u8]
    ensures { result.now ≡ first_line text.now }
{
    match split_once(text, b'\n') {
        Some((line, _rest)) => line,
        None => text,
    }
}
