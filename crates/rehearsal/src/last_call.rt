ghost use Rattle.std.specs.Prelude.{◌≡◌, ◌++◌, ◌∷◌, OnOk};
ghost use Rattle.rehearsal.specs.LastCalls.{event_text, last_text};
ghost use Rattle.transcripts.specs.OutcomeTexts.{Prints};

use cluster_world::Event;
use std::alloc::AllocError;
use transcripts::Transcript;

/// Prints the call that is the last event: the command in the words of a script's line, and its reply.
pub(crate) fn print_last_call(
    transcript: &mut Transcript,
    events: &[Event],
) -> Result<(), AllocError>
    ensures { OnOk result (Prints transcript.old transcript.new (last_text events.now) transcript.old.status) }
{
    match events {
        [.., event] => print_event(transcript, event),
        [] => Ok(()),
    }
}

fn print_event(transcript: &mut Transcript, event: &Event) -> Result<(), AllocError>
    ensures { OnOk result (Prints transcript.old transcript.new (event_text event.now) transcript.old.status) }
{
    match event {
        Event::Client { .. } | Event::Look { .. } => Ok(()),
        Event::Admin {
            node,
            command,
            reply,
        } => transcript.call(*node, command, reply),
    }
}
