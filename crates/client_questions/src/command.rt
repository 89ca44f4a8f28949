//! COMMAND and its words.
ghost use Rattle.std.specs.Prelude.{◌≡◌, IfOk};
ghost use Rattle.client_questions.specs.Command.{command_reply, count_asked};

use crate::refusals::{unknown_subcommand, wrong_count};
use byte_texts::{Memory, Text};
use resp2_wire::Reply;
use std::alloc::Global;

/// The reply to COMMAND with these further words.
#[tactic(auto, unfolding(crate::specs::Command::command_reply))]
pub(crate) fn command(alloc: Global, words: &[Text]) -> Result<Reply, Memory>
    ensures { IfOk result (λ r. r ≡ command_reply words.now) }
{
    let Some((word, further)) = words.split_first() else {
        return command_list::command_reply(alloc);
    };
    let word = word.get();
    if word.eq_ignore_ascii_case(b"count") {
        return count(alloc, further);
    }
    if word.eq_ignore_ascii_case(b"info") {
        return command_list::info_reply(alloc, further);
    }
    if word.eq_ignore_ascii_case(b"docs") {
        return command_list::docs_reply(alloc, further);
    }
    unknown_subcommand(alloc, b"COMMAND", word)
}

fn count(alloc: Global, further: &[Text]) -> Result<Reply, Memory>
    ensures { IfOk result (λ r. r ≡ count_asked further.now) }
{
    match further {
        [] => Ok(command_list::count_reply()),
        _ => wrong_count(alloc, b"command|count"),
    }
}
