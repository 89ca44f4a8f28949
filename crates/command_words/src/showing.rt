//! The options of the commands that show what a plan does.
ghost use Rattle.std.specs.Prelude.{◌≡◌, false};
ghost use Rattle.clap.specs.Words.{rule_of};
ghost use Rattle.command_words.specs.Showing.{json_flag, now_flag};

use crate::arguments::flag;
use clap::Arg;
use std::alloc::Global;

/// JSON in place of a page of text.
pub fn json_flag<'a>(alloc: Global) -> Arg<'a>
    ensures rule { rule_of result ≡ json_flag }
    ensures local { result.global ≡ false }
{
    flag(
        alloc,
        "json",
        "Prints one line of JSON in place of the page, also of a plan that is refused",
    )
}

/// What is there in place of what a plan does.
pub fn now_flag<'a>(alloc: Global) -> Arg<'a>
    ensures rule { rule_of result ≡ now_flag }
    ensures local { result.global ≡ false }
{
    flag(
        alloc,
        "now",
        "Draws what is there, with the slots that stand open; no plan is read; goes with --cluster",
    )
}
