ghost use Rattle.std.specs.Prelude.{◌≡◌, ◌≤◌, IfOk, IfSome, codes, false};
ghost use Rattle.clap.specs.Words.{found_of, rows_of, rule_of};
ghost use Rattle.command_words.specs.Clusters.{HasApply, IsApply};
ghost use Rattle.command_words.specs.Options.{MayGive, number_of};
ghost use Rattle.command_words.specs.Planning.{batch_parser};
ghost use Rattle.command_words.specs.Resuming.{AreResumeRows, HasResume, IsResume, by_of, by_option};

use crate::arguments::parsed_option;
use crate::planning::{BATCH, batch_range};
use crate::usage::{ApplyWords, ResumeWords};
use clap::{Arg, ArgMatches};
use std::alloc::{AllocError, Global};

/// What the options of `resume` say beside the run.
pub fn resume_words(
    alloc: Global,
    given: &ArgMatches,
    run: ApplyWords,
) -> Result<ResumeWords, AllocError>
    requires rows { AreResumeRows (rows_of (found_of given.now)) }
    requires run { HasApply (rows_of (found_of given.now)) run }
    requires range { IsApply run }
    ensures words { IfOk result (HasResume (rows_of (found_of given.now))) }
    ensures range { IfOk result IsResume }
{
    let batch = by_in(given);
    Ok(ResumeWords { run, batch })
}

/// How many keys of an open slot a batch has at most.
pub fn by_option<'a>(alloc: Global) -> Arg<'a>
    ensures rule { rule_of result ≡ by_option }
    ensures local { result.global ≡ false }
{
    parsed_option(
        alloc,
        "by",
        "KEYS",
        batch_range(),
        "At most so many keys of an open slot move at a time, 1 to 1000; 10 unless it is given",
    )
}

/// How many keys of an open slot a batch has at most.
fn by_in(given: &ArgMatches) -> u16
    requires { MayGive (codes "by") batch_parser (rows_of (found_of given.now)) }
    ensures number { result ≡ by_of (rows_of (found_of given.now)) }
    ensures some { 1 ≤ result }
    ensures most { result ≤ 1000 }
{
    by_given(given).unwrap_or(BATCH)
}

/// The number of keys, if it is there.
fn by_given(given: &ArgMatches) -> Option<u16>
    requires { MayGive (codes "by") batch_parser (rows_of (found_of given.now)) }
    ensures number { result ≡ number_of (codes "by") (rows_of (found_of given.now)) }
    ensures range { IfSome result (λ n. (1 ≤ n) × (n ≤ 1000)) }
{
    given.get_one::<u16>("by")
}
