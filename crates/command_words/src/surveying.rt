//! The options of the command that surveys a cluster of servers.
ghost use Rattle.std.specs.Prelude.{◌≡◌, IfOk, MatchResult, false};
ghost use Rattle.clap.specs.Words.{found_of, rows_of, rule_of};
ghost use Rattle.command_words.specs.Clusters.{IsAddressed};
ghost use Rattle.command_words.specs.Faults.{IsAtFault};
ghost use Rattle.command_words.specs.Surveying.{AreSurveyRows, HasSurvey, full_flag, keys_flag, slots_flag};
ghost use Rattle.command_words.specs.Surveying.{stranded_flag};

use crate::arguments::{flag, flag_in};
use crate::clusters::cluster_words;
use crate::faults::OptionFault;
use crate::usage::SurveyWords;
use clap::{Arg, ArgMatches};
use std::alloc::{AllocError, Global};

/// What the options of `survey` say, or what is wrong with them.
pub fn survey_words(
    alloc: Global,
    given: &ArgMatches,
) -> Result<Result<SurveyWords, OptionFault>, AllocError>
    requires { AreSurveyRows (rows_of (found_of given.now)) }
    ensures { IfOk result (λ r. MatchResult r
        (λ g. HasSurvey (rows_of (found_of given.now)) g × IsAddressed g.cluster)
        (IsAtFault (rows_of (found_of given.now)))) }
{
    let slots = flag_in(given, "slots");
    let keys = flag_in(given, "keys");
    let stranded = flag_in(given, "stranded");
    let full = flag_in(given, "full");
    match cluster_words(alloc, given)? {
        Ok(cluster) => Ok(Ok(SurveyWords {
            cluster,
            slots,
            keys,
            stranded,
            full,
        })),
        Err(fault) => Ok(Err(fault)),
    }
}

/// The ranges of slots are printed.
pub fn slots_flag<'a>(alloc: Global) -> Arg<'a>
    ensures rule { rule_of result ≡ slots_flag }
    ensures local { result.global ≡ false }
{
    flag(alloc, "slots", "Prints the ranges of slots of each master")
}

/// The numbers of keys are printed.
pub fn keys_flag<'a>(alloc: Global) -> Arg<'a>
    ensures rule { rule_of result ≡ keys_flag }
    ensures local { result.global ≡ false }
{
    flag(alloc, "keys", "Prints how many keys each master has")
}

/// Keys are looked for that no client reaches.
pub fn stranded_flag<'a>(alloc: Global) -> Arg<'a>
    ensures rule { rule_of result ≡ stranded_flag }
    ensures local { result.global ≡ false }
{
    flag(
        alloc,
        "stranded",
        "Looks for keys that lie at a master which does not own their slot, where no slot is open",
    )
}

/// All is printed that a plan can start from.
pub fn full_flag<'a>(alloc: Global) -> Arg<'a>
    ensures rule { rule_of result ≡ full_flag }
    ensures local { result.global ≡ false }
{
    flag(
        alloc,
        "full",
        "Prints all that a plan can start from: `--survey FILE` of other commands reads it",
    )
}
