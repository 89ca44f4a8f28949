ghost use Rattle.std.specs.Prelude.{◌≡◌, IfOk, MatchResult, None, Some, codes, false, string_bytes};
ghost use Rattle.clap.specs.Words.{found_of, rows_of, rule_of};
ghost use Rattle.command_words.specs.Clusters.{cluster_of};
ghost use Rattle.command_words.specs.Faults.{IsAtFault};
ghost use Rattle.command_words.specs.Starts.{AreStartRows, HasStart, IsStart, survey_of, survey_option};

use crate::arguments::{has_text, some_text_in, text_option};
use crate::clusters::cluster_words;
use crate::faults::OptionFault;
use crate::sizes::{has_sizes, sizes_of};
use crate::usage::Start;
use clap::{Arg, ArgMatches};
use std::alloc::{AllocError, Global};

/// The file of a survey, where a plan may start from it, which has to be there or need not.
pub fn survey_option<'a>(alloc: Global, is_required: bool) -> Arg<'a>
    ensures rule { rule_of result ≡ survey_option is_required }
    ensures local { result.global ≡ false }
{
    text_option(
        alloc,
        "survey",
        "FILE",
        "In place of --cluster: what `reshard survey --full` printed; no server is asked",
    )
    .required(is_required)
}

/// Who owns the slots where the plan starts, or what is wrong with the options that say that.
pub fn start_of(alloc: Global, given: &ArgMatches) -> Result<Result<Start, OptionFault>, AllocError>
    requires { AreStartRows (rows_of (found_of given.now)) }
    ensures { IfOk result (λ r. MatchResult r
        (λ start. HasStart (rows_of (found_of given.now)) start × IsStart start)
        (IsAtFault (rows_of (found_of given.now)))) }
{
    match some_text_in(alloc, given, "survey")? {
        Some(path) => Ok(survey_start(given, path)),
        None => other_start(alloc, given),
    }
}

/// The survey in the file with this path, or what is wrong with the options beside it.
fn survey_start(given: &ArgMatches, path: String) -> Result<Start, OptionFault>
    requires rows { AreStartRows (rows_of (found_of given.now)) }
    requires path { survey_of (rows_of (found_of given.now)) ≡ Some (string_bytes path) }
    ensures { MatchResult result
        (λ start. HasStart (rows_of (found_of given.now)) start × IsStart start)
        (IsAtFault (rows_of (found_of given.now))) }
{
    if has_sizes(given) || has_text(given, "cluster") {
        return Err(OptionFault::SurveyBeside);
    }
    if has_text(given, "expect") {
        return Err(OptionFault::NoCluster);
    }
    Ok(Start::Survey(path))
}

/// The cluster or the even split that the options give, or what is wrong with them.
fn other_start(alloc: Global, given: &ArgMatches) -> Result<Result<Start, OptionFault>, AllocError>
    requires rows { AreStartRows (rows_of (found_of given.now)) }
    requires alone { survey_of (rows_of (found_of given.now)) ≡ None }
    ensures { IfOk result (λ r. MatchResult r
        (λ start. HasStart (rows_of (found_of given.now)) start × IsStart start)
        (IsAtFault (rows_of (found_of given.now)))) }
{
    if !has_text(given, "cluster") {
        return Ok(even_start(given));
    }
    if has_sizes(given) {
        return Ok(Err(OptionFault::TwoStarts));
    }
    match cluster_words(alloc, given)? {
        Ok(cluster) => Ok(Ok(Start::Cluster(cluster))),
        Err(fault) => Ok(Err(fault)),
    }
}

/// The even split that the options give, or what is wrong with them.
fn even_start(given: &ArgMatches) -> Result<Start, OptionFault>
    requires rows { AreStartRows (rows_of (found_of given.now)) }
    requires alone { cluster_of (rows_of (found_of given.now)) ≡ None }
    requires asked { survey_of (rows_of (found_of given.now)) ≡ None }
    ensures { MatchResult result
        (λ start. HasStart (rows_of (found_of given.now)) start × IsStart start)
        (IsAtFault (rows_of (found_of given.now))) }
{
    if has_text(given, "expect") {
        return Err(OptionFault::NoCluster);
    }
    let sizes = sizes_of(given);
    if sizes.owning <= sizes.nodes {
        Ok(Start::Even(sizes))
    } else {
        Err(OptionFault::Uneven(sizes))
    }
}
