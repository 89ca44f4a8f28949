ghost use Rattle.std.specs.Prelude.{◌≡◌, ◌≤◌, IfOk, IfSome, MatchResult, codes, false, is_some, pos, unwrap_or};
ghost use Rattle.clap.specs.Words.{first_of, found_of, rows_of, rule_of};
ghost use Rattle.clap.specs.declared.builder.value_parser.ValueParser.TheVariants as vp;
ghost use Rattle.command_words.specs.Clusters.{AreApplyRows, AreClusterRows, HasApply, HasCluster, IsAddressed};
ghost use Rattle.command_words.specs.Clusters.{IsApply, cluster_option, expect_option, keys_option, keys_parser};
ghost use Rattle.command_words.specs.Clusters.{log_option, stop_file_option, timeout_option, timeout_parser};
ghost use Rattle.command_words.specs.Clusters.{IsLogged, append_flag, dead_for_good_option, log_start_of, overwrite_flag};
ghost use Rattle.command_words.specs.Clusters.{plan_option, wait_for_news_flag};
ghost use Rattle.command_words.specs.Faults.{IsAtFault};
ghost use Rattle.command_words.specs.Options.{MayGive, number_of};

use crate::addresses::addresses_in;
use crate::arguments::{
    flag, flag_in, has_text, parsed_option, some_text_in, text_in, text_option,
};
use crate::faults::OptionFault;
use crate::ids::are_ids_if_given;
use crate::usage::{ApplyWords, ClusterWords, LogStart};
use clap::builder::ValueParser;
use clap::{Arg, ArgMatches, value_parser};
use std::alloc::{AllocError, Global};

/// Milliseconds for which a node waits in the middle of a MIGRATE, where the words do not say.
const TIMEOUT: u32 = 60_000;

/// The cluster of servers that the options give, or that they write no addresses.
pub fn cluster_words(
    alloc: Global,
    given: &ArgMatches,
) -> Result<Result<ClusterWords, OptionFault>, AllocError>
    requires { AreClusterRows (rows_of (found_of given.now)) }
    ensures { IfOk result (λ r. MatchResult r
        (λ g. HasCluster (rows_of (found_of given.now)) g × IsAddressed g)
        (IsAtFault (rows_of (found_of given.now)))) }
{
    let text = text_in(alloc, given, "cluster")?;
    let Some(addresses) = addresses_in(alloc, text.as_bytes())? else {
        return Ok(Err(OptionFault::NoAddress));
    };
    let expect = some_text_in(alloc, given, "expect")?;
    Ok(Ok(ClusterWords { addresses, expect }))
}

/// What the options of `apply` say, or what is wrong with them.
pub fn apply_words(
    alloc: Global,
    given: &ArgMatches,
) -> Result<Result<ApplyWords, OptionFault>, AllocError>
    requires { AreApplyRows (rows_of (found_of given.now)) }
    ensures { IfOk result (λ r. MatchResult r
        (λ g. HasApply (rows_of (found_of given.now)) g × IsApply g)
        (IsAtFault (rows_of (found_of given.now)))) }
{
    match cluster_words(alloc, given)? {
        Ok(cluster) => run_words(alloc, given, cluster),
        Err(fault) => Ok(Err(fault)),
    }
}

/// What the options of `apply` say beside the cluster, or what is wrong with them.
fn run_words(
    alloc: Global,
    given: &ArgMatches,
    cluster: ClusterWords,
) -> Result<Result<ApplyWords, OptionFault>, AllocError>
    requires rows { AreApplyRows (rows_of (found_of given.now)) }
    requires cluster { HasCluster (rows_of (found_of given.now)) cluster }
    requires addressed { IsAddressed cluster }
    ensures { IfOk result (λ r. MatchResult r
        (λ g. HasApply (rows_of (found_of given.now)) g × IsApply g)
        (IsAtFault (rows_of (found_of given.now)))) }
{
    let timeout = timeout_in(given);
    let keys_per_second = keys_given(given);
    let log = some_text_in(alloc, given, "log")?;
    let log_start = match log_start_in(given) {
        Ok(start) => start,
        Err(fault) => return Ok(Err(fault)),
    };
    let stop_file = some_text_in(alloc, given, "stop-file")?;
    let wait_for_news = flag_in(given, "wait-for-news");
    let dead_for_good = some_text_in(alloc, given, "dead-for-good")?;
    if !are_ids_if_given(&dead_for_good) {
        return Ok(Err(OptionFault::NoId));
    }
    let plan = some_text_in(alloc, given, "plan")?;
    Ok(Ok(ApplyWords {
        cluster,
        timeout,
        keys_per_second,
        log,
        log_start,
        stop_file,
        wait_for_news,
        dead_for_good,
        plan,
    }))
}

/// Nodes of a cluster of servers.
pub fn cluster_option<'a>(alloc: Global, is_required: bool, help: &'a str) -> Arg<'a>
    ensures rule { rule_of result ≡ cluster_option is_required }
    ensures local { result.global ≡ false }
{
    text_option(alloc, "cluster", "ADDR[,ADDR..]", help).required(is_required)
}

/// The file by which each name has to stand for the same node as now.
pub fn expect_option<'a>(alloc: Global) -> Arg<'a>
    ensures rule { rule_of result ≡ expect_option }
    ensures local { result.global ≡ false }
{
    text_option(
        alloc,
        "expect",
        "FILE",
        "What `reshard survey` printed: where a name stands for another node now, nothing is done",
    )
}

/// How long a node waits in the middle of a MIGRATE.
pub fn timeout_option<'a>(alloc: Global) -> Arg<'a>
    ensures rule { rule_of result ≡ timeout_option }
    ensures local { result.global ≡ false }
{
    parsed_option(
        alloc,
        "timeout",
        "MS",
        timeout_range(),
        "Milliseconds for which a MIGRATE waits for the other node, 1 to 600000; 60000 unless it is given",
    )
}

/// How many keys move a second.
pub fn keys_option<'a>(alloc: Global) -> Arg<'a>
    ensures rule { rule_of result ≡ keys_option }
    ensures local { result.global ≡ false }
{
    parsed_option(
        alloc,
        "keys-per-second",
        "COUNT",
        keys_range(),
        "At most so many keys move a second, 1 to 1000000000; as many as can unless it is given",
    )
}

/// The file to which each command is written.
pub fn log_option<'a>(alloc: Global) -> Arg<'a>
    ensures rule { rule_of result ≡ log_option }
    ensures local { result.global ≡ false }
{
    text_option(
        alloc,
        "log",
        "FILE",
        "Each command is written there before it is sent, and then its reply",
    )
}

/// Whether the log is written after what its file holds.
pub fn append_flag<'a>(alloc: Global) -> Arg<'a>
    ensures rule { rule_of result ≡ append_flag }
    ensures local { result.global ≡ false }
{
    flag(
        alloc,
        "append",
        "The log may be a file that holds something, and is written after that",
    )
}

/// Whether the log is written in place of what its file holds.
pub fn overwrite_flag<'a>(alloc: Global) -> Arg<'a>
    ensures rule { rule_of result ≡ overwrite_flag }
    ensures local { result.global ≡ false }
{
    flag(
        alloc,
        "overwrite",
        "The log may be a file that holds something, which is lost",
    )
}

/// The file that stops a plan between two slots.
pub fn stop_file_option<'a>(alloc: Global) -> Arg<'a>
    ensures rule { rule_of result ≡ stop_file_option }
    ensures local { result.global ≡ false }
{
    text_option(
        alloc,
        "stop-file",
        "PATH",
        "Once there is a file of that name, no further slot is begun",
    )
}

/// Whether servers are told of a slot's new owner once they have heard of it.
pub fn wait_for_news_flag<'a>(alloc: Global) -> Arg<'a>
    ensures rule { rule_of result ≡ wait_for_news_flag }
    ensures local { result.global ≡ false }
{
    flag(
        alloc,
        "wait-for-news",
        "Notifies other masters of a slot's new owner once they have heard of it, or after 2 seconds",
    )
}

/// The masters of which the operator knows that they never return.
pub fn dead_for_good_option<'a>(alloc: Global) -> Arg<'a>
    ensures rule { rule_of result ≡ dead_for_good_option }
    ensures local { result.global ≡ false }
{
    text_option(
        alloc,
        "dead-for-good",
        "ID[,ID..]",
        "Failed masters that never start again with their nodes.conf: slots move into their shards",
    )
}

/// The file with the plan.
pub fn plan_option<'a>(alloc: Global, help: &'a str) -> Arg<'a>
    ensures rule { rule_of result ≡ plan_option }
    ensures local { result.global ≡ false }
{
    text_option(alloc, "plan", "FILE", help)
}

fn timeout_range<'a>() -> ValueParser<'a>
    ensures { result ≡ vp.Signed (pos 1) (pos 600000) }
{
    value_parser!(u32).range(1..=600_000)
}

fn keys_range<'a>() -> ValueParser<'a>
    ensures { result ≡ vp.Signed (pos 1) (pos 1000000000) }
{
    value_parser!(u32).range(1..=1_000_000_000)
}

/// How the log begins, or what is wrong with the flags that say that.
fn log_start_in(given: &ArgMatches) -> Result<LogStart, OptionFault>
    requires append { MayGive (codes "append") vp.Bool (rows_of (found_of given.now)) }
    requires overwrite { MayGive (codes "overwrite") vp.Bool (rows_of (found_of given.now)) }
    ensures { MatchResult result
        (λ start. (start ≡ log_start_of (rows_of (found_of given.now))) × IsLogged (rows_of (found_of given.now)))
        (IsAtFault (rows_of (found_of given.now))) }
{
    let (append, overwrite) = (flag_in(given, "append"), flag_in(given, "overwrite"));
    if append && overwrite {
        return Err(OptionFault::TwoLogStarts);
    }
    if !append && !overwrite {
        return Ok(LogStart::New);
    }
    if !has_text(given, "log") {
        return Err(OptionFault::NoLog);
    }
    if append {
        Ok(LogStart::Append)
    } else {
        Ok(LogStart::Overwrite)
    }
}

/// How long a MIGRATE waits.
fn timeout_in(given: &ArgMatches) -> u32
    requires { MayGive (codes "timeout") timeout_parser (rows_of (found_of given.now)) }
    ensures number { result ≡ unwrap_or (number_of (codes "timeout") (rows_of (found_of given.now))) 60000 }
    ensures some { 1 ≤ result }
    ensures most { result ≤ 600000 }
{
    timeout_given(given).unwrap_or(TIMEOUT)
}

/// The number of milliseconds, if it is there.
fn timeout_given(given: &ArgMatches) -> Option<u32>
    requires { MayGive (codes "timeout") timeout_parser (rows_of (found_of given.now)) }
    ensures number { result ≡ number_of (codes "timeout") (rows_of (found_of given.now)) }
    ensures range { IfSome result (λ n. (1 ≤ n) × (n ≤ 600000)) }
{
    given.get_one::<u32>("timeout")
}

/// How many keys move a second, if that is there.
fn keys_given(given: &ArgMatches) -> Option<u32>
    requires { MayGive (codes "keys-per-second") keys_parser (rows_of (found_of given.now)) }
    ensures number { result ≡ number_of (codes "keys-per-second") (rows_of (found_of given.now)) }
    ensures range { IfSome result (λ n. (1 ≤ n) × (n ≤ 1000000000)) }
{
    given.get_one::<u32>("keys-per-second")
}
