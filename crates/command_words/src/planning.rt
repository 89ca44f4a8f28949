ghost use Rattle.std.specs.Prelude.{◌≡◌, ◌≤◌, IfOk, IfSome, MatchResult, codes, false, pos, unwrap_or};
ghost use Rattle.clap.specs.Words.{found_of, rows_of, rule_of};
ghost use Rattle.clap.specs.declared.builder.value_parser.ValueParser.TheVariants as vp;
ghost use Rattle.command_words.specs.CommandLine.{IsDraining, IsRebalance, IsReshard};
ghost use Rattle.command_words.specs.Faults.{IsAtFault};
ghost use Rattle.command_words.specs.Options.{MayGive, number_of};
ghost use Rattle.command_words.specs.Planning.{AreDrainRows, AreRebalanceRows, AreReshardRows, HasDrain};
ghost use Rattle.command_words.specs.Planning.{HasRebalance, HasReshard, some_to_option};
ghost use Rattle.command_words.specs.Planning.{batch_of, batch_option, batch_parser, flag_of, from_option};
ghost use Rattle.command_words.specs.Planning.{slots_option, threshold_option, threshold_parser};
ghost use Rattle.command_words.specs.Planning.{to_option, use_empty_flag, weights_option};
ghost use Rattle.command_words.specs.Starts.{HasStart, IsStart};

use crate::arguments::{flag, parsed_option, some_text_in, text_in, text_option};
use crate::faults::OptionFault;
use crate::slot_counts::slot_count;
use crate::usage::{DrainWords, RebalanceWords, ReshardWords, Start};
use clap::builder::ValueParser;
use clap::{Arg, ArgMatches, value_parser};
use std::alloc::{AllocError, Global};

/// How many keys a batch of a plan's lines has at most, where the words do not say.
pub const BATCH: u16 = 10;

/// By how many per cent a node may be off its share, where the words do not say.
const THRESHOLD: u8 = 2;

/// What the options of `plan-reshard` say beside the start, or what is wrong with them.
pub fn reshard_words(
    alloc: Global,
    given: &ArgMatches,
    start: Start,
) -> Result<Result<ReshardWords, OptionFault>, AllocError>
    requires rows { AreReshardRows (rows_of (found_of given.now)) }
    requires start { HasStart (rows_of (found_of given.now)) start }
    requires range { IsStart start }
    ensures { IfOk result (λ r. MatchResult r
        (λ g. HasReshard (rows_of (found_of given.now)) g × IsReshard g)
        (IsAtFault (rows_of (found_of given.now)))) }
{
    let batch = batch_in(given);
    let from = text_in(alloc, given, "from")?;
    let to = text_in(alloc, given, "to")?;
    let count = text_in(alloc, given, "slots")?;
    match slot_count(count.as_bytes()) {
        Some(slots) => Ok(Ok(ReshardWords {
            start,
            from,
            to,
            slots,
            batch,
        })),
        None => Ok(Err(OptionFault::NoCount)),
    }
}

/// What the options of `plan-rebalance` say beside the start.
pub fn rebalance_words(
    alloc: Global,
    given: &ArgMatches,
    start: Start,
) -> Result<RebalanceWords, AllocError>
    requires rows { AreRebalanceRows (rows_of (found_of given.now)) }
    requires start { HasStart (rows_of (found_of given.now)) start }
    requires range { IsStart start }
    ensures words { IfOk result (HasRebalance (rows_of (found_of given.now))) }
    ensures range { IfOk result IsRebalance }
{
    let threshold = threshold_in(given);
    let use_empty = use_empty_in(given);
    let batch = batch_in(given);
    let weights = some_text_in(alloc, given, "weights")?;
    Ok(RebalanceWords {
        start,
        weights,
        threshold,
        use_empty,
        batch,
    })
}

/// What the options of `plan-drain` say beside the start.
pub fn drain_words(
    alloc: Global,
    given: &ArgMatches,
    start: Start,
) -> Result<DrainWords, AllocError>
    requires rows { AreDrainRows (rows_of (found_of given.now)) }
    requires start { HasStart (rows_of (found_of given.now)) start }
    requires range { IsStart start }
    ensures words { IfOk result (HasDrain (rows_of (found_of given.now))) }
    ensures range { IfOk result IsDraining }
{
    let batch = batch_in(given);
    let from = text_in(alloc, given, "from")?;
    let to = some_text_in(alloc, given, "to")?;
    Ok(DrainWords {
        start,
        from,
        to,
        batch,
    })
}

/// The nodes that give slots.
pub fn from_option<'a>(alloc: Global) -> Arg<'a>
    ensures rule { rule_of result ≡ from_option }
    ensures local { result.global ≡ false }
{
    text_option(
        alloc,
        "from",
        "NODES",
        "The nodes that give slots, as n0,n2; or all, for every node but the target",
    )
    .required(true)
}

/// The nodes that give all of their slots.
pub fn drained_option<'a>(alloc: Global) -> Arg<'a>
    ensures rule { rule_of result ≡ from_option }
    ensures local { result.global ≡ false }
{
    text_option(
        alloc,
        "from",
        "NODES",
        "The nodes that give all of their slots, as n0,n2",
    )
    .required(true)
}

/// The node that takes slots.
pub fn to_option<'a>(alloc: Global) -> Arg<'a>
    ensures rule { rule_of result ≡ to_option }
    ensures local { result.global ≡ false }
{
    text_option(alloc, "to", "NODE", "The node that takes them, as n1").required(true)
}

/// The nodes that take slots, where not all others do.
pub fn some_to_option<'a>(alloc: Global) -> Arg<'a>
    ensures rule { rule_of result ≡ some_to_option }
    ensures local { result.global ≡ false }
{
    text_option(
        alloc,
        "to",
        "NODES",
        "The nodes that take them, as n1,n3; every node that gives none unless they are given",
    )
}

/// How many slots are to move.
pub fn slots_option<'a>(alloc: Global) -> Arg<'a>
    ensures rule { rule_of result ≡ slots_option }
    ensures local { result.global ≡ false }
{
    text_option(
        alloc,
        "slots",
        "COUNT",
        "How many slots are to move, 0 to 16384; or all, for each that those nodes own",
    )
    .required(true)
}

/// How many keys a batch has at most.
pub fn batch_option<'a>(alloc: Global) -> Arg<'a>
    ensures rule { rule_of result ≡ batch_option }
    ensures local { result.global ≡ false }
{
    parsed_option(
        alloc,
        "batch",
        "KEYS",
        batch_range(),
        "At most so many keys move at a time, 1 to 1000; 10 unless it is given",
    )
}

/// The weight of each node.
pub fn weights_option<'a>(alloc: Global) -> Arg<'a>
    ensures rule { rule_of result ≡ weights_option }
    ensures local { result.global ≡ false }
{
    text_option(
        alloc,
        "weights",
        "WEIGHTS",
        "A weight for each node, 0 to 1000, as 2,1,1, or of some by name, as n0=2,n3=0; others are 1",
    )
}

/// By how much a node has to be off its share.
pub fn threshold_option<'a>(alloc: Global) -> Arg<'a>
    ensures rule { rule_of result ≡ threshold_option }
    ensures local { result.global ≡ false }
{
    parsed_option(
        alloc,
        "threshold",
        "PERCENT",
        threshold_range(),
        "Nothing moves while each node is within so many per cent of its share, 0 to 100; 2 unless it is given",
    )
}

/// Whether nodes without slots take part.
pub fn use_empty_flag<'a>(alloc: Global) -> Arg<'a>
    ensures rule { rule_of result ≡ use_empty_flag }
    ensures local { result.global ≡ false }
{
    flag(alloc, "use-empty", "Nodes that hold no slot take part too")
}

/// How many keys a batch may have.
pub fn batch_range<'a>() -> ValueParser<'a>
    ensures { result ≡ vp.Signed (pos 1) (pos 1000) }
{
    value_parser!(u16).range(1..=1000)
}

fn threshold_range<'a>() -> ValueParser<'a>
    ensures { result ≡ vp.Signed (pos 0) (pos 100) }
{
    value_parser!(u8).range(0..=100)
}

/// How many keys a batch has at most.
fn batch_in(given: &ArgMatches) -> u16
    requires { MayGive (codes "batch") batch_parser (rows_of (found_of given.now)) }
    ensures number { result ≡ batch_of (rows_of (found_of given.now)) }
    ensures some { 1 ≤ result }
    ensures most { result ≤ 1000 }
{
    batch_given(given).unwrap_or(BATCH)
}

/// The number of keys, if it is there.
fn batch_given(given: &ArgMatches) -> Option<u16>
    requires { MayGive (codes "batch") batch_parser (rows_of (found_of given.now)) }
    ensures number { result ≡ number_of (codes "batch") (rows_of (found_of given.now)) }
    ensures range { IfSome result (λ n. (1 ≤ n) × (n ≤ 1000)) }
{
    given.get_one::<u16>("batch")
}

/// By how many per cent a node may be off its share.
fn threshold_in(given: &ArgMatches) -> u8
    requires { MayGive (codes "threshold") threshold_parser (rows_of (found_of given.now)) }
    ensures number { result ≡ unwrap_or (number_of (codes "threshold") (rows_of (found_of given.now))) 2 }
    ensures most { result ≤ 100 }
{
    threshold_given(given).unwrap_or(THRESHOLD)
}

/// The number of per cent, if it is there.
fn threshold_given(given: &ArgMatches) -> Option<u8>
    requires { MayGive (codes "threshold") threshold_parser (rows_of (found_of given.now)) }
    ensures number { result ≡ number_of (codes "threshold") (rows_of (found_of given.now)) }
    ensures range { IfSome result (λ n. n ≤ 100) }
{
    given.get_one::<u8>("threshold")
}

/// Whether nodes without slots take part.
fn use_empty_in(given: &ArgMatches) -> bool
    requires { MayGive (codes "use-empty") vp.Bool (rows_of (found_of given.now)) }
    ensures { result ≡ flag_of (codes "use-empty") (rows_of (found_of given.now)) }
{
    given.get_flag("use-empty")
}
