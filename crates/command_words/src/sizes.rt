ghost use Rattle.std.specs.Prelude.{◌≡◌, ◌≤◌, IfSome, codes, false, pos};
ghost use Rattle.clap.specs.Words.{found_of, rows_of, rule_of};
ghost use Rattle.clap.specs.declared.builder.value_parser.ValueParser.TheVariants as vp;
ghost use Rattle.command_words.specs.Clusters.{is_sized};
ghost use Rattle.command_words.specs.Options.{AreSizes, HasSizes, MayGive, even_option, nodes_option};
ghost use Rattle.command_words.specs.Options.{nodes_parser, number_of};

use crate::arguments::parsed_option;
use clap::builder::ValueParser;
use clap::{Arg, ArgMatches, value_parser};
use std::alloc::Global;

/// The sizes of an even split: the nodes of a cluster, and the first of them that share the slots.
#[derive(Clone, Copy, Debug, PartialEq, Eq)]
pub struct Sizes {
    pub nodes: u8,
    pub owning: u8,
}

/// How many nodes the cluster has.
pub fn nodes_option<'a>(alloc: Global, is_required: bool) -> Arg<'a>
    ensures rule { rule_of result ≡ nodes_option is_required }
    ensures local { result.global ≡ false }
{
    parsed_option(
        alloc,
        "nodes",
        "N",
        node_range(),
        "The cluster's nodes, 1 to 8",
    )
    .required(is_required)
}

/// How many of the nodes share the slots.
pub fn even_option<'a>(alloc: Global) -> Arg<'a>
    ensures rule { rule_of result ≡ even_option }
    ensures local { result.global ≡ false }
{
    parsed_option(
        alloc,
        "even",
        "M",
        node_range(),
        "The first M nodes share the slots evenly, M at most N; all do unless M is given",
    )
}

/// The numbers of nodes that a cluster may have.
fn node_range<'a>() -> ValueParser<'a>
    ensures { result ≡ vp.Signed (pos 1) (pos 8) }
{
    value_parser!(u8).range(1..=8)
}

/// The sizes that the options give.
pub fn sizes_of(given: &ArgMatches) -> Sizes
    requires { AreSizes (rows_of (found_of given.now)) }
    ensures sizes { HasSizes (rows_of (found_of given.now)) result }
    ensures some { 1 ≤ result.owning }
    ensures most { result.nodes ≤ 8 }
{
    let Some(nodes) = count_in(given, "nodes") else {
        unreachable!()
    };
    let owning = count_in(given, "even").unwrap_or(nodes);
    Sizes { nodes, owning }
}

/// Whether one of the options is there that give the sizes.
pub fn has_sizes(given: &ArgMatches) -> bool
    requires nodes { MayGive (codes "nodes") nodes_parser (rows_of (found_of given.now)) }
    requires even { MayGive (codes "even") nodes_parser (rows_of (found_of given.now)) }
    ensures { result ≡ is_sized (rows_of (found_of given.now)) }
{
    count_in(given, "nodes").is_some() || count_in(given, "even").is_some()
}

/// The number that the option gives, if it is there.
fn count_in(given: &ArgMatches, option: &str) -> Option<u8>
    requires { MayGive option.now nodes_parser (rows_of (found_of given.now)) }
    ensures number { result ≡ number_of option.now (rows_of (found_of given.now)) }
    ensures range { IfSome result (λ n. (1 ≤ n) × (n ≤ 8)) }
{
    given.get_one::<u8>(option)
}
