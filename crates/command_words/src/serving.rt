ghost use Rattle.std.specs.Prelude.{◌≡◌, ◌≤◌, IfSome, codes, false, pos, unwrap_or};
ghost use Rattle.clap.specs.Words.{found_of, rows_of, rule_of};
ghost use Rattle.clap.specs.declared.builder.value_parser.ValueParser.TheVariants as vp;
ghost use Rattle.command_words.specs.Options.{MayGive, number_of};
ghost use Rattle.command_words.specs.Serving.{AreServeRows, HasServe, answers_clients_flag, base_port_option};
ghost use Rattle.command_words.specs.Serving.{connections_option, connections_parser, plan_flag, port_parser};
ghost use Rattle.command_words.specs.Serving.{workers_option, workers_parser};

use crate::arguments::{flag, flag_in, parsed_option};
use crate::sizes::sizes_of;
use crate::usage::ServeWords;
use clap::builder::ValueParser;
use clap::{Arg, ArgMatches, value_parser};
use std::alloc::Global;

/// The first node's port, where the words do not say.
const BASE_PORT: u16 = 7000;

/// How many threads serve sessions, where the words do not say.
const WORKERS: u8 = 4;

/// What the options of `serve` say.
pub fn serve_words(given: &ArgMatches) -> ServeWords
    requires { AreServeRows (rows_of (found_of given.now)) }
    ensures words { HasServe (rows_of (found_of given.now)) result }
    ensures some { 1 ≤ result.sizes.owning }
    ensures most { result.sizes.nodes ≤ 8 }
    ensures port { 1 ≤ result.base_port }
    ensures last_port { result.base_port ≤ 65528 }
    ensures worker { 1 ≤ result.workers }
    ensures workers { result.workers ≤ 32 }
{
    ServeWords {
        sizes: sizes_of(given),
        base_port: base_port_in(given),
        workers: workers_in(given),
        connections: connections_in(given),
        plan: flag_in(given, "plan"),
        answers_clients: flag_in(given, "answers-clients"),
    }
}

/// The first node's port.
pub fn base_port_option<'a>(alloc: Global) -> Arg<'a>
    ensures rule { rule_of result ≡ base_port_option }
    ensures local { result.global ≡ false }
{
    parsed_option(
        alloc,
        "base-port",
        "PORT",
        port_range(),
        "The first node's port, 1 to 65528; node i listens on PORT+i; 7000 unless it is given",
    )
}

/// How many threads serve sessions.
pub fn workers_option<'a>(alloc: Global) -> Arg<'a>
    ensures rule { rule_of result ≡ workers_option }
    ensures local { result.global ≡ false }
{
    parsed_option(
        alloc,
        "workers",
        "COUNT",
        worker_range(),
        "Worker threads, each of which serves one client at a time, 1 to 32; 4 unless it is given",
    )
}

/// How many connections are accepted.
pub fn connections_option<'a>(alloc: Global) -> Arg<'a>
    ensures rule { rule_of result ≡ connections_option }
    ensures local { result.global ≡ false }
{
    parsed_option(
        alloc,
        "connections",
        "COUNT",
        connection_range(),
        "Each node accepts so many connections, and then the program ends; at 0, as unless it is given, it has no end",
    )
}

/// Whether a plan runs.
pub fn plan_flag<'a>(alloc: Global) -> Arg<'a>
    ensures rule { rule_of result ≡ plan_flag }
    ensures local { result.global ≡ false }
{
    flag(
        alloc,
        "plan",
        "A plan is read from standard input, verified, and run while clients work",
    )
}

/// Whether clients are answered what they ask first.
pub fn answers_clients_flag<'a>(alloc: Global) -> Arg<'a>
    ensures rule { rule_of result ≡ answers_clients_flag }
    ensures local { result.global ≡ false }
{
    flag(
        alloc,
        "answers-clients",
        "Answers what clients of a Redis Cluster ask first (HELLO, INFO, COMMAND, CLUSTER NODES ..)",
    )
}

fn port_range<'a>() -> ValueParser<'a>
    ensures { result ≡ vp.Signed (pos 1) (pos 65528) }
{
    value_parser!(u16).range(1..=65528)
}

fn worker_range<'a>() -> ValueParser<'a>
    ensures { result ≡ vp.Signed (pos 1) (pos 32) }
{
    value_parser!(u8).range(1..=32)
}

fn connection_range<'a>() -> ValueParser<'a>
    ensures { result ≡ vp.Signed (pos 0) (pos 4294967295) }
{
    value_parser!(u32).range(0..=4_294_967_295)
}

/// The first node's port.
fn base_port_in(given: &ArgMatches) -> u16
    requires { MayGive (codes "base-port") port_parser (rows_of (found_of given.now)) }
    ensures number { result ≡ unwrap_or (number_of (codes "base-port") (rows_of (found_of given.now))) 7000 }
    ensures some { 1 ≤ result }
    ensures most { result ≤ 65528 }
{
    base_port_given(given).unwrap_or(BASE_PORT)
}

/// The port, if it is there.
fn base_port_given(given: &ArgMatches) -> Option<u16>
    requires { MayGive (codes "base-port") port_parser (rows_of (found_of given.now)) }
    ensures number { result ≡ number_of (codes "base-port") (rows_of (found_of given.now)) }
    ensures range { IfSome result (λ n. (1 ≤ n) × (n ≤ 65528)) }
{
    given.get_one::<u16>("base-port")
}

/// How many threads serve sessions.
fn workers_in(given: &ArgMatches) -> u8
    requires { MayGive (codes "workers") workers_parser (rows_of (found_of given.now)) }
    ensures number { result ≡ unwrap_or (number_of (codes "workers") (rows_of (found_of given.now))) 4 }
    ensures some { 1 ≤ result }
    ensures most { result ≤ 32 }
{
    workers_given(given).unwrap_or(WORKERS)
}

/// The number of threads, if it is there.
fn workers_given(given: &ArgMatches) -> Option<u8>
    requires { MayGive (codes "workers") workers_parser (rows_of (found_of given.now)) }
    ensures number { result ≡ number_of (codes "workers") (rows_of (found_of given.now)) }
    ensures range { IfSome result (λ n. (1 ≤ n) × (n ≤ 32)) }
{
    given.get_one::<u8>("workers")
}

/// How many connections each node accepts.
fn connections_in(given: &ArgMatches) -> u32
    requires { MayGive (codes "connections") connections_parser (rows_of (found_of given.now)) }
    ensures { result ≡ unwrap_or (number_of (codes "connections") (rows_of (found_of given.now))) 0 }
{
    connections_given(given).unwrap_or(0)
}

/// The number of connections, if it is there.
fn connections_given(given: &ArgMatches) -> Option<u32>
    requires { MayGive (codes "connections") connections_parser (rows_of (found_of given.now)) }
    ensures { result ≡ number_of (codes "connections") (rows_of (found_of given.now)) }
{
    given.get_one::<u32>("connections")
}
