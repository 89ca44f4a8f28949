ghost use Rattle.std.specs.Prelude.{◌≡◌, IfOk, Some, false, is_some, option_map, string_bytes};
ghost use Rattle.clap.specs.Words.{first_of, found_of, new_rule, rows_of, rule_of};
ghost use Rattle.clap.specs.declared.builder.action.ArgAction.TheVariants.{SetTrue};
ghost use Rattle.clap.specs.declared.builder.value_parser.ValueParser.TheVariants as vp;
ghost use Rattle.command_words.specs.Options.{IsGiven, MayGive, parsed_option, text_option};
ghost use Rattle.command_words.specs.Planning.{flag_of};

use clap::builder::ValueParser;
use clap::{Arg, ArgAction, ArgMatches};
use std::alloc::{AllocError, Global};

/// An option that takes a text.
pub fn text_option<'a>(alloc: Global, name: &'a str, value: &'a str, help: &'a str) -> Arg<'a>
    ensures rule { rule_of result ≡ text_option name.entry.now }
    ensures local { result.global ≡ false }
{
    Arg::new(alloc, name)
        .long(name)
        .value_name(value)
        .help(help)
}

/// An option that takes what its parser accepts.
pub fn parsed_option<'a>(
    alloc: Global,
    name: &'a str,
    value: &'a str,
    parser: ValueParser<'a>,
    help: &'a str,
) -> Arg<'a>
    ensures rule { rule_of result ≡ parsed_option name.entry.now parser.entry }
    ensures local { result.global ≡ false }
{
    Arg::new(alloc, name)
        .long(name)
        .value_name(value)
        .help(help)
        .value_parser(parser)
}

/// An option that takes nothing: it is there, or it is not.
pub fn flag<'a>(alloc: Global, name: &'a str, help: &'a str) -> Arg<'a>
    ensures rule { rule_of result ≡
        record (new_rule name.entry.now) { long = Some name.entry.now; action = Some SetTrue } }
    ensures local { result.global ≡ false }
{
    Arg::new(alloc, name)
        .long(name)
        .action(ArgAction::SetTrue)
        .help(help)
}

/// The text that the option gives, which is there.
pub fn text_in(alloc: Global, given: &ArgMatches, option: &str) -> Result<String, AllocError>
    requires given { IsGiven option.now (rows_of (found_of given.now)) }
    requires text { MayGive option.now vp.String (rows_of (found_of given.now)) }
    ensures { IfOk result (λ text. first_of option.now (rows_of (found_of given.now)) ≡ Some (string_bytes text)) }
{
    let Some(text) = given.get_str(option) else {
        unreachable!()
    };
    String::from_str(alloc, text)
}

/// The text that the option gives, if it is there.
pub fn some_text_in(
    alloc: Global,
    given: &ArgMatches,
    option: &str,
) -> Result<Option<String>, AllocError>
    ensures { IfOk result (λ t. first_of option.now (rows_of (found_of given.now)) ≡ option_map string_bytes t) }
{
    match given.get_str(option) {
        Some(text) => Ok(Some(String::from_str(alloc, text)?)),
        None => Ok(None),
    }
}

/// Whether the option gives a text.
pub fn has_text(given: &ArgMatches, option: &str) -> bool
    ensures { result ≡ is_some (first_of option.now (rows_of (found_of given.now))) }
{
    given.get_str(option).is_some()
}

/// Whether the flag is there.
pub fn flag_in(given: &ArgMatches, flag: &str) -> bool
    requires { MayGive flag.now vp.Bool (rows_of (found_of given.now)) }
    ensures { result ≡ flag_of flag.now (rows_of (found_of given.now)) }
{
    given.get_flag(flag)
}
