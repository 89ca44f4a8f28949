//! The table of all that COMMAND tells: the rows of the commands of clients, and those of the questions.
ghost use Rattle.std.specs.Prelude.{◌≡◌, ◌++◌, IfSome, length, map, option_map};
ghost use Rattle.command_list.specs.Listing.{by_itself, entry_of, listed, questions};
ghost use Rattle.command_list.specs.Shown.{first_named, IsShort, shown};

use crate::listed::Listed;
use client_commands::{Flag, KeyRange, commands, row_of};

const FIRST_OF_ALL: &[Flag] = &[
    Flag::NoScript,
    Flag::Loading,
    Flag::Stale,
    Flag::Fast,
    Flag::NoAuth,
    Flag::AllowBusy,
];

const ANY_TIME: &[Flag] = &[Flag::Loading, Flag::Stale];

const NO_FLAGS: &[Flag] = &[];

const ANY_TIME_FAST: &[Flag] = &[Flag::Loading, Flag::Stale, Flag::Fast];

const FAST: &[Flag] = &[Flag::Fast];

const NO_KEY: KeyRange = KeyRange {
    first: 0,
    last: 0,
    step: 0,
};

/// The questions, and then what each session answers by itself.
const QUESTIONS: [Listed; 14] = [
    Listed {
        text: b"hello",
        arity: -1,
        flags: FIRST_OF_ALL,
        keys: NO_KEY,
        group: b"connection",
        since: b"6.0.0",
        summary: b"Handshake with Redis",
    },
    Listed {
        text: b"info",
        arity: -1,
        flags: ANY_TIME,
        keys: NO_KEY,
        group: b"server",
        since: b"1.0.0",
        summary: b"Get information and statistics about the server",
    },
    Listed {
        text: b"command",
        arity: -1,
        flags: ANY_TIME,
        keys: NO_KEY,
        group: b"server",
        since: b"2.8.13",
        summary: b"Get array of Redis command details",
    },
    Listed {
        text: b"cluster",
        arity: -2,
        flags: NO_FLAGS,
        keys: NO_KEY,
        group: b"cluster",
        since: b"3.0.0",
        summary: b"A container for cluster commands",
    },
    Listed {
        text: b"client",
        arity: -2,
        flags: NO_FLAGS,
        keys: NO_KEY,
        group: b"connection",
        since: b"2.4.0",
        summary: b"A container for client connection commands",
    },
    Listed {
        text: b"config",
        arity: -2,
        flags: NO_FLAGS,
        keys: NO_KEY,
        group: b"server",
        since: b"2.0.0",
        summary: b"A container for server configuration commands",
    },
    Listed {
        text: b"select",
        arity: 2,
        flags: ANY_TIME_FAST,
        keys: NO_KEY,
        group: b"connection",
        since: b"1.0.0",
        summary: b"Change the selected database for the current connection",
    },
    Listed {
        text: b"echo",
        arity: 2,
        flags: ANY_TIME_FAST,
        keys: NO_KEY,
        group: b"connection",
        since: b"1.0.0",
        summary: b"Echo the given string",
    },
    Listed {
        text: b"quit",
        arity: -1,
        flags: FIRST_OF_ALL,
        keys: NO_KEY,
        group: b"connection",
        since: b"1.0.0",
        summary: b"Close the connection",
    },
    Listed {
        text: b"readonly",
        arity: 1,
        flags: ANY_TIME_FAST,
        keys: NO_KEY,
        group: b"cluster",
        since: b"3.0.0",
        summary: b"Enables read queries for a connection to a cluster replica node",
    },
    Listed {
        text: b"readwrite",
        arity: 1,
        flags: ANY_TIME_FAST,
        keys: NO_KEY,
        group: b"cluster",
        since: b"3.0.0",
        summary: b"Disables read queries for a connection to a cluster replica node",
    },
    Listed {
        text: b"auth",
        arity: -2,
        flags: FIRST_OF_ALL,
        keys: NO_KEY,
        group: b"connection",
        since: b"1.0.0",
        summary: b"Authenticate to the server",
    },
    Listed {
        text: b"ping",
        arity: -1,
        flags: FAST,
        keys: NO_KEY,
        group: b"connection",
        since: b"1.0.0",
        summary: b"Ping the server",
    },
    Listed {
        text: b"asking",
        arity: 1,
        flags: FAST,
        keys: NO_KEY,
        group: b"cluster",
        since: b"3.0.0",
        summary: b"Sent by cluster clients after an -ASK redirect",
    },
];

/// The questions, one in a row, and then what each session answers by itself.
pub(crate) fn questions() -> &'static [Listed]
    ensures { map shown result.now ≡ questions ++ by_itself }
{
    &QUESTIONS
}

/// How many commands there are: those of clients, and the questions.
pub(crate) fn listed_count() -> u32
    ensures { result ≡ length listed }
{
    (commands().len() + questions().len()) as u32
}

/// What is told of the command with this name, whatever the case of its letters.
pub(crate) fn named(word: &[u8]) -> Option<Listed>
    ensures value { option_map shown result ≡ entry_of word.now }
    ensures short { IfSome result (λ r. IsShort (shown r)) }
{
    match row_of(word) {
        Some(row) => Some(Listed::of_command(row)),
        None => first_named(questions(), word).copied(),
    }
}

#[tactic(auto, unfolding(crate::specs::Shown::first_named))]
fn first_named<'t>(rows: &'t [Listed], word: &[u8]) -> Option<&'t Listed>
    ensures { option_map (λ r. r.now) result ≡ first_named word.now rows.now }
{
    rows.iter().find(|row| word.eq_ignore_ascii_case(row.text))
}
