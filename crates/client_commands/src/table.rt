//! The table of commands.
ghost use Rattle.std.specs.Prelude.{◌≡◌, ◌≤◌, length, map, option_map};
ghost use Rattle.client_commands.specs.Table.{row_of, rows, accepts, text_of};
ghost use Rattle.client_commands.specs.Rows.{row, first_named, first_of};

use crate::flag::Flag;
use crate::key_range::KeyRange;
use crate::name::{CommandName, HashName, KeysName, ListName, SetName, TextName};

/// How many arguments a command takes after its name.
#[derive(Clone, Copy, Debug, PartialEq, Eq)]
pub enum Arity {
    Exactly(u8),
    AtLeast(u8),
}

/// A row of the table: the command's name in lower case, how many arguments it takes, and the command, which says of
/// what kind its values are; where its keys are, its flags, and of its page the group, the first version of Redis that
/// has it, and a line on what it does.
pub struct CommandRow {
    pub text: &'static [u8],
    pub arity: Arity,
    pub name: CommandName,
    pub keys: KeyRange,
    pub flags: &'static [Flag],
    pub group: &'static [u8],
    pub since: &'static [u8],
    pub summary: &'static [u8],
}

const READS_FAST: &[Flag] = &[Flag::ReadOnly, Flag::Fast];

const READS: &[Flag] = &[Flag::ReadOnly];

const GROWS: &[Flag] = &[Flag::Write, Flag::DenyOom];

const GROWS_FAST: &[Flag] = &[Flag::Write, Flag::DenyOom, Flag::Fast];

const WRITES: &[Flag] = &[Flag::Write];

const WRITES_FAST: &[Flag] = &[Flag::Write, Flag::Fast];

const ONE_KEY: KeyRange = KeyRange {
    first: 1,
    last: 1,
    step: 1,
};

const TWO_KEYS: KeyRange = KeyRange {
    first: 1,
    last: 2,
    step: 1,
};

const ALL_KEYS: KeyRange = KeyRange {
    first: 1,
    last: -1,
    step: 1,
};

const EVERY_OTHER: KeyRange = KeyRange {
    first: 1,
    last: -1,
    step: 2,
};

/// Every command, one in a row.
const COMMANDS: [CommandRow; 33] = [
    CommandRow {
        text: b"get",
        arity: Arity::Exactly(1),
        name: CommandName::OnText(TextName::Get),
        keys: ONE_KEY,
        flags: READS_FAST,
        group: b"string",
        since: b"1.0.0",
        summary: b"Get the value of a key",
    },
    CommandRow {
        text: b"set",
        arity: Arity::Exactly(2),
        name: CommandName::OnText(TextName::Set),
        keys: ONE_KEY,
        flags: GROWS,
        group: b"string",
        since: b"1.0.0",
        summary: b"Set the string value of a key",
    },
    CommandRow {
        text: b"setnx",
        arity: Arity::Exactly(2),
        name: CommandName::OnText(TextName::SetNx),
        keys: ONE_KEY,
        flags: GROWS_FAST,
        group: b"string",
        since: b"1.0.0",
        summary: b"Set the value of a key, only if the key does not exist",
    },
    CommandRow {
        text: b"append",
        arity: Arity::Exactly(2),
        name: CommandName::OnText(TextName::Append),
        keys: ONE_KEY,
        flags: GROWS_FAST,
        group: b"string",
        since: b"2.0.0",
        summary: b"Append a value to a key",
    },
    CommandRow {
        text: b"strlen",
        arity: Arity::Exactly(1),
        name: CommandName::OnText(TextName::StrLen),
        keys: ONE_KEY,
        flags: READS_FAST,
        group: b"string",
        since: b"2.2.0",
        summary: b"Get the length of the value stored in a key",
    },
    CommandRow {
        text: b"incr",
        arity: Arity::Exactly(1),
        name: CommandName::OnText(TextName::Incr),
        keys: ONE_KEY,
        flags: GROWS_FAST,
        group: b"string",
        since: b"1.0.0",
        summary: b"Increment the integer value of a key by one",
    },
    CommandRow {
        text: b"decr",
        arity: Arity::Exactly(1),
        name: CommandName::OnText(TextName::Decr),
        keys: ONE_KEY,
        flags: GROWS_FAST,
        group: b"string",
        since: b"1.0.0",
        summary: b"Decrement the integer value of a key by one",
    },
    CommandRow {
        text: b"incrby",
        arity: Arity::Exactly(2),
        name: CommandName::OnText(TextName::IncrBy),
        keys: ONE_KEY,
        flags: GROWS_FAST,
        group: b"string",
        since: b"1.0.0",
        summary: b"Increment the integer value of a key by the given amount",
    },
    CommandRow {
        text: b"decrby",
        arity: Arity::Exactly(2),
        name: CommandName::OnText(TextName::DecrBy),
        keys: ONE_KEY,
        flags: GROWS_FAST,
        group: b"string",
        since: b"1.0.0",
        summary: b"Decrement the integer value of a key by the given number",
    },
    CommandRow {
        text: b"hset",
        arity: Arity::AtLeast(3),
        name: CommandName::OnHash(HashName::HSet),
        keys: ONE_KEY,
        flags: GROWS_FAST,
        group: b"hash",
        since: b"2.0.0",
        summary: b"Set the string value of a hash field",
    },
    CommandRow {
        text: b"hget",
        arity: Arity::Exactly(2),
        name: CommandName::OnHash(HashName::HGet),
        keys: ONE_KEY,
        flags: READS_FAST,
        group: b"hash",
        since: b"2.0.0",
        summary: b"Get the value of a hash field",
    },
    CommandRow {
        text: b"hdel",
        arity: Arity::AtLeast(2),
        name: CommandName::OnHash(HashName::HDel),
        keys: ONE_KEY,
        flags: WRITES_FAST,
        group: b"hash",
        since: b"2.0.0",
        summary: b"Delete one or more hash fields",
    },
    CommandRow {
        text: b"hlen",
        arity: Arity::Exactly(1),
        name: CommandName::OnHash(HashName::HLen),
        keys: ONE_KEY,
        flags: READS_FAST,
        group: b"hash",
        since: b"2.0.0",
        summary: b"Get the number of fields in a hash",
    },
    CommandRow {
        text: b"hexists",
        arity: Arity::Exactly(2),
        name: CommandName::OnHash(HashName::HExists),
        keys: ONE_KEY,
        flags: READS_FAST,
        group: b"hash",
        since: b"2.0.0",
        summary: b"Determine if a hash field exists",
    },
    CommandRow {
        text: b"hgetall",
        arity: Arity::Exactly(1),
        name: CommandName::OnHash(HashName::HGetAll),
        keys: ONE_KEY,
        flags: READS,
        group: b"hash",
        since: b"2.0.0",
        summary: b"Get all the fields and values in a hash",
    },
    CommandRow {
        text: b"lpush",
        arity: Arity::AtLeast(2),
        name: CommandName::OnList(ListName::LPush),
        keys: ONE_KEY,
        flags: GROWS_FAST,
        group: b"list",
        since: b"1.0.0",
        summary: b"Prepend one or multiple elements to a list",
    },
    CommandRow {
        text: b"rpush",
        arity: Arity::AtLeast(2),
        name: CommandName::OnList(ListName::RPush),
        keys: ONE_KEY,
        flags: GROWS_FAST,
        group: b"list",
        since: b"1.0.0",
        summary: b"Append one or multiple elements to a list",
    },
    CommandRow {
        text: b"lpop",
        arity: Arity::Exactly(1),
        name: CommandName::OnList(ListName::LPop),
        keys: ONE_KEY,
        flags: WRITES_FAST,
        group: b"list",
        since: b"1.0.0",
        summary: b"Remove and get the first elements in a list",
    },
    CommandRow {
        text: b"rpop",
        arity: Arity::Exactly(1),
        name: CommandName::OnList(ListName::RPop),
        keys: ONE_KEY,
        flags: WRITES_FAST,
        group: b"list",
        since: b"1.0.0",
        summary: b"Remove and get the last elements in a list",
    },
    CommandRow {
        text: b"llen",
        arity: Arity::Exactly(1),
        name: CommandName::OnList(ListName::LLen),
        keys: ONE_KEY,
        flags: READS_FAST,
        group: b"list",
        since: b"1.0.0",
        summary: b"Get the length of a list",
    },
    CommandRow {
        text: b"lrange",
        arity: Arity::Exactly(3),
        name: CommandName::OnList(ListName::LRange),
        keys: ONE_KEY,
        flags: READS,
        group: b"list",
        since: b"1.0.0",
        summary: b"Get a range of elements from a list",
    },
    CommandRow {
        text: b"sadd",
        arity: Arity::AtLeast(2),
        name: CommandName::OnSet(SetName::SAdd),
        keys: ONE_KEY,
        flags: GROWS_FAST,
        group: b"set",
        since: b"1.0.0",
        summary: b"Add one or more members to a set",
    },
    CommandRow {
        text: b"srem",
        arity: Arity::AtLeast(2),
        name: CommandName::OnSet(SetName::SRem),
        keys: ONE_KEY,
        flags: WRITES_FAST,
        group: b"set",
        since: b"1.0.0",
        summary: b"Remove one or more members from a set",
    },
    CommandRow {
        text: b"sismember",
        arity: Arity::Exactly(2),
        name: CommandName::OnSet(SetName::SIsMember),
        keys: ONE_KEY,
        flags: READS_FAST,
        group: b"set",
        since: b"1.0.0",
        summary: b"Determine if a given value is a member of a set",
    },
    CommandRow {
        text: b"scard",
        arity: Arity::Exactly(1),
        name: CommandName::OnSet(SetName::SCard),
        keys: ONE_KEY,
        flags: READS_FAST,
        group: b"set",
        since: b"1.0.0",
        summary: b"Get the number of members in a set",
    },
    CommandRow {
        text: b"smembers",
        arity: Arity::Exactly(1),
        name: CommandName::OnSet(SetName::SMembers),
        keys: ONE_KEY,
        flags: READS,
        group: b"set",
        since: b"1.0.0",
        summary: b"Get all the members in a set",
    },
    CommandRow {
        text: b"type",
        arity: Arity::Exactly(1),
        name: CommandName::OnKeys(KeysName::TypeOf),
        keys: ONE_KEY,
        flags: READS_FAST,
        group: b"generic",
        since: b"1.0.0",
        summary: b"Determine the type stored at key",
    },
    CommandRow {
        text: b"del",
        arity: Arity::AtLeast(1),
        name: CommandName::OnKeys(KeysName::Del),
        keys: ALL_KEYS,
        flags: WRITES,
        group: b"generic",
        since: b"1.0.0",
        summary: b"Delete a key",
    },
    CommandRow {
        text: b"exists",
        arity: Arity::AtLeast(1),
        name: CommandName::OnKeys(KeysName::Exists),
        keys: ALL_KEYS,
        flags: READS_FAST,
        group: b"generic",
        since: b"1.0.0",
        summary: b"Determine if a key exists",
    },
    CommandRow {
        text: b"rename",
        arity: Arity::Exactly(2),
        name: CommandName::OnKeys(KeysName::Rename),
        keys: TWO_KEYS,
        flags: WRITES,
        group: b"generic",
        since: b"1.0.0",
        summary: b"Rename a key",
    },
    CommandRow {
        text: b"mget",
        arity: Arity::AtLeast(1),
        name: CommandName::OnKeys(KeysName::MGet),
        keys: ALL_KEYS,
        flags: READS_FAST,
        group: b"string",
        since: b"1.0.0",
        summary: b"Get the values of all the given keys",
    },
    CommandRow {
        text: b"mset",
        arity: Arity::AtLeast(2),
        name: CommandName::OnKeys(KeysName::MSet),
        keys: EVERY_OTHER,
        flags: GROWS,
        group: b"string",
        since: b"1.0.1",
        summary: b"Set multiple keys to multiple values",
    },
    CommandRow {
        text: b"smove",
        arity: Arity::Exactly(3),
        name: CommandName::OnKeys(KeysName::SMove),
        keys: TWO_KEYS,
        flags: WRITES_FAST,
        group: b"set",
        since: b"1.0.0",
        summary: b"Move a member from one set to another",
    },
];

/// The rows of all commands, in the order of the table.
pub fn commands() -> &'static [CommandRow]
    ensures { map row result.now ≡ rows }
{
    &COMMANDS
}

/// The row of the command with this name, whatever the case of its letters.
pub fn row_of(word: &[u8]) -> Option<&'static CommandRow>
    ensures { option_map (λ r. row r.now) result ≡ row_of word.now }
{
    first_named(&COMMANDS, word)
}

#[tactic(auto, unfolding(crate::specs::Rows::first_named))]
fn first_named<'t>(rows: &'t [CommandRow], word: &[u8]) -> Option<&'t CommandRow>
    ensures { option_map (λ r. r.now) result ≡ first_named word.now rows.now }
{
    rows.iter().find(|row| word.eq_ignore_ascii_case(row.text))
}

#[tactic(auto, unfolding(crate::specs::Rows::first_of))]
fn first_of(rows: &[CommandRow], name: CommandName) -> Option<&CommandRow>
    ensures { option_map (λ r. r.now) result ≡ first_of name rows.now }
{
    rows.iter().find(|row| row.name == name)
}

impl CommandName {
    /// The command's name, as its row has it.
    pub(crate) fn text(self) -> &'static [u8]
        ensures value { result.now ≡ text_of self }
        ensures short { length result.now ≤ 1024 }
    {
        match first_of(&COMMANDS, self) {
            Some(row) => row.text,
            None => b"",
        }
    }
}

impl Arity {
    /// Whether so many arguments may stand after the name.
    pub(crate) fn accepts(self, arguments: usize) -> bool
        ensures { result ≡ accepts self arguments }
    {
        match self {
            Self::Exactly(number) => arguments == usize::from(number),
            Self::AtLeast(number) => arguments >= usize::from(number),
        }
    }
}
