ghost use Rattle.std.specs.Prelude.{◌≡◌};
ghost use Rattle.command_list.specs.Entries.{arity_of};
ghost use Rattle.command_list.specs.Shown.{of_command, shown};

use client_commands::{Arity, CommandRow, Flag, KeyRange};

/// What is told of a command: its name in lower case, how many words it has with its name (negative where it may have
/// more), its flags, where its keys are, and of its page the group, the first version of Redis that has it, and a line
/// on what it does.
#[derive(Clone, Copy)]
pub(crate) struct Listed {
    pub text: &'static [u8],
    pub arity: i64,
    pub flags: &'static [Flag],
    pub keys: KeyRange,
    pub group: &'static [u8],
    pub since: &'static [u8],
    pub summary: &'static [u8],
}

impl Listed {
    /// What is told of a command of clients: what its row says.
    pub(crate) fn of_command(row: &CommandRow) -> Self
        ensures { shown result ≡ of_command row.now }
    {
        Self {
            text: row.text,
            arity: word_count(row.arity),
            flags: row.flags,
            keys: row.keys,
            group: row.group,
            since: row.since,
            summary: row.summary,
        }
    }
}

/// How many words a command has with its name: a negative number where it may have more.
fn word_count(arity: Arity) -> i64
    ensures { result ≡ arity_of arity }
{
    match arity {
        Arity::Exactly(arguments) => i64::from(arguments) + 1,
        Arity::AtLeast(arguments) => -i64::from(arguments) - 1,
    }
}
