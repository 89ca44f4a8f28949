//! Commands as requests spell them.
ghost use Rattle.std.specs.Prelude.{◌≡◌, [], ◌∷◌, length, ◌≤◌, ◌<◌};
ghost use Rattle.byte_texts.specs.Outcomes.{UnlessMemory};
ghost use Rattle.client_commands.specs.Faults.{is_memory};
ghost use Rattle.client_commands.specs.Commands.{text_command, hash_command, list_command, set_command, keys_command};
ghost use Rattle.client_commands.specs.Commands.{with_arguments, keys, member_move, ReadsAs};

use crate::arity::{keys_of, none_of, one_of, pairs_of, some_of, take_first, two_of};
use crate::assignments::Assignments;
use crate::command::{Command, HashCommand, ListCommand, SetCommand, TextCommand};
use crate::fault::CommandFault;
use crate::key_pair::KeyPair;
use crate::name::{CommandName, HashName, KeysName, ListName, SetName, TextName};
use crate::table::row_of;
use byte_texts::Text;
use resp2_wire::Request;
use std::alloc::Global;
use std::slice;

impl Command {
    /// StoreExact: the command that a request spells. Its words are taken over, and not copied.
    pub fn read(alloc: Global, request: Request) -> Result<Self, CommandFault>
        ensures { ReadsAs request result }
    {
        let Some((name, arguments)) = take_first(request.into_vec()) else {
            return Err(CommandFault::Unknown);
        };
        Self::named(alloc, name.get(), arguments)
    }

    /// StoreExact: the command of this name with these arguments, which are taken over, and not copied.
    pub fn named(alloc: Global, name: &[u8], arguments: Vec<Text>) -> Result<Self, CommandFault>
        requires { length arguments.items ≤ 1024 }
        ensures { ReadsAs (name.now ∷ arguments.items) result }
    {
        let Some(row) = row_of(name) else {
            return Err(CommandFault::Unknown);
        };
        if !row.arity.accepts(arguments.len()) {
            return Err(CommandFault::ArgumentCount);
        }
        row.name.with_arguments(alloc, arguments)
    }

    /// The keys that the command names, in order: one at least.
    #[tactic(auto, unfolding(crate::specs::Commands::keys))]
    pub fn keys(&self) -> &[Text]
        ensures value { result.now ≡ keys self.now }
        ensures some { 0 < length result.now }
        ensures limit { length result.now ≤ 1024 }
    {
        match self {
            Self::OnText(key, _) => slice::from_ref(key),
            Self::OnHash(key, _) => slice::from_ref(key),
            Self::OnList(key, _) => slice::from_ref(key),
            Self::OnSet(key, _) => slice::from_ref(key),
            Self::TypeOf(key) => slice::from_ref(key),
            Self::Del(keys) => keys.get(),
            Self::Exists(keys) => keys.get(),
            Self::Rename(keys) => keys.get(),
            Self::MGet(keys) => keys.get(),
            Self::MSet(assignments) => assignments.keys(),
            Self::SMove(keys, _) => keys.get(),
        }
    }
}

impl CommandName {
    fn with_arguments(self, alloc: Global, arguments: Vec<Text>) -> Result<Command, CommandFault>
        requires { length arguments.items ≤ 1024 }
        ensures { UnlessMemory is_memory (λ c. c) (with_arguments self arguments.items) result }
    {
        if let Self::OnKeys(name) = self {
            return name.command(alloc, arguments);
        }
        let Some((key, rest)) = take_first(arguments) else {
            return Err(CommandFault::ArgumentCount);
        };
        match self {
            Self::OnText(name) => Ok(Command::OnText(key, name.command(rest)?)),
            Self::OnHash(name) => Ok(Command::OnHash(key, name.command(alloc, rest)?)),
            Self::OnList(name) => Ok(Command::OnList(key, name.command(rest)?)),
            Self::OnSet(name) => Ok(Command::OnSet(key, name.command(rest)?)),
            Self::OnKeys(_) => unreachable!(),
        }
    }
}

impl TextName {
    fn command(self, rest: Vec<Text>) -> Result<TextCommand, CommandFault>
        ensures { UnlessMemory is_memory (λ c. c) (text_command self rest.items) result }
    {
        match self {
            Self::Get => none_of(TextCommand::Get, rest.as_slice()),
            Self::Set => Ok(TextCommand::Set(one_of(rest)?)),
            Self::SetNx => Ok(TextCommand::SetNx(one_of(rest)?)),
            Self::Append => Ok(TextCommand::Append(one_of(rest)?)),
            Self::StrLen => none_of(TextCommand::StrLen, rest.as_slice()),
            Self::Incr => none_of(TextCommand::Incr, rest.as_slice()),
            Self::Decr => none_of(TextCommand::Decr, rest.as_slice()),
            Self::IncrBy => Ok(TextCommand::IncrBy(one_of(rest)?)),
            Self::DecrBy => Ok(TextCommand::DecrBy(one_of(rest)?)),
        }
    }
}

impl HashName {
    fn command(self, alloc: Global, rest: Vec<Text>) -> Result<HashCommand, CommandFault>
        ensures { UnlessMemory is_memory (λ c. c) (hash_command self rest.items) result }
    {
        match self {
            Self::HSet => Ok(HashCommand::HSet(pairs_of(alloc, rest)?)),
            Self::HGet => Ok(HashCommand::HGet(one_of(rest)?)),
            Self::HDel => Ok(HashCommand::HDel(some_of(rest)?)),
            Self::HLen => none_of(HashCommand::HLen, rest.as_slice()),
            Self::HExists => Ok(HashCommand::HExists(one_of(rest)?)),
            Self::HGetAll => none_of(HashCommand::HGetAll, rest.as_slice()),
        }
    }
}

impl ListName {
    fn command(self, rest: Vec<Text>) -> Result<ListCommand, CommandFault>
        ensures { UnlessMemory is_memory (λ c. c) (list_command self rest.items) result }
    {
        match self {
            Self::LPush => Ok(ListCommand::LPush(some_of(rest)?)),
            Self::RPush => Ok(ListCommand::RPush(some_of(rest)?)),
            Self::LPop => none_of(ListCommand::LPop, rest.as_slice()),
            Self::RPop => none_of(ListCommand::RPop, rest.as_slice()),
            Self::LLen => none_of(ListCommand::LLen, rest.as_slice()),
            Self::LRange => {
                let (start, stop) = two_of(rest)?;
                Ok(ListCommand::LRange(start, stop))
            }
        }
    }
}

impl SetName {
    fn command(self, rest: Vec<Text>) -> Result<SetCommand, CommandFault>
        ensures { UnlessMemory is_memory (λ c. c) (set_command self rest.items) result }
    {
        match self {
            Self::SAdd => Ok(SetCommand::SAdd(some_of(rest)?)),
            Self::SRem => Ok(SetCommand::SRem(some_of(rest)?)),
            Self::SIsMember => Ok(SetCommand::SIsMember(one_of(rest)?)),
            Self::SCard => none_of(SetCommand::SCard, rest.as_slice()),
            Self::SMembers => none_of(SetCommand::SMembers, rest.as_slice()),
        }
    }
}

impl KeysName {
    fn command(self, alloc: Global, arguments: Vec<Text>) -> Result<Command, CommandFault>
        requires { length arguments.items ≤ 1024 }
        ensures { UnlessMemory is_memory (λ c. c) (keys_command self arguments.items) result }
    {
        match self {
            Self::TypeOf => Ok(Command::TypeOf(one_of(arguments)?)),
            Self::Del => Ok(Command::Del(keys_of(arguments)?)),
            Self::Exists => Ok(Command::Exists(keys_of(arguments)?)),
            Self::Rename => {
                let (from, to) = two_of(arguments)?;
                Ok(Command::Rename(KeyPair::new(from, to)))
            }
            Self::MGet => Ok(Command::MGet(keys_of(arguments)?)),
            Self::MSet => {
                let pairs = pairs_of(alloc, arguments)?;
                Ok(Command::MSet(Assignments::of_pairs(alloc, pairs)?))
            }
            Self::SMove => member_move(arguments),
        }
    }
}

/// SMOVE of its two keys and a member.
fn member_move(arguments: Vec<Text>) -> Result<Command, CommandFault>
    ensures { UnlessMemory is_memory (λ c. c) (member_move arguments.items) result }
{
    let Some((from, rest)) = take_first(arguments) else {
        return Err(CommandFault::ArgumentCount);
    };
    let (to, member) = two_of(rest)?;
    Ok(Command::SMove(KeyPair::new(from, to), member))
}
