//! Commands made of their arguments, which are not copied.
ghost use Rattle.std.specs.Prelude.{◌≡◌, [], ◌∷◌, IfOk};
ghost use Rattle.client_commands.specs.declared.command.Command.TheVariants as command;
ghost use Rattle.client_commands.specs.declared.command.TextCommand.TheVariants as of_text;

use crate::arguments::Arguments;
use crate::command::{Command, TextCommand};
use byte_texts::{Memory, Text};
use std::alloc::Global;
use std::slice;

impl Command {
    /// `GET key`.
    pub fn get(key: Text) -> Self
        ensures { result ≡ command.OnText key of_text.Get }
    {
        Self::OnText(key, TextCommand::Get)
    }

    /// `SET key value`.
    pub fn set(key: Text, value: Text) -> Self
        ensures { result ≡ command.OnText key (of_text.Set value) }
    {
        Self::OnText(key, TextCommand::Set(value))
    }

    /// `APPEND key value`.
    pub fn append(key: Text, value: Text) -> Self
        ensures { result ≡ command.OnText key (of_text.Append value) }
    {
        Self::OnText(key, TextCommand::Append(value))
    }

    /// `INCR key`.
    pub fn increment(key: Text) -> Self
        ensures { result ≡ command.OnText key of_text.Incr }
    {
        Self::OnText(key, TextCommand::Incr)
    }

    /// `DEL key`. The key is copied.
    pub fn delete(alloc: Global, key: &Text) -> Result<Self, Memory>
        ensures { IfOk result (λ c. c ≡ command.Del (key.now ∷ [])) }
    {
        Ok(Self::Del(Arguments::copy_of(alloc, slice::from_ref(key))?))
    }
}
