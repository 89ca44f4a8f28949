//! Equal commands of their own.
ghost use Rattle.std.specs.Prelude.{◌≡◌, IfOk};

use crate::command::{Command, HashCommand, ListCommand, SetCommand, TextCommand};
use std::alloc::{AllocError, Global};

impl Command {
    /// An equal command of its own.
    pub fn try_copy(&self, alloc: Global) -> Result<Self, AllocError>
        ensures { IfOk result (λ c. c ≡ self.now) }
    {
        match self {
            Self::OnText(key, command) => {
                Ok(Self::OnText(key.try_copy(alloc)?, command.try_copy(alloc)?))
            }
            Self::OnHash(key, command) => {
                Ok(Self::OnHash(key.try_copy(alloc)?, command.try_copy(alloc)?))
            }
            Self::OnList(key, command) => {
                Ok(Self::OnList(key.try_copy(alloc)?, command.try_copy(alloc)?))
            }
            Self::OnSet(key, command) => {
                Ok(Self::OnSet(key.try_copy(alloc)?, command.try_copy(alloc)?))
            }
            Self::TypeOf(key) => Ok(Self::TypeOf(key.try_copy(alloc)?)),
            Self::Del(keys) => Ok(Self::Del(keys.try_copy(alloc)?)),
            Self::Exists(keys) => Ok(Self::Exists(keys.try_copy(alloc)?)),
            Self::Rename(keys) => Ok(Self::Rename(keys.try_copy(alloc)?)),
            Self::MGet(keys) => Ok(Self::MGet(keys.try_copy(alloc)?)),
            Self::MSet(assignments) => Ok(Self::MSet(assignments.try_copy(alloc)?)),
            Self::SMove(keys, member) => {
                Ok(Self::SMove(keys.try_copy(alloc)?, member.try_copy(alloc)?))
            }
        }
    }
}

impl TextCommand {
    fn try_copy(&self, alloc: Global) -> Result<Self, AllocError>
        ensures { IfOk result (λ c. c ≡ self.now) }
    {
        match self {
            Self::Get => Ok(Self::Get),
            Self::Set(text) => Ok(Self::Set(text.try_copy(alloc)?)),
            Self::SetNx(text) => Ok(Self::SetNx(text.try_copy(alloc)?)),
            Self::Append(more) => Ok(Self::Append(more.try_copy(alloc)?)),
            Self::StrLen => Ok(Self::StrLen),
            Self::Incr => Ok(Self::Incr),
            Self::Decr => Ok(Self::Decr),
            Self::IncrBy(number) => Ok(Self::IncrBy(number.try_copy(alloc)?)),
            Self::DecrBy(number) => Ok(Self::DecrBy(number.try_copy(alloc)?)),
        }
    }
}

impl HashCommand {
    fn try_copy(&self, alloc: Global) -> Result<Self, AllocError>
        ensures { IfOk result (λ c. c ≡ self.now) }
    {
        match self {
            Self::HSet(pairs) => Ok(Self::HSet(pairs.try_copy(alloc)?)),
            Self::HGet(field) => Ok(Self::HGet(field.try_copy(alloc)?)),
            Self::HDel(fields) => Ok(Self::HDel(fields.try_copy(alloc)?)),
            Self::HLen => Ok(Self::HLen),
            Self::HExists(field) => Ok(Self::HExists(field.try_copy(alloc)?)),
            Self::HGetAll => Ok(Self::HGetAll),
        }
    }
}

impl ListCommand {
    fn try_copy(&self, alloc: Global) -> Result<Self, AllocError>
        ensures { IfOk result (λ c. c ≡ self.now) }
    {
        match self {
            Self::LPush(elements) => Ok(Self::LPush(elements.try_copy(alloc)?)),
            Self::RPush(elements) => Ok(Self::RPush(elements.try_copy(alloc)?)),
            Self::LPop => Ok(Self::LPop),
            Self::RPop => Ok(Self::RPop),
            Self::LLen => Ok(Self::LLen),
            Self::LRange(start, stop) => {
                Ok(Self::LRange(start.try_copy(alloc)?, stop.try_copy(alloc)?))
            }
        }
    }
}

impl SetCommand {
    fn try_copy(&self, alloc: Global) -> Result<Self, AllocError>
        ensures { IfOk result (λ c. c ≡ self.now) }
    {
        match self {
            Self::SAdd(members) => Ok(Self::SAdd(members.try_copy(alloc)?)),
            Self::SRem(members) => Ok(Self::SRem(members.try_copy(alloc)?)),
            Self::SIsMember(member) => Ok(Self::SIsMember(member.try_copy(alloc)?)),
            Self::SCard => Ok(Self::SCard),
            Self::SMembers => Ok(Self::SMembers),
        }
    }
}
