//! Commands that take no more room than they need.
ghost use Rattle.std.specs.Prelude.{◌≡◌};

use crate::command::{Command, HashCommand, ListCommand, SetCommand, TextCommand};

impl Command {
    /// Gives back the room that the command has beyond its texts, as a copy would have none: what keeps a command that
    /// another made is not to keep that room, too. Where there is none, nothing is asked for, and where a smaller block
    /// is refused, the one that there is stays.
    pub fn shrink_to_fit(&mut self)
        ensures { self.new ≡ self.old }
    {
        match self {
            Self::OnText(key, command) => {
                key.shrink_to_fit();
                command.shrink_to_fit();
            }
            Self::OnHash(key, command) => {
                key.shrink_to_fit();
                command.shrink_to_fit();
            }
            Self::OnList(key, command) => {
                key.shrink_to_fit();
                command.shrink_to_fit();
            }
            Self::OnSet(key, command) => {
                key.shrink_to_fit();
                command.shrink_to_fit();
            }
            Self::TypeOf(key) => key.shrink_to_fit(),
            Self::Del(keys) => keys.shrink_to_fit(),
            Self::Exists(keys) => keys.shrink_to_fit(),
            Self::MGet(keys) => keys.shrink_to_fit(),
            Self::Rename(keys) => keys.shrink_to_fit(),
            Self::MSet(assignments) => assignments.shrink_to_fit(),
            Self::SMove(keys, member) => {
                keys.shrink_to_fit();
                member.shrink_to_fit();
            }
        }
    }
}

impl TextCommand {
    fn shrink_to_fit(&mut self)
        ensures { self.new ≡ self.old }
    {
        match self {
            Self::Set(text) => text.shrink_to_fit(),
            Self::SetNx(text) => text.shrink_to_fit(),
            Self::Append(more) => more.shrink_to_fit(),
            Self::IncrBy(number) => number.shrink_to_fit(),
            Self::DecrBy(number) => number.shrink_to_fit(),
            Self::Get | Self::StrLen | Self::Incr | Self::Decr => {}
        }
    }
}

impl HashCommand {
    fn shrink_to_fit(&mut self)
        ensures { self.new ≡ self.old }
    {
        match self {
            Self::HSet(pairs) => pairs.shrink_to_fit(),
            Self::HGet(field) => field.shrink_to_fit(),
            Self::HExists(field) => field.shrink_to_fit(),
            Self::HDel(fields) => fields.shrink_to_fit(),
            Self::HLen | Self::HGetAll => {}
        }
    }
}

impl ListCommand {
    fn shrink_to_fit(&mut self)
        ensures { self.new ≡ self.old }
    {
        match self {
            Self::LPush(elements) => elements.shrink_to_fit(),
            Self::RPush(elements) => elements.shrink_to_fit(),
            Self::LRange(start, stop) => {
                start.shrink_to_fit();
                stop.shrink_to_fit();
            }
            Self::LPop | Self::RPop | Self::LLen => {}
        }
    }
}

impl SetCommand {
    fn shrink_to_fit(&mut self)
        ensures { self.new ≡ self.old }
    {
        match self {
            Self::SAdd(members) => members.shrink_to_fit(),
            Self::SRem(members) => members.shrink_to_fit(),
            Self::SIsMember(member) => member.shrink_to_fit(),
            Self::SCard | Self::SMembers => {}
        }
    }
}
