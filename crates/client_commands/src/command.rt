use crate::arguments::Arguments;
use crate::assignments::Assignments;
use crate::key_pair::KeyPair;
use byte_texts::{Text, TextList};
use typed_values::PairList;

/// A command on a store, with its arguments. Its keys come first.
pub enum Command {
    /// A command on the text at a key.
    OnText(Text, TextCommand),
    /// A command on the hash at a key.
    OnHash(Text, HashCommand),
    /// A command on the list at a key.
    OnList(Text, ListCommand),
    /// A command on the set at a key.
    OnSet(Text, SetCommand),
    /// `TYPE key`.
    TypeOf(Text),
    /// `DEL key ..`.
    Del(Arguments),
    /// `EXISTS key ..`.
    Exists(Arguments),
    /// `RENAME key newkey`.
    Rename(KeyPair),
    /// `MGET key ..`.
    MGet(Arguments),
    /// `MSET key value ..`.
    MSet(Assignments),
    /// `SMOVE source destination member`.
    SMove(KeyPair, Text),
}

/// Written out, so that a proof sees one call where such a value is dropped.
impl Drop for Command {
    fn drop(self) {
        match self {
            Self::OnText(key, command) => {
                drop(key);
                drop(command);
            }
            Self::OnHash(key, command) => {
                drop(key);
                drop(command);
            }
            Self::OnList(key, command) => {
                drop(key);
                drop(command);
            }
            Self::OnSet(key, command) => {
                drop(key);
                drop(command);
            }
            Self::TypeOf(key) => drop(key),
            Self::Del(keys) | Self::Exists(keys) | Self::MGet(keys) => drop(keys),
            Self::Rename(keys) => drop(keys),
            Self::MSet(assignments) => drop(assignments),
            Self::SMove(keys, member) => {
                drop(keys);
                drop(member);
            }
        }
    }
}

/// What is done to the text at a key.
pub enum TextCommand {
    /// `GET key`.
    Get,
    /// `SET key value`.
    Set(Text),
    /// `SETNX key value`.
    SetNx(Text),
    /// `APPEND key value`.
    Append(Text),
    /// `STRLEN key`.
    StrLen,
    /// `INCR key`.
    Incr,
    /// `DECR key`.
    Decr,
    /// `INCRBY key increment`: the text of the number, which is read when the command is done.
    IncrBy(Text),
    /// `DECRBY key decrement`.
    DecrBy(Text),
}

/// Written out, so that a proof sees one call where such a value is dropped.
impl Drop for TextCommand {
    fn drop(self) {
        match self {
            Self::Set(text)
            | Self::SetNx(text)
            | Self::Append(text)
            | Self::IncrBy(text)
            | Self::DecrBy(text) => drop(text),
            Self::Get | Self::StrLen | Self::Incr | Self::Decr => {}
        }
    }
}

/// What is done to the hash at a key.
pub enum HashCommand {
    /// `HSET key field value ..`.
    HSet(PairList),
    /// `HGET key field`.
    HGet(Text),
    /// `HDEL key field ..`.
    HDel(TextList),
    /// `HLEN key`.
    HLen,
    /// `HEXISTS key field`.
    HExists(Text),
    /// `HGETALL key`.
    HGetAll,
}

/// Written out, so that a proof sees one call where such a value is dropped.
impl Drop for HashCommand {
    fn drop(self) {
        match self {
            Self::HSet(pairs) => drop(pairs),
            Self::HGet(field) | Self::HExists(field) => drop(field),
            Self::HDel(fields) => drop(fields),
            Self::HLen | Self::HGetAll => {}
        }
    }
}

/// What is done to the list at a key.
pub enum ListCommand {
    /// `LPUSH key element ..`.
    LPush(TextList),
    /// `RPUSH key element ..`.
    RPush(TextList),
    /// `LPOP key`.
    LPop,
    /// `RPOP key`.
    RPop,
    /// `LLEN key`.
    LLen,
    /// `LRANGE key start stop`: the texts of the numbers, which are read when the command is done.
    LRange(Text, Text),
}

/// Written out, so that a proof sees one call where such a value is dropped.
impl Drop for ListCommand {
    fn drop(self) {
        match self {
            Self::LPush(elements) | Self::RPush(elements) => drop(elements),
            Self::LPop | Self::RPop | Self::LLen => {}
            Self::LRange(start, stop) => {
                drop(start);
                drop(stop);
            }
        }
    }
}

/// What is done to the set at a key.
pub enum SetCommand {
    /// `SADD key member ..`.
    SAdd(TextList),
    /// `SREM key member ..`.
    SRem(TextList),
    /// `SISMEMBER key member`.
    SIsMember(Text),
    /// `SCARD key`.
    SCard,
    /// `SMEMBERS key`.
    SMembers,
}

/// Written out, so that a proof sees one call where such a value is dropped.
impl Drop for SetCommand {
    fn drop(self) {
        match self {
            Self::SAdd(members) | Self::SRem(members) => drop(members),
            Self::SIsMember(member) => drop(member),
            Self::SCard | Self::SMembers => {}
        }
    }
}
