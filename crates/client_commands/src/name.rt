/// The name of a command.
#[derive(Clone, Copy, Debug, PartialEq, Eq)]
pub enum CommandName {
    OnText(TextName),
    OnHash(HashName),
    OnList(ListName),
    OnSet(SetName),
    OnKeys(KeysName),
}

/// The name of a command on the text at a key.
#[derive(Clone, Copy, Debug, PartialEq, Eq)]
pub enum TextName {
    Get,
    Set,
    SetNx,
    Append,
    StrLen,
    Incr,
    Decr,
    IncrBy,
    DecrBy,
}

/// The name of a command on the hash at a key.
#[derive(Clone, Copy, Debug, PartialEq, Eq)]
pub enum HashName {
    HSet,
    HGet,
    HDel,
    HLen,
    HExists,
    HGetAll,
}

/// The name of a command on the list at a key.
#[derive(Clone, Copy, Debug, PartialEq, Eq)]
pub enum ListName {
    LPush,
    RPush,
    LPop,
    RPop,
    LLen,
    LRange,
}

/// The name of a command on the set at a key.
#[derive(Clone, Copy, Debug, PartialEq, Eq)]
pub enum SetName {
    SAdd,
    SRem,
    SIsMember,
    SCard,
    SMembers,
}

/// The name of a command on values of any kind, or on several keys.
#[derive(Clone, Copy, Debug, PartialEq, Eq)]
pub enum KeysName {
    TypeOf,
    Del,
    Exists,
    Rename,
    MGet,
    MSet,
    SMove,
}
