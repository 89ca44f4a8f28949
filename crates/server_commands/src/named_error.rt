//! Errors of servers that an operator can do something about.
ghost use Rattle.std.specs.Prelude.{◌≡◌, option_map};
ghost use Rattle.server_commands.specs.NamedErrors.{advice, error_of_word, named_error, target_words, word_of};

use byte_texts::{Parts, is};

/// How a server begins that repeats the error of a MIGRATE's target.
const TARGET: &[u8] = b"ERR Target instance replied with error: ";

/// An error of a server for which something can be done. Its text begins with the error's word.
#[derive(Clone, Copy, Debug, PartialEq, Eq)]
pub enum NamedError {
    /// NOAUTH: the server wants a password.
    NoPassword,
    /// WRONGPASS: the password, or the user, is another one.
    WrongPassword,
    /// NOPERM: the user lacks a right.
    NoRights,
    /// LOADING: the server is not ready yet.
    Loading,
    /// BUSY: a script runs there.
    Busy,
    /// MISCONF: the server can't save its data, and takes no writes.
    Unsaved,
    /// CLUSTERDOWN: the cluster serves no keys.
    ClusterDown,
}

impl NamedError {
    /// The error that begins with the text's first word, if it is one of these. Of a MIGRATE's error that is the
    /// target's, the target's own words count.
    pub fn of(text: &[u8]) -> Option<Self>
        ensures { result ≡ named_error text.now }
    {
        match Parts::of(target_words(text), b' ').next() {
            Some(word) => error_of_word(word),
            None => None,
        }
    }

    /// The word that begins the error's text.
    pub fn word(self) -> &'static str
        ensures { result.now ≡ word_of self }
    {
        match self {
            Self::NoPassword => "NOAUTH",
            Self::WrongPassword => "WRONGPASS",
            Self::NoRights => "NOPERM",
            Self::Loading => "LOADING",
            Self::Busy => "BUSY",
            Self::Unsaved => "MISCONF",
            Self::ClusterDown => "CLUSTERDOWN",
        }
    }

    /// What an operator can do.
    pub fn advice(self) -> &'static str
        ensures { result.now ≡ advice self }
    {
        match self {
            Self::NoPassword => "set RESHARD_AUTH, and RESHARD_USER for a user of an ACL",
            Self::WrongPassword => "RESHARD_AUTH or RESHARD_USER is not what this server knows",
            Self::NoRights => {
                "the user needs +cluster +migrate +client +select +restore +restore-asking and ~*"
            }
            Self::Loading => "wait until the server has read its data",
            Self::Busy => "wait until the script there ends, or send the server SCRIPT KILL",
            Self::Unsaved => "the server can't save its data: its log says why",
            Self::ClusterDown => "the cluster serves no keys: ask each node for CLUSTER INFO",
        }
    }
}

/// The error's own words: those of a MIGRATE's target, where it is the target's.
pub(crate) fn target_words(text: &[u8]) -> &[u8]
    ensures { result.now ≡ target_words text.now }
{
    match text.strip_prefix(TARGET) {
        Some(words) => words,
        None => text,
    }
}

fn error_of_word(word: &[u8]) -> Option<NamedError>
    ensures { result ≡ error_of_word word.now }
{
    if is(word, b"NOAUTH") {
        Some(NamedError::NoPassword)
    } else if is(word, b"WRONGPASS") {
        Some(NamedError::WrongPassword)
    } else if is(word, b"NOPERM") {
        Some(NamedError::NoRights)
    } else if is(word, b"LOADING") {
        Some(NamedError::Loading)
    } else if is(word, b"BUSY") {
        Some(NamedError::Busy)
    } else if is(word, b"MISCONF") {
        Some(NamedError::Unsaved)
    } else if is(word, b"CLUSTERDOWN") {
        Some(NamedError::ClusterDown)
    } else {
        None
    }
}
