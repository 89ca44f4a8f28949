//! What the environment says that connections are to show.
ghost use Rattle.std.specs.Prelude.{◌≡◌, IfOk, MatchResult};
ghost use Rattle.cluster_inspection.specs.Environment.{IsFit, IsPaired, IsUnfit, IsUnpaired, variable_text};

use crate::password_file::{PasswordFileFault, password_in};
use byte_texts::{MAX_BYTES, Text};
use server_commands::Credentials;
use std::alloc::{AllocError, Global};
use std::env::{self, Env, VarError};
use std::fmt;
use std::fs::{File, Files};
use thiserror::Error;

/// A variable of the environment.
#[derive(Clone, Copy, Debug, PartialEq, Eq)]
pub enum Variable {
    /// `RESHARD_AUTH`: the password.
    Auth,
    /// `RESHARD_AUTH_FILE`: the path of a file with the password, where `RESHARD_AUTH` is not set.
    AuthFile,
    /// `REDISCLI_AUTH`: the password, where neither of these is set (the page of redis-cli).
    RedisCliAuth,
    /// `RESHARD_USER`: the user of an ACL whose password that is.
    User,
}

impl fmt::Display for Variable {
    ghost use Rattle.std.specs.Prelude.{Some};
    ghost use Rattle.cluster_inspection.specs.Environment.{variable_text};

    ghost output = { λ x. Some (variable_text x) };

    fn fmt<W: fmt::Write>(&self, f: &mut fmt::Formatter<W>) -> fmt::Result {
        f.write_str(self.name())
    }
}

impl Variable {
    fn name(self) -> &'static str
        ensures { result.now ≡ variable_text self }
    {
        match self {
            Self::Auth => "RESHARD_AUTH",
            Self::AuthFile => "RESHARD_AUTH_FILE",
            Self::RedisCliAuth => "REDISCLI_AUTH",
            Self::User => "RESHARD_USER",
        }
    }
}

/// What is wrong with the environment. A variable that is not there is none of these.
#[derive(Clone, Copy, Debug, PartialEq, Eq, Error)]
pub enum CredentialFault {
    /// Out of memory.
    Memory,
    /// The variable is there, and has nothing in it.
    Empty(Variable),
    /// It is not UTF-8.
    NoText(Variable),
    /// It is longer than an argument of a command may be: 1,048,576 bytes.
    TooLong(Variable),
    /// The file of `RESHARD_AUTH_FILE` gives no password.
    File(PasswordFileFault),
    /// There is a user, and no password.
    UserAlone,
}

/// The text after `error: `.
impl fmt::Display for CredentialFault {
    ghost use Rattle.std.specs.Prelude.{Some};
    ghost use Rattle.cluster_inspection.specs.Environment.{fault_text};

    ghost output = { λ f. Some (fault_text f) };

    fn fmt<W: fmt::Write>(&self, f: &mut fmt::Formatter<W>) -> fmt::Result {
        match self {
            Self::Memory => write!(f, "out of memory"),
            Self::Empty(variable) => write!(f, "{variable} is empty"),
            Self::NoText(variable) => write!(f, "{variable} is no UTF-8"),
            Self::TooLong(variable) => write!(f, "{variable} is longer than 1048576 bytes"),
            Self::File(fault) => write!(f, "RESHARD_AUTH_FILE {fault}"),
            Self::UserAlone => write!(f, "RESHARD_USER is set, and RESHARD_AUTH is not"),
        }
    }
}

impl From<AllocError> for CredentialFault {
    ghost use Rattle.std.specs.Prelude.{◌≡◌};
    ghost use Rattle.cluster_inspection.specs.declared.credentials.CredentialFault.TheVariants.{Memory};

    ghost from_gives = { λ _ e. e ≡ Memory };

    fn from(_error: AllocError) -> Self {
        Self::Memory
    }
}

impl From<PasswordFileFault> for CredentialFault {
    ghost use Rattle.std.specs.Prelude.{◌≡◌};
    ghost use Rattle.cluster_inspection.specs.Environment.{fault_of_file};

    ghost from_gives = { λ fault e. e ≡ fault_of_file fault };

    fn from(fault: PasswordFileFault) -> Self {
        match fault {
            PasswordFileFault::Memory => Self::Memory,
            fault => Self::File(fault),
        }
    }
}

/// What connections are to show: nothing where no password is set.
pub fn credentials_given<H: Env + Files<File = File> + AllocGlobal>(
    rt: &H,
    alloc: Global,
) -> Result<Option<Credentials>, CredentialFault> {
    let password = password_given(rt, alloc)?;
    let user = value_of(rt, alloc, Variable::User)?;
    paired(user, password)
}

/// The password that is set, in the variable, in a file, or for redis-cli.
fn password_given<H: Env + Files<File = File> + AllocGlobal>(
    rt: &H,
    alloc: Global,
) -> Result<Option<Text>, CredentialFault> {
    if let Some(password) = value_of(rt, alloc, Variable::Auth)? {
        return Ok(Some(password));
    }
    if let Some(path) = word_of(rt, Variable::AuthFile)? {
        return Ok(Some(password_in(rt, alloc, path.as_str())?));
    }
    value_of(rt, alloc, Variable::RedisCliAuth)
}

/// A password with or without its user, or neither.
fn paired(
    user: Option<Text>,
    password: Option<Text>,
) -> Result<Option<Credentials>, CredentialFault>
    ensures { MatchResult result (IsPaired user password) (IsUnpaired user password) }
{
    match password {
        Some(password) => Ok(Some(Credentials { user, password })),
        None if user.is_some() => Err(CredentialFault::UserAlone),
        None => Ok(None),
    }
}

/// The value of the variable, if it is set.
fn value_of<H: Env + AllocGlobal>(
    rt: &H,
    alloc: Global,
    variable: Variable,
) -> Result<Option<Text>, CredentialFault> {
    match word_of(rt, variable)? {
        Some(value) => Ok(Some(text_in(alloc, variable, value.as_bytes())?)),
        None => Ok(None),
    }
}

/// The word that the variable is set to, if it is set.
fn word_of<H: Env + AllocGlobal>(
    rt: &H,
    variable: Variable,
) -> Result<Option<String>, CredentialFault> {
    match env::var(rt, variable.name()) {
        Ok(value) => Ok(Some(value)),
        Err(VarError::NotPresent) => Ok(None),
        Err(VarError::NotUnicode) => Err(CredentialFault::NoText(variable)),
        Err(VarError::OutOfMemory) => Err(CredentialFault::Memory),
    }
}

/// The text that the variable is set to.
fn text_in(alloc: Global, variable: Variable, value: &[u8]) -> Result<Text, CredentialFault>
    ensures { MatchResult result (IsFit value.now) (IsUnfit variable value.now) }
{
    if value.is_empty() {
        return Err(CredentialFault::Empty(variable));
    }
    if value.len() > MAX_BYTES {
        return Err(CredentialFault::TooLong(variable));
    }
    Ok(Text::from_slice(alloc, value)?)
}

/// A copy of the credentials, for who keeps it.
pub fn copy_of(
    alloc: Global,
    credentials: &Option<Credentials>,
) -> Result<Option<Credentials>, AllocError>
    ensures { IfOk result (λ c. c ≡ credentials.now) }
{
    let Some(shown) = credentials else {
        return Ok(None);
    };
    let user = match &shown.user {
        Some(user) => Some(user.try_copy(alloc)?),
        None => None,
    };
    let password = shown.password.try_copy(alloc)?;
    Ok(Some(Credentials { user, password }))
}
