//! A password in a file.
ghost use Rattle.std.specs.Prelude.{◌≡◌, MatchResult};
ghost use Rattle.cluster_inspection.specs.Environment.{IsLineOf, IsNoPassword, IsPassword};

use byte_texts::{MAX_BYTES, Text};
use std::alloc::{AllocError, Global};
use std::fmt;
use std::fs::{self, File, Files};
use std::io::{self, ErrorKind, Read};
use thiserror::Error;

/// Why a file gives no password.
#[derive(Clone, Copy, Debug, PartialEq, Eq, Error)]
pub enum PasswordFileFault {
    /// There is no file of that name.
    Missing,
    /// It may not be read.
    Denied,
    /// It is a directory.
    Directory,
    /// It could not be read for another reason.
    Unread,
    /// It holds nothing but the end of a line, if that.
    Empty,
    /// It holds more than an argument of a command may have: 1,048,576 bytes, beside the end of a line.
    TooLong,
    /// Out of memory.
    Memory,
}

/// The text after the name of the variable that names the file.
impl fmt::Display for PasswordFileFault {
    ghost use Rattle.std.specs.Prelude.{Some};
    ghost use Rattle.cluster_inspection.specs.Environment.{file_fault_text};

    ghost output = { λ f. Some (file_fault_text f) };

    fn fmt<W: fmt::Write>(&self, f: &mut fmt::Formatter<W>) -> fmt::Result {
        f.write_str(match self {
            Self::Missing => "names no file",
            Self::Denied => "names a file that may not be read",
            Self::Directory => "names a directory",
            Self::Unread => "names a file that could not be read",
            Self::Empty => "names a file without a password",
            Self::TooLong => "names a file of more than 1048576 bytes",
            Self::Memory => "names a file for which there is no memory",
        })
    }
}

impl From<AllocError> for PasswordFileFault {
    ghost use Rattle.std.specs.Prelude.{◌≡◌};
    ghost use Rattle.cluster_inspection.specs.declared.password_file.PasswordFileFault.TheVariants.{Memory};

    ghost from_gives = { λ _ e. e ≡ Memory };

    fn from(_error: AllocError) -> Self {
        Self::Memory
    }
}

/// The password in the file with this path: what it holds, without the end of a line at its end.
pub(crate) fn password_in<H: Files<File = File> + AllocGlobal>(
    rt: &H,
    alloc: Global,
    path: &str,
) -> Result<Text, PasswordFileFault> {
    if matches!(fs::metadata(rt, path), Ok(found) if found.is_dir()) {
        return Err(PasswordFileFault::Directory);
    }
    match bytes_in(rt, path) {
        Ok(bytes) => password_of(alloc, bytes.as_slice()),
        Err(error) => Err(unread(error.kind())),
    }
}

/// What the file holds, as far as a password and the end of a line go, and a byte more.
fn bytes_in<H: Files<File = File> + AllocGlobal>(rt: &H, path: &str) -> io::Result<Vec<u8>> {
    let mut bytes = Vec::new(rt.alloc());
    let file = File::open(rt, path)?;
    file.take(MAX_BYTES as u64 + 2).read_to_end(&mut bytes)?;
    Ok(bytes)
}

/// Why the file could not be read.
fn unread(reason: ErrorKind) -> PasswordFileFault {
    match reason {
        ErrorKind::NotFound => PasswordFileFault::Missing,
        ErrorKind::PermissionDenied => PasswordFileFault::Denied,
        ErrorKind::OutOfMemory => PasswordFileFault::Memory,
        _ => PasswordFileFault::Unread,
    }
}

/// The password that these bytes give.
fn password_of(alloc: Global, bytes: &[u8]) -> Result<Text, PasswordFileFault>
    ensures { MatchResult result (IsPassword bytes.now) (IsNoPassword bytes.now) }
{
    let line = without_line_end(bytes);
    if line.is_empty() {
        return Err(PasswordFileFault::Empty);
    }
    if line.len() > MAX_BYTES {
        return Err(PasswordFileFault::TooLong);
    }
    Ok(Text::from_slice(alloc, line)?)
}

/// The bytes without the end of a line at their end.
fn without_line_end(bytes: &[u8]) -> &[u8]
    ensures { IsLineOf bytes.now result.now }
{
    match bytes.split_last() {
        Some((last, rest)) if *last == b'\n' => rest,
        _ => bytes,
    }
}
