//! Why there is no connection to a server.
ghost use Rattle.std.specs.Prelude.{◌≡◌};
ghost use Rattle.std.specs.IoError.{raw_os_error};
ghost use Rattle.server_links.specs.Reaching.{unreached_by};

use std::io;

/// The system's number of the error that the process has as many files open as it may (EMFILE of errno(3)).
const PROCESS_HAS_TOO_MANY: i32 = 24;

/// The system's number of the error that all processes together have as many files open as there may be (ENFILE).
const SYSTEM_HAS_TOO_MANY: i32 = 23;

/// Why there is no connection to a server.
#[derive(Clone, Copy, Debug, PartialEq, Eq)]
pub enum Unreached {
    /// Nobody listens at the address, or it was not reached in time.
    Silent,
    /// A connection takes two file descriptors, and there is none left for it (`ulimit -n`).
    NoDescriptor,
}

impl Unreached {
    /// What the error of a system call says of it.
    pub(crate) fn by(error: &io::Error) -> Self
        ensures { result ≡ unreached_by (raw_os_error error.now) }
    {
        match error.raw_os_error() {
            Some(PROCESS_HAS_TOO_MANY | SYSTEM_HAS_TOO_MANY) => Self::NoDescriptor,
            _ => Self::Silent,
        }
    }
}
