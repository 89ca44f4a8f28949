//! A log of what was sent and answered.
ghost use Rattle.std.specs.Prelude.{◌≡◌, false, true};
ghost use Rattle.server_runs.specs.RunLogs.{IsWritten};

use byte_streams::{ByteOut, write_whole};

/// A log, a line for each command before it is sent and one for its reply. From the first write that fails nothing more
/// is written.
#[derive(Drop)]
pub struct RunLog<L: Drop> {
    writer: L,
    is_broken: bool,
}

impl<L: ByteOut + Drop> RunLog<L> {
    /// A log that is written here.
    pub fn new(writer: L) -> Self
        ensures writer { result.writer ≡ writer }
        ensures whole { result.is_broken ≡ false }
    {
        Self {
            writer,
            is_broken: false,
        }
    }

    /// Whether a write failed, or there was no memory for a line.
    pub fn is_broken(&self) -> bool
        ensures { result ≡ self.now.is_broken }
    {
        self.is_broken
    }

    /// Writes the line.
    pub fn write(&mut self, line: &[u8])
        ensures { IsWritten L.took line.now self.old self.new }
    {
        if self.is_broken {
            return;
        }
        if write_whole(&mut self.writer, line).is_err() {
            self.is_broken = true;
        }
    }

    /// There was no memory for a line.
    pub fn give_up(&mut self)
        ensures broken { self.new.is_broken ≡ true }
        ensures writer { self.new.writer ≡ self.old.writer }
    {
        self.is_broken = true;
    }
}
