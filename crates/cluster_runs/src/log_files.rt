//! The log of a run, in a file.
ghost use Rattle.std.specs.Prelude.{◌≡◌, IfErr};
ghost use Rattle.cluster_inspection.specs.Refusals.{IsRefusal};
ghost use Rattle.cluster_runs.specs.LogStarts.{before_apply};

use crate::file_identity::clash;
use byte_streams::StandardOut;
use cluster_inspection::{Refusal, System, refused};
use command_words::{ApplyWords, LogStart};
use server_runs::RunLog;
use std::fs::{self, File, Files, OpenOptions};
use std::io::{Read, Seek, SeekFrom};
use std::os::unix::fs::OpenOptionsExt;

/// A log in a file.
pub(crate) type Log = RunLog<StandardOut<File>>;

/// The rights of a log that is made: for its owner alone.
const OWNER_ALONE: u32 = 0o600;

/// What becomes of what a log has already.
#[derive(Clone, Copy, PartialEq, Eq)]
pub(crate) enum Before {
    /// There is none: a file that holds something is refused.
    Empty,
    /// It goes.
    Cleared,
    /// It stays, and the log continues after it in a line of its own.
    Kept,
}

/// What becomes of what the log of `apply` has already, by its words.
pub(crate) fn before_apply(words: &ApplyWords) -> Before
    ensures { result ≡ before_apply words.now.log_start }
{
    match words.log_start {
        LogStart::New => Before::Empty,
        LogStart::Append => Before::Kept,
        LogStart::Overwrite => Before::Cleared,
    }
}

/// The log in the file that the words name, if they name one. A file that is there keeps its rights, and may be a pipe
/// or a device. One that the command reads or looks for is refused, and is not opened: standard input, the file of
/// `--plan`, that of `--expect`, and the stop file; and so is one that holds something where the log is to be new.
pub(crate) fn open_log<H: Files<File = File> + AllocGlobal>(
    system: &System<'_, H>,
    words: &ApplyWords,
    before: Before,
) -> Result<Option<Log>, Refusal>
    ensures { IfErr result IsRefusal }
{
    let Some(path) = &words.log else {
        return Ok(None);
    };
    if let Some(name) = clash(system.rt, path.as_str(), words) {
        let reason = format!(in system.alloc; "--log {path} is {name}, too")?;
        return Err(refused(system.alloc, reason.as_bytes())?);
    }
    if before == Before::Empty && holds_something(system.rt, path.as_str()) {
        let reason = format!(in system.alloc;
            "--log {path} is not empty: give --append or --overwrite"
        )?;
        return Err(refused(system.alloc, reason.as_bytes())?);
    }
    let is_cut = before == Before::Kept && ends_within_a_line(system.rt, path.as_str());
    match options(before).open(system.rt, path.as_str()) {
        Ok(file) => Ok(Some(continued_log(RunLog::new(StandardOut::new(file)), is_cut))),
        Err(error) => {
            let reason = format!(in system.alloc; "{path} could not be written: {error}")?;
            Err(refused(system.alloc, reason.as_bytes())?)
        }
    }
}

/// How the file is opened.
fn options(before: Before) -> OpenOptions {
    let mut options = OpenOptions::new();
    options.create(true).mode(OWNER_ALONE);
    match before {
        Before::Cleared => options.write(true).truncate(true),
        // What another program has written meanwhile stays.
        Before::Empty | Before::Kept => options.append(true),
    };
    options
}

/// The log, which begins a new line where the last one has no end.
fn continued_log(log: Log, is_cut: bool) -> Log {
    let mut log = log;
    if is_cut {
        log.write(b"\n");
    }
    log
}

/// Whether it is a regular file that is not empty.
fn holds_something<H: Files<File = File>>(rt: &H, path: &str) -> bool {
    matches!(fs::metadata(rt, path), Ok(found) if found.is_file() && found.len() > 0)
}

/// Whether the file's last line has no end, as one of which a full disk took a part.
fn ends_within_a_line<H: Files<File = File>>(rt: &H, path: &str) -> bool {
    // A pipe is not opened for reading, which would wait for a writer.
    if !matches!(fs::metadata(rt, path), Ok(found) if found.is_file()) {
        return false;
    }
    let Ok(mut file) = File::open(rt, path) else {
        return false;
    };
    if file.seek(SeekFrom::End(-1)).is_err() {
        return false;
    }
    let mut last = [0u8; 1];
    matches!(file.read(&mut last), Ok(1)) && last[0] != b'\n'
}
