//! Live resharding for Redis Cluster, with verified plans.
#![tactic(auto)]

ghost use Rattle.std.specs.Prelude.{◌≡◌, ◌≢◌, ◌⊎◌, ℕ, List, ◌++◌, IfOk, OnErr, OnOk, Ok, codes, take};
ghost use Rattle.std.specs.IoError.{error_kind};

mod terminal;

use crate::terminal::Announced;
use byte_streams::{ByteOut, Failed, StandardIn, StandardOut, write_whole};
use cluster_cli::{out_of_memory, run_words};
use command_words::{takes_cluster, with_cluster};
use std::alloc::{AllocError, Global};
use std::env::{self, VarError};
use std::fs::File;
use std::io::{self, ErrorKind, IsTerminal};
use std::process::ExitCode;

/// The variable of the environment that stands in for `--cluster`.
const CLUSTER: &str = "RESHARD_CLUSTER";

/// Where nothing is read from.
const NOWHERE: &str = "/dev/null";

fn main(rt: HostRuntime) -> io::Result<ExitCode> {
    // A standard stream that was closed before would be taken by the first socket, and what is printed sent to a
    // server.
    // These are opened first, so they take such places, and hold them to the end.
    let _first = File::open(&rt, NOWHERE);
    let _second = File::open(&rt, NOWHERE);
    let _third = File::open(&rt, NOWHERE);
    let alloc = rt.alloc();
    let given = words_given(&rt);
    let announced = Announced::new(rt.stdin(), rt.stderr(), announcement(&rt, &given));
    let mut reader = StandardIn::new(announced);
    let mut writer = StandardOut::new(rt.stdout());
    let mut errors = StandardOut::new(rt.stderr());
    let status = match given {
        Ok(words) => run_words(
            &rt,
            alloc,
            words.as_slice(),
            &mut reader,
            &mut writer,
            &mut errors,
        ),
        Err(error) => without_words(error, &mut writer)?,
    };
    if let Some(reason) = reader.reason() {
        tell(
            alloc,
            &mut errors,
            b"error: standard input could not be read",
            reason,
        );
    }
    if let Some(reason) = writer.reason() {
        tell(
            alloc,
            &mut errors,
            b"error: standard output could not be written",
            reason,
        );
    }
    Ok(ExitCode::from(status))
}

/// Writes a line on standard error: what failed, and the system's reason where there is memory for it. Where a write
/// fails, only a prefix of that is written.
fn tell<E: ByteOut>(alloc: Global, errors: &mut E, line: &[u8], reason: ErrorKind)
    ensures { (rest : List ℕ) × (E.took errors.old (line.now ++ rest) errors.new
        ⊎ ((n : ℕ) × E.took errors.old (take n (line.now ++ rest)) errors.new
        × (E.failures errors.new ≢ E.failures errors.old))) }
{
    let _written = match with_reason(alloc, line, reason) {
        Ok(text) => write_whole(errors, text.as_slice()),
        Err(AllocError) => without_reason(errors, line),
    };
}

/// Writes the line and its end.
fn without_reason<E: ByteOut>(errors: &mut E, line: &[u8]) -> Result<(), Failed>
    ensures wrote { OnOk result (E.took errors.old (line.now ++ codes "\n") errors.new) }
    ensures failed { OnErr result ((n : ℕ) × E.took errors.old (take n (line.now ++ codes "\n")) errors.new
        × (E.failures errors.new ≢ E.failures errors.old)) }
{
    write_whole(errors, line)?;
    write_whole(errors, b"\n")
}

/// The line with the reason after it, and its end.
fn with_reason(alloc: Global, line: &[u8], reason: ErrorKind) -> Result<Vec<u8>, AllocError>
    ensures { IfOk result (λ text. (rest : List ℕ) × (text.items ≡ line.now ++ rest)) }
{
    let told = format!(in alloc; ": {reason}\n")?;
    let mut text = Vec::from_slice(alloc, line)?;
    text.extend_from_slice(told.as_bytes())?;
    Ok(text)
}

/// The words of the command line after the program's name, and the cluster that the environment names, where they may
/// name one and name none.
fn words_given(rt: &HostRuntime) -> io::Result<Vec<String>> {
    let mut words = Vec::new(rt.alloc());
    for word in env::args(rt)?.skip(1) {
        words.push(word)?;
    }
    if !takes_cluster(words.as_slice()) {
        return Ok(words);
    }
    match env::var(rt, CLUSTER) {
        Ok(cluster) => Ok(with_cluster(rt.alloc(), words.as_slice(), cluster.as_str())?),
        Err(VarError::NotPresent) => Ok(words),
        // No address, which is wrong usage.
        Err(VarError::NotUnicode) => Ok(with_cluster(rt.alloc(), words.as_slice(), "")?),
        Err(VarError::OutOfMemory) => Err(io::Error::from(ErrorKind::OutOfMemory)),
    }
}

/// What is told before standard input is read, where that is a terminal.
fn announcement(rt: &HostRuntime, given: &io::Result<Vec<String>>) -> Option<&'static str> {
    if !rt.stdin().is_terminal() {
        return None;
    }
    match given {
        Ok(words) if is_rehearsal(words.as_slice()) => {
            Some("reading a script from the terminal; end it with Ctrl-D\n")
        }
        _ => Some("reading a plan from the terminal; end it with Ctrl-D\n"),
    }
}

fn is_rehearsal(words: &[String]) -> bool {
    matches!(words.first(), Some(word) if word.as_str() == "rehearse")
}

/// The status where the words could not be read as memory ran out, which is reported. Another error is handed back.
fn without_words<W: ByteOut>(error: io::Error, writer: &mut W) -> io::Result<u8>
    ensures memory { error_kind error ≡ ErrorKind.OutOfMemory → result ≡ Ok 1 }
    ensures other { OnOk result (error_kind error ≡ ErrorKind.OutOfMemory) }
{
    if error.kind() == ErrorKind::OutOfMemory {
        Ok(out_of_memory(writer))
    } else {
        Err(error)
    }
}
