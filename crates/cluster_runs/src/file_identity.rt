//! Whether two paths name one file.
use command_words::ApplyWords;
use std::fs::{self, Files};
use std::os::unix::fs::MetadataExt;

/// What the log's file is to the command beside that, if it is anything: as a reader of a message is told it.
pub(crate) fn clash<H: Files>(rt: &H, log: &str, words: &ApplyWords) -> Option<&'static str> {
    if is_same_file(rt, log, "/dev/stdin") {
        return Some("standard input");
    }
    if is_named(rt, log, &words.plan) {
        return Some("the plan");
    }
    if is_named(rt, log, &words.cluster.expect) {
        return Some("the file of --expect");
    }
    if is_named(rt, log, &words.stop_file) {
        return Some("the stop file");
    }
    None
}

/// Whether both are one file, or would be once it is made.
fn is_named<H: Files>(rt: &H, log: &str, other: &Option<String>) -> bool {
    match other {
        Some(path) => path.as_str() == log || is_same_file(rt, log, path.as_str()),
        None => false,
    }
}

/// Whether both paths lead to one regular file: one number on one device. Pipes and devices are no such files.
fn is_same_file<H: Files>(rt: &H, path: &str, other: &str) -> bool {
    match (fs::metadata(rt, path), fs::metadata(rt, other)) {
        (Ok(one), Ok(two)) => one.is_file() && one.dev() == two.dev() && one.ino() == two.ino(),
        _ => false,
    }
}
