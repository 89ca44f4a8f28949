//! The figures in an answer to INFO.
ghost use Rattle.std.specs.Prelude.{◌≡◌};
ghost use Rattle.byte_texts.specs.Parts.{parts};
ghost use Rattle.server_infos.specs.Figures.{figure_in, figures_in, is_line_there, keys_in};
ghost use Rattle.server_infos.specs.Figures.{no_keys_in, number_before};

use byte_texts::{Parts, begins, is, split_once, wide_number};

/// What a server tells of itself. A figure that it does not tell is none.
#[derive(Clone, Copy, Debug, PartialEq, Eq)]
pub struct Figures {
    /// Its keys, in all slots.
    pub keys: Option<u64>,
    /// The bytes that its values and tables take.
    pub used_memory: Option<u64>,
    /// The bytes that they may take, of which 0 is no limit.
    pub max_memory: Option<u64>,
}

/// The figures in the text of an answer to INFO: lines `name:value`, each of which ends with CR and LF. A cluster's
/// servers have one database alone, and no line for it while it is empty.
pub fn figures_in(text: &[u8]) -> Figures
    ensures { result ≡ figures_in text.now }
{
    Figures {
        keys: keys_in(text),
        used_memory: figure_in(text, b"used_memory:", b'\r'),
        max_memory: figure_in(text, b"maxmemory:", b'\r'),
    }
}

/// How many keys the text tells of.
fn keys_in(text: &[u8]) -> Option<u64>
    ensures { result ≡ keys_in text.now }
{
    match figure_in(text, b"db0:keys=", b',') {
        Some(keys) => Some(keys),
        None => no_keys_in(text),
    }
}

/// 0 where the section of keys is there, which then has no line.
fn no_keys_in(text: &[u8]) -> Option<u64>
    ensures { result ≡ no_keys_in text.now }
{
    if is_line_there(text, b"# Keyspace\r") {
        Some(0)
    } else {
        None
    }
}

/// The number after these bytes, with which the first such line begins, up to the byte that ends it.
fn figure_in(text: &[u8], name: &[u8], end: u8) -> Option<u64>
    ensures { result ≡ figure_in name.now end (parts 10 text.now) }
{
    let mut lines = Parts::of(text, b'\n');
    while let Some(line) = lines.next() {
        if begins(line, name) {
            return number_before(&line[name.len()..], end);
        }
    }
    None
}

/// The number before the first such byte.
fn number_before(text: &[u8], end: u8) -> Option<u64>
    ensures { result ≡ number_before end text.now }
{
    match split_once(text, end) {
        Some((number, _rest)) => wide_number(number),
        None => None,
    }
}

/// Whether one of the lines is this.
fn is_line_there(text: &[u8], wanted: &[u8]) -> bool
    ensures { result ≡ is_line_there wanted.now (parts 10 text.now) }
{
    let mut lines = Parts::of(text, b'\n');
    while let Some(line) = lines.next() {
        if is(line, wanted) {
            return true;
        }
    }
    false
}
