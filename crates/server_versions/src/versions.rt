//! The program and the version in an answer to INFO.
ghost use Rattle.std.specs.Prelude.{◌≡◌, ◌≤◌, IfOk, IfSome, length, option_map};
ghost use Rattle.byte_texts.specs.Parts.{parts};
ghost use Rattle.server_versions.specs.Versions.{are_all, are_same, are_shown, is_same, is_shown, is_tried};
ghost use Rattle.server_versions.specs.Versions.{is_version, redis_in, value_before, value_in, version_in};

use byte_texts::{Memory, Parts, Text, begins, is, split_once};
use std::alloc::Global;

/// The most bytes of a version.
const MAX_VERSION: usize = 32;

/// The program that a server is, and its version.
#[derive(Drop)]
pub enum ServerVersion {
    Redis(Text),
    Valkey(Text),
    /// It tells none, as where the user may not ask for it.
    Untold,
}

/// The version in the text of an answer to INFO: lines `name:value`, each of which ends with CR and LF. A server of
/// Valkey tells a version of Redis, too.
pub fn version_in(alloc: Global, text: &[u8]) -> Result<ServerVersion, Memory>
    ensures { IfOk result (λ v. v ≡ version_in text.now) }
{
    match value_in(text, b"valkey_version:") {
        Some(number) => Ok(ServerVersion::Valkey(Text::from_slice(alloc, number)?)),
        None => redis_in(alloc, text),
    }
}

/// The version of Redis in the text, if it tells one.
fn redis_in(alloc: Global, text: &[u8]) -> Result<ServerVersion, Memory>
    ensures { IfOk result (λ v. v ≡ redis_in text.now) }
{
    match value_in(text, b"redis_version:") {
        Some(number) => Ok(ServerVersion::Redis(Text::from_slice(alloc, number)?)),
        None => Ok(ServerVersion::Untold),
    }
}

/// What stands after the name in the first line that begins with it, if that is a version.
fn value_in<'a>(text: &'a [u8], name: &[u8]) -> Option<&'a [u8]>
    ensures value { option_map (λ v. v.now) result ≡ value_in name.now (parts 10 text.entry.now) }
    ensures few { IfSome result (λ v. length v.now ≤ 32) }
{
    let mut lines = Parts::of(text, b'\n');
    while let Some(line) = lines.next() {
        if begins(line, name) {
            return value_before(&line[name.len()..]);
        }
    }
    None
}

/// The version before the first CR.
fn value_before<'a>(text: &'a [u8]) -> Option<&'a [u8]>
    ensures value { option_map (λ v. v.now) result ≡ value_before text.entry.now }
    ensures few { IfSome result (λ v. length v.now ≤ 32) }
{
    let (value, _rest) = split_once(text, b'\r')?;
    if is_version(value) { Some(value) } else { None }
}

/// Whether these are some bytes that can be shown, and no more of them than a version has.
fn is_version(text: &[u8]) -> bool
    ensures value { result ≡ is_version text.now }
{
    !text.is_empty() && text.len() <= MAX_VERSION && are_shown(text)
}

/// Whether all of these bytes can be shown.
fn are_shown(text: &[u8]) -> bool
    ensures { result ≡ are_shown text.now }
{
    let mut left = text;
    while let [byte, others @ ..] = left {
        if !is_shown(*byte) {
            return false;
        }
        left = others;
    }
    true
}

/// Whether the byte can be shown.
fn is_shown(byte: u8) -> bool
    ensures { result ≡ is_shown byte }
{
    b'!' <= byte && byte <= b'~'
}

/// Whether both are one program of one version.
fn is_same(one: &ServerVersion, other: &ServerVersion) -> bool
    ensures { result ≡ is_same one.now other.now }
{
    match one {
        ServerVersion::Redis(number) => match other {
            ServerVersion::Redis(another) => is(another.get(), number.get()),
            _ => false,
        },
        ServerVersion::Valkey(number) => match other {
            ServerVersion::Valkey(another) => is(another.get(), number.get()),
            _ => false,
        },
        ServerVersion::Untold => matches!(other, ServerVersion::Untold),
    }
}

/// Whether all of them are one program of one version.
pub(crate) fn are_same(versions: &[ServerVersion]) -> bool
    ensures { result ≡ are_same versions.now }
{
    match versions {
        [first, others @ ..] => are_all(first, others),
        [] => true,
    }
}

/// Whether all others are the program of this version.
fn are_all(first: &ServerVersion, others: &[ServerVersion]) -> bool
    ensures { result ≡ are_all first.now others.now }
{
    let mut left = others;
    while let [other, more @ ..] = left {
        if !is_same(first, other) {
            return false;
        }
        left = more;
    }
    true
}

/// Whether the tool was tried at this version. Of one that is not told nothing is said.
pub(crate) fn is_tried(version: &ServerVersion) -> bool
    ensures { result ≡ is_tried version.now }
{
    match version {
        ServerVersion::Redis(number) => {
            let number = number.get();
            is(number, b"7.0.15") || is(number, b"8.0.2") || is(number, b"8.0.6")
        }
        ServerVersion::Valkey(number) => {
            let number = number.get();
            is(number, b"8.0.1") || is(number, b"8.1.1") || is(number, b"9.1.2")
        }
        ServerVersion::Untold => true,
    }
}
