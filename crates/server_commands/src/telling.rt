//! What is told of a server's error.
ghost use Rattle.std.specs.Prelude.{◌≡◌, ◌<◌, ◌++◌, IfOk, OnOk, length};
ghost use Rattle.server_commands.specs.NamedErrors.{named_error};
ghost use Rattle.server_commands.specs.Telling.{advised, escaped, escaped_byte, hidden, hidden_from, hide};
ghost use Rattle.server_commands.specs.Telling.{is_plain, told};

use crate::credentials::Credentials;
use crate::named_error::NamedError;
use crate::showing::shown;
use byte_texts::{Memory, hex_digit};
use std::alloc::Global;

/// What stands in the place of a password.
const STARS: &[u8] = b"***";

/// The words of a server's error as they are told: without the arguments of a command that it does not know, without
/// the password of these credentials, without bytes that a terminal would obey, and with what can be done after them.
pub fn told(
    alloc: Global,
    credentials: &Option<Credentials>,
    text: &[u8],
) -> Result<Vec<u8>, Memory>
    ensures { IfOk result (λ v. v.items ≡ told credentials.now text.now) }
{
    let words = hidden_from(alloc, credentials, shown(text))?;
    let mut told = Vec::new(alloc);
    put_escaped(&mut told, words.as_slice())?;
    put_advice(&mut told, NamedError::of(text))?;
    Ok(told)
}

fn hidden_from(
    alloc: Global,
    credentials: &Option<Credentials>,
    text: &[u8],
) -> Result<Vec<u8>, Memory>
    ensures { IfOk result (λ v. v.items ≡ hidden_from credentials.now text.now) }
{
    match credentials {
        Some(credentials) => hidden(alloc, credentials.password.get(), text),
        None => Vec::from_slice(alloc, text),
    }
}

/// The text with stars wherever the password stands. An empty one is none.
pub fn hidden(alloc: Global, password: &[u8], text: &[u8]) -> Result<Vec<u8>, Memory>
    ensures { IfOk result (λ v. v.items ≡ hidden password.now text.now) }
{
    if password.is_empty() {
        return Vec::from_slice(alloc, text);
    }
    hidden_each(alloc, password, text)
}

#[tactic(auto, using(crate::proofs::Hiding::hides))]
fn hidden_each(alloc: Global, password: &[u8], text: &[u8]) -> Result<Vec<u8>, Memory>
    requires { 0 < length password.now }
    ensures { IfOk result (λ v. v.items ≡ hide password.now 0 text.now) }
{
    let mut found = Vec::new(alloc);
    let mut rest = text;
    while let [byte, others @ ..] = rest {
        match rest.strip_prefix(password) {
            Some(after) => {
                found.extend_from_slice(STARS)?;
                rest = after;
            }
            None => {
                found.push(*byte)?;
                rest = others;
            }
        }
    }
    Ok(found)
}

/// Puts the text, with `\xHH` for each byte that a terminal might obey.
fn put_escaped(out: &mut Vec<u8>, text: &[u8]) -> Result<(), Memory>
    ensures { OnOk result (out.new.items ≡ out.old.items ++ escaped text.now) }
{
    let mut rest = text;
    while let [byte, others @ ..] = rest {
        put_byte(out, *byte)?;
        rest = others;
    }
    Ok(())
}

fn put_byte(out: &mut Vec<u8>, byte: u8) -> Result<(), Memory>
    ensures { OnOk result (out.new.items ≡ out.old.items ++ escaped_byte byte) }
{
    if is_plain(byte) {
        out.extend_from_slice(&[byte])
    } else {
        out.extend_from_slice(&[b'\\', b'x', hex_digit(byte / 16), hex_digit(byte % 16)])
    }
}

/// Whether it is a visible character of ASCII, or a space: a terminal may obey any other byte, alone or with others.
fn is_plain(byte: u8) -> bool
    ensures { result ≡ is_plain byte }
{
    byte >= 32 && byte < 127
}

/// Puts what can be done, if something is known.
fn put_advice(out: &mut Vec<u8>, error: Option<NamedError>) -> Result<(), Memory>
    ensures { OnOk result (out.new.items ≡ out.old.items ++ advised error) }
{
    match error {
        Some(error) => {
            out.extend_from_slice(b"; ")?;
            out.extend_from_slice(error.advice().as_bytes())
        }
        None => Ok(()),
    }
}
