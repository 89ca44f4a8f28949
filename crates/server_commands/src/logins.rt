//! What comes first on a connection to a server that asks for a password.
ghost use Rattle.std.specs.Prelude.{◌≡◌, IfOk};
ghost use Rattle.server_commands.specs.Answers.{lets_in};
ghost use Rattle.server_commands.specs.Spelling.{auth_by, auth_request};

use crate::credentials::Credentials;
use crate::words::{put, put_text};
use byte_texts::{Memory, TextList};
use resp2_wire::{Reply, encode_request};
use std::alloc::Global;

/// How a server begins its answer to AUTH that wants no password.
const NO_PASSWORD: &[u8] = b"ERR AUTH <password> called without any password configured";

/// The bytes of `AUTH password`, or of `AUTH user password`.
pub fn auth_request(alloc: Global, credentials: &Credentials) -> Result<Vec<u8>, Memory>
    ensures { IfOk result (λ v. v.items ≡ auth_request credentials.now) }
{
    let words = auth_words(alloc, credentials)?;
    encode_request(alloc, words.get())
}

fn auth_words(alloc: Global, credentials: &Credentials) -> Result<TextList, Memory>
    ensures { IfOk result (λ l. l ≡ auth_by credentials.now.user credentials.now.password) }
{
    let mut words = TextList::new(alloc);
    put(&mut words, alloc, b"AUTH")?;
    if let Some(user) = &credentials.user {
        put_text(&mut words, alloc, user)?;
    }
    put_text(&mut words, alloc, &credentials.password)?;
    Ok(words)
}

/// Whether the reply to AUTH lets the connection in. A server without a password asks for none, and says so by an
/// error.
pub fn lets_in(reply: &Reply) -> bool
    ensures { result ≡ lets_in reply.now }
{
    match reply {
        Reply::Simple(text) => text.get() == b"OK".as_slice(),
        Reply::Error(text) => text.get().starts_with(NO_PASSWORD),
        _ => false,
    }
}
