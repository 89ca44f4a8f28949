//! What may be shown of a server's words.
ghost use Rattle.std.specs.Prelude.{◌≡◌};
ghost use Rattle.server_commands.specs.Shown.{shown};

use crate::named_error::target_words;
use byte_texts::{Parts, begins};

/// How a server begins that does not know a command. It repeats the arguments after a comma.
const UNKNOWN: &[u8] = b"ERR unknown command";

/// The words of a server as they may be shown. Where they repeat the arguments of a command that the server, or a
/// MIGRATE's target, does not know, these are left out: one of them may be a password, or its beginning.
pub fn shown(text: &[u8]) -> &[u8]
    ensures { result.now ≡ shown text.now }
{
    if !begins(target_words(text), UNKNOWN) {
        return text;
    }
    match Parts::of(text, b',').next() {
        Some(part) => part,
        None => text,
    }
}
