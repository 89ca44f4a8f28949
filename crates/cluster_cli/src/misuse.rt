//! Wrong usage: the words of the command line, or the environment, are not the program's.
ghost use Rattle.std.specs.Prelude.{◌≡◌, ◌≢◌, ◌⊎◌};

use byte_streams::{ByteOut, Failed, write_whole};

/// The status of wrong usage.
const USAGE: u8 = 2;

/// Reports wrong usage, and gives the status of that; or 1 where a write failed.
pub(crate) fn misuse<E: ByteOut>(errors: &mut E, text: &[u8]) -> u8
    ensures reported { ((result ≡ 2) × E.took errors.old text.now errors.new
        × (E.failures errors.new ≡ E.failures errors.old))
        ⊎ ((result ≡ 1) × (E.failures errors.new ≢ E.failures errors.old)) }
{
    match write_whole(errors, text) {
        Ok(()) => USAGE,
        Err(Failed) => 1,
    }
}
