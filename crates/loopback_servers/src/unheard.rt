//! A writer that nobody reads.
ghost use Rattle.std.specs.Prelude.{⊤};

use byte_streams::{ByteOut, Failed};

/// Takes all bytes, and keeps none.
#[derive(Drop)]
pub(crate) struct Unheard;

impl ByteOut for Unheard {
    ghost took = { λ x bytes y. ⊤ };

    ghost failures = { λ x. 0 };

    fn write(&mut self, bytes: &[u8]) -> Result<usize, Failed> {
        Ok(bytes.len())
    }

    ghost took_none = { λ x. tt };

    ghost took_then = { λ x y z a b h k. tt };
}
