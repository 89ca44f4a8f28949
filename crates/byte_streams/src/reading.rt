ghost use Rattle.std.specs.Prelude.{◌≡◌, ◌≢◌, ◌⊎◌, ℕ, List, ◌<◌, ◌++◌, true, false, length, vec_len, IfErr, IfOk, OnOk};
ghost use Rattle.byte_streams.specs.Inputs.{IsWholeInput};
ghost use Rattle.byte_streams.specs.declared.reading.Unread.TheVariants as unread;

use crate::input::{ByteIn, Failed};
use std::alloc::{AllocError, Global};
use std::fmt;
use thiserror::Error;

/// How many reads are made of one input; the next one counts as one that failed.
pub const MAX_READS: u64 = 9_223_372_036_854_775_807;

/// How many bytes a read asks for.
const READ_BYTES: usize = 65_536;

/// Why the input was not read, or nothing can be said of it.
#[derive(Clone, Copy, Debug, PartialEq, Eq, Error)]
pub enum Unread {
    /// Memory ran out.
    Memory,
    /// A read failed.
    Failed,
}

impl fmt::Display for Unread {
    ghost use Rattle.std.specs.Prelude.{Some};
    ghost use Rattle.byte_streams.specs.Faults.{unread_text};

    ghost output = { λ e. Some (unread_text e) };

    fn fmt<W: fmt::Write>(&self, f: &mut fmt::Formatter<W>) -> fmt::Result {
        match self {
            Self::Memory => write!(f, "out of memory"),
            Self::Failed => write!(f, "a read failed"),
        }
    }
}

impl From<AllocError> for Unread {
    ghost use Rattle.byte_streams.specs.declared.reading.Unread.TheVariants.{Memory};

    ghost from_gives = { λ _ e. e ≡ Memory };

    fn from(_error: AllocError) -> Self {
        Self::Memory
    }
}

/// All that the reader gives up to the end of its input.
pub fn read_whole<R: ByteIn>(alloc: Global, reader: &mut R) -> Result<Vec<u8>, Unread>
    ensures whole { IfOk result (λ text. IsWholeInput R.gave R.ends reader.old reader.new text.items) }
    ensures kept { OnOk result (R.failures reader.new ≡ R.failures reader.old) }
    ensures begun { IfErr result (λ _. (n : ℕ) × (input : List ℕ) × R.gave reader.old n input reader.new) }
    ensures failed { IfErr result (λ e. e ≡ unread.Failed → (R.failures reader.new ≢ R.failures reader.old)
        ⊎ ((input : List ℕ) × R.gave reader.old 9223372036854775807 input reader.new)) }
{
    let mut text = Vec::new(alloc);
    let mut buffer = read_buffer(alloc)?;
    for _ in 0..MAX_READS {
        if !read_piece(reader, buffer.as_mut_slice(), &mut text)? {
            return Ok(text);
        }
    }
    Err(Unread::Failed)
}

/// A buffer for one read, of 65,536 bytes. What stands in it is of no account.
pub fn read_buffer(alloc: Global) -> Result<Vec<u8>, AllocError>
    ensures { IfOk result (λ buffer. vec_len buffer ≡ 65536) }
{
    vec![in alloc; 0u8; READ_BYTES]
}

/// Reads once, and puts what was read after the text. Whether the input goes on.
fn read_piece<R: ByteIn>(
    reader: &mut R,
    buffer: &mut [u8],
    text: &mut Vec<u8>,
) -> Result<bool, Unread>
    requires { 0 < length buffer.old }
    ensures gave { (piece : List ℕ) × R.gave reader.old 1 piece reader.new
        × OnOk result (text.new.items ≡ text.old.items ++ piece) }
    ensures goes_on { IfOk result (λ more. more ≡ true → R.ends reader.new ≡ R.ends reader.old) }
    ensures end { IfOk result (λ more. more ≡ false → R.ends reader.new ≢ R.ends reader.old) }
    ensures kept { OnOk result (R.failures reader.new ≡ R.failures reader.old) }
    ensures failed { IfErr result (λ e. e ≡ unread.Failed → R.failures reader.new ≢ R.failures reader.old) }
{
    match reader.read(buffer) {
        Ok(count) => {
            text.extend_from_slice(&buffer[..count])?;
            Ok(count != 0)
        }
        Err(Failed) => Err(Unread::Failed),
    }
}
