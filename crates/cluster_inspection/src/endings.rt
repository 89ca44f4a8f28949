//! Texts with which the program ends at once, and the status of each.
ghost use Rattle.std.specs.Prelude.{◌≡◌, ◌≢◌, ◌⊎◌, ℕ, OnOk, OnErr, codes, take};
ghost use Rattle.transcripts.specs.Writing.{Writes};

use byte_streams::{ByteOut, Failed, write_whole};
use transcripts::Transcript;

/// Writes what was asked for, and gives the status of that: 0, or 1 where a write failed.
pub fn show<W: ByteOut>(writer: &mut W, text: &[u8]) -> u8
    ensures { ((result ≡ 0) × W.took writer.old text.now writer.new × (W.failures writer.new ≡ W.failures writer.old))
        ⊎ ((result ≡ 1) × (W.failures writer.new ≢ W.failures writer.old)) }
{
    match put(writer, text) {
        Ok(()) => 0,
        Err(Failed) => 1,
    }
}

/// Reports that memory ran out, as far as it can be written, and gives the status of that.
pub fn out_of_memory<W: ByteOut>(writer: &mut W) -> u8
    ensures status { result ≡ 1 }
    ensures wrote { Writes W.took W.failures (codes "out of memory\n") writer.old writer.new }
{
    let _written = write_whole(writer, b"out of memory\n");
    1
}

/// Writes the whole text.
fn put<W: ByteOut>(writer: &mut W, text: &[u8]) -> Result<(), Failed>
    ensures wrote { OnOk result (W.took writer.old text.now writer.new) }
    ensures failed { OnErr result (W.failures writer.new ≢ W.failures writer.old) }
    ensures kept { OnOk result (W.failures writer.new ≡ W.failures writer.old) }
{
    write_whole(writer, text)
}

/// Writes the answer, and gives its status; or 1 where a write failed.
pub fn report<W: ByteOut>(answer: &Transcript, writer: &mut W) -> u8
    ensures reported { ((result ≡ answer.now.status) × W.took writer.old answer.now.printed.items writer.new
        × (W.failures writer.new ≡ W.failures writer.old))
        ⊎ ((result ≡ 1) × ((n : ℕ) × W.took writer.old (take n answer.now.printed.items) writer.new)
        × (W.failures writer.new ≢ W.failures writer.old)) }
{
    match write_whole(writer, answer.printed.as_slice()) {
        Ok(()) => answer.status,
        Err(Failed) => 1,
    }
}
