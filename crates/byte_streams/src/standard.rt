ghost use Rattle.std.specs.Prelude.{◌≡◌, ◌≢◌, ◌<◌, ◌≤◌, [], length, take, IfOk, OnOk, OnErr, IsSome};
ghost use Rattle.std.specs.Io.KnownBytes.{Consumes, Appends, IsAtEnd};
ghost use Rattle.byte_streams.specs.Known.{consumes_none, consumes_then, appends_none, appends_then};

use crate::input::{ByteIn, Failed};
use crate::output::ByteOut;
use std::io::{ErrorKind, Read, Write};

/// A reader of the standard library. It gives the bytes that are known of it, where some are.
#[derive(Drop)]
pub struct StandardIn<R: Drop> {
    reader: R,
    ends: u64,
    failures: u64,
    reason: Option<ErrorKind>,
}

impl<R: Read + Drop> StandardIn<R> {
    /// A reader of which nothing was read yet.
    pub fn new(reader: R) -> Self
        ensures { result ≡ record { reader = reader; ends = 0; failures = 0; reason = None } }
    {
        Self {
            reader,
            ends: 0,
            failures: 0,
            reason: None,
        }
    }

    /// The system's reason for the last read that failed, if one did.
    pub fn reason(&self) -> Option<ErrorKind>
        ensures { result ≡ self.now.reason }
    {
        self.reason
    }
}

impl<R: Read + Drop> ByteIn for StandardIn<R> {
    ghost gave = { λ x n bytes y. Consumes (R.remaining x.reader) (R.remaining y.reader) bytes };

    ghost ends = { λ x. x.ends };

    ghost failures = { λ x. x.failures };

    /// The end is reported only where no byte that is known of the reader is left, and a failed read is no end.
    fn read(&mut self, buffer: &mut [u8]) -> Result<usize, Failed>
        requires { 0 < length buffer.old }
        ensures fits { IfOk result (λ n. n ≤ length buffer.new) }
        ensures gave { IfOk result
            (λ n. Consumes (R.remaining self.old.reader) (R.remaining self.new.reader) (take n buffer.new)) }
        ensures end { IfOk result (λ n. n ≡ 0 → self.new.ends ≢ self.old.ends) }
        ensures goes_on { IfOk result (λ n. 0 < n → self.new.ends ≡ self.old.ends) }
        ensures ok { OnOk result (self.new.failures ≡ self.old.failures) }
        ensures failed { OnErr result
            ((self.new.failures ≢ self.old.failures)
            × Consumes (R.remaining self.old.reader) (R.remaining self.new.reader) []) }
        ensures ended { IfOk result (λ n. n ≡ 0 → IsAtEnd (R.remaining self.new.reader)) }
        ensures reason { OnErr result (IsSome self.new.reason) }
        ensures same { OnOk result (self.new.reason ≡ self.old.reason) }
    {
        match self.reader.read(buffer) {
            Ok(count) => {
                if count == 0 {
                    self.ends = self.ends.wrapping_add(1);
                }
                Ok(count)
            }
            Err(error) => {
                self.failures = self.failures.wrapping_add(1);
                self.reason = Some(error.kind());
                Err(Failed)
            }
        }
    }

    ghost gave_none = { λ x. consumes_none (R.remaining x.reader) };

    ghost gave_then = { λ x y z m n a b h k. consumes_then (R.remaining x.reader) (R.remaining y.reader)
        (R.remaining z.reader) a b h k };
}

/// A writer of the standard library. What is known of the bytes that it holds grows by those that it takes.
#[derive(Drop)]
pub struct StandardOut<W: Drop> {
    writer: W,
    failures: u64,
    reason: Option<ErrorKind>,
}

impl<W: Write + Drop> StandardOut<W> {
    /// A writer to which nothing was written yet.
    pub fn new(writer: W) -> Self
        ensures { result ≡ record { writer = writer; failures = 0; reason = None } }
    {
        Self {
            writer,
            failures: 0,
            reason: None,
        }
    }

    /// The system's reason for the last write that failed, if one did.
    pub fn reason(&self) -> Option<ErrorKind>
        ensures { result ≡ self.now.reason }
    {
        self.reason
    }
}

impl<W: Write + Drop> ByteOut for StandardOut<W> {
    ghost took = { λ x bytes y. Appends (W.contents x.writer) (W.contents y.writer) bytes };

    ghost failures = { λ x. x.failures };

    /// A write that takes no byte has failed too.
    fn write(&mut self, bytes: &[u8]) -> Result<usize, Failed>
        requires { 0 < length bytes.now }
        ensures fits { IfOk result (λ n. (0 < n) × (n ≤ length bytes.now)) }
        ensures took { IfOk result
            (λ n. Appends (W.contents self.old.writer) (W.contents self.new.writer) (take n bytes.now)) }
        ensures kept { OnOk result (self.new.failures ≡ self.old.failures) }
        ensures failed { OnErr result
            ((self.new.failures ≢ self.old.failures)
            × Appends (W.contents self.old.writer) (W.contents self.new.writer) []) }
        ensures reason { OnErr result (IsSome self.new.reason) }
        ensures same { OnOk result (self.new.reason ≡ self.old.reason) }
    {
        let reason = match self.writer.write(bytes) {
            Ok(count) if count > 0 => return Ok(count),
            Ok(_) => ErrorKind::WriteZero,
            Err(error) => error.kind(),
        };
        self.failures = self.failures.wrapping_add(1);
        self.reason = Some(reason);
        Err(Failed)
    }

    ghost took_none = { λ x. appends_none (W.contents x.writer) };

    ghost took_then = { λ x y z a b h k. appends_then (W.contents x.writer) (W.contents y.writer)
        (W.contents z.writer) a b h k };
}
