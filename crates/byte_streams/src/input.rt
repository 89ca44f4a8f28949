ghost use Rattle.std.specs.Prelude.{◌≡◌, ◌≢◌, ℕ, ◌+◌, ◌<◌, ◌≤◌, List, [], ◌++◌, length, take, IfOk, OnOk, OnErr};

use std::fmt;
use thiserror::Error;

/// A read or a write failed.
#[derive(Clone, Copy, Debug, PartialEq, Eq, Error)]
pub struct Failed;

impl fmt::Display for Failed {
    ghost use Rattle.std.specs.Prelude.{Some};
    ghost use Rattle.byte_streams.specs.Faults.{failed_text};

    ghost output = { λ _. Some failed_text };

    fn fmt<W: fmt::Write>(&self, f: &mut fmt::Formatter<W>) -> fmt::Result {
        write!(f, "a read or a write failed")
    }
}

/// Where bytes come from.
pub trait ByteIn {
    /// So many reads that led from one state to another may have given these bytes.
    ghost gave: { Self → ℕ → List ℕ → Self → Type 0 };

    /// A number that changes with each read that reports the end.
    ghost ends: { Self → ℕ };

    /// A number that changes with each read that fails.
    ghost failures: { Self → ℕ };

    /// Puts bytes at the buffer's start, and gives how many; none reports the end of the input.
    fn read(&mut self, buffer: &mut [u8]) -> Result<usize, Failed>
        requires { 0 < length buffer.old }
        ensures fits { IfOk result (λ n. n ≤ length buffer.new) }
        ensures gave { IfOk result (λ n. gave self.old 1 (take n buffer.new) self.new) }
        ensures end { IfOk result (λ n. n ≡ 0 → ends self.new ≢ ends self.old) }
        ensures goes_on { IfOk result (λ n. 0 < n → ends self.new ≡ ends self.old) }
        ensures ok { OnOk result (failures self.new ≡ failures self.old) }
        ensures failed { OnErr result ((failures self.new ≢ failures self.old) × gave self.old 1 [] self.new) };

    ghost gave_none: { (x : Self) → gave x 0 [] x };

    ghost gave_then: { (x y z : Self) (m n : ℕ) (a b : List ℕ) → gave x m a y → gave y n b z
        → gave x (m + n) (a ++ b) z };
}
