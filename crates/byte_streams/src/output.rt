ghost use Rattle.std.specs.Prelude.{◌≡◌, ◌≢◌, ℕ, ◌<◌, ◌≤◌, List, [], ◌++◌, length, take, IfOk, OnOk, OnErr};

use crate::input::Failed;

/// Where bytes go.
pub trait ByteOut {
    /// Writes that led from one state to another may have taken these bytes.
    ghost took: { Self → List ℕ → Self → Type 0 };

    /// A number that changes with each write that fails.
    ghost failures: { Self → ℕ };

    /// Takes a prefix of the bytes, and gives its length: one at least.
    fn write(&mut self, bytes: &[u8]) -> Result<usize, Failed>
        requires { 0 < length bytes.now }
        ensures fits { IfOk result (λ n. (0 < n) × (n ≤ length bytes.now)) }
        ensures took { IfOk result (λ n. took self.old (take n bytes.now) self.new) }
        ensures kept { OnOk result (failures self.new ≡ failures self.old) }
        ensures failed { OnErr result ((failures self.new ≢ failures self.old) × took self.old [] self.new) };

    ghost took_none: { (x : Self) → took x [] x };

    ghost took_then: { (x y z : Self) (a b : List ℕ) → took x a y → took y b z → took x (a ++ b) z };
}

/// Writes all of the bytes, by as many writes as it takes, or those before the write that failed.
pub fn write_whole<W: ByteOut>(writer: &mut W, bytes: &[u8]) -> Result<(), Failed>
    ensures wrote { (n : ℕ) × (n ≤ length bytes.now) × W.took writer.old (take n bytes.now) writer.new
        × OnOk result (n ≡ length bytes.now) }
    ensures failed { OnErr result (W.failures writer.new ≢ W.failures writer.old) }
    ensures kept { OnOk result (W.failures writer.new ≡ W.failures writer.old) }
{
    write_counted(writer, bytes).1
}

/// Writes all of the bytes, or those before the write that failed, and answers how many were written.
pub fn write_counted<W: ByteOut>(writer: &mut W, bytes: &[u8]) -> (usize, Result<(), Failed>)
    ensures count { result.0 ≤ length bytes.now }
    ensures wrote { W.took writer.old (take result.0 bytes.now) writer.new }
    ensures whole { OnOk result.1 (result.0 ≡ length bytes.now) }
    ensures failed { OnErr result.1 (W.failures writer.new ≢ W.failures writer.old) }
    ensures kept { OnOk result.1 (W.failures writer.new ≡ W.failures writer.old) }
{
    let mut at = 0;
    while at < bytes.len() {
        let (_, rest) = bytes.split_at(at);
        match writer.write(rest) {
            Ok(count) => at += count,
            Err(Failed) => return (at, Err(Failed)),
        }
    }
    (at, Ok(()))
}
