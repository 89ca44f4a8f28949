//! How connections to nodes are opened.
ghost use Rattle.std.specs.Prelude.{ℕ, IfOk};

use byte_streams::{ByteIn, ByteOut, Failed};

/// Opens connections to nodes, each at a port of its own.
pub trait Dial {
    /// Where a connection's replies come from.
    type Input: ByteIn + Drop;

    /// Where its requests go.
    type Output: ByteOut + Drop;

    /// A new connection to this port has this output.
    ghost opens: { Self → ℕ → Self.Output → Type 0 };

    /// Both ends of a new connection to the port.
    fn dial(&self, port: u16) -> Result<(Self::Input, Self::Output), Failed>
        ensures opens { IfOk result (λ ends. opens self.now port ends.1) };
}
