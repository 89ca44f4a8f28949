//! Ports whose other end says more than an administrator's replies.
ghost use Rattle.std.specs.Prelude.{◌≡◌, ℕ, List, Option};
ghost use Rattle.std.specs.Option.{option_copied};

use byte_streams::{ByteIn, ByteOut};
use byte_texts::Text;
use redis_servers::{Pause, ServersPort};

/// A port that keeps a server's own words, where the last command was answered by an error.
pub trait Speaks {
    /// The text of that error, or why there was no reply to ask for.
    ghost said: { Self → Option (List ℕ) };

    /// What the port says of its last command, if there is something.
    fn said(&self) -> Option<&Text>
        ensures { option_copied result ≡ said self.now };
}

impl<I: ByteIn + Drop, O: ByteOut + Drop, P: Pause + Drop> Speaks for ServersPort<I, O, P> {
    ghost said = { λ p. p.said };

    fn said(&self) -> Option<&Text> {
        self.said()
    }
}
