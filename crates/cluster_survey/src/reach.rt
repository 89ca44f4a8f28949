//! How servers are reached.
ghost use Rattle.std.specs.Prelude.{◌≡◌, false, IfErr, IfOk};
ghost use Rattle.std.specs.declared.net.socket_addr.SocketAddrV4.{SocketAddrV4};
ghost use Rattle.server_links.specs.declared.unreached.Unreached.{Unreached};

use byte_streams::{ByteIn, ByteOut};
use server_links::Unreached;
use std::net::SocketAddrV4;

/// Opens connections to servers, and lets time pass between two surveys of them.
pub trait Reach {
    /// Where a connection's replies come from.
    type Input: ByteIn + Drop;

    /// Where its requests go.
    type Output: ByteOut + Drop;

    /// A new connection to this address has these ends.
    ghost reaches: { SocketAddrV4 → Self.Input → Self.Output → Type 0 };

    /// There is no new connection to this address, for this cause.
    ghost refuses: { SocketAddrV4 → Unreached → Type 0 };

    /// The time is over in which servers are asked again.
    ghost over: { Type 0 };

    /// Both ends of a new connection to the address.
    fn reach(&mut self, address: SocketAddrV4) -> Result<(Self::Input, Self::Output), Unreached>
        ensures reaches { IfOk result (λ ends. reaches address ends.0 ends.1) }
        ensures refuses { IfErr result (refuses address) };

    /// Lets some milliseconds pass. Whether 2 seconds are not over since the first of these calls.
    fn pause(&mut self) -> bool
        ensures { result ≡ false → over };
}
