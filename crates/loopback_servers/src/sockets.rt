//! A client's socket, as sessions read and write it.
ghost use Rattle.std.specs.Prelude.{◌≡◌, IfOk};

use crate::connection::Connection;
use byte_streams::{StandardIn, StandardOut};
use key_slots::NodeId;
use std::io;
use std::net::TcpStream;
use std::time::Duration;

/// How many seconds a write waits for a client that does not read, before the session ends.
const WRITE_SECONDS: u64 = 30;

/// The session has the buffer of its reads, so none stands between it and the socket.
pub type SocketIn = StandardIn<TcpStream>;

pub type SocketOut = StandardOut<TcpStream>;

/// The connection of an accepted socket. Its replies go out at once.
pub(crate) fn connection_of(
    node: NodeId,
    stream: TcpStream,
) -> io::Result<Connection<SocketIn, SocketOut>>
    ensures { IfOk result (λ c. c.node ≡ node) }
{
    stream.set_nodelay(true)?;
    stream.set_write_timeout(Some(Duration::from_secs(WRITE_SECONDS)))?;
    Ok(Connection {
        node,
        reader: StandardIn::new(stream.try_clone()?),
        writer: StandardOut::new(stream),
    })
}
