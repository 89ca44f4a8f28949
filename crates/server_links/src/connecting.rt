//! Connections over sockets.
use crate::link::Link;
use crate::timed_stream::{TimedReader, TimedWriter};
use crate::timer::Timer;
use crate::unreached::Unreached;
use byte_streams::{StandardIn, StandardOut};
use std::io;
use std::net::{Net, SocketAddr, SocketAddrV4, TcpListener, TcpStream};
use std::time::{Clock, Duration};

/// Where the replies of a server come from over a socket.
pub type ServerInput<'a, C> = StandardIn<TimedReader<'a, C>>;

/// Where the requests go over a socket.
pub type ServerOutput<'a, C> = StandardOut<TimedWriter<'a, C>>;

/// A connection to a server over a socket.
pub type ServerLink<'a, C> = Link<ServerInput<'a, C>, ServerOutput<'a, C>>;

/// Both ends of a new connection to the address, on which requests go out at once. It has to stand within the time
/// `connecting`. From the first byte of a request to the last of its reply no more than the time `waiting` may pass:
/// the read or the write that goes beyond it fails. But the first read of a reply may wait a millisecond in any case,
/// so that a reply that has come by then is taken, however late one comes to read it. Neither time may be zero. It
/// takes two file descriptors, one for each end.
pub fn connect<'a, R: Net<Listener = TcpListener, Stream = TcpStream> + Clock + AllocGlobal>(
    rt: &'a R,
    address: SocketAddrV4,
    connecting: Duration,
    waiting: Duration,
) -> Result<(ServerInput<'a, R>, ServerOutput<'a, R>), Unreached> {
    match connected(rt, address, connecting, waiting) {
        Ok((reader, writer)) => Ok((StandardIn::new(reader), StandardOut::new(writer))),
        Err(error) => Err(Unreached::by(&error)),
    }
}

fn connected<'a, R: Net<Listener = TcpListener, Stream = TcpStream> + Clock + AllocGlobal>(
    rt: &'a R,
    address: SocketAddrV4,
    connecting: Duration,
    waiting: Duration,
) -> io::Result<(TimedReader<'a, R>, TimedWriter<'a, R>)> {
    let writer = TcpStream::connect_timeout(rt, &SocketAddr::V4(address), connecting)?;
    writer.set_nodelay(true)?;
    let reader = writer.try_clone()?;
    let (reading, writing) = Timer::pair(rt, rt.alloc(), waiting)?;
    Ok((
        TimedReader::new(reader, reading),
        TimedWriter::new(writer, writing),
    ))
}
