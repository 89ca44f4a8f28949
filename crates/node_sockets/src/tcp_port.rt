//! The port over sockets of 127.0.0.1.
ghost use Rattle.std.specs.Prelude.{⊤, ◌≡◌, ◌≤◌, IfOk, vec_len};

use crate::dialing::Dial;
use crate::stream_port::StreamPort;
use byte_streams::{Failed, StandardIn, StandardOut};
use byte_texts::Memory;
use std::alloc::Global;
use std::io;
use std::net::{Ipv4Addr, Net, SocketAddr, SocketAddrV4, TcpListener, TcpStream};

/// Connects to ports of 127.0.0.1.
#[derive(Drop)]
pub struct TcpDial<'a, R: Net<Listener = TcpListener, Stream = TcpStream>> {
    rt: &'a R,
}

impl<'a, R: Net<Listener = TcpListener, Stream = TcpStream>> Dial for TcpDial<'a, R> {
    type Input = StandardIn<TcpStream>;

    type Output = StandardOut<TcpStream>;

    ghost opens = { λ dialer port output. ⊤ };

    fn dial(&self, port: u16) -> Result<(Self::Input, Self::Output), Failed> {
        match connect(self.rt, port) {
            Ok((reader, writer)) => Ok((StandardIn::new(reader), StandardOut::new(writer))),
            Err(_) => Err(Failed),
        }
    }
}

/// Both ends of a new connection, on which requests go out at once.
fn connect<R: Net<Listener = TcpListener, Stream = TcpStream>>(
    rt: &R,
    port: u16,
) -> io::Result<(TcpStream, TcpStream)> {
    let address = SocketAddr::V4(SocketAddrV4::new(Ipv4Addr::new(127, 0, 0, 1), port));
    let writer = TcpStream::connect(rt, address)?;
    writer.set_nodelay(true)?;
    Ok((writer.try_clone()?, writer))
}

/// A cluster's nodes, as clients call them over sockets of 127.0.0.1.
pub type TcpPort<'a, R> = StreamPort<TcpDial<'a, R>>;

impl<'a, R: Net<Listener = TcpListener, Stream = TcpStream>> StreamPort<TcpDial<'a, R>> {
    /// A port to so many nodes: 1 to 8. Node i listens on `base_port` + i, and the first port is at most 65,528.
    /// Nothing is opened yet.
    pub fn new(rt: &'a R, alloc: Global, nodes: u8, base_port: u16) -> Result<Self, Memory>
        requires some { 1 ≤ nodes }
        requires few { nodes ≤ 8 }
        requires port { base_port ≤ 65528 }
        ensures { IfOk result (λ p. vec_len p.lines ≡ nodes) }
    {
        Self::over(TcpDial { rt }, alloc, nodes, base_port)
    }
}
