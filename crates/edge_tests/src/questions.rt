//! Servers that answer questions, over sockets: each client has an ID of its own.
use crate::options::{ServedOptions, asked_options};
use byte_streams::MemoryOut;
use cluster_cli::serve;
use std::alloc::Global;
use std::io::{Read, Write};
use std::net::{Ipv4Addr, Net, SocketAddr, SocketAddrV4, TcpListener, TcpStream};
use std::sync::Wait;
use std::test::Fail;
use std::thread::Threads;
use std::{io, thread};

/// How often a client tries to connect.
const TRIES: u64 = 1_000_000;

const CLIENT_ID: &[u8] = b"*2\r\n$6\r\nCLIENT\r\n$2\r\nID\r\n";

fn serve_by<R: Net<Listener = TcpListener, Stream = TcpStream> + Threads + Wait + Sync>(
    rt: &R,
    alloc: Global,
    options: &ServedOptions,
    writer: &mut MemoryOut,
) -> u8 {
    serve(rt, alloc, &options.options, None, writer)
}

/// A connection to the port, as soon as somebody listens.
pub(crate) fn connect<R: Net<Listener = TcpListener, Stream = TcpStream>>(
    rt: &R,
    port: u16,
) -> Option<TcpStream> {
    let address = SocketAddr::V4(SocketAddrV4::new(Ipv4Addr::new(127, 0, 0, 1), port));
    for _ in 0..TRIES {
        if let Ok(stream) = TcpStream::connect(rt, address) {
            return Some(stream);
        }
        thread::yield_now();
    }
    None
}

/// What the connection is told of its ID, as a byte of a reply with one digit.
fn asked_id(stream: &mut TcpStream) -> io::Result<u8> {
    stream.write_all(CLIENT_ID)?;
    let mut reply = [0u8; 4];
    stream.read_exact(&mut reply)?;
    Ok(reply[1])
}

/// The IDs of two connections to the port that are open at once.
fn two_ids<R: Net<Listener = TcpListener, Stream = TcpStream>>(
    rt: &R,
    port: u16,
) -> Option<(u8, u8)> {
    let mut one = connect(rt, port)?;
    let mut other = connect(rt, port)?;
    Some((asked_id(&mut one).ok()?, asked_id(&mut other).ok()?))
}

/// Two workers serve two clients at once, and these have the IDs 1 and 2.
#[test]
fn two_clients_have_two_ids(rt: HostRuntime) -> Result<(), Fail> {
    let alloc = rt.alloc();
    let options = asked_options(17060);
    let mut writer = MemoryOut::new(alloc, 9_999);
    let (status, ids) = thread::join(
        &rt,
        || serve_by(&rt, alloc, &options, &mut writer),
        || two_ids(&rt, 17060),
    );
    assert!(rt; matches!(ids, Some((b'1', b'2')) | Some((b'2', b'1'))));
    assert!(rt; status == 0);
    Ok(())
}
