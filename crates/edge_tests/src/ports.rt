//! A port over sockets, at nodes that answer what they are told to.
use crate::commands::get_b;
use cluster_admin::PortFault;
use cluster_cli::TcpPort;
use cluster_world::NodePort;
use key_slots::NodeId;
use resp2_wire::Reply;
use std::alloc::Global;
use std::io::{Read, Write};
use std::net::{Ipv4Addr, Net, SocketAddr, SocketAddrV4, TcpListener, TcpStream};
use std::test::Fail;
use std::{io, thread};

const GET_B: &[u8] = b"*2\r\n$3\r\nget\r\n$1\r\nb\r\n";

const ASKING_GET_B: &[u8] = b"*1\r\n$6\r\nASKING\r\n*2\r\n$3\r\nget\r\n$1\r\nb\r\n";

fn listen<R: Net<Listener = TcpListener, Stream = TcpStream>>(
    rt: &R,
    port: u16,
) -> io::Result<TcpListener> {
    TcpListener::bind(
        rt,
        SocketAddr::V4(SocketAddrV4::new(Ipv4Addr::new(127, 0, 0, 1), port)),
    )
}

/// Accepts one connection, reads as many bytes as the request has, answers, and ends it. Whether that was the request.
fn answer_once(
    alloc: Global,
    listener: &TcpListener,
    request: &[u8],
    answer: &[u8],
) -> io::Result<bool> {
    let (mut stream, _) = listener.accept()?;
    let mut read = vec![in alloc; 0u8; request.len()]?;
    stream.read_exact(read.as_mut_slice())?;
    stream.write_all(answer)?;
    Ok(read.as_slice() == request)
}

/// What two sends of GET b are answered.
fn send_twice<R: Net<Listener = TcpListener, Stream = TcpStream>>(
    rt: &R,
    alloc: Global,
    base_port: u16,
    asking: bool,
) -> Option<(Result<Reply, PortFault>, Result<Reply, PortFault>)> {
    if base_port > 65528 {
        return None;
    }
    let command = get_b(alloc)?;
    let mut port = TcpPort::new(rt, alloc, 1, base_port).ok()?;
    let first = port.send(NodeId::of(0), asking, &command);
    let second = port.send(NodeId::of(0), asking, &command);
    Some((first, second))
}

/// ASKING and its command go out together, and `+OK` and the reply come back. The node then ends the connection, which
/// the next call finds.
#[test]
fn asking_goes_with_its_command(rt: HostRuntime) -> Result<(), Fail> {
    let alloc = rt.alloc();
    let listener = listen(&rt, 17030)?;
    let (asked, answered) = thread::join(
        &rt,
        || answer_once(alloc, &listener, ASKING_GET_B, b"+OK\r\n$-1\r\n"),
        || send_twice(&rt, alloc, 17030, true),
    );
    assert!(rt; asked?);
    assert!(rt; matches!(&answered, Some((Ok(Reply::Null), Err(PortFault::Io)))));
    Ok(())
}

/// Any answer to ASKING but `+OK` is Wire, and so is each call over a connection that is gone.
#[test]
fn asking_is_answered_by_ok_alone(rt: HostRuntime) -> Result<(), Fail> {
    let alloc = rt.alloc();
    let listener = listen(&rt, 17040)?;
    let (asked, answered) = thread::join(
        &rt,
        || answer_once(alloc, &listener, ASKING_GET_B, b"+NO\r\n$-1\r\n"),
        || send_twice(&rt, alloc, 17040, true),
    );
    assert!(rt; asked?);
    assert!(rt;
        matches!(
            &answered,
            Some((Err(PortFault::Wire), Err(PortFault::Wire)))
        )
    );
    Ok(())
}

/// A connection that ends before the reply is Io, and is not opened again.
#[test]
fn a_connection_that_ended_is_gone(rt: HostRuntime) -> Result<(), Fail> {
    let alloc = rt.alloc();
    let listener = listen(&rt, 17050)?;
    let (asked, answered) = thread::join(
        &rt,
        || answer_once(alloc, &listener, GET_B, b"$5\r\nab"),
        || send_twice(&rt, alloc, 17050, false),
    );
    assert!(rt; asked?);
    assert!(rt; matches!(&answered, Some((Err(PortFault::Io), Err(PortFault::Wire)))));
    Ok(())
}
