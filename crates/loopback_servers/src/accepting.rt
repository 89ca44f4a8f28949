//! Listeners, one for each node, and the threads that accept at them.
ghost use Rattle.std.specs.Prelude.{◌≡◌, IfOk, vec_len};
ghost use Rattle.loopback_servers.specs.Accepting.{Accepts};
ghost use Rattle.loopback_servers.specs.Servings.{IsServable};

use crate::accepted::Accepted;
use crate::connection::Connection;
use crate::options::ServeOptions;
use crate::sockets::{SocketIn, SocketOut, connection_of};
use crate::unserved::Unserved;
use crossbeam_channel::Sender;
use key_slots::NodeId;
use std::alloc::{AllocError, Global};
use std::net::{Ipv4Addr, Net, SocketAddr, SocketAddrV4, TcpListener, TcpStream};
use std::sync::Wait;
use std::thread::Threads;
use std::{io, thread};

/// The listener of a node, and where its connections go.
#[derive(Drop)]
pub(crate) struct Acceptor {
    node: NodeId,
    listener: TcpListener,
    queue: Sender<Connection<SocketIn, SocketOut>>,
}

/// A node's listener.
#[derive(Drop)]
pub(crate) struct Place {
    node: NodeId,
    listener: TcpListener,
}

/// Opens a listener on 127.0.0.1 for each node.
pub(crate) fn listen<R: Net<Listener = TcpListener, Stream = TcpStream>>(
    rt: &R,
    alloc: Global,
    options: &ServeOptions,
) -> Result<Vec<Place>, Unserved>
    requires { IsServable options.now }
{
    let mut places = Vec::new(alloc);
    for number in 0..options.nodes {
        let port = options.base_port + u16::from(number);
        let address = SocketAddr::V4(SocketAddrV4::new(Ipv4Addr::new(127, 0, 0, 1), port));
        let listener = match TcpListener::bind(rt, address) {
            Ok(listener) => listener,
            Err(error) => return Err(Unserved::Unopened(port, error.kind())),
        };
        places.push(Place {
            node: NodeId::of(number),
            listener,
        })?;
    }
    Ok(places)
}

/// Gives each listener an end of the queue, which is closed when the last of them has ended.
pub(crate) fn acceptors_of(
    alloc: Global,
    places: Vec<Place>,
    queue: Sender<Connection<SocketIn, SocketOut>>,
) -> Result<Vec<Acceptor>, AllocError> {
    let mut acceptors = Vec::new(alloc);
    for place in places {
        let Place { node, listener } = place;
        acceptors.push(Acceptor {
            node,
            listener,
            queue: queue.clone()?,
        })?;
    }
    Ok(acceptors)
}

/// Accepts so many connections at each listener, each by a thread of its own, and gives how many came of it.
pub(crate) fn accept_all<R: Threads + Wait + Sync>(
    rt: &R,
    acceptors: Vec<Acceptor>,
    connections: u32,
) -> Result<Vec<Accepted>, AllocError>
    ensures { IfOk result (λ v. vec_len v ≡ vec_len acceptors) }
{
    thread::map_vec(
        rt,
        acceptors,
        &|acceptor| accept_at(rt, &acceptor, connections),
    )
}

/// Accepts so many connections, or without end at 0. One that fails counts, and one that nobody will serve is the last.
fn accept_at<R: Wait>(rt: &R, acceptor: &Acceptor, connections: u32) -> Accepted
    ensures { Accepts connections result }
{
    let most = if connections == 0 {
        u64::MAX
    } else {
        u64::from(connections)
    };
    for count in 0..most {
        if !accept_one(rt, acceptor) {
            return Accepted {
                count,
                served: false,
            };
        }
    }
    Accepted {
        count: most,
        served: true,
    }
}

/// Accepts a connection and puts it into the queue. Whether there are workers still.
fn accept_one<R: Wait>(rt: &R, acceptor: &Acceptor) -> bool {
    match receive(acceptor) {
        Ok(connection) => acceptor.queue.send(rt, connection).is_ok(),
        Err(_) => true,
    }
}

/// The next connection of the acceptor's own node.
fn receive(acceptor: &Acceptor) -> io::Result<Connection<SocketIn, SocketOut>>
    ensures { IfOk result (λ c. c.node ≡ acceptor.now.node) }
{
    let (stream, _) = acceptor.listener.accept()?;
    connection_of(acceptor.node, stream)
}
