//! A client's port to nodes behind sockets: one connection for each node, opened at its first send.
#![tactic(auto)]

mod dialing;
mod line;
mod stream_port;
mod tcp_port;

pub use dialing::Dial;
pub use stream_port::StreamPort;
pub use tcp_port::{TcpDial, TcpPort};
