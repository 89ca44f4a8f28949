//! Servers on loopback: a running cluster behind a listening socket for each node, with threads that serve sessions and
//! a plan that may run beside them.
#![tactic(auto)]

mod accepted;
mod accepting;
mod announcing;
mod asking;
mod connection;
mod laws;
mod options;
mod plan_beside;
mod questions;
mod serving;
mod sockets;
mod unheard;
mod unserved;
mod workers;

pub use connection::Connection;
pub use laws::{clients_differ_by_their_ids, quits_are_questions, served_plans_have_the_headline};
pub use options::ServeOptions;
pub use serving::{serve, serve_and_explain};
pub use sockets::{SocketIn, SocketOut};
pub use workers::{pool, work};
