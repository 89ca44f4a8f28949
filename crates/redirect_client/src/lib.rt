//! A client of a cluster: it sends each command to the slot's owner that it believes in, and follows MOVED, ASK and
//! TRYAGAIN from there (Redis Cluster specification, "Redirection and resharding").
//!
//! [`Client::execute`] is all that there is to use: the test `a_client_gets_what_it_set` of the crate `edge_tests`
//! shows it in a few lines, over a world.
#![tactic(auto)]

mod ask_pass;
mod client;
mod client_fault;
mod laws;
mod meaning;
mod reading;

pub use ask_pass::AskPass;
pub use client::Client;
pub use client_fault::ClientFault;
pub use laws::{
    asking_clients_are_honest, clients_may_wait, commands_are_served_at_most_once,
    executions_over_worlds_are_runs, headline_of_clients, replies_have_one_meaning,
};
