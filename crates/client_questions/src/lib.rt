//! What a client asks of a server beside its commands: who is there (HELLO, CLIENT), what the server is and serves
//! (INFO, COMMAND, CONFIG GET), what its node makes of the cluster (CLUSTER INFO, NODES, SHARDS, MYID and
//! COUNTKEYSINSLOT), and words that only a connection hears (SELECT, ECHO, AUTH, READONLY, READWRITE, QUIT). They are
//! answered without a call of the cluster's model, in Redis 7.0's words.
#![tactic(auto)]

mod answering;
mod caller;
mod client;
mod cluster;
mod command;
mod config;
mod connection;
mod hello;
mod info;
mod kind;
mod laws;
mod refusals;

pub use answering::{answer_by_node, answer_own, is_question};
pub use caller::Caller;
pub use laws::command_tells_questions;

#[cfg(test)]
mod tests;
