//! Tests of the public calls from texts, slots and the wire up to a node, a world of nodes and its sessions: what no
//! contract says, such as that a call goes well where memory is ample. They stand in one crate, since each program of
//! tests reads the statements of all crates below it.
#![tactic(auto)]

mod batches;
#[cfg(test)]
mod clusters;
#[cfg(test)]
mod commands;
#[cfg(test)]
mod frames;
#[cfg(test)]
mod handed;
#[cfg(test)]
mod keyspaces;
#[cfg(test)]
mod marks;
#[cfg(test)]
mod questions;
#[cfg(test)]
mod requests;
#[cfg(test)]
mod rooms;
#[cfg(test)]
mod sessions;
#[cfg(test)]
mod slots;
#[cfg(test)]
mod stores;
#[cfg(test)]
mod streams;
#[cfg(test)]
mod surveys;
#[cfg(test)]
mod tables;
#[cfg(test)]
mod texts;
#[cfg(test)]
mod values;
#[cfg(test)]
mod wire;
#[cfg(test)]
mod worlds;

pub use batches::{batch_of_one, copied_batch, empty_batch};
