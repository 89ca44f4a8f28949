//! The marks of replicas (Valkey): a replica that lacks one of its master's marks loses what the mark is for, if it
//! takes the master's place.
#![tactic(auto)]

mod asking;
mod marks;
mod replicas;
mod telling;

pub use asking::replicas_at;
pub use replicas::replica_lines;
