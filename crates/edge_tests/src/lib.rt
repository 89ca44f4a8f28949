//! Tests of plans, of both planners, of `redirect_client`, of the rehearsal and its script, and of the servers: what no
//! contract says, such as that a call goes well where memory is ample, what sockets and channels deliver, and that
//! workers serve at once. They stand in a crate of their own, since a crate with tests is proved twice.
#![tactic(auto)]

#[cfg(test)]
mod clients;
#[cfg(test)]
mod commands;
#[cfg(test)]
mod followers;
#[cfg(test)]
mod lines;
#[cfg(test)]
mod moving_slots;
#[cfg(test)]
mod named_nodes;
mod options;
#[cfg(test)]
mod plan_faults;
#[cfg(test)]
mod plan_names;
#[cfg(test)]
mod plan_texts;
#[cfg(test)]
mod planners;
#[cfg(test)]
mod plans;
#[cfg(test)]
mod plans_with_names;
#[cfg(test)]
mod pools;
#[cfg(test)]
mod ports;
#[cfg(test)]
mod previews;
#[cfg(test)]
mod questions;
#[cfg(test)]
mod rehearsals;
#[cfg(test)]
mod resumed;
#[cfg(test)]
mod scripts;
#[cfg(test)]
mod serving;
#[cfg(test)]
mod slots;
#[cfg(test)]
mod versions;
#[cfg(test)]
mod worlds;

pub use options::{ServedOptions, asked_options, options_of, previewed_options};
