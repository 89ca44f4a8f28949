//! Tests of clusters that run, with threads: what no contract says, as that calls overlap, that a call goes well, and
//! what is left after a stranger or a plan that was given up. They stand apart from the other crates' tests, since they
//! start threads and wait.
#![tactic(auto)]

#[cfg(test)]
mod abandoned;
#[cfg(test)]
mod clients;
mod clusters;
#[cfg(test)]
mod commands;
#[cfg(test)]
mod composed;
#[cfg(test)]
mod crowds;
#[cfg(test)]
mod days;
#[cfg(test)]
mod events;
#[cfg(test)]
mod gates;
#[cfg(test)]
mod handed;
mod headlines;
#[cfg(test)]
mod holdings;
#[cfg(test)]
mod marks;
#[cfg(test)]
mod plans;
#[cfg(test)]
mod reads;
#[cfg(test)]
mod replays;
#[cfg(test)]
mod replies;
#[cfg(test)]
mod resumed;
#[cfg(test)]
mod seats;
#[cfg(test)]
mod stores;
#[cfg(test)]
mod strangers;

pub use clusters::{call_at, open_cluster, three_nodes};
pub use headlines::close_with_headline;
