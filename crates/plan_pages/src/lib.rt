//! What a plan comes to, as a page of text.
#![tactic(auto)]

mod commands;
mod laws;
mod moves;
mod nodes;
mod pages;
mod pairs;
mod putting;
mod runs;
mod servers;
mod sizes;
mod stops;
#[cfg(test)]
mod tests;

pub use laws::{figures_are_told, pages_are_narrow, runs_are_listed};
pub use pages::page;
