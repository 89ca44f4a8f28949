//! What servers tell of their keys and their memory (the page of INFO).
#![tactic(auto)]

mod asking;
mod figures;

pub use asking::{figures_at, figures_of, servers_of};
pub use figures::{Figures, figures_in};
