//! The servers of a cluster as their administrator calls them: each command of a plan goes out as it is spelt, after
//! the reply to the one before, once servers show what they have to.
#![tactic(auto)]

mod asking;
mod commanding;
mod duty;
mod hearers;
mod hearing;
mod laws;
mod looking;
mod meeting;
mod pause;
mod port;
mod port_stop;
mod run_history;
mod seat;
mod setup;
mod shown;
mod telling;
mod told;
mod unmet;
mod words;

pub use commanding::{Given, Outcome};
pub use laws::{runs_write_their_spellings, tellings_that_are_done_are_runs};
pub use pause::Pause;
pub use port::ServersPort;
pub use seat::ServersSeat;
pub use setup::PortSetup;
