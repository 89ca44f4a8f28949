//! What COMMAND, COMMAND COUNT, COMMAND INFO and COMMAND DOCS tell of the commands that are served: those of clients,
//! and the questions that are answered beside them.
#![tactic(auto)]

mod docs;
mod entries;
mod listed;
mod table;

pub use docs::docs_reply;
pub use entries::{command_reply, count_reply, info_reply};
