//! Commands on a store: what a command answers, and what it does to the entries. What a command is stands in
//! `client_commands`, whose types are handed on here.
#![tactic(auto)]

mod change;
mod commit;
mod effect;
mod entries;
mod laws;
mod perform;

pub use change::Change;
pub use client_commands::{
    Arguments, Assignments, Command, CommandFault, CommandName, HashCommand, HashName, KeyPair,
    KeysName, ListCommand, ListName, SetCommand, SetName, TextCommand, TextName,
};
pub use effect::Effect;
pub use entries::Entries;
pub use laws::{
    answers_are_no_redirections, commands_leave_no_empty_collection,
    commands_touch_named_keys_alone, errors_change_nothing,
};
pub use perform::{apply, prepare};
