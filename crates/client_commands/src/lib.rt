//! What a client's command is: its name, its arguments and the keys that it names, what COMMAND tells of it, how a
//! request is read as one, and the words that spell it.
#![tactic(auto)]

mod arguments;
mod arity;
mod assignments;
mod command;
mod copying;
mod fault;
mod fitting;
mod flag;
mod key_pair;
mod key_range;
mod making;
mod name;
mod reading;
mod spelling;
mod table;

pub use arguments::Arguments;
pub use assignments::Assignments;
pub use command::{Command, HashCommand, ListCommand, SetCommand, TextCommand};
pub use fault::CommandFault;
pub use flag::Flag;
pub use key_pair::KeyPair;
pub use key_range::KeyRange;
pub use name::{CommandName, HashName, KeysName, ListName, SetName, TextName};
pub use table::{Arity, CommandRow, commands, row_of};
