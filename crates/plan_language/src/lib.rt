//! The language of plans: a plan's lines, the commands that they stand for, and its text.
#![tactic(auto)]

mod commands;
mod laws;
mod limits;
mod line;
mod line_commands;
mod line_reading;
mod line_words;
mod name_reading;
mod parse_fault;
mod parser;
mod plan;
mod plan_command;
mod plan_lines;
mod printing;
mod putting;
mod setting;
mod usual_lines;
mod words;

pub use commands::PlanCommands;
pub use laws::{any_plans_have_one_text, plans_have_one_text};
pub use limits::Limits;
pub use line::Line;
pub use line_commands::others_len;
pub use parse_fault::{ParseCause, ParseFault};
pub use parser::{parse, parse_any};
pub use plan::Plan;
pub use plan_command::PlanCommand;
pub use printing::print;
pub use words::{batch_in, ends_plan, is_header};
