//! A verified plan that runs at servers: watched, logged, paced, and paused where its operator asks for that.
#![tactic(auto)]

mod ahead;
mod answers;
mod applying;
mod at_servers;
mod counts;
mod in_one_go;
mod kind;
mod pace;
mod run_context;
mod run_end;
mod run_log;
mod run_record;
mod slot_owner;
mod speaks;
mod steps;
mod watch;

pub use applying::apply;
pub use at_servers::apply_in_one_go;
pub use counts::Counts;
pub use kind::Kind;
pub use pace::Pace;
pub use run_context::RunContext;
pub use run_end::RunEnd;
pub use run_log::RunLog;
pub use run_record::RunRecord;
pub use server_commands::shown;
pub use slot_owner::SlotOwner;
pub use speaks::Speaks;
pub use watch::Watch;
