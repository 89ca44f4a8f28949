//! Which programs the servers of a cluster are, and of which versions, as they tell it themselves.
#![tactic(auto)]

mod asking;
mod telling;
mod versions;

pub use asking::{version_of, versions_of};
pub use telling::version_lines;
pub use versions::{ServerVersion, version_in};
