//! Which failed masters may take back the slots of their shards (Valkey), and what is said before a plan gives slots to
//! such a shard.
#![tactic(auto)]

mod asking;
mod returning;
mod shards;
mod targets;

pub use asking::shares_shard;
pub use returning::may_take_back;
pub use targets::returning_text;
