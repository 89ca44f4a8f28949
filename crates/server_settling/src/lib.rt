//! An open slot is settled before a plan continues: after a MIGRATE that gave no good answer, keys may still come late
//! at the target, and keys may lie at both nodes.
#![tactic(auto)]

mod asking;
mod client_ids;
mod client_list;
mod copying;
mod fault;
mod listing;
mod marking;
mod open_stop;
mod opened;
mod quieting;
mod settled_slot;
mod settling;
mod setup;
mod sorted_keys;
mod stop;
mod stranded;
mod words;

pub use fault::SettleFault;
pub use open_stop::OpenStop;
pub use opened::{Opened, check_empty, settle_all};
pub use settled_slot::SettledSlot;
pub use settling::{Settled, settle};
pub use setup::{OpenSlot, SettleSetup};
pub use stop::SettleStop;
pub use stranded::Stranded;
