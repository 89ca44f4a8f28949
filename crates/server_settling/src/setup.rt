//! What is to be settled, and how.
ghost use Rattle.std.specs.Prelude.{◌≤◌};

use key_slots::{NodeId, Slot};
use server_commands::{Credentials, ServerBook};

/// A slot with its marks: its keys go from the source to the target.
#[derive(Clone, Copy, Debug, PartialEq, Eq)]
pub struct OpenSlot {
    pub slot: Slot,
    pub source: NodeId,
    pub target: NodeId,
}

/// How slots are settled.
#[derive(Drop)]
pub struct SettleSetup {
    /// The servers. The hosts are IPv4 addresses, as those of a survey are.
    pub book: ServerBook,
    /// How many milliseconds a MIGRATE waits for its target at most.
    pub timeout: u32,
    /// What a MIGRATE shows its target.
    pub credentials: Option<Credentials>,
    /// The most keys of one MIGRATE, 1 to 1,000.
    pub batch: u16,
    ghost least: { 1 ≤ batch },
    ghost most: { batch ≤ 1000 },
}
