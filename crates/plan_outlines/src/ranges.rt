//! Ranges of slots.
ghost use Rattle.std.specs.Prelude.{◌≡◌, ◌≢◌, ◌+◌, ◌-◌, ◌≤◌, ◌↔◌, IsTrue};

use key_slots::{NodeId, Slot};

/// Adjacent slots, from the first to the last, which have one owner before a plan and one after it.
#[derive(Clone, Copy, Debug, PartialEq, Eq)]
pub struct RangeChange {
    pub first: Slot,
    pub last: Slot,
    pub before: NodeId,
    pub after: NodeId,
}

impl RangeChange {
    /// How many slots these are.
    pub fn slots(&self) -> u32
        requires { self.now.first ≤ self.now.last }
        ensures { result ≡ (self.now.last - self.now.first) + 1 }
    {
        u32::from(self.last.get() - self.first.get()) + 1
    }

    /// Whether they have another owner after the plan.
    pub fn moves(&self) -> bool
        ensures { IsTrue result ↔ (self.now.before ≢ self.now.after) }
    {
        self.before != self.after
    }
}

/// Adjacent slots, from the first to the last.
#[derive(Clone, Copy, Debug, PartialEq, Eq)]
pub struct SlotRun {
    pub first: Slot,
    pub last: Slot,
}
