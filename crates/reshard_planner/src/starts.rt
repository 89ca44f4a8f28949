ghost use Rattle.std.specs.Prelude.{◌≡◌, ℕ, suc, ◌≤◌, ◌<◌, List, drop, length};
ghost use Rattle.reshard_planner.specs.Starts.{IsAhead, Spans};

use key_slots::{NodeId, SLOTS, Slot};

/// Slots that follow one another and have one owner.
#[derive(Clone, Copy)]
pub(crate) struct OwnedSlots {
    /// The first slot.
    pub(crate) first: u16,
    /// The number after the last slot.
    pub(crate) end: u16,
    pub(crate) owner: NodeId,
}

/// The range that begins at this place, up to the start of the next one.
pub(crate) fn range_at(starts: &[(Slot, NodeId)], place: usize) -> OwnedSlots
    requires { place < length starts.now }
    ensures within { result.end ≤ 16384 }
    ensures first { (from : ℕ) (owners : List ℕ) → Spans from 16384 (drop place starts.now) owners
        → result.first ≡ from }
    ensures ahead { (from : ℕ) (owners : List ℕ) → Spans from 16384 (drop place starts.now) owners
        → IsAhead (drop (suc place) starts.now) owners from result.end result.owner }
{
    let (first, owner) = starts[place];
    let end = if place + 1 < starts.len() {
        starts[place + 1].0.get()
    } else {
        SLOTS as u16
    };
    OwnedSlots {
        first: first.get(),
        end,
        owner,
    }
}
