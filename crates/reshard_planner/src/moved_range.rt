ghost use Rattle.std.specs.Prelude.{◌≡◌, Some, None, if◌then◌else◌};
ghost use Rattle.reshard_planner.specs.Grouping.{goes_on, line_of, range_of};

use crate::transfer::Transfer;
use key_slots::{NodeId, Slot};
use plan_language::Line;

/// The slots from `first` to `last`, both included, which go from one node to another.
#[derive(Clone, Copy)]
pub(crate) struct MovedRange {
    pub(crate) first: Slot,
    pub(crate) last: Slot,
    pub(crate) source: NodeId,
    pub(crate) target: NodeId,
}

impl MovedRange {
    /// The range of one slot.
    pub(crate) fn of(transfer: &Transfer) -> Self
        ensures { result ≡ range_of transfer.now }
    {
        let Transfer {
            slot,
            source,
            target,
        } = *transfer;
        Self {
            first: slot,
            last: slot,
            source,
            target,
        }
    }

    /// The range with one slot more, if that is the next one and goes the same way.
    pub(crate) fn with(&self, next: &Transfer) -> Option<Self>
        ensures { result ≡ (if goes_on self.now next.now.slot next.now.source next.now.target
            then Some (record self.now { last = next.now.slot }) else None) }
    {
        if self.last.get() + 1 == next.slot.get()
            && self.source == next.source
            && self.target == next.target
        {
            Some(Self {
                last: next.slot,
                ..*self
            })
        } else {
            None
        }
    }

    /// The line that moves the range, at most so many keys at a time.
    pub(crate) fn line(&self, batch: u16) -> Line
        ensures { result ≡ line_of batch self.now }
    {
        Line::Move {
            first: self.first,
            last: self.last,
            source: self.source,
            target: self.target,
            batch,
        }
    }
}
