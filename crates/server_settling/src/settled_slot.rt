ghost use Rattle.std.specs.Prelude.{◌≡◌};

use crate::settling::Settled;
use crate::setup::OpenSlot;
use key_slots::NodeId;
use std::fmt;

/// A slot that is settled, and what was found of it.
#[derive(Clone, Copy, Debug, PartialEq, Eq)]
pub struct SettledSlot {
    pub course: OpenSlot,
    pub found: Settled,
}

/// `settled slot 24: 1 connections ended at n1, 2 keys were at n0 and n1, 5 are at n1 alone`.
impl fmt::Display for SettledSlot {
    ghost use Rattle.std.specs.Prelude.{Some};
    ghost use Rattle.server_settling.specs.OpenStops.{settled_text};

    ghost output = { λ x. Some (settled_text x.course x.found) };

    fn fmt<W: fmt::Write>(&self, f: &mut fmt::Formatter<W>) -> fmt::Result {
        let slot = self.course.slot;
        let ended = self.ended();
        let doubled = self.doubled();
        let alone = self.alone();
        write!(f, "settled slot {slot}: {ended}, {doubled}, {alone}")
    }
}

impl SettledSlot {
    /// The connections that were ended.
    fn ended(&self) -> Ended
        ensures { result ≡ record {
          count = self.now.found.ended;
          source = self.now.course.source;
          target = self.now.course.target;
        } }
    {
        Ended {
            count: self.found.ended,
            source: self.course.source,
            target: self.course.target,
        }
    }

    /// The keys that both nodes held.
    fn doubled(&self) -> Doubled
        ensures { result ≡ record {
          count = self.now.found.at_both;
          source = self.now.course.source;
          target = self.now.course.target;
        } }
    {
        Doubled {
            count: self.found.at_both,
            source: self.course.source,
            target: self.course.target,
        }
    }

    /// The keys that the target holds alone.
    fn alone(&self) -> Alone
        ensures { result ≡ record { count = self.now.found.at_target_alone; target = self.now.course.target } }
    {
        Alone {
            count: self.found.at_target_alone,
            target: self.course.target,
        }
    }
}

/// Connections that were ended.
#[derive(Clone, Copy)]
struct Ended {
    count: u32,
    source: NodeId,
    target: NodeId,
}

/// `1 connections ended at n1`. Where none was, that may be since the source reaches the target from another address
/// than the one that it lists.
impl fmt::Display for Ended {
    ghost use Rattle.std.specs.Prelude.{Some};
    ghost use Rattle.server_settling.specs.OpenStops.{ended_text};

    ghost output = { λ x. Some (ended_text x.count x.source x.target) };

    fn fmt<W: fmt::Write>(&self, f: &mut fmt::Formatter<W>) -> fmt::Result {
        let Ended {
            count,
            source,
            target,
        } = *self;
        if count == 0 {
            write!(
                f,
                "{count} connections ended at {target} (none is from the address that {source} lists)"
            )
        } else {
            write!(f, "{count} connections ended at {target}")
        }
    }
}

/// Keys that two nodes held.
#[derive(Clone, Copy)]
struct Doubled {
    count: u32,
    source: NodeId,
    target: NodeId,
}

/// `2 keys were at n0 and n1`.
impl fmt::Display for Doubled {
    ghost use Rattle.std.specs.Prelude.{Some};
    ghost use Rattle.server_settling.specs.OpenStops.{doubled_text};

    ghost output = { λ x. Some (doubled_text x.count x.source x.target) };

    fn fmt<W: fmt::Write>(&self, f: &mut fmt::Formatter<W>) -> fmt::Result {
        let Doubled {
            count,
            source,
            target,
        } = *self;
        write!(f, "{count} keys were at {source} and {target}")
    }
}

/// Keys that a target holds alone.
#[derive(Clone, Copy)]
struct Alone {
    count: u32,
    target: NodeId,
}

/// `5 are at n1 alone`.
impl fmt::Display for Alone {
    ghost use Rattle.std.specs.Prelude.{Some};
    ghost use Rattle.server_settling.specs.OpenStops.{alone_text};

    ghost output = { λ x. Some (alone_text x.count x.target) };

    fn fmt<W: fmt::Write>(&self, f: &mut fmt::Formatter<W>) -> fmt::Result {
        let Alone { count, target } = *self;
        write!(f, "{count} are at {target} alone")
    }
}
