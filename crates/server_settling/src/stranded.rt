ghost use Rattle.std.specs.Prelude.{◌≡◌};

use key_slots::{NodeId, Slot};
use std::fmt;

/// Keys of a slot at a node that imports it, or is to: the source owns the slot and does not migrate it, so nobody
/// finds them there.
#[derive(Clone, Copy, Debug, PartialEq, Eq)]
pub struct Stranded {
    pub slot: Slot,
    pub source: NodeId,
    pub target: NodeId,
    pub keys: u32,
}

/// Which keys these are, and what to do by hand.
impl fmt::Display for Stranded {
    ghost use Rattle.std.specs.Prelude.{Some};
    ghost use Rattle.server_settling.specs.OpenStops.{stranded_text};

    ghost output = { λ x. Some (stranded_text x) };

    fn fmt<W: fmt::Write>(&self, f: &mut fmt::Formatter<W>) -> fmt::Result {
        let held = self.held();
        let importing = self.importing();
        let migrating = self.migrating();
        write!(f, "{held}: {importing}, {migrating}, and resume")
    }
}

impl Stranded {
    /// Which keys these are.
    fn held(&self) -> HeldBy
        ensures { result ≡ record {
          slot = self.now.slot;
          source = self.now.source;
          target = self.now.target;
          keys = self.now.keys;
        } }
    {
        let Stranded {
            slot,
            source,
            target,
            keys,
        } = *self;
        HeldBy {
            slot,
            source,
            target,
            keys,
        }
    }

    /// The mark that the target lacks, or has.
    fn importing(&self) -> Importing
        ensures { result ≡ record { slot = self.now.slot; source = self.now.source; target = self.now.target } }
    {
        let Stranded {
            slot,
            source,
            target,
            ..
        } = *self;
        Importing {
            slot,
            source,
            target,
        }
    }

    /// The mark that the source lacks.
    fn migrating(&self) -> Migrating
        ensures { result ≡ record { slot = self.now.slot; source = self.now.source; target = self.now.target } }
    {
        let Stranded {
            slot,
            source,
            target,
            ..
        } = *self;
        Migrating {
            slot,
            source,
            target,
        }
    }
}

/// Keys that a node holds.
#[derive(Clone, Copy)]
struct HeldBy {
    slot: Slot,
    source: NodeId,
    target: NodeId,
    keys: u32,
}

/// `n1 holds 3 keys of slot 24, which n0 owns and does not migrate`.
impl fmt::Display for HeldBy {
    ghost use Rattle.std.specs.Prelude.{Some};
    ghost use Rattle.server_settling.specs.OpenStops.{held_text};

    ghost output = { λ x. Some (held_text x.slot x.source x.target x.keys) };

    fn fmt<W: fmt::Write>(&self, f: &mut fmt::Formatter<W>) -> fmt::Result {
        let HeldBy {
            slot,
            source,
            target,
            keys,
        } = *self;
        write!(
            f,
            "{target} holds {keys} keys of slot {slot}, which {source} owns and does not migrate"
        )
    }
}

/// A target's mark, to be set by hand.
#[derive(Clone, Copy)]
struct Importing {
    slot: Slot,
    source: NodeId,
    target: NodeId,
}

/// `CLUSTER SETSLOT 24 IMPORTING with n0's ID at n1`.
impl fmt::Display for Importing {
    ghost use Rattle.std.specs.Prelude.{Some};
    ghost use Rattle.server_settling.specs.OpenStops.{importing_text};

    ghost output = { λ x. Some (importing_text x.slot x.source x.target) };

    fn fmt<W: fmt::Write>(&self, f: &mut fmt::Formatter<W>) -> fmt::Result {
        let Importing {
            slot,
            source,
            target,
        } = *self;
        write!(
            f,
            "CLUSTER SETSLOT {slot} IMPORTING with {source}'s ID at {target}"
        )
    }
}

/// A source's mark, to be set by hand.
#[derive(Clone, Copy)]
struct Migrating {
    slot: Slot,
    source: NodeId,
    target: NodeId,
}

/// `CLUSTER SETSLOT 24 MIGRATING with n1's ID at n0`.
impl fmt::Display for Migrating {
    ghost use Rattle.std.specs.Prelude.{Some};
    ghost use Rattle.server_settling.specs.OpenStops.{migrating_text};

    ghost output = { λ x. Some (migrating_text x.slot x.source x.target) };

    fn fmt<W: fmt::Write>(&self, f: &mut fmt::Formatter<W>) -> fmt::Result {
        let Migrating {
            slot,
            source,
            target,
        } = *self;
        write!(
            f,
            "CLUSTER SETSLOT {slot} MIGRATING with {target}'s ID at {source}"
        )
    }
}
