use crate::route::Route;
use key_slots::NodeId;
use std::fmt;

/// What keeps a slot from being in any phase. The first that applies is told.
#[derive(Clone, Copy, Debug, PartialEq, Eq)]
pub enum Strangeness {
    /// These two nodes migrate the slot, the lowest two that do.
    TwoMigrate {
        first: NodeId,
        second: NodeId,
    },
    /// These two import it, the lowest two that do.
    TwoImport {
        first: NodeId,
        second: NodeId,
    },
    /// n0 tells `owner`, and `at`, the lowest node that does not agree, tells `other`.
    TwoOwners {
        owner: NodeId,
        at: NodeId,
        other: NodeId,
    },
    /// All tell `owner`. `at`, which has no slots, is the only node that migrates the slot: a failover has replaced it,
    /// or it gave all of its slots away.
    WithoutSlots {
        owner: NodeId,
        at: NodeId,
    },
    /// All tell `owner`. One node migrates the slot on this route, and `importer` imports it from `from`: these are
    /// not the two ends of a move from the owner.
    Crossed {
        owner: NodeId,
        route: Route,
        importer: NodeId,
        from: NodeId,
    },
    /// All tell the source, which migrates the slot to the target, and no node imports it.
    NotImported {
        source: NodeId,
        target: NodeId,
    },
    /// All tell `owner`. `at` has the slot's only mark, a migrating mark, and is not the owner, or its mark names
    /// itself.
    StrayMigrating {
        owner: NodeId,
        at: NodeId,
    },
    /// All tell `owner`. `at` has the slot's only mark: it imports the slot from `source`, which is not the owner.
    OtherSource {
        owner: NodeId,
        source: NodeId,
        at: NodeId,
    },
    /// All tell `owner`, which imports the slot itself, by its only mark.
    OwnerImports {
        owner: NodeId,
    },
}

impl Strangeness {
    ghost use Rattle.std.specs.Prelude.{◌≡◌};
    ghost use Rattle.server_phases.specs.Faults.{without_slots};

    /// The node without slots that has a mark of the slot, if that is what is told.
    pub(crate) fn without_slots(self) -> Option<NodeId>
        ensures { result ≡ without_slots self }
    {
        match self {
            Self::WithoutSlots { at, .. } => Some(at),
            _ => None,
        }
    }
}

/// For example `migrates from n0 to n1, which does not import it`; the slot with its number stands before it.
impl fmt::Display for Strangeness {
    ghost use Rattle.std.specs.Prelude.{Some};
    ghost use Rattle.server_phases.specs.Faults.{strangeness_text};

    ghost output = { λ k. Some (strangeness_text k) };

    fn fmt<W: fmt::Write>(&self, f: &mut fmt::Formatter<W>) -> fmt::Result {
        match *self {
            Self::TwoMigrate { first, second } => write!(
                f,
                "migrates from {first} and from {second}"
            ),
            Self::TwoImport { first, second } => write!(
                f,
                "is imported by {first} and by {second}"
            ),
            Self::TwoOwners { owner, at, other } => write!(
                f,
                "is {owner}'s by n0 and {other}'s by {at}"
            ),
            Self::WithoutSlots { owner, at } => write!(
                f,
                "of {owner} has a migrating mark at {at}, which has no slots"
            ),
            Self::Crossed {
                owner,
                route,
                importer,
                from,
            } => write!(
                f,
                "of {owner} migrates {route}, and {importer} imports it from {from}"
            ),
            Self::NotImported { source, target } => write!(
                f,
                "migrates from {source} to {target}, which does not import it"
            ),
            Self::StrayMigrating { owner, at } => write!(
                f,
                "of {owner} has a migrating mark at {at}"
            ),
            Self::OtherSource { owner, source, at } => write!(
                f,
                "of {owner} is imported by {at} from {source}"
            ),
            Self::OwnerImports { owner } => write!(f, "is imported by {owner}, its owner"),
        }
    }
}
