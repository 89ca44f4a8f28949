ghost use Rattle.std.specs.Prelude.{◌≡◌};
ghost use Rattle.plan_language.specs.Texts.{setslot, setting_in};

use crate::plan_command::PlanCommand;
use crate::words::is_text;
use key_slots::{NodeId, Slot};

/// What a `setslot` line sets.
#[derive(Clone, Copy)]
pub(crate) enum Setting {
    Importing,
    Migrating,
    Node,
}

impl Setting {
    /// The setting that the word names.
    pub(crate) fn parse(word: &[u8]) -> Option<Self>
        ensures { result ≡ setting_in word.now }
    {
        if is_text(word, b"importing") {
            Some(Self::Importing)
        } else if is_text(word, b"migrating") {
            Some(Self::Migrating)
        } else if is_text(word, b"node") {
            Some(Self::Node)
        } else {
            None
        }
    }

    /// The command that sets it.
    pub(crate) fn command(self, slot: Slot, node: NodeId, at: NodeId) -> PlanCommand
        ensures { result ≡ setslot self slot node at }
    {
        match self {
            Self::Importing => PlanCommand::Importing {
                slot,
                source: node,
                at,
            },
            Self::Migrating => PlanCommand::Migrating {
                slot,
                target: node,
                at,
            },
            Self::Node => PlanCommand::SetNode {
                slot,
                owner: node,
                at,
            },
        }
    }
}
