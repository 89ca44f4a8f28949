//! What a command is to a plan's counts.
ghost use Rattle.std.specs.Prelude.{◌≡◌};
ghost use Rattle.server_runs.specs.Counts.{kind_of};

use cluster_admin::AdminCommand;
use plan_runner::Order;

/// The kinds of commands that are counted apart.
#[derive(Clone, Copy)]
pub enum Kind {
    /// The target marks the slot: it is open from here on.
    Opens,
    /// The target takes its mark back: the slot is closed again.
    TakesBack,
    /// So many keys are moved.
    Moves(u64),
    /// The target is told that the slot is its own.
    HandsOver,
    /// Another node is told the slot's owner.
    Tells,
    /// The source marks the slot, or lists keys of it.
    Other,
}

impl Kind {
    /// The kind of this command.
    pub(crate) fn of(order: &Order) -> Self
        ensures { result ≡ kind_of order.now }
    {
        match &order.command {
            AdminCommand::Importing(_, _) => Self::Opens,
            AdminCommand::Stable(_) => Self::TakesBack,
            AdminCommand::Migrate(keys, _) => Self::Moves(keys.len() as u64),
            AdminCommand::SetNode(_, owner) => {
                if owner.get() == order.node.get() {
                    Self::HandsOver
                } else {
                    Self::Tells
                }
            }
            AdminCommand::Migrating(_, _) | AdminCommand::KeysIn(_, _) => Self::Other,
        }
    }
}
