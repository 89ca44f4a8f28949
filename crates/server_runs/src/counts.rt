//! How much of a plan was done.
ghost use Rattle.std.specs.Prelude.{◌≡◌, ◌↔◌, IsTrue};
ghost use Rattle.server_runs.specs.Counts.{AreClosed, counted, no_counts, open_counts};

use crate::kind::Kind;
use cluster_admin::AdminReply;

/// What was answered so far. Each number is below 2^64, and begins again at 0 where it would come to that.
#[derive(Clone, Copy)]
pub struct Counts {
    /// All commands.
    pub commands: u64,
    /// The keys of MIGRATEs that were done.
    pub keys: u64,
    /// Slots that were opened.
    pub opened: u64,
    /// Slots whose target took its mark back.
    pub taken_back: u64,
    /// Slots that were handed over.
    pub handed_over: u64,
    /// Nodes that were told an owner, the slots' new owners among them.
    pub told: u64,
}

impl Counts {
    /// Nothing was answered.
    pub fn new() -> Self
        ensures { result ≡ no_counts }
    {
        Self {
            commands: 0,
            keys: 0,
            opened: 0,
            taken_back: 0,
            handed_over: 0,
            told: 0,
        }
    }

    /// Nothing was answered, but before the plan so many slots were open, of which so many nodes were told the new
    /// owner.
    pub fn of_open(opened: u64, told: u64) -> Self
        ensures { result ≡ open_counts opened told }
    {
        Self {
            opened,
            told,
            ..Self::new()
        }
    }

    /// Whether no slot is open, in a cluster of so many nodes: a legal plan tells every node once for each slot that it
    /// moves.
    pub(crate) fn are_closed(self, nodes: u8) -> bool
        ensures { IsTrue result ↔ AreClosed nodes self }
    {
        let moved = u128::from(self.opened).saturating_sub(u128::from(self.taken_back));
        moved * u128::from(nodes) == u128::from(self.told)
    }

    /// The counts once a command of this kind was answered so.
    pub(crate) fn counted(self, kind: Kind, reply: &AdminReply) -> Self
        ensures { result ≡ counted kind reply.now self }
    {
        let mut counts = self;
        counts.commands = counts.commands.wrapping_add(1);
        if !matches!(reply, AdminReply::Ok) {
            return counts;
        }
        match kind {
            Kind::Opens => counts.opened = counts.opened.wrapping_add(1),
            Kind::TakesBack => counts.taken_back = counts.taken_back.wrapping_add(1),
            Kind::Moves(keys) => counts.keys = counts.keys.wrapping_add(keys),
            Kind::HandsOver => {
                counts.handed_over = counts.handed_over.wrapping_add(1);
                counts.told = counts.told.wrapping_add(1);
            }
            Kind::Tells => counts.told = counts.told.wrapping_add(1),
            Kind::Other => {}
        }
        counts
    }
}
