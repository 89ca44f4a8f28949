ghost use Rattle.std.specs.Prelude.{◌≡◌};
ghost use Rattle.plan_runner.specs.Advancing.{stopped_by};

use cluster_admin::{AdminFault, PortFault};

/// Why a plan stopped before its end.
#[derive(Clone, Copy)]
pub enum StopCause {
    /// The node refused the command with this number, counted from 1, for this reason.
    Refused(u64, AdminFault),
    /// The port was out of memory, and nothing was done.
    Memory,
    /// The reply is none that the command has: of another kind, or no listing of the slot.
    StrangeReply,
    /// The plan was given up.
    Abandoned,
    /// So many replies were taken as the plan was started with.
    Limit,
    /// The port has no reply for another reason: its device failed, or what came is no reply. The command may have been
    /// done or not, and it stands in no seat's list.
    Lost,
}

impl StopCause {
    /// Why a plan stops whose port has no reply.
    pub(crate) fn of(fault: PortFault) -> Self
        ensures { result ≡ stopped_by fault }
    {
        match fault {
            PortFault::Memory => Self::Memory,
            PortFault::Io | PortFault::Wire => Self::Lost,
        }
    }
}
