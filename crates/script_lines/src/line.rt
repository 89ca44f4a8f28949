//! The lines of a script.
use cluster_admin::AdminCommand;
use key_slots::NodeId;
use resp2_wire::Request;

/// A line of a script after the first, but for the lines of a plan.
#[derive(Drop)]
pub enum Line {
    /// `at nI WORD ..` or `asking nI WORD ..`: a client's request.
    Call {
        node: NodeId,
        asking: bool,
        request: Request,
    },
    /// An administrator's command to a node.
    Admin {
        node: NodeId,
        command: AdminCommand,
    },
    /// `step`: the armed plan takes one step.
    Step,
    /// `run`: the armed plan runs to its end.
    Run,
    /// `honest`: whether each ASKING so far was earned.
    Honest,
    /// `abandon`: the armed plan is given up where it is.
    Abandon,
    /// `resume by B`: the rests of all open slots are armed, which drain so many keys at once.
    Resume {
        batch: u16,
    },
}
