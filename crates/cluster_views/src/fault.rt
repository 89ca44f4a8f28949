ghost use Rattle.std.specs.Fmt.{WritesOnOk};
ghost use Rattle.std.specs.Prelude.{◌≡◌};
ghost use Rattle.cluster_views.specs.Faults.{error_fault, is_passing, text_of};
ghost use Rattle.cluster_views.specs.declared.fault.SurveyFault.TheVariants.{Memory, OtherEpoch, SameEpoch};
ghost use Rattle.server_commands.specs.NamedErrors.{named_error};

use key_slots::{NodeId, Slot};
use server_commands::NamedError;
use std::alloc::AllocError;
use std::fmt;
use thiserror::Error;

/// Why there is no survey. The first that applies is reported, in the order that [`survey_of`](crate::survey_of) tells;
/// out of memory may stand for any.
#[derive(Clone, Copy, Debug, PartialEq, Eq, Error)]
pub enum SurveyFault {
    /// Out of memory.
    Memory,
    /// The server that was asked for the masters knows none.
    NoMasters,
    /// It knows more than 255.
    TooManyMasters,
    /// The line of its answer with this number, from 1, is a master without an IPv4 address.
    NoAddress(usize),
    /// The line is a master with the address and port of one in an earlier line.
    SameAddress(usize),
    /// The connection is gone, or a reply did not come in time.
    NoAnswer(NodeId),
    /// The reply is none to CLUSTER NODES.
    Strange(NodeId),
    /// The reply is an error that says what can be done.
    Named { at: NodeId, error: NamedError },
    /// No line is the answering server's own.
    Nameless(NodeId),
    /// The answering server has another ID than the node.
    OtherNode(NodeId),
    /// The node is no master.
    Replica(NodeId),
    /// The node's address and port, as it tells them itself, are others.
    OtherAddress(NodeId),
    /// The node `at` knows a master that is none of the nodes.
    UnknownMaster(NodeId),
    /// The node `at` knows that `node` is down, or takes it to be.
    Failing { at: NodeId, node: NodeId },
    /// The node `at` has no connection to `node`.
    Unlinked { at: NodeId, node: NodeId },
    /// The node `at` does not know `node` as a master.
    Unaware { at: NodeId, node: NodeId },
    /// The masters' lines at the node list more than 16,384 slots in all, so some slot is listed twice.
    Overlap(NodeId),
    /// No master's line at the node `at` lists the slot. It is the lowest such slot.
    Uncovered { at: NodeId, slot: Slot },
    /// A mark of the slot at the node `at` has the ID of none of the nodes.
    UnknownMark { at: NodeId, slot: Slot },
    /// `node` tells another owner of the slot than n0 does, and no node has a mark of it. It is the lowest such slot.
    Disagreement { node: NodeId, slot: Slot },
    /// The node `at` tells another config epoch of `node` than that one does itself.
    OtherEpoch { at: NodeId, node: NodeId },
    /// Both nodes have one config epoch.
    SameEpoch { node: NodeId, other: NodeId },
}

impl SurveyFault {
    /// The fault of a node that answers by this error.
    pub fn of_error(at: NodeId, text: &[u8]) -> Self
        ensures { result ≡ error_fault at (named_error text.now) }
    {
        match NamedError::of(text) {
            Some(error) => Self::Named { at, error },
            None => Self::Strange(at),
        }
    }

    /// Whether it may be over soon, since nodes tell one another what is new: who asks again within 2 seconds may get a
    /// survey. Whatever else is reported stays until somebody sees to it.
    pub fn is_passing(&self) -> bool
        ensures { result ≡ is_passing self.now }
    {
        match self {
            Self::UnknownMaster(_)
            | Self::Unlinked { .. }
            | Self::Unaware { .. }
            | Self::Disagreement { .. }
            | Self::OtherEpoch { .. }
            | Self::SameEpoch { .. } => true,
            _ => false,
        }
    }
}

/// The text after `survey refused: `.
impl fmt::Display for SurveyFault {
    ghost use Rattle.std.specs.Prelude.{Some};
    ghost use Rattle.cluster_views.specs.Faults.{text_of};

    ghost output = { λ f. Some (text_of f) };

    fn fmt<W: fmt::Write>(&self, f: &mut fmt::Formatter<W>) -> fmt::Result {
        match self {
            Self::Memory => write!(f, "out of memory"),
            Self::NoMasters => write!(f, "no master is listed"),
            Self::TooManyMasters => write!(f, "more than 255 masters are listed"),
            Self::NoAddress(line) => write!(f, "line {line} is a master without an IPv4 address"),
            Self::SameAddress(line) => write!(
                f,
                "line {line} is a master with the address of another"
            ),
            Self::NoAnswer(at) => write!(f, "{at} gave no answer"),
            Self::Strange(at) => write!(f, "{at} answered something strange"),
            Self::Named { at, error } => {
                write!(f, "{at} answered {}: {}", error.word(), error.advice())
            }
            Self::Nameless(at) => write!(f, "{at} does not list itself"),
            Self::OtherNode(at) => write!(f, "{at} answered as another node"),
            Self::Replica(at) => write!(f, "{at} is a replica"),
            Self::OtherAddress(at) => write!(f, "{at} gives another address of itself"),
            Self::UnknownMaster(at) => write!(f, "{at} knows a master that is none of the nodes"),
            Self::Failing { at, node } => write!(f, "{at} knows that {node} fails"),
            Self::Unlinked { at, node } => write!(f, "{at} is not connected to {node}"),
            Self::Unaware { at, node } => write!(f, "{at} does not know {node}"),
            Self::Overlap(at) => write!(f, "{at} lists a slot twice"),
            Self::Uncovered { at, slot } => write!(f, "no owner of slot {slot} at {at}"),
            Self::UnknownMark { at, slot } => {
                write!(f, "a mark of slot {slot} at {at} names an unknown node")
            }
            Self::Disagreement { node, slot } => {
                write!(f, "n0 and {node} do not agree on slot {slot}")
            }
            Self::OtherEpoch { at, node } => put_other_epoch(f, *at, *node),
            Self::SameEpoch { node, other } => put_same_epoch(f, *node, *other),
        }
    }
}

/// The text where `at` tells another config epoch of `node` than that one does.
fn put_other_epoch<W: fmt::Write>(
    f: &mut fmt::Formatter<W>,
    at: NodeId,
    node: NodeId,
) -> fmt::Result
    ensures { WritesOnOk W.write_str_gives f.old result (text_of (OtherEpoch at node)) f.new }
{
    write!(
        f,
        "{at} and {node} do not agree on the config epoch of {node}"
    )
}

/// The text where both nodes have one config epoch.
fn put_same_epoch<W: fmt::Write>(
    f: &mut fmt::Formatter<W>,
    node: NodeId,
    other: NodeId,
) -> fmt::Result
    ensures { WritesOnOk W.write_str_gives f.old result (text_of (SameEpoch node other)) f.new }
{
    write!(f, "{node} and {other} have one config epoch")
}

impl From<AllocError> for SurveyFault {
    ghost from_gives = { λ _ e. e ≡ Memory };

    fn from(_error: AllocError) -> Self {
        Self::Memory
    }
}
