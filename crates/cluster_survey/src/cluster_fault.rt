//! Why there is no survey of a cluster.
ghost use Rattle.cluster_survey.specs.declared.cluster_fault.ClusterFault.TheVariants as faults;
ghost use Rattle.cluster_views.specs.declared.fault.SurveyFault.TheVariants.{Memory};

use cluster_views::SurveyFault;
use key_slots::NodeId;
use node_names::NodeName;
use server_commands::NamedError;
use std::alloc::AllocError;
use std::fmt;
use std::net::SocketAddrV4;
use thiserror::Error;

/// Why a cluster was not found, or can't be surveyed.
#[derive(Clone, Copy, Error)]
pub enum ClusterFault {
    /// Nobody listens at the address, or it was not reached in time.
    NoConnection(SocketAddrV4),
    /// There is no file descriptor left for a connection to the address (`ulimit -n`).
    NoDescriptor(SocketAddrV4),
    /// The server wants another user or password, or one at all.
    NotLetIn(SocketAddrV4),
    /// The server gave no answer in time, or ended the connection.
    NoAnswer(SocketAddrV4),
    /// The server's answer is none to CLUSTER NODES.
    Strange(SocketAddrV4),
    /// The server's answer is an error that says what can be done.
    Named {
        address: SocketAddrV4,
        error: NamedError,
    },
    /// No line of the list of nodes has the name that the plan gives to its node.
    MissingNode {
        node: NodeId,
        name: NodeName,
    },
    /// The name is that of a node which is no master.
    NoMaster {
        node: NodeId,
        name: NodeName,
    },
    /// The plan's node has a number that none of so many masters has.
    BeyondMasters {
        node: NodeId,
        masters: u8,
    },
    /// All masters were reached, and this stands against a survey. Out of memory is this too.
    Survey(SurveyFault),
}

impl fmt::Display for ClusterFault {
    ghost use Rattle.std.specs.Prelude.{Some};
    ghost use Rattle.cluster_survey.specs.ClusterFaults.{text_of};

    ghost output = { λ f. Some (text_of f) };

    fn fmt<W: fmt::Write>(&self, f: &mut fmt::Formatter<W>) -> fmt::Result {
        match self {
            Self::NoConnection(address) => write!(f, "no connection to {address}"),
            Self::NoDescriptor(address) => {
                write!(
                    f,
                    "no connection to {address}: too many open files; allow more with ulimit -n"
                )
            }
            Self::NotLetIn(address) => {
                write!(
                    f,
                    "AUTH refused at {address}: {}",
                    NamedError::WrongPassword.advice()
                )
            }
            Self::NoAnswer(address) => write!(f, "{address} gave no answer"),
            Self::Strange(address) => write!(f, "{address} answered something strange"),
            Self::Named { address, error } => {
                write!(f, "{address} answered {}: {}", error.word(), error.advice())
            }
            Self::MissingNode { node, name } => {
                write!(
                    f,
                    "{node} of the plan is {name}, which the cluster does not have"
                )
            }
            Self::NoMaster { node, name } => {
                write!(f, "{node} of the plan is {name}, which is no master")
            }
            Self::BeyondMasters { node, masters } => {
                write!(
                    f,
                    "{node} of the plan is beyond the {masters} masters of the cluster: plan again"
                )
            }
            Self::Survey(fault) => write!(f, "{fault}"),
        }
    }
}

/// The displayed text.
impl fmt::Debug for ClusterFault {
    fn fmt<W: fmt::Write>(&self, f: &mut fmt::Formatter<W>) -> fmt::Result {
        write!(f, "{self}")
    }
}

impl From<AllocError> for ClusterFault {
    ghost use Rattle.std.specs.Prelude.{◌≡◌};

    ghost from_gives = { λ _ e. e ≡ faults.Survey Memory };

    fn from(_error: AllocError) -> Self {
        Self::Survey(SurveyFault::Memory)
    }
}

impl From<SurveyFault> for ClusterFault {
    ghost use Rattle.std.specs.Prelude.{◌≡◌};
    ghost use Rattle.cluster_survey.specs.declared.cluster_fault.ClusterFault.TheVariants.{Survey};

    ghost from_gives = { λ f e. e ≡ Survey f };

    fn from(fault: SurveyFault) -> Self {
        Self::Survey(fault)
    }
}
