//! What is wrong with options of which each is well formed.
ghost use Rattle.std.specs.Prelude.{◌≡◌, IfOk, string_bytes};
ghost use Rattle.command_words.specs.Faults.{fault_text};

use crate::sizes::Sizes;
use std::alloc::{AllocError, Global};
use std::fmt;

/// What is wrong with options of which each is well formed.
#[derive(Clone, Copy, Debug, PartialEq, Eq)]
pub enum OptionFault {
    /// More nodes are to own slots than there are.
    Uneven(Sizes),
    /// Both an even split and a cluster of servers are given.
    TwoStarts,
    /// A file of a survey is given, and an even split or a cluster of servers, too.
    SurveyBeside,
    /// A file of names is given, and no cluster of servers.
    NoCluster,
    /// What is there is to be drawn, and no cluster of servers is given.
    NowAlone,
    /// The text that is to name servers is no list of one to eight addresses.
    NoAddress,
    /// The text that is to name dead masters is no list of IDs of nodes.
    NoId,
    /// The text that is to say how many slots move is no number of slots, nor `all`.
    NoCount,
    /// The log is to be appended to, and overwritten.
    TwoLogStarts,
    /// It is said how a log begins, and no log is given.
    NoLog,
}

impl fmt::Display for OptionFault {
    ghost use Rattle.std.specs.Prelude.{Some};
    ghost use Rattle.command_words.specs.Faults.{fault_text};

    ghost output = { λ f. Some (fault_text f) };

    fn fmt<W: fmt::Write>(&self, f: &mut fmt::Formatter<W>) -> fmt::Result {
        match self {
            Self::Uneven(sizes) => {
                let Sizes { nodes, owning } = *sizes;
                write!(f, "error: --even {owning} is above --nodes {nodes}\n")
            }
            Self::TwoStarts => write!(
                f,
                "error: --cluster stands in place of --nodes and --even\n"
            ),
            Self::SurveyBeside => write!(
                f,
                "error: --survey stands in place of --cluster, --nodes and --even\n"
            ),
            Self::NoCluster => write!(f, "error: --expect goes with --cluster\n"),
            Self::NowAlone => write!(f, "error: --now goes with --cluster\n"),
            Self::NoAddress => write!(
                f,
                "error: --cluster is 1 to 8 addresses as 127.0.0.1:7000, with commas between them\n"
            ),
            Self::NoId => write!(
                f,
                "error: --dead-for-good is IDs of 40 digits, 0 to 9 and a to f, with commas between them\n"
            ),
            Self::NoCount => write!(f, "error: --slots is a number, 0 to 16384, or all\n"),
            Self::TwoLogStarts => {
                write!(f, "error: --append and --overwrite do not go together\n")
            }
            Self::NoLog => write!(f, "error: --append and --overwrite go with --log\n"),
        }
    }
}

/// The line that reports the fault.
pub fn fault_line(alloc: Global, fault: OptionFault) -> Result<String, AllocError>
    ensures { IfOk result (λ text. string_bytes text ≡ fault_text fault) }
{
    fault.to_string(alloc)
}
