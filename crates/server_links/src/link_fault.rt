ghost use Rattle.std.specs.Prelude.{◌≡◌};
ghost use Rattle.server_links.specs.Faults.{port_fault, text_of};

use cluster_admin::PortFault;
use std::fmt;

/// Why a connection is gone.
#[derive(Clone, Copy, Debug, PartialEq, Eq)]
pub enum LinkFault {
    /// It failed or ended, or the time for the request and its reply was over.
    Silent,
    /// What came is longer than a reply to what was asked.
    TooLong,
    /// What came is no reply, or something follows it.
    NoReply,
    /// There is no memory for what came.
    NoMemory,
}

impl LinkFault {
    /// What a port answers its callers in its place.
    pub fn port_fault(self) -> PortFault
        ensures { result ≡ port_fault self }
    {
        match self {
            Self::Silent => PortFault::Io,
            Self::TooLong | Self::NoReply | Self::NoMemory => PortFault::Wire,
        }
    }

    /// What is told of it after the name of the server.
    pub fn text(self) -> &'static str
        ensures { result.now ≡ text_of self }
    {
        match self {
            Self::Silent => "ended the connection, or gave no answer in time",
            Self::TooLong => "gave a longer answer than this command has",
            Self::NoReply => "answered something that is no reply",
            Self::NoMemory => "gave an answer for which there is no memory",
        }
    }
}

impl fmt::Display for LinkFault {
    ghost use Rattle.std.specs.Prelude.{Some};
    ghost use Rattle.server_links.specs.Faults.{text_of};

    ghost output = { λ f. Some (text_of f) };

    fn fmt<W: fmt::Write>(&self, f: &mut fmt::Formatter<W>) -> fmt::Result {
        let text = self.text();
        write!(f, "{text}")
    }
}
