//! How far a connection is with a request.
ghost use Rattle.std.specs.Prelude.{◌≡◌, max};
ghost use Rattle.std.specs.Duration.{as_nanos};
ghost use Rattle.server_links.specs.Turns.{LeavesTime, LeavesTimeToRead, began_at, left_at, turn_of_read};
ghost use Rattle.server_links.specs.Turns.{turn_of_write};

use std::io;
use std::time::{Duration, Instant};

/// How far a connection is with a request, and when that was begun. The first write after a read begins a request.
#[derive(Clone, Copy)]
pub(crate) enum Turn {
    /// Nothing was written yet.
    Idle,
    /// The request is written.
    Asking(Instant),
    /// Its reply is read.
    Answering(Instant),
}

impl Turn {
    /// The turn of a write at this time.
    pub(crate) fn write_at(self, now: Instant) -> Self
        ensures { result ≡ turn_of_write self now }
    {
        match self {
            Self::Asking(began) => Self::Asking(began),
            Self::Answering(_) | Self::Idle => Self::Asking(now),
        }
    }

    /// The turn of a read at this time.
    pub(crate) fn read_at(self, now: Instant) -> Self
        ensures { result ≡ turn_of_read self now }
    {
        match self {
            Self::Asking(began) | Self::Answering(began) => Self::Answering(began),
            Self::Idle => Self::Answering(now),
        }
    }

    /// How long a write in this turn may wait at this time: what is left of the time that a request and its reply may
    /// take, if something is.
    pub(crate) fn left(self, waiting: Duration, now: Instant) -> io::Result<Duration>
        ensures { LeavesTime self waiting now result }
    {
        let left = self.left_at(waiting, now);
        if left.is_zero() {
            Err(io::Error::from(io::ErrorKind::TimedOut))
        } else {
            Ok(left)
        }
    }

    /// How long a read after this turn may wait at this time. The first one of a reply may wait a millisecond in any
    /// case: where several servers are asked before the first reply is read, a silent one takes no time from those
    /// whose replies have come meanwhile.
    pub(crate) fn left_to_read(self, waiting: Duration, now: Instant) -> io::Result<Duration>
        ensures { LeavesTimeToRead self waiting now result }
    {
        match self {
            Self::Asking(_) => Ok(at_least(self.left_at(waiting, now))),
            Self::Answering(_) | Self::Idle => self.left(waiting, now),
        }
    }

    fn left_at(self, waiting: Duration, now: Instant) -> Duration
        ensures { as_nanos result ≡ left_at self waiting now }
    {
        waiting.saturating_sub(now.saturating_duration_since(self.began(now)))
    }

    /// When the request was begun.
    fn began(self, now: Instant) -> Instant
        ensures { result ≡ began_at self now }
    {
        match self {
            Self::Asking(began) | Self::Answering(began) => began,
            Self::Idle => now,
        }
    }
}

/// This time, or else a millisecond, whichever is more.
fn at_least(time: Duration) -> Duration
    ensures { as_nanos result ≡ max (as_nanos time) 1_000_000 }
{
    if time.as_millis() == 0 {
        Duration::from_millis(1)
    } else {
        time
    }
}
