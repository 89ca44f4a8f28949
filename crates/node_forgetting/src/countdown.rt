//! How long nodes may be told to forget another one.
ghost use Rattle.std.specs.Prelude.{◌≡◌, true};

use std::time::{Clock, Duration, Instant};

/// How many milliseconds may have passed when a node's turn comes. It may take 9 seconds itself, 5 for the connection
/// and 2 for each of two answers, so that all are told within 30 seconds. A node takes the forgotten one for new again
/// 60 seconds after it was told, and by then none may be left that would tell it of that.
const TELLING: u64 = 20_000;

/// The time in which nodes are told.
pub trait Countdown {
    /// The time is over.
    ghost over: { Type 0 };

    /// Whether it is over. It runs from the first of these calls.
    fn is_over(&mut self) -> bool
        ensures { result ≡ true → over };
}

/// By the clock of the system.
#[derive(Drop)]
pub(crate) struct ClockCountdown<'a, H> {
    rt: &'a H,
    began: Option<Instant>,
}

impl<'a, H> ClockCountdown<'a, H> {
    /// Nothing was asked yet.
    pub(crate) fn new(rt: &'a H) -> Self {
        Self { rt, began: None }
    }
}

impl<'a, H: Clock> Countdown for ClockCountdown<'a, H> {
    ghost use Rattle.std.specs.Prelude.{⊤};

    ghost over = { ⊤ };

    fn is_over(&mut self) -> bool {
        let Ok(now) = Instant::now(self.rt) else {
            return true;
        };
        match self.began {
            Some(began) => now.saturating_duration_since(began) > Duration::from_millis(TELLING),
            None => {
                self.began = Some(now);
                false
            }
        }
    }
}
