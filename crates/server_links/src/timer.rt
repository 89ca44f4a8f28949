//! The time that a request and its reply have together.
use crate::turn::Turn;
use std::alloc::Global;
use std::cell::Cell;
use std::io;
use std::rc::Rc;
use std::time::{Clock, Duration, Instant};

/// Tells both ends of a connection how much time is left to them.
#[derive(Drop)]
pub(crate) struct Timer<'a, C> {
    clock: &'a C,
    waiting: Duration,
    turn: Rc<Cell<Turn>>,
}

impl<'a, C: Clock> Timer<'a, C> {
    /// A timer for each of both ends: a request and its reply may take the time `waiting`.
    pub(crate) fn pair(clock: &'a C, alloc: Global, waiting: Duration) -> io::Result<(Self, Self)> {
        let turn = Rc::new(alloc, Cell::new(Turn::Idle))?;
        let same = Rc::clone(&turn)?;
        let reading = Self {
            clock,
            waiting,
            turn,
        };
        let writing = Self {
            clock,
            waiting,
            turn: same,
        };
        Ok((reading, writing))
    }

    /// How long the next read may wait.
    pub(crate) fn left_to_read(&self) -> io::Result<Duration> {
        let now = Instant::now(self.clock)?;
        let turn = self.turn.get();
        self.turn.set(turn.read_at(now));
        turn.left_to_read(self.waiting, now)
    }

    /// How long the next write may wait.
    pub(crate) fn left_to_write(&self) -> io::Result<Duration> {
        let now = Instant::now(self.clock)?;
        let turn = self.turn.get().write_at(now);
        self.turn.set(turn);
        turn.left(self.waiting, now)
    }
}
