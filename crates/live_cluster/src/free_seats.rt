//! The seats that are not given yet.
ghost use Rattle.std.specs.Prelude.{◌≡◌, ℕ, ◌+◌, ◌<◌, ◌≤◌, ◌-◌, [], true, false, IfOk, OnErr};
ghost use Rattle.live_cluster.specs.Fresh.{fresh_from};

use shared_trail::{AdminSeat, ClientSeat, ClusterBrand};
use std::fmt;
use std::marker::Model;
use thiserror::Error;

/// All 32 client seats are given.
#[derive(Clone, Copy, Debug, PartialEq, Eq, Error)]
pub struct NoSeat;

impl fmt::Display for NoSeat {
    ghost use Rattle.std.specs.Prelude.{Some, codes};

    ghost output = { λ _. Some (codes "all client seats are given") };

    fn fmt<W: fmt::Write>(&self, f: &mut fmt::Formatter<W>) -> fmt::Result {
        write!(f, "all client seats are given")
    }
}

/// The administrator's seat is given.
#[derive(Clone, Copy, Debug, PartialEq, Eq, Error)]
pub struct SeatTaken;

impl fmt::Display for SeatTaken {
    ghost use Rattle.std.specs.Prelude.{Some, codes};

    ghost output = { λ _. Some (codes "the administrator's seat is given") };

    fn fmt<W: fmt::Write>(&self, f: &mut fmt::Formatter<W>) -> fmt::Result {
        write!(f, "the administrator's seat is given")
    }
}

/// The client seats that are not given, in order. Contracts see it as how many are given.
pub struct FreeSeats<B: ClusterBrand> {
    seats: Vec<ClientSeat<B>>,
    given: u8,
}

/// Written out, so that a proof sees one call where such a value is dropped.
impl<B: ClusterBrand> Drop for FreeSeats<B> {
    fn drop(self) {
        let Self { seats, given: _ } = self;
        drop(seats);
    }
}

impl<B: ClusterBrand> Model for FreeSeats<B> {
    ghost use Rattle.std.specs.Prelude.{◌≡◌, ◌-◌, ◌≤◌, ℕ};
    ghost use Rattle.live_cluster.specs.Fresh.{fresh_from};

    ghost Value = { ℕ };

    ghost view = { λ p. p.given };

    ghost invariant = { λ p. (p.seats.items ≡ fresh_from p.given (32 - p.given)) × (p.given ≤ 32) };
}

impl<B: ClusterBrand> FreeSeats<B> {
    pub(crate) fn new(seats: Vec<ClientSeat<B>>) -> FreeSeats<B>
        requires { seats.items ≡ fresh_from 0 32 }
        ensures { result ≡ 0 }
    {
        FreeSeats { seats, given: 0 }
    }

    /// Gives the next seat.
    pub(crate) fn next(&mut self) -> Result<ClientSeat<B>, NoSeat>
        ensures ok { IfOk result (λ s. (s ≡ (self.old, [])) × (self.old < 32) × (self.new ≡ self.old + 1)) }
        ensures err { OnErr result ((self.old ≡ 32) × (self.new ≡ self.old)) }
    {
        if self.given == 32 {
            return Err(NoSeat);
        }
        self.given += 1;
        Ok(self.seats.remove(0))
    }

    pub(crate) fn into_parts(self) -> (Vec<ClientSeat<B>>, u8)
        ensures { (result.0.items ≡ fresh_from self (32 - self)) × (result.1 ≡ self) × (self ≤ 32) }
    {
        let Self { seats, given } = self;
        (seats, given)
    }
}

/// The administrator's seat, until it is given. Contracts see it as whether it is still here.
pub struct FreeAdminSeat<B: ClusterBrand> {
    seat: Option<AdminSeat<B>>,
}

/// Written out, so that a proof sees one call where such a value is dropped.
impl<B: ClusterBrand> Drop for FreeAdminSeat<B> {
    fn drop(self) {
        let Self { seat } = self;
        drop(seat);
    }
}

impl<B: ClusterBrand> Model for FreeAdminSeat<B> {
    ghost use Rattle.std.specs.Prelude.{◌≡◌, Bool, IfSome, [], is_some};

    ghost Value = { Bool };

    ghost view = { λ c. is_some c.seat };

    ghost invariant = { λ c. IfSome c.seat (λ s. s ≡ []) };
}

impl<B: ClusterBrand> FreeAdminSeat<B> {
    pub(crate) fn new(seat: AdminSeat<B>) -> FreeAdminSeat<B>
        requires { seat ≡ [] }
    {
        FreeAdminSeat { seat: Some(seat) }
    }

    /// Gives the seat, once.
    pub(crate) fn take(&mut self) -> Result<AdminSeat<B>, SeatTaken>
        ensures ok { IfOk result (λ s. (s ≡ []) × (self.old ≡ true)) }
        ensures err { OnErr result (self.old ≡ false) }
        ensures given { self.new ≡ false }
    {
        match self.seat.take() {
            Some(seat) => Ok(seat),
            None => Err(SeatTaken),
        }
    }
}
