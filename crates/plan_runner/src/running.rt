ghost use Rattle.std.specs.Prelude.{◌≡◌, ◌≢◌, ◌<◌, [], MatchOption};
ghost use Rattle.plan_semantics.specs.Orders.{sending};
ghost use Rattle.plan_runner.specs.PlanStates.{plan_after};
ghost use Rattle.plan_runner.specs.Advancing.{plan_of, seat_of, end_of, last_seat, waits, Sends, Runs};
ghost use Rattle.plan_runner.specs.declared.stop_cause.StopCause.TheVariants.{Abandoned};

use crate::plan_state::PlanState;
use crate::progress::{Pending, Progress};
use crate::stop_cause::StopCause;
use cluster_admin::{AdminPort, AdminReply};
use plan_semantics::Order;

/// A plan that runs. It has to be spent: the seat is never lost.
pub struct RunningPlan<S> {
    pub(crate) progress: Progress,
    pub(crate) seat: S,
}

/// A plan that came to its end.
pub struct DonePlan<S> {
    pub(crate) seat: S,
    pub(crate) spent: u64,
}

/// A plan that stopped.
pub struct StoppedPlan<S> {
    pub(crate) seat: S,
    pub(crate) cause: StopCause,
    pub(crate) spent: u64,
}

/// What a reply makes of a plan.
pub enum Taken<S> {
    Running(RunningPlan<S>),
    Done(DonePlan<S>),
    Stopped(StoppedPlan<S>),
}

/// How a plan ended.
pub enum Finish<S> {
    Done(DonePlan<S>),
    Stopped(StoppedPlan<S>),
}

impl<S> Taken<S> {
    pub(crate) fn of(state: PlanState, seat: S) -> Taken<S>
        ensures state { plan_of result ≡ state }
        ensures seat { seat_of result ≡ seat }
    {
        match state {
            PlanState::Running(progress) => Taken::Running(RunningPlan { progress, seat }),
            PlanState::Done(spent) => Taken::Done(DonePlan { seat, spent }),
            PlanState::Stopped(cause, spent) => Taken::Stopped(StoppedPlan { seat, cause, spent }),
        }
    }
}

impl<S> RunningPlan<S> {
    /// The next command; none exactly at the end.
    pub fn next(&self) -> Option<&Order>
        ensures { MatchOption result (sending self.now.progress.rest self.now.progress.listed ≡ None)
            (λ s. sending self.now.progress.rest self.now.progress.listed ≡ Some s.now) }
    {
        self.progress.next()
    }

    /// What the reply to the next command makes of the plan.
    pub fn take(self, reply: AdminReply) -> Taken<S>
        requires { self.progress.rest ≢ [] }
        ensures state { plan_of result ≡ plan_after (waits self.progress) reply }
        ensures seat { seat_of result ≡ self.seat }
    {
        let RunningPlan { progress, seat } = self;
        let pending = progress.split();
        match pending {
            Some(Pending { order, waiting }) => {
                drop(order);
                Taken::of(waiting.take(reply), seat)
            }
            None => unreachable!(),
        }
    }

    /// Sends the next command by the seat, and takes its reply.
    pub fn advance<P: AdminPort<Seat = S>>(self, port: &mut P) -> Taken<S>
        requires seat { P.fits port.old self.seat }
        requires nodes { P.NodeCount.count port.old ≡ self.progress.nodes }
        ensures room { self.progress.spent < self.progress.most }
        ensures sends { Sends (record { moves = P.moves; fails = P.fails })
            (record { port = port.old; calls = P.calls self.seat })
            (record { port = port.new; calls = P.calls (seat_of result) }) self.progress (plan_of result) }
        ensures seat { P.fits port.new (seat_of result) }
        ensures nodes { P.NodeCount.count port.new ≡ P.NodeCount.count port.old }
    {
        let RunningPlan { progress, mut seat } = self;
        let spent = progress.spent();
        match progress.split() {
            Some(
                Pending {
                    order: Order { node, command },
                    waiting,
                },
            ) => {
                match port.admin(&mut seat, node, command) {
                    Ok(reply) => Taken::of(waiting.take(reply), seat),
                    Err(fault) => Taken::Stopped(StoppedPlan {
                        seat,
                        cause: StopCause::of(fault),
                        spent,
                    }),
                }
            }
            None => Taken::Done(DonePlan { seat, spent }),
        }
    }

    /// Advances until the plan is done or stopped.
    pub fn run<P: AdminPort<Seat = S>>(self, port: &mut P) -> Finish<S>
        requires seat { P.fits port.old self.seat }
        requires nodes { P.NodeCount.count port.old ≡ self.progress.nodes }
        ensures runs { Runs (record { moves = P.moves; fails = P.fails })
            (record { port = port.old; calls = P.calls self.seat })
            (record { port = port.new; calls = P.calls (last_seat result) }) self.progress (end_of result) }
        ensures seat { P.fits port.new (last_seat result) }
        ensures nodes { P.NodeCount.count port.new ≡ P.NodeCount.count port.old }
    {
        let mut plan = self;
        loop {
            match plan.advance(port) {
                Taken::Running(next) => plan = next,
                Taken::Done(done) => return Finish::Done(done),
                Taken::Stopped(stopped) => return Finish::Stopped(stopped),
            }
        }
    }
}

impl<S> RunningPlan<S> {
    /// How many replies were taken.
    pub fn cost_so_far(&self) -> u64
        ensures { result ≡ self.now.progress.spent }
    {
        self.progress.spent()
    }

    /// Gives the plan up.
    pub fn abandon(self) -> StoppedPlan<S>
        ensures { result ≡ record { seat = self.seat; cause = Abandoned; spent = self.progress.spent } }
    {
        let spent = self.progress.spent();
        let RunningPlan { progress: _, seat } = self;
        StoppedPlan {
            seat,
            cause: StopCause::Abandoned,
            spent,
        }
    }
}

impl<S> DonePlan<S> {
    /// How many replies were taken.
    pub fn cost_so_far(&self) -> u64
        ensures { result ≡ self.now.spent }
    {
        self.spent
    }

    /// The seat that was armed.
    pub fn into_seat(self) -> S
        ensures { result ≡ self.seat }
    {
        let DonePlan { seat, spent: _ } = self;
        seat
    }
}

impl<S> StoppedPlan<S> {
    /// How many replies were taken.
    pub fn cost_so_far(&self) -> u64
        ensures { result ≡ self.now.spent }
    {
        self.spent
    }

    /// The seat that was armed, and why the plan stopped.
    pub fn into_parts(self) -> (S, StopCause)
        ensures { result ≡ (self.seat, self.cause) }
    {
        let StoppedPlan {
            seat,
            cause,
            spent: _,
        } = self;
        (seat, cause)
    }
}
