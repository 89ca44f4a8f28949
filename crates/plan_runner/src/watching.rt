//! A plan that runs while someone watches.
ghost use Rattle.std.specs.Prelude.{◌≡◌, ◌<◌, Bool};
ghost use Rattle.cluster_admin.specs.declared.admin.AdminReply.{AdminReply};
ghost use Rattle.cluster_admin.specs.declared.port_fault.PortFault.{PortFault};
ghost use Rattle.plan_semantics.specs.declared.order.Order.{Order};
ghost use Rattle.plan_runner.specs.Advancing.{plan_of, seat_of, end_of, last_seat};
ghost use Rattle.plan_runner.specs.Watching.{RunsWatched, SendsWatched};

use crate::progress::Pending;
use crate::running::{DonePlan, Finish, RunningPlan, StoppedPlan, Taken};
use crate::stop_cause::StopCause;
use cluster_admin::{AdminPort, AdminReply, PortFault};
use plan_semantics::Order;

/// Who watches a plan run: for its progress, its log and its pauses. Each command is shown before it is sent, and what
/// came of it after that, so a watcher that writes a log has written of a command before the command can act.
pub trait Watcher {
    /// What it makes of the next command, and whether that is to be sent.
    ghost sees: { Self → Order → Bool → Self → Type 0 };

    /// What it makes of a reply to the command that it saw last.
    ghost hears: { Self → AdminReply → Self → Type 0 };

    /// What it makes of a fault of the port at the command that it saw last.
    ghost misses: { Self → PortFault → Self → Type 0 };

    /// The command is next. Whether it is to be sent; where it is not, the plan is given up.
    fn before(&mut self, order: &Order) -> bool
        ensures { sees self.old order.now result self.new };

    /// The command was answered.
    fn answered(&mut self, reply: &AdminReply)
        ensures { hears self.old reply.now self.new };

    /// The port failed at the command.
    fn lost(&mut self, fault: PortFault)
        ensures { misses self.old fault self.new };
}

impl<S> RunningPlan<S> {
    /// Shows the next command to the watcher, sends it by the seat, and takes its reply, which is shown too. The plan
    /// is given up, and nothing sent, where the watcher says so.
    pub fn advance_watched<P: AdminPort<Seat = S>, W: Watcher>(
        self,
        port: &mut P,
        watcher: &mut W,
    ) -> Taken<S>
        requires seat { P.fits port.old self.seat }
        requires nodes { P.NodeCount.count port.old ≡ self.progress.nodes }
        ensures room { self.progress.spent < self.progress.most }
        ensures sends { SendsWatched (record {
          moves = P.moves;
          fails = P.fails;
          sees = W.sees;
          hears = W.hears;
          misses = W.misses;
        }) (record { port = (port.old, watcher.old); calls = P.calls self.seat })
            (record { port = (port.new, watcher.new); calls = P.calls (seat_of result) }) self.progress
            (plan_of result) }
        ensures seat { P.fits port.new (seat_of result) }
        ensures nodes { P.NodeCount.count port.new ≡ P.NodeCount.count port.old }
    {
        let RunningPlan { progress, mut seat } = self;
        let spent = progress.spent();
        let Some(Pending { order, waiting }) = progress.split() else {
            return Taken::Done(DonePlan { seat, spent });
        };
        if !watcher.before(&order) {
            let cause = StopCause::Abandoned;
            return Taken::Stopped(StoppedPlan { seat, cause, spent });
        }
        let Order { node, command } = order;
        match port.admin(&mut seat, node, command) {
            Ok(reply) => {
                watcher.answered(&reply);
                Taken::of(waiting.take(reply), seat)
            }
            Err(fault) => {
                watcher.lost(fault);
                let cause = StopCause::of(fault);
                Taken::Stopped(StoppedPlan { seat, cause, spent })
            }
        }
    }

    /// Advances until the plan is done or stopped, or until the watcher gives it up, before its next command is sent.
    pub fn run_watched<P: AdminPort<Seat = S>, W: Watcher>(
        self,
        port: &mut P,
        watcher: &mut W,
    ) -> Finish<S>
        requires seat { P.fits port.old self.seat }
        requires nodes { P.NodeCount.count port.old ≡ self.progress.nodes }
        ensures runs { RunsWatched (record {
          moves = P.moves;
          fails = P.fails;
          sees = W.sees;
          hears = W.hears;
          misses = W.misses;
        }) (record { port = (port.old, watcher.old); calls = P.calls self.seat })
            (record { port = (port.new, watcher.new); calls = P.calls (last_seat result) }) self.progress
            (end_of result) }
        ensures seat { P.fits port.new (last_seat result) }
        ensures nodes { P.NodeCount.count port.new ≡ P.NodeCount.count port.old }
    {
        let mut plan = self;
        loop {
            match plan.advance_watched(port, watcher) {
                Taken::Running(next) => plan = next,
                Taken::Done(done) => return Finish::Done(done),
                Taken::Stopped(stopped) => return Finish::Stopped(stopped),
            }
        }
    }
}
