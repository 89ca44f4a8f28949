ghost use Rattle.std.specs.Prelude.{◌≡◌, ◌<◌, ◌≤◌, ◌⊎◌, List, [], ◌∷◌, true, is_some, Option, Some, None, MatchOption};
ghost use Rattle.cluster_admin.specs.Commands.{IsCommand};
ghost use Rattle.plan_semantics.specs.Orders.{sending, listed_in, is_drain};
ghost use Rattle.plan_runner.specs.PlanStates.{plan_after, progress_at};
ghost use Rattle.plan_runner.specs.ProgressView.{at_start, waits};
ghost use Rattle.plan_runner.specs.Sound.{AreSound, HasBatch, MayMove, is_at};
ghost use Rattle.plan_language.specs.declared.plan_command.PlanCommand.{PlanCommand};

use crate::left::{Left, left_after};
use crate::plan_state::PlanState;
use crate::stop_cause::StopCause;
use cluster_admin::{AdminCommand, AdminReply, KeyList};
use plan_language::{PlanCommand, PlanCommands};
use plan_semantics::Order;
use std::marker::Model;

/// A plan that waits for the reply to its next command.
#[derive(Drop)]
pub(crate) struct Waiting {
    current: PlanCommand,
    commands: PlanCommands,
    is_open: bool,
    spent: u64,
    most: u64,
}

impl Model for Waiting {
    ghost use Rattle.plan_runner.specs.ProgressView.{Waits};
    ghost use Rattle.plan_runner.specs.Sound.{AreSound};
    ghost use Rattle.std.specs.Prelude.{◌∷◌, ◌<◌};

    ghost Value = { Waits };

    ghost view = { λ a. record {
      nodes = a.commands.nodes;
      rest = a.current ∷ a.commands.left;
      open_still = a.is_open;
      spent = a.spent;
      most = a.most;
    } };

    ghost invariant = { λ a. (a.spent < a.most) × AreSound a.commands.nodes (a.current ∷ a.commands.left) };
}

/// The next command, and what waits for its reply.
#[derive(Drop)]
pub(crate) struct Pending {
    pub(crate) order: Order,
    pub(crate) waiting: Waiting,
}

/// A plan before its next command is sent; none is left at its end.
#[derive(Drop)]
pub struct Progress {
    nodes: u8,
    pending: Option<Pending>,
    most: u64,
}

impl Model for Progress {
    ghost use Rattle.plan_runner.specs.ProgressView.{Progress};
    ghost use Rattle.plan_runner.specs.Inner.{progress_of, IsProgress};

    ghost Value = { Progress };

    ghost view = { progress_of };

    ghost invariant = { IsProgress };
}

/// The next command of a plan.
fn order_of(current: &PlanCommand, listed: Option<KeyList>) -> Order
    requires batch { HasBatch current.now }
    requires movable { MayMove listed }
    ensures next { (rest : List PlanCommand) → sending (current.now ∷ rest) listed ≡ Some result }
    ensures listed { is_drain current.now ≡ true → listed_in result.command ≡ listed }
    ensures none { listed ≡ None → listed_in result.command ≡ None }
    ensures node { result.node ≡ is_at current.now }
    ensures command { IsCommand result.command }
{
    match *current {
        PlanCommand::Importing { slot, source, at } => Order {
            node: at,
            command: AdminCommand::Importing(slot, source),
        },
        PlanCommand::Migrating { slot, target, at } => Order {
            node: at,
            command: AdminCommand::Migrating(slot, target),
        },
        PlanCommand::SetNode { slot, owner, at } => Order {
            node: at,
            command: AdminCommand::SetNode(slot, owner),
        },
        PlanCommand::Stable { slot, at } => Order {
            node: at,
            command: AdminCommand::Stable(slot),
        },
        PlanCommand::Drain {
            slot,
            source,
            target,
            batch,
        } => Order {
            node: source,
            command: match listed {
                None => AdminCommand::KeysIn(slot, batch),
                Some(keys) => AdminCommand::Migrate(keys, target),
            },
        },
    }
}

impl Progress {
    /// A plan with this command and those left.
    fn at(
        current: PlanCommand,
        commands: PlanCommands,
        listed: Option<KeyList>,
        spent: u64,
        most: u64,
    ) -> Self
        requires room { spent < most }
        requires listed { listed ≡ None ⊎ (is_drain current ≡ true) }
        requires sound { AreSound commands.nodes (current ∷ commands.left) }
        requires movable { MayMove listed }
        ensures { result ≡ record {
          nodes = commands.nodes;
          rest = current ∷ commands.left;
          listed = listed;
          spent = spent;
          most = most;
        } }
    {
        let nodes = commands.nodes();
        let is_open = listed.is_some();
        let order = order_of(&current, listed);
        let waiting = Waiting {
            current,
            commands,
            is_open,
            spent,
            most,
        };
        Self {
            nodes,
            pending: Some(Pending { order, waiting }),
            most,
        }
    }

    /// A plan that begins.
    pub(crate) fn start(mut commands: PlanCommands, most: u64) -> Self
        requires some { 0 < most }
        requires sound { AreSound commands.nodes commands.left }
        ensures { result ≡ at_start commands.nodes commands.left most }
    {
        let nodes = commands.nodes();
        let first = commands.next();
        match first {
            Some(current) => Self::at(current, commands, None, 0, most),
            None => Self {
                nodes,
                pending: None,
                most,
            },
        }
    }

    /// The next command; none exactly at the end.
    pub(crate) fn next(&self) -> Option<&Order>
        ensures { MatchOption result (sending self.now.rest self.now.listed ≡ None)
            (λ s. sending self.now.rest self.now.listed ≡ Some s.now) }
    {
        match &self.pending {
            Some(pending) => Some(&pending.order),
            None => None,
        }
    }

    /// The next command, to be sent, and what waits for its reply.
    pub(crate) fn split(self) -> Option<Pending>
        ensures { MatchOption result (self.rest ≡ [])
            (λ p. (sending self.rest self.listed ≡ Some p.order) × (p.waiting ≡ waits self)
            × (p.order.node < self.nodes) × IsCommand p.order.command) }
    {
        let Self {
            nodes: _,
            pending,
            most: _,
        } = self;
        pending
    }

    /// How many replies were taken.
    pub(crate) fn spent(&self) -> u64
        ensures spent { result ≡ self.now.spent }
        ensures room { self.now.spent < self.now.most }
    {
        match &self.pending {
            Some(pending) => pending.waiting.spent,
            None => 0,
        }
    }
}

/// A plan that continues, if the limit is not reached.
fn running_at(
    current: PlanCommand,
    commands: PlanCommands,
    listed: Option<KeyList>,
    spent: u64,
    most: u64,
) -> PlanState
    requires room { spent ≤ most }
    requires listed { listed ≡ None ⊎ (is_drain current ≡ true) }
    requires sound { AreSound commands.nodes (current ∷ commands.left) }
    requires movable { MayMove listed }
    ensures { result ≡ progress_at commands.nodes (current ∷ commands.left, listed) spent most }
{
    if spent == most {
        PlanState::Stopped(StopCause::Limit, spent)
    } else {
        PlanState::Running(Progress::at(current, commands, listed, spent, most))
    }
}

/// A plan that continues by its next command, if one is left.
fn next_at(mut commands: PlanCommands, spent: u64, most: u64) -> PlanState
    requires room { spent ≤ most }
    requires sound { AreSound commands.nodes commands.left }
    ensures { result ≡ progress_at commands.nodes (commands.left, None) spent most }
{
    let next = commands.next();
    match next {
        Some(next) => running_at(next, commands, None, spent, most),
        None => PlanState::Done(spent),
    }
}

impl Waiting {
    /// What the reply makes of the plan.
    pub(crate) fn take(self, reply: AdminReply) -> PlanState
        ensures { result ≡ plan_after self reply }
    {
        let Self {
            current,
            commands,
            is_open,
            spent,
            most,
        } = self;
        let spent = spent + 1;
        if let AdminReply::Refused(fault) = &reply {
            return PlanState::Stopped(StopCause::Refused(spent, *fault), spent);
        }
        match left_after(&current, is_open, reply) {
            Left::Strange => PlanState::Stopped(StopCause::StrangeReply, spent),
            Left::Again(listed) => running_at(current, commands, listed, spent, most),
            Left::Next => next_at(commands, spent, most),
        }
    }
}
