ghost use Rattle.std.specs.Prelude.{◌≡◌, ◌≤◌, true, cond, Ok, Err};
ghost use Rattle.plan_runner.specs.SlotStates.{begins, goes_on, is_known, is_open, next_by_row, next_state, tells};
ghost use Rattle.plan_runner.specs.SlotStates.{first_state, moved_to, told_but, told_so_far, untouched, importing};
ghost use Rattle.plan_runner.specs.SlotStates.{migrating, drained, target_told, source_told};
ghost use Rattle.cluster_admin.specs.Surveys.{nodes_saying, phase_seen};
ghost use Rattle.plan_runner.specs.declared.command_fault.CommandFault.TheVariants.{OutOfOrder};
ghost use Rattle.plan_runner.specs.declared.slot_state.SlotState.TheVariants.{Untouched};
ghost use Rattle.plan_semantics.specs.Surveyed.{node_count};

use crate::command_fault::CommandFault;
use crate::node_set::NodeSet;
use crate::rules::Rules;
use cluster_admin::{Phase, Survey};
use key_slots::{NodeId, Slot};
use plan_language::PlanCommand;

/// How far a slot has come by the commands of the plan so far, with sets of nodes.
#[derive(Clone, Copy)]
pub(crate) enum SlotState<S> {
    /// All nodes know this owner, and the slot may move.
    Untouched {
        owner: NodeId,
    },
    /// The target imports the slot from the source, which owns it and has no mark.
    Importing {
        source: NodeId,
        target: NodeId,
    },
    /// The target imports the slot, and the source migrates it: keys may lie at both.
    Migrating {
        source: NodeId,
        target: NodeId,
    },
    /// After the drain: keys lie at the target alone, and all nodes still name the source.
    Drained {
        source: NodeId,
        target: NodeId,
    },
    /// The target knows that it is the owner.
    TargetTold {
        source: NodeId,
        target: NodeId,
    },
    /// The target, the source and so many others know the owner.
    SourceTold {
        source: NodeId,
        target: NodeId,
        told: S,
    },
    /// Every node knows the owner, and the slot may not move again.
    Moved,
}

/// The state that a command leads to, with sets of this width, or its fault.
type Next<const N: usize> = Result<SlotState<NodeSet<N>>, CommandFault>;

/// Whether every node that the command names is one of so many.
fn is_known(command: &PlanCommand, nodes: u8) -> bool
    ensures { result ≡ is_known nodes command.now }
{
    let (first, second) = match *command {
        PlanCommand::Importing {
            slot: _,
            source,
            at,
        } => (source, at),
        PlanCommand::Migrating {
            slot: _,
            target,
            at,
        } => (target, at),
        PlanCommand::Drain {
            slot: _,
            source,
            target,
            batch: _,
        } => (source, target),
        PlanCommand::SetNode { slot: _, owner, at } => (owner, at),
        PlanCommand::Stable { slot: _, at } => return at.get() < nodes,
    };
    first.get() < nodes && second.get() < nodes
}

/// The state that a command leads to, if its nodes are the right ones.
fn goes_on<const N: usize>(right: bool, next: SlotState<NodeSet<N>>) -> Next<N>
    ensures { result ≡ goes_on right next.entry }
{
    if right {
        Ok(next)
    } else {
        Err(CommandFault::WrongNode)
    }
}

/// The state that a `node` command leads to, if it names the new owner at a node whose turn it is.
fn tells<const N: usize>(right: bool, in_turn: bool, next: SlotState<NodeSet<N>>) -> Next<N>
    ensures { result ≡ tells right in_turn next.entry }
{
    if !right {
        Err(CommandFault::WrongNode)
    } else if !in_turn {
        Err(CommandFault::OutOfOrder)
    } else {
        Ok(next)
    }
}

/// The state of a slot whose source is told, as these nodes are.
fn told_so_far<const N: usize>(
    rules: Rules,
    source: NodeId,
    target: NodeId,
    told: NodeSet<N>,
) -> SlotState<NodeSet<N>>
    requires { rules.nodes ≤ N }
    ensures { result ≡ told_so_far rules.version rules.nodes source target told.entry }
{
    if told.has_all(rules.nodes) {
        SlotState::moved_to(rules, target)
    } else {
        SlotState::SourceTold {
            source,
            target,
            told,
        }
    }
}

/// The state that the first command of a move leads to.
fn begins<const N: usize>(owner: NodeId, source: NodeId, target: NodeId) -> Next<N>
    ensures { result ≡ begins owner source target }
{
    if source == target {
        Err(CommandFault::SameNode)
    } else if source == owner {
        Ok(SlotState::Importing { source, target })
    } else {
        Err(CommandFault::NotOwner)
    }
}

/// What a command makes of an untouched slot of this owner.
fn next_when_untouched<const N: usize>(command: PlanCommand, owner: NodeId) -> Next<N>
    ensures { result ≡ untouched owner command }
{
    match command {
        PlanCommand::Importing { source, at, .. } => begins(owner, source, at),
        _ => Err(CommandFault::OutOfOrder),
    }
}

/// All nodes but those that say that this one is the slot's owner.
#[tactic(auto, using(crate::proofs::Surveyed::saying))]
fn told_but_saying<const N: usize>(survey: &Survey, slot: Slot, owner: NodeId) -> NodeSet<N>
    requires nodes { node_count survey.now ≤ N }
    requires most { N ≤ 255 }
    ensures { result ≡ told_but (node_count survey.now) (nodes_saying survey.now slot owner) }
{
    let nodes = survey.nodes();
    let mut told = NodeSet::empty();
    for number in 0..nodes {
        if survey.owner(NodeId::of(number), slot) != owner {
            told = told.with(NodeId::of(number));
        }
    }
    told
}

/// The state that `stable` leads to, if it stands at the target.
fn taken_back<const N: usize>(at_target: bool, source: NodeId) -> Next<N>
    ensures { result ≡ cond at_target (Ok (Untouched source)) (Err OutOfOrder) }
{
    if at_target {
        Ok(SlotState::Untouched { owner: source })
    } else {
        Err(CommandFault::OutOfOrder)
    }
}

/// What a command makes of a slot that the target imports.
fn next_when_importing<const N: usize>(
    command: PlanCommand,
    source: NodeId,
    target: NodeId,
) -> Next<N>
    ensures { result ≡ importing source target command }
{
    match command {
        PlanCommand::Migrating { target: to, at, .. } => {
            goes_on(
                to == target && at == source,
                SlotState::Migrating { source, target },
            )
        }
        PlanCommand::Stable { at, .. } => taken_back(at == target, source),
        _ => Err(CommandFault::OutOfOrder),
    }
}

/// What a command makes of a slot that the source migrates.
fn next_when_migrating<const N: usize>(
    command: PlanCommand,
    source: NodeId,
    target: NodeId,
) -> Next<N>
    ensures { result ≡ migrating source target command }
{
    match command {
        PlanCommand::Drain {
            source: from,
            target: to,
            ..
        } => {
            goes_on(
                from == source && to == target,
                SlotState::Drained { source, target },
            )
        }
        _ => Err(CommandFault::OutOfOrder),
    }
}

/// What a command makes of a drained slot.
fn next_when_drained<const N: usize>(
    command: PlanCommand,
    source: NodeId,
    target: NodeId,
) -> Next<N>
    ensures { result ≡ drained source target command }
{
    match command {
        PlanCommand::SetNode { owner, at, .. } => {
            tells(
                owner == target,
                at == target,
                SlotState::TargetTold { source, target },
            )
        }
        _ => Err(CommandFault::OutOfOrder),
    }
}

/// What a command makes of a slot whose target is told.
fn next_when_target_told<const N: usize>(
    command: PlanCommand,
    source: NodeId,
    target: NodeId,
    rules: Rules,
) -> Next<N>
    requires nodes { rules.nodes ≤ N }
    requires most { N ≤ 255 }
    requires known { is_known rules.nodes command ≡ true }
    ensures { result ≡ target_told rules.version rules.nodes source target command }
{
    match command {
        PlanCommand::SetNode { owner, at, .. } => {
            // The set is used only where these are the target and the source. They are known to be in its width.
            let told = NodeSet::empty().with(owner).with(at);
            tells(
                owner == target,
                at == source,
                told_so_far(rules, source, target, told),
            )
        }
        _ => Err(CommandFault::OutOfOrder),
    }
}

/// What a command makes of a slot whose source is told, as these nodes are.
fn next_when_source_told<const N: usize>(
    command: PlanCommand,
    source: NodeId,
    target: NodeId,
    told: &NodeSet<N>,
    rules: Rules,
) -> Next<N>
    requires nodes { rules.nodes ≤ N }
    requires known { is_known rules.nodes command ≡ true }
    ensures { result ≡ source_told rules.version rules.nodes source target told.now command }
{
    match command {
        PlanCommand::SetNode { owner, at, .. } => {
            let next = told_so_far(rules, source, target, told.with(at));
            tells(owner == target, !told.has(at), next)
        }
        _ => Err(CommandFault::OutOfOrder),
    }
}

impl<const N: usize> SlotState<NodeSet<N>> {
    /// The state of a slot in the phase that the survey shows, before the first command.
    pub(crate) fn first(survey: &Survey, slot: Slot, phase: &Phase) -> Self
        requires nodes { node_count survey.now ≤ N }
        requires most { N ≤ 255 }
        ensures { result ≡ first_state (node_count survey.now) (phase_seen survey.now slot phase.now) }
    {
        match *phase {
            Phase::Closed(owner) => Self::Untouched { owner },
            Phase::Importing { source, target } => Self::Importing { source, target },
            Phase::Migrating { source, target } => Self::Migrating { source, target },
            Phase::TargetTold { source, target } => Self::TargetTold { source, target },
            Phase::SourceTold { source, target } => {
                let told = told_but_saying(survey, slot, source);
                Self::SourceTold {
                    source,
                    target,
                    told,
                }
            }
        }
    }

    /// The state of a slot that was moved to the target.
    pub(crate) fn moved_to(rules: Rules, target: NodeId) -> Self
        ensures { result ≡ moved_to rules.version target }
    {
        if rules.version == 1 {
            Self::Moved
        } else {
            Self::Untouched { owner: target }
        }
    }

    /// The state that the command leads to.
    #[tactic(auto, unfolding(crate::specs::SlotStates::next_by_row))]
    pub(crate) fn next(&self, command: PlanCommand, rules: Rules) -> Result<Self, CommandFault>
        requires nodes { rules.nodes ≤ N }
        requires most { N ≤ 255 }
        ensures { result ≡ next_state rules.version rules.nodes self.now command }
    {
        if !is_known(&command, rules.nodes) {
            return Err(CommandFault::UnknownNode);
        }
        match *self {
            Self::Untouched { owner } => next_when_untouched(command, owner),
            Self::Importing { source, target } => next_when_importing(command, source, target),
            Self::Migrating { source, target } => next_when_migrating(command, source, target),
            Self::Drained { source, target } => next_when_drained(command, source, target),
            Self::TargetTold { source, target } => next_when_target_told(
                command, source, target, rules,
            ),
            Self::SourceTold {
                source,
                target,
                ref told,
            } => next_when_source_told(command, source, target, told, rules),
            Self::Moved => Err(CommandFault::MovedTwice),
        }
    }

    /// Whether the slot is on its way, and not at its end.
    pub(crate) fn is_open(self) -> bool
        ensures { result ≡ is_open self.entry }
    {
        !matches!(self, Self::Untouched { .. } | Self::Moved)
    }
}
