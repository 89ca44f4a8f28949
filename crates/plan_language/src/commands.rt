ghost use Rattle.std.specs.Prelude.{◌≡◌, ◌<◌, ◌≤◌, ◌+◌, ℕ, [], ◌∷◌, IfSome, MatchOption};
ghost use Rattle.plan_language.specs.MovesLeft.{others_from, slot_left, move_left, importing_of, IsMoveLeft};
ghost use Rattle.plan_language.specs.MovesLeft.{commands_left, AreCommands};
ghost use Rattle.plan_language.specs.Lines.{plan_commands, line_commands, IsLine};
ghost use Rattle.plan_language.specs.declared.commands.MoveStep.TheVariants.{Migrating};
ghost use Rattle.plan_language.specs.declared.plan_command.PlanCommand.TheVariants.{SetNode};

use crate::line::Line;
use crate::plan::Plan;
use crate::plan_command::PlanCommand;
use key_slots::{NodeId, Slot};
use std::marker::Model;

/// Which command of a slot's move comes next. Each stands where it does for a reason ("Redis Cluster live resharding
/// explained", on the page of CLUSTER SETSLOT).
#[derive(Clone, Copy)]
pub(crate) enum MoveStep {
    /// IMPORTING at the target, before MIGRATING: a target that does not import refuses whom the source sends with ASK.
    Importing,
    /// MIGRATING at the source, before the drain: a key that was moved is asked for at the target.
    Migrating,
    /// The drain, before any NODE: a source that gives the slot up loses the keys that it still holds.
    Drain,
    /// NODE at the target, before the source: else no node would serve the slot in between.
    TargetNode,
    /// NODE at the source, which ends its mark, before the others: until then its answers lead to the target.
    SourceNode,
    /// NODE at the first node, from this number on, that is neither the source nor the target.
    OtherNode(u8),
}

/// Where in a `move` line a plan stands.
#[derive(Clone, Copy)]
pub(crate) struct MoveCommands {
    slot: Slot,
    last: Slot,
    source: NodeId,
    target: NodeId,
    batch: u16,
    step: MoveStep,
}

/// The first of so many nodes, from this number on, that is neither the source nor the target.
#[tactic(auto, using(crate::proofs::MovesLeft::others_from_here))]
fn other_from(from: u8, nodes: u8, source: NodeId, target: NodeId) -> Option<u8>
    ensures { MatchOption result (others_from nodes source target from ≡ [])
        (λ m. (m < nodes)
        × (others_from nodes source target from ≡ m ∷ others_from nodes source target (m + 1))) }
{
    for node in from..nodes {
        if node != source.get() && node != target.get() {
            return Some(node);
        }
    }
    None
}

impl MoveCommands {
    fn importing(self) -> (PlanCommand, Self)
        ensures { result ≡ (importing_of self, record self { step = Migrating }) }
    {
        let command = PlanCommand::Importing {
            slot: self.slot,
            source: self.source,
            at: self.target,
        };
        (
            command,
            Self {
                step: MoveStep::Migrating,
                ..self
            },
        )
    }

    fn set_node(self, at: NodeId, step: MoveStep) -> (PlanCommand, Self)
        ensures { result ≡ (SetNode self.slot self.target at, record self { step = step }) }
    {
        let command = PlanCommand::SetNode {
            slot: self.slot,
            owner: self.target,
            at,
        };
        (command, Self { step, ..self })
    }

    /// The next command, and where the plan stands after it.
    #[tactic(auto, using(crate::proofs::MovesLeft::moves_from_here))]
    fn next(self, nodes: u8) -> Option<(PlanCommand, Self)>
        requires { IsMoveLeft self }
        ensures { MatchOption result (move_left nodes self ≡ [])
            (λ p. (move_left nodes self ≡ p.0 ∷ move_left nodes p.1) × IsMoveLeft p.1) }
    {
        match self.step {
            MoveStep::Importing => Some(self.importing()),
            MoveStep::Migrating => {
                let command = PlanCommand::Migrating {
                    slot: self.slot,
                    target: self.target,
                    at: self.source,
                };
                Some((
                    command,
                    Self {
                        step: MoveStep::Drain,
                        ..self
                    },
                ))
            }
            MoveStep::Drain => {
                let command = PlanCommand::Drain {
                    slot: self.slot,
                    source: self.source,
                    target: self.target,
                    batch: self.batch,
                };
                Some((
                    command,
                    Self {
                        step: MoveStep::TargetNode,
                        ..self
                    },
                ))
            }
            MoveStep::TargetNode => Some(self.set_node(self.target, MoveStep::SourceNode)),
            MoveStep::SourceNode => Some(self.set_node(self.source, MoveStep::OtherNode(0))),
            MoveStep::OtherNode(from) => match other_from(from, nodes, self.source, self.target) {
                Some(node) => Some(self.set_node(NodeId::of(node), MoveStep::OtherNode(node + 1))),
                None => self.next_slot(nodes),
            },
        }
    }

    /// The first command of the next slot, where this slot has none left.
    #[tactic(auto, using(crate::proofs::MovesLeft::move_ends, crate::proofs::MovesLeft::move_goes))]
    fn next_slot(self, nodes: u8) -> Option<(PlanCommand, Self)>
        requires left { IsMoveLeft self }
        requires ended { slot_left nodes self.slot self.source self.target self.batch self.step ≡ [] }
        ensures { MatchOption result (move_left nodes self ≡ [])
            (λ p. (move_left nodes self ≡ p.0 ∷ move_left nodes p.1) × IsMoveLeft p.1) }
    {
        if self.slot == self.last {
            return None;
        }
        let slot = Slot::of(self.slot.get() + 1);
        Some(Self { slot, ..self }.importing())
    }
}

/// The commands of a plan that are left, in a cluster of so many nodes: those of the `move` line at which the plan
/// stands, and those of the lines from `line` on. It is moved with each command, so it has the plan's lines alone.
#[derive(Drop)]
pub struct PlanCommands {
    nodes: u8,
    lines: Vec<Line>,
    line: usize,
    left: Option<MoveCommands>,
}

impl Model for PlanCommands {
    ghost use Rattle.std.specs.Prelude.{◌++◌, drop};
    ghost use Rattle.std.specs.List.{AllByRecursion};
    ghost use Rattle.plan_language.specs.CommandsView.{CommandsView};
    ghost use Rattle.plan_language.specs.Lines.{IsLine, plan_commands};
    ghost use Rattle.plan_language.specs.MovesLeft.{commands_left, AreCommands};

    ghost Value = { CommandsView };

    ghost view = { λ c. record {
      nodes = c.nodes;
      left = commands_left c.nodes c.left ++ plan_commands c.nodes (drop c.line c.lines.items);
    } };

    ghost invariant = { λ c. AreCommands c.left × AllByRecursion IsLine c.lines.items };
}

impl PlanCommands {
    /// All commands of the plan. Takes no memory.
    pub fn of(plan: Plan, nodes: u8) -> Self
        ensures { result ≡ record { nodes = nodes; left = plan_commands nodes plan.lines } }
    {
        Self {
            nodes,
            lines: plan.into_lines(),
            line: 0,
            left: None,
        }
    }

    /// Takes the first command that is left. Takes no memory.
    pub fn next(&mut self) -> Option<PlanCommand>
        ensures { MatchOption result ((self.old.left ≡ []) × (self.new ≡ self.old))
            (λ o. (self.old.left ≡ o ∷ self.new.left) × (self.new.nodes ≡ self.old.nodes)) }
    {
        if let Some((command, left)) = next_of_move(self.left, self.nodes) {
            self.left = Some(left);
            return Some(command);
        }
        let line = *self.lines.get(self.line)?;
        let (command, left) = begin(line);
        self.line += 1;
        self.left = left;
        Some(command)
    }

    /// How many nodes there are.
    pub fn nodes(&self) -> u8
        ensures { result ≡ self.now.nodes }
    {
        self.nodes
    }
}

/// The next command of a `move` line, where one is left.
fn next_of_move(left: Option<MoveCommands>, nodes: u8) -> Option<(PlanCommand, MoveCommands)>
    requires { AreCommands left }
    ensures { MatchOption result (commands_left nodes left ≡ [])
        (λ p. (commands_left nodes left ≡ p.0 ∷ move_left nodes p.1) × IsMoveLeft p.1) }
{
    left?.next(nodes)
}

/// The first command of a line, and where the plan stands after it.
#[tactic(auto, using(crate::proofs::MovesLeft::moves_first))]
fn begin(line: Line) -> (PlanCommand, Option<MoveCommands>)
    requires { IsLine line }
    ensures commands { (n : ℕ) → line_commands n line ≡ result.0 ∷ commands_left n result.1 }
    ensures left { IfSome result.1 IsMoveLeft }
{
    match line {
        Line::Command(command) => (command, None),
        Line::Move {
            first,
            last,
            source,
            target,
            batch,
        } => {
            let begun = MoveCommands {
                slot: first,
                last,
                source,
                target,
                batch,
                step: MoveStep::Importing,
            };
            let (command, left) = begun.importing();
            (command, Some(left))
        }
    }
}
