ghost use Rattle.std.specs.Prelude.{◌≡◌, ◌≤◌, ◌<◌, ◌+◌, ◌-◌, ◌*◌, ℕ, [], ◌∷◌, false, length, IfOk, MatchOption};
ghost use Rattle.std.specs.Prelude.{MatchResult};
ghost use Rattle.plan_language.specs.Lines.{plan_commands, line_commands, line_count, moves, others};
ghost use Rattle.plan_language.specs.Limits.{few};
ghost use Rattle.plan_language.specs.Lines.{count, IsLine};
ghost use Rattle.plan_language.specs.Moves.{move_of};
ghost use Rattle.cluster_admin.specs.Phases.{Phase as SlotPhase, Phases};
ghost use Rattle.cluster_admin.specs.Surveys.{HasPhaseIn, IsOpenSurvey, Survey as SurveyView, phase_seen};
ghost use Rattle.plan_semantics.specs.Plans.{slot_named};
ghost use Rattle.plan_runner.specs.SlotStates.{is_open, none_told};
ghost use Rattle.std.specs.List.{AllByRecursion};
ghost use Rattle.plan_semantics.specs.Retargets.{importings, phase_target};
ghost use Rattle.plan_runner.specs.Targets.{comes_again, marked};
ghost use Rattle.plan_runner.specs.Standing.{first_progress, next_of, noted, placed, slot_at, IsLowestOpen, Stands};
ghost use Rattle.plan_runner.specs.Standing.{Takes};
ghost use Rattle.plan_runner.specs.Verifying.{IsRefused};
ghost use Rattle.plan_semantics.specs.Surveyed.{Shows, node_count};

use crate::node_set::NodeSet;
use crate::rules::Rules;
use crate::slot_state::SlotState;
use crate::verify_fault::{CommandPlace, VerifyFault};
use byte_texts::Memory;
use cluster_admin::{Phase, Survey};
use key_slots::{NodeId, SLOTS, Slot};
use plan_language::{Line, PlanCommand, others_len};
use std::alloc::Global;
use std::marker::Model;

/// How far a slot has come, the targets that it had, and the number of the last command that names it, with sets of
/// nodes.
#[derive(Clone, Copy)]
pub(crate) struct SlotProgress<S> {
    state: SlotState<S>,
    targets: S,
    last: u32,
}

/// The slots as the commands of a plan so far leave them, how many commands these are, and whether some slot had one
/// target twice. Its sets of nodes are of this width.
#[derive(Drop)]
pub(crate) struct PlanCheck<const N: usize> {
    slots: Vec<SlotProgress<NodeSet<N>>>,
    commands: u32,
    retargets: bool,
}

impl<const N: usize> Model for PlanCheck<N> {
    ghost use Rattle.std.specs.Prelude.{◌≡◌, ◌≤◌, length};
    ghost use Rattle.plan_runner.specs.Standing.{CheckView};

    ghost Value = { CheckView };

    ghost view = { λ c. record { slots = c.slots.items; commands = c.commands; retargets = c.retargets } };

    ghost invariant = { λ c. (length c.slots.items ≡ 16384) × (N ≤ 255) };
}

/// The slot that the command names.
fn slot_of(command: &PlanCommand) -> Slot
    ensures { result ≡ slot_named command.now }
{
    match *command {
        PlanCommand::Importing { slot, .. }
        | PlanCommand::Migrating { slot, .. }
        | PlanCommand::Drain { slot, .. }
        | PlanCommand::SetNode { slot, .. }
        | PlanCommand::Stable { slot, .. } => slot,
    }
}

impl<const N: usize> SlotProgress<NodeSet<N>> {
    /// The targets, with the one of a command that begins a move.
    fn targets_after(&self, command: &PlanCommand) -> NodeSet<N>
        requires { AllByRecursion (λ m. m < N) (importings (command.now ∷ [])) }
        ensures { result ≡ marked self.now.targets (importings (command.now ∷ [])) }
    {
        match *command {
            PlanCommand::Importing { at, .. } => self.targets.with(at),
            _ => self.targets,
        }
    }

    /// Whether the command begins a move to a node that was a target before.
    fn comes_again(&self, command: &PlanCommand) -> bool
        requires { AllByRecursion (λ m. m < N) (importings (command.now ∷ [])) }
        ensures { result ≡ comes_again self.now.targets (importings (command.now ∷ [])) }
    {
        match *command {
            PlanCommand::Importing { at, .. } => self.targets.has(at),
            _ => false,
        }
    }
}

/// A slot before the first command, in the phase that the survey shows.
fn first_progress<const N: usize>(survey: &Survey, slot: Slot) -> SlotProgress<NodeSet<N>>
    requires seen { IsOpenSurvey survey.now }
    requires nodes { node_count survey.now ≤ N }
    requires most { N ≤ 255 }
    ensures { (p : SlotPhase) → HasPhaseIn survey.now slot p
        → result ≡ first_progress (node_count survey.now) p }
{
    match survey.phase_of(slot) {
        Some(phase) => SlotProgress {
            state: SlotState::first(survey, slot, &phase),
            targets: first_targets(&phase),
            last: 0,
        },
        None => unreachable!(),
    }
}

/// The target of a slot that is on its way.
fn first_targets<const N: usize>(phase: &Phase) -> NodeSet<N>
    requires nodes { (v : SurveyView) (s : ℕ) → AllByRecursion (λ m. m < N) (phase_target (phase_seen v s phase.now)) }
    requires most { N ≤ 255 }
    ensures { (v : SurveyView) (s : ℕ) → result ≡ marked none_told (phase_target (phase_seen v s phase.now)) }
{
    match *phase {
        Phase::Closed(_) => NodeSet::empty(),
        Phase::Importing { target, .. }
        | Phase::Migrating { target, .. }
        | Phase::TargetTold { target, .. }
        | Phase::SourceTold { target, .. } => NodeSet::empty().with(target),
    }
}

impl<const N: usize> PlanCheck<N> {
    /// Before the first command, each slot in the phase that the survey shows.
    pub(crate) fn new(alloc: Global, survey: &Survey) -> Result<Self, Memory>
        requires seen { IsOpenSurvey survey.now }
        requires nodes { node_count survey.now ≤ N }
        requires most { N ≤ 255 }
        ensures fresh { IfOk result (λ c. c.commands ≡ 0) }
        ensures stands { IfOk result (λ c. (v : ℕ) (phases : Phases) → Shows survey.now phases
            → Stands v (node_count survey.now) phases [] c) }
    {
        let mut slots = Vec::with_capacity(alloc, SLOTS)?;
        slots.resize(SLOTS, first_progress(survey, Slot::of(0)))?;
        for number in 1..SLOTS {
            slots[number] = first_progress(survey, Slot::of(number as u16));
        }
        Ok(Self {
            slots,
            commands: 0,
            retargets: false,
        })
    }

    /// Whether some slot had one target twice.
    pub(crate) fn retargets(&self) -> bool
        ensures { result ≡ self.now.retargets }
    {
        self.retargets
    }

    /// The state to which one more command leads its slot, or its fault.
    fn next(&self, command: PlanCommand, rules: Rules) -> Result<SlotState<NodeSet<N>>, VerifyFault>
        requires nodes { rules.nodes ≤ N }
        requires room { self.now.commands < 4294967295 }
        ensures value { result ≡ placed (next_of rules.version rules.nodes self.now command)
            (record { slot = slot_named command; command = self.now.commands + 1 }) }
        ensures within { slot_named command < 16384 }
    {
        let slot = slot_of(&command);
        let state = &self.slots[usize::from(slot.get())].state;
        match state.next(command, rules) {
            Ok(next) => Ok(next),
            Err(fault) => Err(fault.at(CommandPlace {
                slot,
                command: self.commands + 1,
            })),
        }
    }

    /// Notes one more command, or so many that begin with it, which leave its slot in this state.
    fn note(&mut self, command: &PlanCommand, state: SlotState<NodeSet<N>>, count: u32)
        requires room { self.old.commands + count < 4294967295 }
        requires nodes { AllByRecursion (λ m. m < N) (importings (command.now ∷ [])) }
        ensures noted { self.new ≡ noted self.old command.now state.entry count }
        ensures within { slot_named command.now < 16384 }
    {
        let index = usize::from(slot_of(command).get());
        let progress = self.slots[index];
        let comes_again = progress.comes_again(command);
        let targets = progress.targets_after(command);
        self.commands += count;
        self.retargets = self.retargets || comes_again;
        self.slots[index] = SlotProgress {
            state,
            targets,
            last: self.commands,
        };
    }

    /// Takes one more command.
    fn take(&mut self, command: PlanCommand, rules: Rules) -> Result<(), VerifyFault>
        requires nodes { rules.nodes ≤ N }
        requires most { N ≤ 255 }
        requires room { self.old.commands < 4294967294 }
        ensures takes { Takes rules (command ∷ []) self.old self.new result }
        ensures count { IfOk result (λ _. self.new.commands ≡ self.old.commands + 1) }
    {
        let state = self.next(command, rules)?;
        self.note(&command, state, 1);
        Ok(())
    }

    /// Takes the move of one slot, which stands for so many commands: the first of them decides.
    fn take_slot(
        &mut self,
        slot: Slot,
        source: NodeId,
        target: NodeId,
        each: u32,
        rules: Rules,
    ) -> Result<(), VerifyFault>
        requires nodes { rules.nodes ≤ N }
        requires most { N ≤ 255 }
        requires each { each ≡ 5 + length (others rules.nodes source target) }
        requires room { self.old.commands + each < 4294967295 }
        ensures takes { (b : ℕ)
            → Takes rules (move_of slot source target b (others rules.nodes source target))
            self.old self.new result }
        ensures count { IfOk result (λ _. self.new.commands ≡ self.old.commands + each) }
    {
        let importing = PlanCommand::Importing {
            slot,
            source,
            at: target,
        };
        self.next(importing, rules)?;
        self.note(&importing, SlotState::moved_to(rules, target), each);
        Ok(())
    }

    /// Takes the move of each slot from the first to the last.
    fn take_move(
        &mut self,
        first: Slot,
        last: Slot,
        source: NodeId,
        target: NodeId,
        rules: Rules,
    ) -> Result<(), VerifyFault>
        requires nodes { rules.nodes ≤ N }
        requires most { N ≤ 255 }
        requires range { first ≤ last }
        requires room { self.old.commands + 260 * (last + 1 - first) < 4294967295 }
        ensures takes { (b : ℕ)
            → Takes rules (moves rules.nodes first (last + 1 - first) source target b)
            self.old self.new result }
        ensures count { IfOk result (λ _. self.new.commands ≤ self.old.commands + 260 * (last + 1 - first)) }
    {
        let each = 5 + others_len(rules.nodes, source, target);
        for number in first.get()..last.get() + 1 {
            self.take_slot(Slot::of(number), source, target, each, rules)?;
        }
        Ok(())
    }

    /// Takes the commands of one more line.
    fn take_line(&mut self, line: Line, rules: Rules) -> Result<(), VerifyFault>
        requires nodes { rules.nodes ≤ N }
        requires most { N ≤ 255 }
        requires line { IsLine line }
        requires room { self.old.commands + 260 * line_count few line < 4294967295 }
        ensures takes { Takes rules (line_commands rules.nodes line) self.old self.new result }
        ensures count { IfOk result (λ _. self.new.commands ≤ self.old.commands + 260 * line_count few line) }
    {
        match line {
            Line::Command(command) => self.take(command, rules),
            Line::Move {
                first,
                last,
                source,
                target,
                ..
            } => self.take_move(first, last, source, target, rules),
        }
    }

    /// Takes the commands of all lines of a plan. By the limits of few nodes the lines of a plan of either limits count
    /// as no more than a plan of many may.
    pub(crate) fn take_all(&mut self, lines: &[Line], rules: Rules) -> Result<(), VerifyFault>
        requires nodes { rules.nodes ≤ N }
        requires most { N ≤ 255 }
        requires lines { AllByRecursion IsLine lines.now }
        requires room { count few lines.now ≤ 4227072 }
        requires fresh { self.old.commands ≡ 0 }
        ensures { (phases : Phases) → Stands rules.version rules.nodes phases [] self.old
            → MatchResult result
            (λ _. Stands rules.version rules.nodes phases (plan_commands rules.nodes lines.now) self.new)
            (λ f. IsRefused rules.version rules.nodes phases (plan_commands rules.nodes lines.now) f) }
    {
        for line in lines {
            self.take_line(*line, rules)?;
        }
        Ok(())
    }

    /// The lowest slot that is left open, and its last command.
    pub(crate) fn left_open(&self) -> Option<CommandPlace>
        ensures { MatchOption result ((s : ℕ) → s < 16384 → is_open (slot_at self.now.slots s).state ≡ false)
            (λ p. IsLowestOpen self.now p) }
    {
        for number in 0..SLOTS {
            let progress = &self.slots[number];
            if progress.state.is_open() {
                return Some(CommandPlace {
                    slot: Slot::of(number as u16),
                    command: progress.last,
                });
            }
        }
        None
    }
}
