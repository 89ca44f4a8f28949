ghost use Rattle.std.specs.Prelude.{◌≡◌, ◌≢◌, ℕ, ◌<◌, ◌↔◌, IfNone, IfSome, IsTrue, MatchOption, None, Some, length};
ghost use Rattle.cluster_admin.specs.Phases.{AreTwo, Phase as SlotPhase, IsPhase, comes_in, goes_in, owner_in};
ghost use Rattle.cluster_admin.specs.Surveys.{HasPhaseIn, IsOpenSurvey, IsOwnerBeside, IsSaid, NoneAt, StandsIn};
ghost use Rattle.cluster_admin.specs.Surveys.{Survey as SurveyView, importing_at, migrating_at, owner_at, phase_seen};

use crate::phase::Phase;
use crate::survey::Survey;
use key_slots::{NodeId, SLOTS, Slot};

impl Survey {
    /// The phase of the slot, or None where its owners and marks are those of no phase. Takes no memory.
    pub fn phase_of(&self, slot: Slot) -> Option<Phase>
        ensures phase { IfSome result (λ p. HasPhaseIn self.now slot (phase_seen self.now slot p)) }
        ensures none { IfNone result ((p : SlotPhase) → HasPhaseIn self.now slot p → ⊥) }
    {
        let phase = self.likely_phase(slot);
        // Nearly every slot is closed, and that needs no second look.
        if let Phase::Closed(_) = phase {
            return Some(phase);
        }
        if self.is_in(slot, &phase) {
            Some(phase)
        } else {
            None
        }
    }

    /// Whether every slot is in some phase. Takes no memory, and looks at each slot of each node a few times.
    pub fn is_open(&self) -> bool
        ensures { IsTrue result ↔ IsOpenSurvey self.now }
    {
        let _nodes = self.nodes();
        for number in 0..SLOTS as u16 {
            if self.phase_of(Slot::of(number)).is_none() {
                return false;
            }
        }
        true
    }

    /// The only phase that the slot can be in. Where that is closed, it is.
    fn likely_phase(&self, slot: Slot) -> Phase
        ensures likely { (p : SlotPhase) → HasPhaseIn self.now slot p
            → HasPhaseIn self.now slot (phase_seen self.now slot result) }
        ensures closed { (o : ℕ) → result ≡ Phase.Closed o
            → HasPhaseIn self.now slot (phase_seen self.now slot result) }
    {
        match self.migration(slot) {
            None => match self.import(slot) {
                None => self.likely_unmarked(slot),
                Some((target, source)) => Phase::Importing { source, target },
            },
            Some((source, target)) => match self.import(slot) {
                None => Phase::TargetTold { source, target },
                Some(_) => Phase::Migrating { source, target },
            },
        }
    }

    /// A node that migrates the slot, and where to.
    fn migration(&self, slot: Slot) -> Option<(NodeId, NodeId)>
        ensures { MatchOption result (NoneAt (length self.now.rows) (λ n. migrating_at self.now n slot))
            (λ p. (p.0 < length self.now.rows) × (migrating_at self.now p.0 slot ≡ Some p.1)) }
    {
        for number in 0..self.nodes() {
            let node = NodeId::of(number);
            if let Some(target) = self.migrating(node, slot) {
                return Some((node, target));
            }
        }
        None
    }

    /// A node that imports the slot, and where from.
    fn import(&self, slot: Slot) -> Option<(NodeId, NodeId)>
        ensures { MatchOption result (NoneAt (length self.now.rows) (λ n. importing_at self.now n slot))
            (λ p. (p.0 < length self.now.rows) × (importing_at self.now p.0 slot ≡ Some p.1)) }
    {
        for number in 0..self.nodes() {
            let node = NodeId::of(number);
            if let Some(source) = self.importing(node, slot) {
                return Some((node, source));
            }
        }
        None
    }

    /// The only phase that a slot without marks can be in. Where the nodes do not agree, both that are said to own the
    /// slot say the same one, which is the target. Where they do, it is closed.
    fn likely_unmarked(&self, slot: Slot) -> Phase
        requires goes { NoneAt (length self.now.rows) (λ n. migrating_at self.now n slot) }
        requires comes { NoneAt (length self.now.rows) (λ n. importing_at self.now n slot) }
        ensures likely { (p : SlotPhase) → HasPhaseIn self.now slot p
            → HasPhaseIn self.now slot (phase_seen self.now slot result) }
        ensures closed { (o : ℕ) → result ≡ Phase.Closed o
            → HasPhaseIn self.now slot (phase_seen self.now slot result) }
    {
        let _nodes = self.nodes();
        let first = self.owner(NodeId::of(0), slot);
        let target = self.owner(first, slot);
        if first != target {
            return Phase::SourceTold {
                source: first,
                target,
            };
        }
        match self.owner_beside(target, slot) {
            None => Phase::Closed(target),
            Some(source) => Phase::SourceTold { source, target },
        }
    }

    /// Another node than this one, which is the owner by the first node, that is said to own the slot.
    fn owner_beside(&self, target: NodeId, slot: Slot) -> Option<NodeId>
        requires { target ≡ owner_at self.now 0 slot }
        ensures { MatchOption result ((n : ℕ) → n < length self.now.rows → owner_at self.now n slot ≡ target)
            (IsOwnerBeside self.now slot target) }
    {
        for number in 1..self.nodes() {
            let owner = self.owner(NodeId::of(number), slot);
            if owner != target {
                return Some(owner);
            }
        }
        None
    }

    /// Whether the slot is in this phase.
    fn is_in(&self, slot: Slot, phase: &Phase) -> bool
        ensures { IsTrue result ↔ HasPhaseIn self.now slot (phase_seen self.now slot phase.now) }
    {
        if !self.may_be(slot, phase) {
            return false;
        }
        for number in 0..self.nodes() {
            if !self.stands(NodeId::of(number), slot, phase) {
                return false;
            }
        }
        true
    }

    /// Whether there may be this phase among these nodes.
    fn may_be(&self, slot: Slot, phase: &Phase) -> bool
        ensures { IsTrue result ↔ IsPhase (length self.now.rows) (phase_seen self.now slot phase.now) }
    {
        match *phase {
            Phase::Closed(owner) => self.has_node(owner),
            Phase::Importing { source, target } => self.are_two(source, target),
            Phase::Migrating { source, target } => self.are_two(source, target),
            Phase::TargetTold { source, target } => self.are_two(source, target),
            Phase::SourceTold { source, target } => self.are_told(slot, source, target),
        }
    }

    /// Whether the source and the target are told, and some other node still says the source.
    fn are_told(&self, slot: Slot, source: NodeId, target: NodeId) -> bool
        ensures { IsTrue result
            ↔ IsPhase (length self.now.rows) (phase_seen self.now slot (Phase.SourceTold source target)) }
    {
        if !self.are_two(source, target) {
            return false;
        }
        let by_source = self.owner(source, slot);
        let by_target = self.owner(target, slot);
        if by_source == source {
            return false;
        }
        if by_target == source {
            return false;
        }
        self.is_said(slot, source)
    }

    /// Whether the node is one of these.
    fn has_node(&self, node: NodeId) -> bool
        ensures { IsTrue result ↔ (node < length self.now.rows) }
    {
        node.get() < self.nodes()
    }

    /// Whether these are two of the nodes.
    fn are_two(&self, source: NodeId, target: NodeId) -> bool
        ensures { IsTrue result ↔ AreTwo (length self.now.rows) source target }
    {
        source != target && self.has_node(source) && self.has_node(target)
    }

    /// Whether some node says that this one owns the slot.
    fn is_said(&self, slot: Slot, owner: NodeId) -> bool
        ensures { IsTrue result ↔ IsSaid self.now slot owner }
    {
        for number in 0..self.nodes() {
            if self.owner(NodeId::of(number), slot) == owner {
                return true;
            }
        }
        false
    }

    /// Whether the node says of the slot, and has as its marks, what the phase wants.
    fn stands(&self, node: NodeId, slot: Slot, phase: &Phase) -> bool
        requires { node < length self.now.rows }
        ensures { IsTrue result ↔ StandsIn self.now slot (phase_seen self.now slot phase.now) node }
    {
        self.owner(node, slot) == self.owner_by(node, slot, phase)
            && self.migrating(node, slot) == goes_by(node, phase)
            && self.importing(node, slot) == comes_by(node, phase)
    }

    /// What the node says of the slot's owner in this phase.
    fn owner_by(&self, node: NodeId, slot: Slot, phase: &Phase) -> NodeId
        requires { node < length self.now.rows }
        ensures { result ≡ owner_in (phase_seen self.now slot phase.now) node }
    {
        match *phase {
            Phase::Closed(owner) => owner,
            Phase::Importing { source, .. } => source,
            Phase::Migrating { source, .. } => source,
            Phase::TargetTold { source, target } => { if node == target { target } else { source } }
            Phase::SourceTold { source, target } => {
                if self.owner(node, slot) == source {
                    source
                } else {
                    target
                }
            }
        }
    }
}

/// The node's migrating mark in this phase.
fn goes_by(node: NodeId, phase: &Phase) -> Option<NodeId>
    ensures { (v : SurveyView) (s : ℕ) → result ≡ goes_in (phase_seen v s phase.now) node }
{
    match *phase {
        Phase::Migrating { source, target } if node == source => Some(target),
        Phase::TargetTold { source, target } if node == source => Some(target),
        _ => None,
    }
}

/// The node's importing mark in this phase.
fn comes_by(node: NodeId, phase: &Phase) -> Option<NodeId>
    ensures { (v : SurveyView) (s : ℕ) → result ≡ comes_in (phase_seen v s phase.now) node }
{
    match *phase {
        Phase::Importing { source, target } if node == target => Some(source),
        Phase::Migrating { source, target } if node == target => Some(source),
        _ => None,
    }
}
