//! What a run has done so far, as far as what is asked before and after a command has to know it.
ghost use Rattle.std.specs.Prelude.{◌≡◌, ◌<◌, ◌↔◌, false, IfOk, IsTrue, length, slice_index_or};
ghost use Rattle.redis_servers.specs.RunHistories.{HadSlots, HasMark, HoldsNoOther, IsEmptied, IsNewCourse, AreMarked};
ghost use Rattle.redis_servers.specs.RunHistories.{course_after, done_at, first_marked, had_at, holds, is_chained};
ghost use Rattle.redis_servers.specs.RunHistories.{is_source};
ghost use Rattle.redis_servers.specs.RunHistories.{source_of, taken_from, takes, target_told, told_before};
ghost use Rattle.redis_servers.specs.RunHistories.{told_to};

use byte_texts::Memory;
use cluster_admin::{AdminCommand, AdminReply, Survey};
use key_slots::{NodeId, Slot};
use slot_marks::MarkRow;
use std::alloc::Global;
use std::marker::Model;

/// The nodes that have taken slots over in this run, and those that give slots away; where each slot was marked
/// migrating last, and which node was the last to take it over.
#[derive(Drop)]
pub struct RunHistory {
    receivers: Vec<bool>,
    givers: Vec<bool>,
    sources: MarkRow,
    owners: MarkRow,
}

impl Model for RunHistory {
    ghost use Rattle.redis_servers.specs.RunHistories.{RunHistory, course_code};

    ghost Value = { RunHistory };

    ghost coded = { course_code };

    ghost view = { λ x. record {
      receivers = x.receivers.items;
      givers = x.givers.items;
      sources = x.sources;
      owners = x.owners;
    } };
}

impl RunHistory {
    /// The history before the first command, right after this survey.
    pub(crate) fn new(alloc: Global, survey: &Survey) -> Result<Self, Memory>
        ensures { IfOk result (IsNewCourse survey.now) }
    {
        let receivers = vec![in alloc; false; usize::from(survey.nodes())]?;
        let givers = marked_nodes(alloc, survey)?;
        let sources = MarkRow::new(alloc)?;
        let owners = MarkRow::new(alloc)?;
        Ok(Self {
            receivers,
            givers,
            sources,
            owners,
        })
    }

    /// The node answered the command so.
    pub(crate) fn note(&mut self, node: NodeId, command: &AdminCommand, reply: &AdminReply)
        requires receivers { node < length self.old.receivers }
        requires givers { node < length self.old.givers }
        ensures { self.new ≡ course_after node command.now reply.now self.old }
    {
        if let AdminReply::Ok = reply {
            self.note_done(node, command);
        }
    }

    fn note_done(&mut self, node: NodeId, command: &AdminCommand)
        requires receivers { node < length self.old.receivers }
        requires givers { node < length self.old.givers }
        ensures { self.new ≡ done_at node command.now self.old }
    {
        match command {
            AdminCommand::Migrating(slot, _) => {
                self.givers[usize::from(node.get())] = true;
                self.sources.set(*slot, node);
            }
            AdminCommand::SetNode(slot, owner) => {
                if *owner == node {
                    self.receivers[usize::from(node.get())] = true;
                    self.owners.set(*slot, node);
                }
            }
            _ => {}
        }
    }

    /// Whether a node that gives slots away takes some over, this one being about to.
    pub(crate) fn is_chained(&self, target: NodeId) -> bool
        ensures { result ≡ is_chained self.now target }
    {
        for place in 0..self.givers.len() {
            if self.givers[place] && self.takes(target, place) {
                return true;
            }
        }
        false
    }

    /// Whether the node of this number has taken slots over, or is the one that is about to.
    fn takes(&self, target: NodeId, place: usize) -> bool
        ensures { result ≡ takes target self.now.receivers place }
    {
        place == usize::from(target.get()) || place < self.receivers.len() && self.receivers[place]
    }

    /// Whether the node has taken a slot over, or is the one that is about to.
    pub(crate) fn takes_over(&self, target: NodeId, node: NodeId) -> bool
        ensures { result ≡ takes target self.now.receivers node }
    {
        self.takes(target, usize::from(node.get()))
    }

    /// Whether the node has taken a slot over.
    pub(crate) fn is_receiver(&self, node: NodeId) -> bool
        ensures { result ≡ slice_index_or self.now.receivers node false }
    {
        let place = usize::from(node.get());
        place < self.receivers.len() && self.receivers[place]
    }

    /// The node that the slot comes from.
    pub(crate) fn source(&self, survey: &Survey, slot: Slot) -> Option<NodeId>
        ensures { result ≡ source_of self.now survey.now slot }
    {
        match self.sources.get(slot) {
            Some(source) => Some(source),
            None => marked_at(survey, slot),
        }
    }

    /// Whether the slot comes from this node.
    fn is_source(&self, survey: &Survey, node: NodeId, slot: Slot) -> bool
        requires { node < length survey.now.rows }
        ensures { result ≡ is_source self.now survey.now node slot }
    {
        match self.sources.get(slot) {
            Some(source) => source == node,
            None => survey.migrating(node, slot).is_some(),
        }
    }

    /// The node that had taken the slot over from this one before the run began.
    fn told_before(&self, survey: &Survey, node: NodeId, slot: Slot) -> Option<NodeId>
        requires { node < length survey.now.rows }
        ensures { result ≡ told_before self.now survey.now node slot }
    {
        match self.sources.get(slot) {
            Some(_) => None,
            None => target_told(survey, slot, survey.migrating(node, slot)),
        }
    }

    /// The node that has taken the slot over from this one.
    fn told_to(&self, survey: &Survey, node: NodeId, slot: Slot) -> Option<NodeId>
        requires { node < length survey.now.rows }
        ensures { result ≡ told_to self.now survey.now node slot }
    {
        match self.owners.get(slot) {
            Some(owner) => { if owner == node { None } else { Some(owner) } }
            None => self.told_before(survey, node, slot),
        }
    }

    /// The new owner of a slot that comes from this node.
    pub(crate) fn taken_from(&self, survey: &Survey, node: NodeId, slot: Slot) -> Option<NodeId>
        requires { node < length survey.now.rows }
        ensures { result ≡ taken_from self.now survey.now node slot }
    {
        if self.is_source(survey, node, slot) {
            self.told_to(survey, node, slot)
        } else {
            None
        }
    }

    /// Whether the node has the slot, by what is known of it.
    fn holds(&self, survey: &Survey, node: NodeId, slot: Slot) -> bool
        requires { node < length survey.now.rows }
        ensures { result ≡ holds self.now survey.now node slot }
    {
        match self.owners.get(slot) {
            Some(owner) => owner == node,
            None => {
                survey.owner(node, slot) == node && self.told_before(survey, node, slot).is_none()
            }
        }
    }

    /// Whether the node had slots, and has none left but this one, which another node has taken over by now.
    pub(crate) fn is_emptied(&self, survey: &Survey, node: NodeId, slot: Slot) -> bool
        requires { node < length survey.now.rows }
        ensures { IsTrue result ↔ IsEmptied self.now survey.now node slot }
    {
        had_slots(survey, node) && self.holds_no_other(survey, node, slot)
    }

    fn holds_no_other(&self, survey: &Survey, node: NodeId, slot: Slot) -> bool
        requires { node < length survey.now.rows }
        ensures { IsTrue result ↔ HoldsNoOther self.now survey.now node slot }
    {
        for number in 0..16_384u16 {
            let other = Slot::of(number);
            if other != slot && self.holds(survey, node, other) {
                return false;
            }
        }
        true
    }
}

/// Whether the node had slots when the run began, or was to give some away.
fn had_slots(survey: &Survey, node: NodeId) -> bool
    requires { node < length survey.now.rows }
    ensures { IsTrue result ↔ HadSlots survey.now node }
{
    for number in 0..16_384u16 {
        if had_at(survey, node, Slot::of(number)) {
            return true;
        }
    }
    false
}

fn had_at(survey: &Survey, node: NodeId, slot: Slot) -> bool
    requires { node < length survey.now.rows }
    ensures { result ≡ had_at survey.now node slot }
{
    survey.owner(node, slot) == node || survey.migrating(node, slot).is_some()
}

/// The target of a mark, if it told that the slot is its own.
fn target_told(survey: &Survey, slot: Slot, target: Option<NodeId>) -> Option<NodeId>
    ensures { result ≡ target_told survey.now slot target }
{
    let target = target?;
    if target.get() < survey.nodes() && survey.owner(target, slot) == target {
        Some(target)
    } else {
        None
    }
}

/// The first node that has a migrating mark of the slot.
fn marked_at(survey: &Survey, slot: Slot) -> Option<NodeId>
    ensures { result ≡ first_marked slot 0 survey.now.rows }
{
    for number in 0..survey.nodes() {
        let node = NodeId::of(number);
        if survey.migrating(node, slot).is_some() {
            return Some(node);
        }
    }
    None
}

/// Of each node, whether it has a migrating mark.
fn marked_nodes(alloc: Global, survey: &Survey) -> Result<Vec<bool>, Memory>
    ensures many { IfOk result (λ v. length v.items ≡ length survey.now.rows) }
    ensures marked { IfOk result (λ v. AreMarked survey.now (length survey.now.rows) v.items) }
{
    let mut marked = vec![in alloc; false; usize::from(survey.nodes())]?;
    for number in 0..survey.nodes() {
        marked[usize::from(number)] = has_mark(survey, NodeId::of(number));
    }
    Ok(marked)
}

/// Whether the node has a migrating mark.
fn has_mark(survey: &Survey, node: NodeId) -> bool
    requires { node < length survey.now.rows }
    ensures { IsTrue result ↔ HasMark survey.now node }
{
    for number in 0..16_384u16 {
        if survey.migrating(node, Slot::of(number)).is_some() {
            return true;
        }
    }
    false
}
