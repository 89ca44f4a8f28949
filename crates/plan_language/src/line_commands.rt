ghost use Rattle.std.specs.Prelude.{◌≡◌, ◌≤◌, ◌+◌, ◌-◌, ◌*◌, ◌&&◌, length, Some};
ghost use Rattle.node_names.specs.Names.{has_node};
ghost use Rattle.plan_language.specs.Lines.{are_listed, line_commands, line_count, nodes_of, others, IsLine};
ghost use Rattle.plan_language.specs.declared.limits.Limits.{Limits};

use crate::limits::Limits;
use crate::line::Line;
use crate::plan_command::PlanCommand;
use key_slots::{NodeId, Slot};
use node_names::{NodeName, has_node};

/// How many of so many nodes are neither of the two.
#[tactic(auto, using(crate::proofs::MovesLeft::others_from_here, crate::proofs::MovesLeft::others_all))]
pub fn others_len(nodes: u8, source: NodeId, target: NodeId) -> u32
    ensures value { result ≡ length (others nodes source target) }
    ensures most { result ≤ nodes }
{
    let mut count = 0;
    for node in 0..nodes {
        if node != source.get() && node != target.get() {
            count += 1;
        }
    }
    count
}

impl Line {
    /// How many commands the line stands for.
    #[tactic(auto, using(crate::proofs::MovesLeft::moves_length))]
    pub fn expanded_len(&self, nodes: u8) -> u32
        requires { IsLine self.now }
        ensures value { result ≡ length (line_commands nodes self.now) }
        ensures most { (limits : Limits) → result ≤ 260 * line_count limits self.now }
    {
        match *self {
            Line::Command(_) => 1,
            Line::Move {
                first,
                last,
                source,
                target,
                batch: _,
            } => slots_in(first, last) * (5 + others_len(nodes, source, target)),
        }
    }

    /// How many commands the line counts as in a plan with these limits.
    pub fn count(&self, limits: Limits) -> u32
        requires { IsLine self.now }
        ensures value { result ≡ line_count limits self.now }
        ensures some { 1 ≤ result }
        ensures most { result ≤ 4227072 }
    {
        match *self {
            Line::Command(_) => 1,
            Line::Move { first, last, .. } => (u32::from(limits.nodes) + 3) * slots_in(first, last),
        }
    }

    /// The two nodes that the line mentions: one twice, where it is set stable.
    #[inline(always)]
    pub fn nodes(&self) -> (NodeId, NodeId)
        ensures { result ≡ nodes_of self.now }
    {
        match *self {
            Line::Command(PlanCommand::Importing { source, at, .. }) => (source, at),
            Line::Command(PlanCommand::Migrating { target, at, .. }) => (target, at),
            Line::Command(PlanCommand::Drain { source, target, .. }) => (source, target),
            Line::Command(PlanCommand::SetNode { owner, at, .. }) => (owner, at),
            Line::Command(PlanCommand::Stable { at, .. }) => (at, at),
            Line::Move { source, target, .. } => (source, target),
        }
    }

    /// Whether the nodes that the line mentions are among these.
    #[inline(always)]
    pub(crate) fn is_listed(&self, names: &[(NodeId, NodeName)]) -> bool
        ensures { result ≡ are_listed (Some names.now) self.now }
    {
        let (node, other) = self.nodes();
        are_both(names, node, other)
    }
}

/// Whether the two are among these. It stands apart, so that the reading of plans without names stays short.
#[inline(never)]
fn are_both(names: &[(NodeId, NodeName)], node: NodeId, other: NodeId) -> bool
    ensures { result ≡ (has_node names.now node && has_node names.now other) }
{
    has_node(names, node) && has_node(names, other)
}

/// How many slots there are from the first to the last.
fn slots_in(first: Slot, last: Slot) -> u32
    requires { first ≤ last }
    ensures value { result ≡ last + 1 - first }
    ensures some { 1 ≤ result }
    ensures most { result ≤ 16384 }
{
    u32::from(last.get()) + 1 - u32::from(first.get())
}
