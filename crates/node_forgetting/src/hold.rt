//! What a cluster still has of a node that is to be forgotten.
ghost use Rattle.node_forgetting.specs.Texts.{hold_text};
ghost use Rattle.node_forgetting.specs.declared.hold.Hold.TheVariants.{Marked, Named, Owns};
ghost use Rattle.std.specs.Fmt.{WritesOnOk};

use key_slots::{NodeId, Slot};
use std::fmt;

/// What a survey shows of a node for which the others still need it.
#[derive(Clone, Copy, Debug, PartialEq, Eq)]
pub enum Hold {
    /// The node owns the slot in the table of `at`.
    Owns {
        node: NodeId,
        at: NodeId,
        slot: Slot,
    },
    /// The slot's mark at `at` names the node.
    Named {
        node: NodeId,
        at: NodeId,
        slot: Slot,
    },
    /// The node has a mark of the slot itself.
    Marked {
        node: NodeId,
        slot: Slot,
    },
}

/// The text after `refused: `.
impl fmt::Display for Hold {
    ghost use Rattle.std.specs.Prelude.{Some};
    ghost use Rattle.node_forgetting.specs.Texts.{hold_text};

    ghost output = { λ h. Some (hold_text h) };

    fn fmt<W: fmt::Write>(&self, f: &mut fmt::Formatter<W>) -> fmt::Result {
        match self {
            Self::Owns { node, at, slot } => put_owns(f, *node, *at, *slot),
            Self::Named { node, at, slot } => put_named(f, *node, *at, *slot),
            Self::Marked { node, slot } => put_marked(f, *node, *slot),
        }
    }
}

/// The node owns the slot.
fn put_owns<W: fmt::Write>(
    f: &mut fmt::Formatter<W>,
    node: NodeId,
    at: NodeId,
    slot: Slot,
) -> fmt::Result
    ensures { WritesOnOk W.write_str_gives f.old result (hold_text (Owns node at slot)) f.new }
{
    write!(
        f,
        "slot {slot} belongs to {node} in the table of {at}; move its slots first (reshard plan-drain)"
    )
}

/// A mark names the node.
fn put_named<W: fmt::Write>(
    f: &mut fmt::Formatter<W>,
    node: NodeId,
    at: NodeId,
    slot: Slot,
) -> fmt::Result
    ensures { WritesOnOk W.write_str_gives f.old result (hold_text (Named node at slot)) f.new }
{
    write!(
        f,
        "the mark of slot {slot} at {at} names {node}; close the slot first (reshard resume)"
    )
}

/// The node has a mark.
fn put_marked<W: fmt::Write>(f: &mut fmt::Formatter<W>, node: NodeId, slot: Slot) -> fmt::Result
    ensures { WritesOnOk W.write_str_gives f.old result (hold_text (Marked node slot)) f.new }
{
    write!(
        f,
        "slot {slot} has a mark at {node}; close the slot first (reshard resume)"
    )
}
