//! What the definitions of this crate amount to, in other words.
ghost use Rattle.plan_outlines.specs.Changes.{RangesCoverAllSlots};
ghost use Rattle.plan_outlines.specs.Nodes.{NodesHoldAllSlots};

/// The ranges follow one another from slot 0 to the last without a gap or an overlap, each slot has the owners of its
/// range, no two neighbours have the same owners, and the slots of all ranges are as many as the tables have.
pub fn ranges_cover_all_slots()
    ensures { RangesCoverAllSlots }
{}

/// What the nodes have before adds up to all slots, and so does what they have after.
pub fn nodes_hold_all_slots()
    ensures { NodesHoldAllSlots }
{}
