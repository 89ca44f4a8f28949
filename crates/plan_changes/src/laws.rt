//! What the definitions of this crate amount to, in other words.
ghost use Rattle.plan_changes.specs.Batches.{BatchesHaveBounds};
ghost use Rattle.plan_changes.specs.Finals.{LegalTellsNodes, OwnersAreFinal};
ghost use Rattle.plan_changes.specs.Opening.{LegalPlansClose, OpenAreCounted};
ghost use Rattle.plan_changes.specs.Runs.{RunsAreOfMarks};

/// In the end each slot has the owner that the last SETSLOT NODE told, or the one that it had before.
pub fn owners_are_final()
    ensures { OwnersAreFinal }
{}

/// A plan that is legal over closed slots tells nodes of the cluster alone.
pub fn legal_plans_tell_nodes()
    ensures { LegalTellsNodes }
{}

/// A legal plan leaves no slot open: after it each is closed, at its owner in the end.
pub fn legal_plans_close()
    ensures { LegalPlansClose }
{}

/// In a legal plan the slots that are open, by their phases, are those of whose legs commands are left.
pub fn open_slots_are_counted()
    ensures { OpenAreCounted }
{}

/// The runs of marked slots ascend, no two of them adjoin, and they have the slots that are marked and no others.
pub fn runs_are_of_marks()
    ensures { RunsAreOfMarks }
{}

/// The least and the greatest batch are batches of drains, and no drain has one beyond them; both are 0 where nothing
/// is drained.
pub fn batches_have_bounds()
    ensures { BatchesHaveBounds }
{}
