ghost use Rattle.rehearsal.specs.ArmedPlans.{HeadlineSinceArming, HonestSinceArming, StaysOpen, UnmarkedIsClean};
ghost use Rattle.rehearsal.specs.ArmedPlans.{UnmarkedIsOpen};
ghost use Rattle.rehearsal.specs.CarriedOut.{ClientsKeepDone, ClientsKeepPlans, HeadlineOnceDone, HonestOnceDone};
ghost use Rattle.rehearsal.specs.CarriedOut.{RunCarriesOut, StepCarriesOut, StepsKeepPlans};

use reshard_theorem::{driven_step_by_step, headline, stopped_runs_leave_open_worlds};

/// Whatever came before, a world whose nodes agree and have no mark is clean, and so open with every slot closed, if no
/// STABLE left a key at a node that does not own its slot.
pub fn unmarked_worlds_are_clean()
    ensures clean { UnmarkedIsClean }
    ensures is_open { UnmarkedIsOpen }
{}

/// HeadlineSinceArming: the headline holds of what clients and `step` did since a plan was armed in an open world, as
/// long as the clients were honest.
pub fn headline_since_arming()
    ensures headline { HeadlineSinceArming }
    ensures honest { HonestSinceArming }
{
    headline();
    driven_step_by_step();
}

/// Wherever a plan that was armed in an open world is abandoned, the world is open, so a plan of all rests that is
/// armed there is armed in an open world.
pub fn abandoned_plans_leave_open_worlds()
    ensures { StaysOpen }
{
    stopped_runs_leave_open_worlds();
}

/// A plan that is armed stays underway, whatever clients do between its steps, and is carried out by its last command,
/// or by a run of all that is left of it; so it was, whatever clients do then.
pub fn armed_plans_are_carried_out()
    ensures clients { ClientsKeepPlans }
    ensures steps { StepsKeepPlans }
    ensures step { StepCarriesOut }
    ensures run { RunCarriesOut }
    ensures done { ClientsKeepDone }
{}

/// HeadlineOnceDone: the headline holds of what clients and steps did since a plan was armed in an open world that is
/// done now, as long as the clients were honest, and the world is clean under the plan's final owners.
pub fn done_plans_leave_clean_worlds()
    ensures headline { HeadlineOnceDone }
    ensures honest { HonestOnceDone }
{
    headline();
}
