ghost use Rattle.cluster_world.specs.Openness.{CleanIsOpen, ClosedIsClean};
ghost use Rattle.plan_semantics.specs.Unrolling.{SpelledByPrefixes};
ghost use Rattle.reshard_theorem.specs.AnsweredLists.{RunsAreListed, ServerRunsAreListed};
ghost use Rattle.reshard_theorem.specs.Driven.{DrivenStepByStep};
ghost use Rattle.reshard_theorem.specs.DrivenRuns.{AsksStand, SomeCommandGoesOn, SourceGainsNothing, StaysBelowCost};
ghost use Rattle.reshard_theorem.specs.DrivenRuns.{WithinCost};
ghost use Rattle.reshard_theorem.specs.Headline.{HeadlineHolds, HoldsAtEachMoment};
ghost use Rattle.reshard_theorem.specs.HonestRuns.{CleanEnd, LeavesOpen, NoCommandRefused, OneStore, PrefixesAreDriven};
ghost use Rattle.reshard_theorem.specs.HonestRuns.{RepliesReplay};
ghost use Rattle.reshard_theorem.specs.QuietRuns.{QuietCost, QuietReshard, StaysBelowQuietCost};
ghost use Rattle.reshard_theorem.specs.Stages.{HeadlineOverPlans};
ghost use Rattle.reshard_theorem.specs.Surveyed.{HeadlineOverCalls, HeadlineOverSurveys, HeadlineOverTrails};
ghost use Rattle.reshard_theorem.specs.Surveyed.{OpeningsAreSurveyed};
ghost use Rattle.reshard_theorem.specs.SurveyedWorlds.{SurveysCountNodes, SurveysShowPhases};
ghost use Rattle.reshard_theorem.specs.Threads.{HeadlineOfOnePlan, HeadlineOverThreads};

/// The headline: from a clean or an open cluster, whatever commands of honest clients come between the steps of a legal
/// plan, no administrative command is refused, the plan stays within its cost, and replies and contents are those of
/// one undivided store; a plan that is carried out leaves the cluster clean under its final owners. At each moment of
/// such a run, what came before is such a run.
pub fn headline()
    ensures holds { HeadlineHolds }
    ensures moments { HoldsAtEachMoment }
{}

/// The headline holds of each of several plans, each of which is legal for the phases where the one before it stopped.
pub fn headline_over_plans()
    ensures { HeadlineOverPlans }
{}

/// HeadlineOverSurveys: the headline holds of each of several plans, each of which was verified for the survey where
/// the one before it stopped, as the administrator's calls tell it; wherever the events are parted into stages, and
/// also where only the calls of each plan are known.
pub fn headline_over_surveys()
    ensures stages { HeadlineOverSurveys }
    ensures calls { HeadlineOverCalls }
{}

/// HeadlineOverThreads: the headline holds of the trail of a running cluster, whatever its threads did at the same
/// time, where its administrator's calls are those of several plans, each legal where the one before it stopped, and
/// `first_dishonest` finds no event. So it does where they are a prefix of an unrolling of one plan, legal for the
/// table at the opening.
pub fn headline_over_threads()
    ensures plans { HeadlineOverThreads }
    ensures one { HeadlineOfOnePlan }
{}

/// HeadlineOverTrails: the same of the trail of a running cluster, whatever its threads did at the same time, where its
/// administrator sent the calls of these plans, and `first_dishonest` finds no event. At the opening a survey shows the
/// table, and no mark.
pub fn headline_over_trails()
    ensures trails { HeadlineOverTrails }
    ensures opening { OpeningsAreSurveyed }
{}

/// A run that is stopped anywhere leaves an open cluster, so it can be resumed.
pub fn stopped_runs_leave_open_worlds()
    ensures { LeavesOpen }
{}

/// Clean clusters are the open ones in which every slot is closed.
pub fn clean_worlds_are_open()
    ensures is_open { CleanIsOpen }
    ensures clean { ClosedIsClean }
{}

/// WithinCost, SourceGainsNothing and GoesOn, whatever clients do, honest or not: a plan stays within its cost, a node
/// that hands a slot over gains no key of it, and a plan that is not carried out has one next command.
pub fn plans_go_on()
    ensures cost { WithinCost }
    ensures gains { SourceGainsNothing }
    ensures next { SomeCommandGoesOn }
    ensures below { StaysBelowCost }
{}

/// NoRefusal, RepliesReplay, OneStore and CleanEnd, where clients are honest: no command of a plan is refused, and what
/// clients are answered and what the nodes hold is what one store says; at the end the cluster is clean.
pub fn clients_see_one_store()
    ensures no_refusal { NoCommandRefused }
    ensures replies { RepliesReplay }
    ensures contents { OneStore }
    ensures end { CleanEnd }
{}

/// Where clients are honest, it need not be supposed that no command follows a refused one, since none is refused.
pub fn prefixes_are_driven()
    ensures { PrefixesAreDriven }
{}

/// Where the targets of each slot's rest, moves and tries are different nodes, a node that an ASK named imports the
/// slot by no later event.
pub fn asks_stand()
    ensures { AsksStand }
{}

/// QuietReshard: with no client between its steps, a legal plan that is carried out takes exactly its cost, is never
/// refused, and leaves the cluster clean under its final owners, with the same store.
pub fn quiet_plans_move_their_slots()
    ensures { QuietReshard }
{}

/// With no client between its steps, a plan from a clean cluster costs what the store says alone; and from any open one
/// it takes fewer calls than that, as long as it is not carried out.
pub fn quiet_plans_cost_what_the_store_says()
    ensures cost { QuietCost }
    ensures below { StaysBelowQuietCost }
{}

/// Whether a plan drives a run can be said of the whole list of calls, or call by call.
pub fn driven_step_by_step()
    ensures driven { DrivenStepByStep }
    ensures spelled { SpelledByPrefixes }
{}

/// What the survey of a world shows of the slots is so at its nodes, each of which it has.
pub fn surveys_show_phases()
    ensures shown { SurveysShowPhases }
    ensures counted { SurveysCountNodes }
{}

/// In a run each listing is answered with a list of keys, by the nodes of a world and by servers.
pub fn listings_are_answered()
    ensures runs { RunsAreListed }
    ensures servers { ServerRunsAreListed }
{}
