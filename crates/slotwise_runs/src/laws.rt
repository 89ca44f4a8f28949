ghost use Rattle.slotwise_runs.specs.Cases.{BeginningsAreSeen, DrivenRunsAreSeen, EachScheduleIsRun};
ghost use Rattle.slotwise_runs.specs.Cases.{ReorderedCallsAreSeen};
ghost use Rattle.slotwise_runs.specs.Headline.{HeadlineInAnyOrderOfSlots};
ghost use Rattle.slotwise_runs.specs.Runs.{TrailHeadlineBySlots, WorldHeadlineBySlots};

use telling_order::seen_calls_have_the_headline;

/// HeadlineInAnyOrderOfSlots: of each slot the administrator's calls follow its part of a legal plan, and between the
/// calls of two slots there is no order. No call is refused, replies and contents are those of one undivided store, the
/// plan stays within its cost, a slot that is at its end is closed at its final owner, of each other slot one command
/// goes on, and wherever the run stops a legal plan carries out the rest. For servers, for worlds, and for the trail of
/// threads.
pub fn headline_in_any_order_of_slots()
    ensures servers { HeadlineInAnyOrderOfSlots }
    ensures worlds { WorldHeadlineBySlots }
    ensures threads { TrailHeadlineBySlots }
{}

/// What is seen of each slot: the calls of a plan in its own order, those that tell nodes in another order or in one
/// go, and of what is seen a beginning of each slot's calls, whatever their order.
pub fn what_is_seen_of_each_slot()
    ensures driven { DrivenRunsAreSeen }
    ensures reordered { ReorderedCallsAreSeen }
    ensures beginnings { BeginningsAreSeen }
{
    seen_calls_have_the_headline();
}

/// The premises can be met, in any order of the slots: where a plan starts, each schedule of its slots is that of a
/// run, also one by which the drains of several slots interleave.
pub fn each_schedule_is_a_run()
    ensures { EachScheduleIsRun }
{}
