ghost use Rattle.telling_order.specs.AnyOrder.{CostsTheSame, LeavesTheSameOwners, StaysLegal};
ghost use Rattle.telling_order.specs.Headline.{HeadlineInAnyOrder, ServerHeadlineInAnyOrder};
ghost use Rattle.telling_order.specs.OneGo.{StopsInOneGo};
ghost use Rattle.telling_order.specs.SeenCalls.{SeenCallsHaveTheHeadline};

use reshard_theorem::{
    headline, headline_over_servers, server_prefixes_are_driven, stopped_servers_leave_open_worlds,
};

/// Once the target and the source of a slot are told of the new owner, the other nodes may be told in any order, and
/// so all at once: the plan in the one order is as legal as in the other, leaves the same owners, and costs as much.
pub fn others_are_told_in_any_order()
    ensures legal { StaysLegal }
    ensures owners { LeavesTheSameOwners }
    ensures cost { CostsTheSame }
{}

/// HeadlineInAnyOrder: the headline of a run in which other nodes are told in another order than the plan has them,
/// with the final owners and the cost of the plan; at the world's own replies, and at servers.
pub fn headline_in_any_order()
    ensures world { HeadlineInAnyOrder }
    ensures servers { ServerHeadlineInAnyOrder }
{
    headline();
    headline_over_servers();
}

/// A run that stopped while the other nodes of a slot were told in one go, of which any were told, in any order, is a
/// run of the plan that tells these first. So the headline holds of it, with the final owners and the cost of the plan
/// itself, no node has refused, and the rest can be resumed.
pub fn runs_stop_in_one_go()
    ensures { StopsInOneGo }
{
    headline_over_servers();
    server_prefixes_are_driven();
    stopped_servers_leave_open_worlds();
}

/// What servers saw of a program that tells the other nodes of a slot in one go has the headline: the calls of the plan
/// in another order, or a part of them from the beginning; and where it stopped, any of the nodes that come next told
/// in any order. The run is one of a plan that tells the same nodes in another order, and the rest can be resumed.
pub fn seen_calls_have_the_headline()
    ensures { SeenCallsHaveTheHeadline }
{
    headline_over_servers();
    server_prefixes_are_driven();
    stopped_servers_leave_open_worlds();
}
