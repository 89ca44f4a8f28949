ghost use Rattle.cluster_world.specs.Servers.{RunsAreServerRuns, WorldMayReply};
ghost use Rattle.reshard_theorem.specs.ServerHeadline.{ServerHeadlineHolds, ServerHeadlineOverPlans};
ghost use Rattle.reshard_theorem.specs.ServerHeadline.{ServersHoldAtEachMoment};
ghost use Rattle.reshard_theorem.specs.ServerRuns.{AsksStandAtServers, QuietServers, ServerPrefixesAreDriven};
ghost use Rattle.reshard_theorem.specs.ServerRuns.{ServersGainNothing, ServersLeaveOpen, ServersStayBelowCost};
ghost use Rattle.reshard_theorem.specs.ServerRuns.{ServersWithinCost, SomeServerGoesOn};
ghost use Rattle.reshard_theorem.specs.Surveyed.{ServerHeadlineOverCalls, ServerHeadlineOverSurveys};
ghost use Rattle.reshard_theorem.specs.Surveyed.{SurveysAreToldAtServers};

/// A server may reply what the world replies, so every run is a run of servers.
pub fn runs_are_server_runs()
    ensures reply { WorldMayReply }
    ensures runs { RunsAreServerRuns }
{}

/// The headline, whichever keys of a slot the listings name, and in whatever order.
pub fn headline_over_servers()
    ensures holds { ServerHeadlineHolds }
    ensures moments { ServersHoldAtEachMoment }
{}

/// The headline over several plans, one after the other.
pub fn headline_over_plans_at_servers()
    ensures { ServerHeadlineOverPlans }
{}

/// The headline over several plans, each verified for the survey where the one before it stopped, by the
/// administrator's calls: over several runs of a plan, like those that `apply` and `resume` make, where nothing else
/// was sent between them.
pub fn headline_over_surveys_at_servers()
    ensures stages { ServerHeadlineOverSurveys }
    ensures calls { ServerHeadlineOverCalls }
    ensures told { SurveysAreToldAtServers }
{}

/// A run of servers that is stopped anywhere leaves an open cluster.
pub fn stopped_servers_leave_open_worlds()
    ensures { ServersLeaveOpen }
{}

/// A plan at servers stays within its cost, a node that hands a slot over gains no key of it, and a plan that is not
/// carried out has one next command, whatever clients do.
pub fn plans_go_on_at_servers()
    ensures cost { ServersWithinCost }
    ensures gains { ServersGainNothing }
    ensures next { SomeServerGoesOn }
    ensures below { ServersStayBelowCost }
{}

/// Where clients are honest, it need not be supposed that no command follows a refused one.
pub fn server_prefixes_are_driven()
    ensures { ServerPrefixesAreDriven }
{}

/// Where the targets of each slot are different nodes, a node that an ASK named imports the slot by no later event.
pub fn asks_stand_at_servers()
    ensures { AsksStandAtServers }
{}

/// With no client between its steps, a legal plan takes exactly its cost, whichever keys the listings name.
pub fn quiet_plans_take_their_cost_at_servers()
    ensures { QuietServers }
{}
