ghost use Rattle.loopback_servers.specs.Asking.{QuitsAreQuestions};
ghost use Rattle.loopback_servers.specs.Clients.{IdsDiffer};
ghost use Rattle.loopback_servers.specs.Served.{HeadlineOfServed};

/// The headline of a cluster that was served beside a verified plan: where [`cluster_world::first_dishonest`] finds no
/// event of the trail, all its clauses hold of what clients were answered and of what the nodes held.
pub fn served_plans_have_the_headline()
    ensures { HeadlineOfServed }
{}

/// Of all clients whose questions are told of, no two have one ID.
pub fn clients_differ_by_their_ids()
    ensures { IdsDiffer }
{}

/// Each request after which a session ends is a question, and is told OK.
pub fn quits_are_questions()
    ensures { QuitsAreQuestions }
{}
