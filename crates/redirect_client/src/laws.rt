ghost use Rattle.redirect_client.specs.ClientRuns.{ClientsMayWait, HeadlineOfClients};
ghost use Rattle.redirect_client.specs.HonestClients.{ClientsAreHonest};
ghost use Rattle.redirect_client.specs.Redirects.{HasOneMeaning};
ghost use Rattle.redirect_client.specs.WorldExecutions.{AskingJoins, ExecutionsAreRuns, ServedAtMostOnce};

/// Each reply tells a client one thing, so what it sends and answers is determined by the replies.
pub fn replies_have_one_meaning()
    ensures { HasOneMeaning }
{}

/// A run in which all ASKING comes from clients that follow redirections, and know the base port, is honest, where no
/// SETSLOT IMPORTING of the slot is accepted at the asked node between an ASK and the send that follows it.
pub fn asking_clients_are_honest()
    ensures { ClientsAreHonest }
{}

/// ClientFollows: the headline's premise on clients is met by clients that follow redirections: where all ASKING is
/// theirs, all seven clauses hold.
pub fn headline_of_clients()
    ensures { HeadlineOfClients }
{}

/// Where no slot has one node as the target twice, it may be left out that no SETSLOT IMPORTING of the slot is accepted
/// at the asked node between an ASK and the send that follows it.
pub fn clients_may_wait()
    ensures { ClientsMayWait }
{}

/// What a client executes over a world is the run of its own sends, in which all ASKING is a client's; and such runs
/// may follow one another, with other events between.
pub fn executions_over_worlds_are_runs()
    ensures runs { ExecutionsAreRuns }
    ensures joins { AskingJoins }
{}

/// ClientFollows: of the sends of one command at most one is served, each other one is answered a redirection; and what
/// the served one was answered is what the client answers.
pub fn commands_are_served_at_most_once()
    ensures { ServedAtMostOnce }
{}
