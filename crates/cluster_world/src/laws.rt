ghost use Rattle.cluster_world.specs.Cleanness.{OpenedIsClean};
ghost use Rattle.cluster_world.specs.Static.{StaticCluster};
ghost use Rattle.cluster_world.specs.Earning.{AskedByTest, FoundIsDishonest, HonestByEach, MarksAreTold};
ghost use Rattle.cluster_world.specs.Searching.{EarnedByTest, SearchesOn};
ghost use Rattle.cluster_world.specs.SurveyCalls.{SurveysAreTold};

/// StaticCluster: from a clean world and with no administrator, what clients are answered is what one table and one
/// store say.
pub fn static_clusters_answer_as_one_store()
    ensures { StaticCluster }
{}

/// A run is honest where each event is earned by those before it, whatever their order; a place that is found shows
/// that it is not; and which slots a node imports is told by the replies alone.
pub fn honesty_is_seen_event_by_event()
    ensures each { HonestByEach }
    ensures tests { AskedByTest }
    ensures earned { EarnedByTest }
    ensures search { SearchesOn }
    ensures found { FoundIsDishonest }
    ensures marks { MarksAreTold }
{}

/// A cluster that was just opened is clean for its table, with the empty store: what laws say from a clean cluster on,
/// they say of the cluster that `World::open` gives.
pub fn opened_clusters_are_clean()
    ensures { OpenedIsClean }
{}

/// A survey after a run is the survey before it with what the administrator's calls tell by their replies: clients
/// change no owner and no mark.
pub fn surveys_are_told_by_calls()
    ensures { SurveysAreTold }
{}
