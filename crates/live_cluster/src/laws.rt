ghost use Rattle.live_cluster.specs.Returns.{TrailsAreTheirLists};

/// Where all client seats that were given are handed in, the trail of a closed cluster is their lists and the
/// administrator's, and nothing else: each event is of a caller whose list is there.
pub fn closed_trails_are_their_lists()
    ensures { TrailsAreTheirLists }
{}
