//! A node that may be forgotten.
ghost use Rattle.std.specs.Prelude.{◌≡◌, [], None};
ghost use Rattle.node_forgetting.specs.Holding.{hold};

use cluster_views::ServerSurvey;
use key_slots::NodeId;
use listed_nodes::NodeLine;
use server_commands::Server;

/// A node that a survey does not hold, and that no replica follows: only such a node is forgotten.
#[derive(Drop)]
pub(crate) struct Leaving<'a> {
    pub survey: &'a ServerSurvey,
    pub server: &'a Server,
    pub node: NodeId,
    pub replicas: &'a [NodeLine],
    ghost free: { hold survey.now node ≡ None },
    ghost alone: { replicas.now ≡ [] },
}
