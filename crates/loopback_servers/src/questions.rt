//! Who tells of the questions in one session.
ghost use Rattle.std.specs.Prelude.{◌≡◌, ◌<◌, ◌≤◌, [], IfSome, IsSome, length, true};
ghost use Rattle.client_questions.specs.Questions.{is_question};
ghost use Rattle.shared_trail.specs.Reading.{IsToldOf};
ghost use Rattle.loopback_servers.specs.Asking.{IsShown, Tells};

use byte_texts::Text;
use client_questions::{Caller, answer_by_node, answer_own, is_question};
use cluster_node::Node;
use cluster_world::PortFault;
use key_slots::NodeId;
use live_cluster::{ClusterBrand, LiveCluster, NodeReader};
use node_session::Questions;
use resp2_wire::{Reply, Request};
use std::alloc::Global;
use std::sync::Wait;

/// Tells of the questions of one session: what it knows of its client, and what its node shows, which is read and not
/// called.
pub(crate) struct SessionQuestions<'a, B: ClusterBrand, R: Wait> {
    cluster: &'a LiveCluster<B>,
    rt: &'a R,
    alloc: Global,
    node: NodeId,
    caller: Caller,
    ghost there: { node < length B.setup.opening.nodes },
}

/// Written out, so that a proof sees one call where such a value is dropped.
impl<B: ClusterBrand, R: Wait> Drop for SessionQuestions<'_, B, R> {
    fn drop(self) {
        let Self {
            cluster: _,
            rt: _,
            alloc: _,
            node: _,
            caller,
        } = self;
        drop(caller);
    }
}

impl<'a, B: ClusterBrand, R: Wait> SessionQuestions<'a, B, R> {
    /// The questions of a new client with this ID, at the node, if the cluster has it.
    pub(crate) fn at(
        rt: &'a R,
        alloc: Global,
        cluster: &'a LiveCluster<B>,
        node: NodeId,
        id: u64,
    ) -> Option<SessionQuestions<'a, B, R>>
        ensures new { IfSome result (λ q. (q.node ≡ node) × (q.caller ≡ record { id = id; name = [] })) }
        ensures there { node < length B.setup.opening.nodes → IsSome result }
        ensures known { IfSome result (λ q. node < length B.setup.opening.nodes) }
    {
        if node.get() >= cluster.nodes() {
            return None;
        }
        Some(SessionQuestions {
            cluster,
            rt,
            alloc,
            node,
            caller: Caller::new(alloc, id),
        })
    }
}

impl<'a, B: ClusterBrand, R: Wait> Questions for SessionQuestions<'a, B, R> {
    ghost use Rattle.client_questions.specs.Questions.{is_question};
    ghost use Rattle.loopback_servers.specs.Asking.{Tells};

    ghost hears = { is_question };

    ghost tells = { λ s q a t. (t.node ≡ s.node)
        × Tells B.setup.opening s.node s.caller q a t.caller };

    fn tell(&mut self, request: &Request) -> Option<Result<Reply, PortFault>> {
        if is_question(request.get()) {
            Some(self.told(request.get()))
        } else {
            None
        }
    }
}

impl<'a, B: ClusterBrand, R: Wait> SessionQuestions<'a, B, R> {
    /// What is told of a question: what the session knows by itself, or else what its node shows.
    #[tactic(auto, using(
    // by itself, and by its node
    crate::proofs::Asked::tells_own, crate::proofs::Asked::tells_shown,
    // where memory runs out
    crate::proofs::Asked::tells_nothing))]
    fn told(&mut self, words: &[Text]) -> Result<Reply, PortFault>
        requires { is_question words.now ≡ true }
        ensures node { self.new.node ≡ self.old.node }
        ensures told { Tells B.setup.opening self.old.node self.old.caller words.now result self.new.caller }
    {
        match answer_own(self.alloc, &mut self.caller, words) {
            Ok(Some(reply)) => Ok(reply),
            Ok(None) => self.show(words),
            Err(_) => Err(PortFault::Memory),
        }
    }

    /// What the node shows, which is locked meanwhile.
    fn show(&self, words: &[Text]) -> Result<Reply, PortFault>
        ensures { IsToldOf (IsShown B.setup.opening.base_port words.now) B.setup.opening self.now.node result }
    {
        let question = NodeQuestion {
            alloc: self.alloc,
            base_port: self.cluster.base_port(),
            words,
        };
        self.cluster.read(self.rt, self.node, &question)
    }
}

/// A question about a node.
#[derive(Clone, Copy)]
struct NodeQuestion<'q> {
    alloc: Global,
    base_port: u16,
    words: &'q [Text],
    ghost low: { base_port ≤ 65528 },
}

impl NodeReader for NodeQuestion<'_> {
    ghost use Rattle.loopback_servers.specs.Asking.{IsShown};

    ghost tells = { λ q n a. IsShown q.base_port q.words.now n a };

    fn read(&self, node: &Node) -> Result<Reply, PortFault> {
        Ok(answer_by_node(self.alloc, self.base_port, node, self.words)?)
    }
}
