ghost use Rattle.std.specs.Prelude.{◌≡◌, true, false, MatchOption};

use cluster_world::PortFault;
use resp2_wire::{Reply, Request};

/// Questions of clients, of which a session tells beside what its port answers. For a question nothing is sent: it is
/// no call.
pub trait Questions {
    ghost use Rattle.std.specs.Prelude.{Bool};
    ghost use Rattle.resp2_wire.specs.Stream.{Words};
    ghost use Rattle.cluster_world.specs.Ports.{Answer};

    /// Which requests are questions.
    ghost hears: { Words → Bool };

    /// Of a question this may be told, which may change the one who tells.
    ghost tells: { Self → Words → Answer → Self → Type 0 };

    /// What is told of the request, if it is a question.
    fn tell(&mut self, request: &Request) -> Option<Result<Reply, PortFault>>
        ensures { MatchOption result ((hears request.now ≡ false) × (self.new ≡ self.old))
            (λ answer. (hears request.now ≡ true) × tells self.old request.now answer self.new) };
}

/// No request is a question.
#[derive(Drop)]
pub struct NoQuestions;

impl Questions for NoQuestions {
    ghost use Rattle.std.specs.Prelude.{false};

    ghost hears = { λ _. false };

    ghost tells = { λ _ _ _ _. ⊥ };

    fn tell(&mut self, _request: &Request) -> Option<Result<Reply, PortFault>> {
        None
    }
}
