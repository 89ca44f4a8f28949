ghost use Rattle.std.specs.Prelude.{◌≡◌, ℕ, ◌<◌, List, [], ◌∷◌, ◌++◌, Bool, MatchResult, IfOk, IsTrue, length};
ghost use Rattle.key_slots.specs.Owners.{Owners};
ghost use Rattle.cluster_admin.specs.Commands.{IsCommand};
ghost use Rattle.cluster_admin.specs.declared.admin.AdminCommand.{AdminCommand};
ghost use Rattle.cluster_admin.specs.Surveys.{Survey as SurveyView};
ghost use Rattle.cluster_admin.specs.declared.call.AdminCall.{AdminCall};
ghost use Rattle.cluster_admin.specs.declared.port_fault.PortFault.{PortFault};

use crate::admin::{AdminCommand, AdminReply};
use crate::node_count::NodeCount;
use crate::port_fault::PortFault;
use crate::survey::Survey;
use key_slots::{NodeId, OwnerTable};

/// What the administrator of a cluster calls through.
///
/// Its seat keeps the list of its calls with their replies: a call that is answered stands at the end of the list, one
/// that met a fault of the port stands nowhere.
pub trait AdminPort: NodeCount {
    type Seat;

    /// The calls that the seat keeps.
    ghost calls: { Self.Seat → List AdminCall };

    /// The seat is this port's.
    ghost fits: { Self → Self.Seat → Type 0 };

    /// The call, with this reply, leads from one state of the port to another.
    ghost moves: { Self → AdminCall → Self → Type 0 };

    /// The port can meet this fault at this call to the node, and is in that state after it. After out of memory
    /// nothing was done; after any other fault the command may have been done or not.
    ghost fails: { Self → ℕ → AdminCommand → PortFault → Self → Type 0 };

    /// What the answer says of the nodes' tables and marks.
    ghost clean_gives: { Self → Owners → Bool → Type 0 };

    /// What a survey says of the nodes, where these are the calls of the seat.
    ghost survey_gives: { Self → List AdminCall → SurveyView → Type 0 };

    /// A survey can meet this fault of the port.
    ghost survey_fails: { Self → PortFault → Type 0 };

    /// What the answer says of the nodes and the survey, where these are the calls of the seat.
    ghost matches_gives: { Self → List AdminCall → SurveyView → Bool → Type 0 };

    /// Sends the command to the node.
    fn admin(
        &mut self,
        seat: &mut Self::Seat,
        node: NodeId,
        command: AdminCommand,
    ) -> Result<AdminReply, PortFault>
        requires there { node < Self.NodeCount.count self.old }
        requires command { IsCommand command }
        requires seat { fits self.old seat.old }
        ensures calls { MatchResult result
            (λ reply. calls seat.new ≡ calls seat.old ++ record { node = node; command = command; reply = reply } ∷ [])
            (λ _. calls seat.new ≡ calls seat.old) }
        ensures moves { MatchResult result
            (λ reply. moves self.old (record { node = node; command = command; reply = reply }) self.new)
            (λ f. fails self.old node command f self.new) }
        ensures fits { fits self.new seat.new }
        ensures count { Self.NodeCount.count self.new ≡ Self.NodeCount.count self.old };

    /// Whether every node has this table and no mark stands. Takes no memory.
    fn is_clean(&self, owners: &OwnerTable) -> bool
        ensures gives { clean_gives self.now owners.now result }
        ensures count { IsTrue result → Self.NodeCount.count self.now ≡ owners.now.nodes };

    /// What each node says of the slots' owners, and its marks. It is no call of the seat, which is lent so that no
    /// command of an administrator comes between, and which stays as it is.
    fn survey(&self, seat: &mut Self::Seat) -> Result<Survey, PortFault>
        requires { fits self.now seat.old }
        ensures gives { MatchResult result (survey_gives self.now (calls seat.old)) (survey_fails self.now) }
        ensures count { IfOk result (λ v. length v.rows ≡ Self.NodeCount.count self.now) }
        ensures calls { calls seat.new ≡ calls seat.old }
        ensures fits { fits self.now seat.new };

    /// Whether the nodes say and have just what the survey tells. The seat is lent, as it is for a survey, and stays as
    /// it is. Takes no memory.
    fn matches(&self, seat: &mut Self::Seat, survey: &Survey) -> bool
        requires { fits self.now seat.old }
        ensures gives { matches_gives self.now (calls seat.old) survey.now result }
        ensures count { IsTrue result → Self.NodeCount.count self.now ≡ length survey.now.rows }
        ensures seat { seat.new ≡ seat.old };
}
