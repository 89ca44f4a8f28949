//! What the answers of nodes that were told in one go amount to.
ghost use Rattle.std.specs.Prelude.{◌≡◌};
ghost use Rattle.std.specs.Option.{option_copied};
ghost use Rattle.plan_changes.specs.Loads.{most};
ghost use Rattle.plan_runner.specs.Advancing.{stopped_by};
ghost use Rattle.redis_servers.specs.InOneGo.{is_done};
ghost use Rattle.server_runs.specs.InOneGo.{done_in, end_after, end_by, first_undone};

use crate::run_end::RunEnd;
use cluster_admin::{AdminReply, PortFault};
use plan_runner::StopCause;
use redis_servers::Given;

/// How the run ends after so many replies, if not all of these answers are OK.
pub(crate) fn end_after(spent: u64, answers: &[Given]) -> Option<RunEnd>
    ensures { result ≡ end_after spent (first_undone answers.now) answers.now }
{
    match first_undone(answers) {
        Some(answer) => Some(end_by(spent.saturating_add(done_in(answers)), answer)),
        None => None,
    }
}

fn is_done(answer: &Given) -> bool
    ensures { result ≡ is_done answer.now }
{
    matches!(answer, Ok(AdminReply::Ok))
}

fn done_in(answers: &[Given]) -> u64
    ensures { result ≡ done_in answers.now }
{
    answers.iter().filter(|answer| is_done(answer)).count() as u64
}

fn first_undone(answers: &[Given]) -> Option<&Given>
    ensures { option_copied result ≡ first_undone answers.now }
{
    let (answer, later) = answers.split_first()?;
    if is_done(answer) {
        first_undone(later)
    } else {
        Some(answer)
    }
}

/// How a run ends after so many replies by an answer that is not OK.
fn end_by(answered: u64, answer: &Given) -> RunEnd
    ensures { result ≡ end_by answered answer.now }
{
    let counted = answered.saturating_add(1);
    match answer {
        Ok(AdminReply::Refused(fault)) => {
            RunEnd::Stopped(StopCause::Refused(counted, *fault), counted)
        }
        Ok(_) => RunEnd::Stopped(StopCause::StrangeReply, counted),
        Err(fault) => RunEnd::Stopped(cause_of(*fault), answered),
    }
}

/// Why a run stops whose port has no reply.
pub(crate) fn cause_of(fault: PortFault) -> StopCause
    ensures { result ≡ stopped_by fault }
{
    match fault {
        PortFault::Memory => StopCause::Memory,
        PortFault::Io | PortFault::Wire => StopCause::Lost,
    }
}
