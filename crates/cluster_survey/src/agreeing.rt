//! Surveys of servers, one after the other, until they agree.
ghost use Rattle.std.specs.Prelude.{◌≡◌, false, MatchResult, length, true, vec_len};
ghost use Rattle.cluster_survey.specs.Agreeing.{Agree, Disagree, MayPass};
ghost use Rattle.server_commands.specs.Spelling.{nodes_request};
ghost use Rattle.server_links.specs.Links.{Exchanges};

use crate::asking::survey;
use crate::reach::Reach;
use cluster_views::{SurveyFault, Surveyed};
use server_commands::ServerBook;
use server_links::Link;
use std::alloc::Global;

/// How often servers are asked again at most; the time that [`Reach::pause`] gives is over before.
const MAX_ROUNDS: u16 = 1000;

/// What all servers say, once they agree.
pub(crate) fn agreed<D: Reach>(
    alloc: Global,
    reach: &mut D,
    links: &mut Vec<Link<D::Input, D::Output>>,
    book: &ServerBook,
) -> Result<Surveyed, SurveyFault>
    requires { vec_len links.old ≡ length book.now }
    ensures agreed { MatchResult result
        (λ s. Agree (Exchanges (record { gave = D.Input.gave; took = D.Output.took }) nodes_request) book.now
        links.old.items s.survey s.epochs.items links.new.items)
        (λ e. Disagree (Exchanges (record { gave = D.Input.gave; took = D.Output.took }) nodes_request) book.now
        D.over links.old.items e links.new.items) }
    ensures kept { vec_len links.new ≡ vec_len links.old }
{
    for _round in 0..MAX_ROUNDS {
        let told = survey(alloc, links, book);
        if !is_to_repeat(reach, &told) {
            return told;
        }
    }
    survey(alloc, links, book)
}

/// Whether servers are to be asked again: what stands against the survey may pass by itself, and time is left.
fn is_to_repeat<D: Reach>(reach: &mut D, told: &Result<Surveyed, SurveyFault>) -> bool
    ensures passing { result ≡ true → MayPass told.now }
    ensures over { result ≡ false → MayPass told.now → D.over }
{
    match told {
        Ok(_) => false,
        Err(fault) => fault.is_passing() && reach.pause(),
    }
}
