ghost use Rattle.std.specs.Prelude.{◌≡◌, ◌⊎◌, IfOk, MatchResult, None, Some, length};
ghost use Rattle.cluster_views.specs.Surveying.{IsRefusedOrMemory, IsSurveyed, IsTold, epochs_of, views_fault};
ghost use Rattle.cluster_views.specs.declared.fault.SurveyFault.TheVariants.{Memory};

use crate::agreement::{own_epoch, survey_fault, view_at};
use crate::fault::SurveyFault;
use crate::named_book::NamedBook;
use crate::server_survey::ServerSurvey;
use crate::view::row_of_view;
use byte_texts::Memory;
use key_slots::NodeId;
use listed_nodes::NodeLines;
use server_commands::ServerBook;
use std::alloc::Global;

/// A survey, and the config epoch of each node, n0's first.
#[derive(Drop)]
pub struct Surveyed {
    pub survey: ServerSurvey,
    pub epochs: Vec<u64>,
}

/// The survey that these views tell, each of them the answer of one server of the book, in its order.
///
/// A view is looked through before the next one. Its faults come in this order: Nameless, OtherNode, Replica,
/// OtherAddress; UnknownMaster, Failing and Unlinked, by lines; Unaware; UnknownMark; Overlap; Uncovered. Where all
/// views are fine, there may be Disagreement, OtherEpoch, and SameEpoch, in this order.
pub fn survey_of(
    alloc: Global,
    book: &ServerBook,
    views: &[NodeLines],
) -> Result<Surveyed, SurveyFault>
    requires { length views.now ≡ length book.now }
    ensures survey { MatchResult result (λ s. IsSurveyed book.now views.now s.survey)
        (IsRefusedOrMemory book.now views.now) }
    ensures epochs { IfOk result (λ s. s.epochs.items ≡ epochs_of book.now views.now) }
{
    let named = NamedBook::of(alloc, book)?;
    survey_named(alloc, &named, views)
}

/// The survey that these views tell.
fn survey_named(
    alloc: Global,
    book: &NamedBook,
    views: &[NodeLines],
) -> Result<Surveyed, SurveyFault>
    requires { length views.now ≡ length book.now }
    ensures survey { MatchResult result (λ s. IsSurveyed book.now views.now s.survey)
        (IsRefusedOrMemory book.now views.now) }
    ensures epochs { IfOk result (λ s. s.epochs.items ≡ epochs_of book.now views.now) }
{
    let survey = told(alloc, book, views)?;
    let epochs = epochs_of(alloc, book, views)?;
    match survey_fault(alloc, book, views, &survey, epochs.as_slice())? {
        Some(fault) => Err(fault),
        None => Ok(Surveyed { survey, epochs }),
    }
}

/// What the servers tell, one view after the other.
fn told(alloc: Global, book: &NamedBook, views: &[NodeLines]) -> Result<ServerSurvey, SurveyFault>
    requires { length views.now ≡ length book.now }
    ensures { MatchResult result (λ v. (views_fault book.now views.now ≡ None) × IsTold book.now views.now v)
        (λ e. (e ≡ Memory) ⊎ (views_fault book.now views.now ≡ Some e)) }
{
    let mut rows = Vec::new(alloc);
    for number in 0..book.nodes() {
        let node = NodeId::of(number);
        let row = row_of_view(alloc, book, node, view_at(views, node))?;
        if rows.push(row).is_err() {
            return Err(SurveyFault::Memory);
        }
    }
    Ok(ServerSurvey::of(rows))
}

/// The config epoch of each node, as it tells it itself.
fn epochs_of(alloc: Global, book: &NamedBook, views: &[NodeLines]) -> Result<Vec<u64>, Memory>
    requires { length views.now ≡ length book.now }
    ensures { IfOk result (λ v. v.items ≡ epochs_of book.now views.now) }
{
    let mut epochs = Vec::new(alloc);
    for number in 0..book.nodes() {
        let node = NodeId::of(number);
        epochs.push(own_epoch(book, views, node))?;
    }
    Ok(epochs)
}
