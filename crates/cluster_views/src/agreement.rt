//! What stands against a survey that all servers tell.
ghost use Rattle.std.specs.Prelude.{◌≡◌, ◌<◌, ◌==◌, ◌&&◌, IfOk, None, Some, if◌then◌else◌, length, nat_lt, unwrap_or};
ghost use Rattle.cluster_views.specs.Naming.{AreToldIn};
ghost use Rattle.cluster_views.specs.Surveying.{Views, collision, differs, dispute, dispute_at, dissenter, epoch_at};
ghost use Rattle.cluster_views.specs.Surveying.{epochs_fault, epochs_of, has_mark, is_marked, other_epoch_at};
ghost use Rattle.cluster_views.specs.Surveying.{same_epoch_as, survey_fault, view_at};
ghost use Rattle.cluster_views.specs.declared.fault.SurveyFault.TheVariants.{OtherEpoch, SameEpoch};

use crate::fault::SurveyFault;
use crate::knowing::line_about;
use crate::named_book::NamedBook;
use crate::server_survey::ServerSurvey;
use crate::told_epochs::{epoch_told, epochs_in};
use byte_texts::Memory;
use key_slots::{NodeId, SLOTS, Slot};
use listed_nodes::{NodeLine, NodeLines};
use std::alloc::Global;

/// Whether a node has a mark of the slot.
fn is_marked(survey: &ServerSurvey, slot: Slot) -> bool
    ensures { result ≡ is_marked survey.now slot }
{
    for number in 0..survey.nodes() {
        if has_mark(survey, NodeId::of(number), slot) {
            return true;
        }
    }
    false
}

fn has_mark(survey: &ServerSurvey, node: NodeId, slot: Slot) -> bool
    requires { node < length survey.now.rows }
    ensures { result ≡ has_mark survey.now slot node }
{
    survey.migrating(node, slot).is_some() || survey.importing(node, slot).is_some()
}

/// The first node that tells another owner of the slot than n0 does.
fn dissenter(survey: &ServerSurvey, slot: Slot) -> Option<NodeId>
    ensures { result ≡ dissenter survey.now slot }
{
    for number in 0..survey.nodes() {
        let node = NodeId::of(number);
        if differs(survey, node, slot) {
            return Some(node);
        }
    }
    None
}

/// Whether the node tells another owner of the slot than n0 does.
fn differs(survey: &ServerSurvey, node: NodeId, slot: Slot) -> bool
    requires { node < length survey.now.rows }
    ensures { result ≡ differs survey.now slot node }
{
    let _nodes = survey.nodes();
    survey.owner(node, slot) != survey.owner(NodeId::of(0), slot)
}

fn dispute_at(survey: &ServerSurvey, slot: Slot) -> Option<SurveyFault>
    ensures { result ≡ dispute_at survey.now slot }
{
    if is_marked(survey, slot) {
        return None;
    }
    let node = dissenter(survey, slot)?;
    Some(SurveyFault::Disagreement { node, slot })
}

/// The lowest slot without marks on whose owner the servers do not agree.
fn dispute(survey: &ServerSurvey) -> Option<SurveyFault>
    ensures { result ≡ dispute survey.now }
{
    for number in 0..SLOTS as u16 {
        let fault = dispute_at(survey, Slot::of(number));
        if fault.is_some() {
            return fault;
        }
    }
    None
}

/// What the server of this number answered.
pub(crate) fn view_at(views: &[NodeLines], node: NodeId) -> &[NodeLine]
    requires { node < length views.now }
    ensures { result.now ≡ view_at views.now node }
{
    views[usize::from(node.get())].get()
}

/// The config epoch of the node, as it tells it itself.
pub(crate) fn own_epoch(book: &NamedBook, views: &[NodeLines], node: NodeId) -> u64
    requires views { length views.now ≡ length book.now }
    requires node { node < length book.now }
    ensures { result ≡ epoch_at book.now views.now node node }
{
    match line_about(book.server(node), view_at(views, node)) {
        Some(line) => line.epoch,
        None => 0,
    }
}

/// What is wrong where this config epoch is told of the node, and this one is its own.
fn other_epoch(at: NodeId, node: NodeId, told: Option<u64>, own: u64) -> Option<SurveyFault>
    ensures { result ≡ (if unwrap_or told 0 == own then None else Some (OtherEpoch at node)) }
{
    if told.unwrap_or(0) == own {
        None
    } else {
        Some(SurveyFault::OtherEpoch { at, node })
    }
}

/// The first node of which another config epoch than its own is told.
fn first_other(
    book: &NamedBook,
    at: NodeId,
    row: &[Option<u64>],
    epochs: &[u64],
) -> Option<SurveyFault>
    requires row { length row.now ≡ length book.now }
    requires epochs { length epochs.now ≡ length book.now }
    ensures { (views : Views) → AreToldIn book.now (view_at views at) row.now → epochs.now ≡ epochs_of book.now views
        → result ≡ other_epoch_at book.now views at }
{
    for number in 0..book.nodes() {
        let node = NodeId::of(number);
        let told = epoch_told(book, row, node);
        let fault = other_epoch(at, node, told, epochs[usize::from(number)]);
        if fault.is_some() {
            return fault;
        }
    }
    None
}

/// The first node whose config epoch this server tells otherwise.
fn other_epoch_at(
    alloc: Global,
    book: &NamedBook,
    views: &[NodeLines],
    epochs: &[u64],
    at: NodeId,
) -> Result<Option<SurveyFault>, Memory>
    requires views { length views.now ≡ length book.now }
    requires epochs { epochs.now ≡ epochs_of book.now views.now }
    requires at { at < length book.now }
    ensures { IfOk result (λ o. o ≡ other_epoch_at book.now views.now at) }
{
    let row = epochs_in(alloc, book, view_at(views, at))?;
    Ok(first_other(book, at, row.as_slice(), epochs))
}

fn epochs_fault(
    alloc: Global,
    book: &NamedBook,
    views: &[NodeLines],
    epochs: &[u64],
) -> Result<Option<SurveyFault>, Memory>
    requires views { length views.now ≡ length book.now }
    requires epochs { epochs.now ≡ epochs_of book.now views.now }
    ensures { IfOk result (λ o. o ≡ epochs_fault book.now views.now) }
{
    for number in 0..book.nodes() {
        let fault = other_epoch_at(alloc, book, views, epochs, NodeId::of(number))?;
        if fault.is_some() {
            return Ok(fault);
        }
    }
    Ok(None)
}

/// What is wrong with the node, whose config epoch is `own`, and another one above it, whose is `its`.
fn same_epoch(other: NodeId, node: NodeId, its: u64, own: u64) -> Option<SurveyFault>
    ensures { result ≡ (if nat_lt node other && own == its then Some (SameEpoch node other) else None) }
{
    if node < other && own == its {
        Some(SurveyFault::SameEpoch { node, other })
    } else {
        None
    }
}

/// The first node below this one that has its config epoch.
fn same_epoch_as(book: &NamedBook, epochs: &[u64], other: NodeId) -> Option<SurveyFault>
    requires epochs { length epochs.now ≡ length book.now }
    requires other { other < length book.now }
    ensures { (views : Views) → epochs.now ≡ epochs_of book.now views → result ≡ same_epoch_as book.now views other }
{
    let its = epochs[usize::from(other.get())];
    for number in 0..book.nodes() {
        let fault = same_epoch(other, NodeId::of(number), its, epochs[usize::from(number)]);
        if fault.is_some() {
            return fault;
        }
    }
    None
}

fn collision(book: &NamedBook, epochs: &[u64]) -> Option<SurveyFault>
    requires { length epochs.now ≡ length book.now }
    ensures { (views : Views) → epochs.now ≡ epochs_of book.now views → result ≡ collision book.now views }
{
    for number in 0..book.nodes() {
        let fault = same_epoch_as(book, epochs, NodeId::of(number));
        if fault.is_some() {
            return fault;
        }
    }
    None
}

/// What stands against the survey that these views tell, with these config epochs of the nodes.
pub(crate) fn survey_fault(
    alloc: Global,
    book: &NamedBook,
    views: &[NodeLines],
    survey: &ServerSurvey,
    epochs: &[u64],
) -> Result<Option<SurveyFault>, Memory>
    requires views { length views.now ≡ length book.now }
    requires epochs { epochs.now ≡ epochs_of book.now views.now }
    ensures { IfOk result (λ o. o ≡ survey_fault book.now views.now survey.now) }
{
    let dispute = dispute(survey);
    if dispute.is_some() {
        return Ok(dispute);
    }
    let others = epochs_fault(alloc, book, views, epochs)?;
    if others.is_some() {
        return Ok(others);
    }
    Ok(collision(book, epochs))
}
