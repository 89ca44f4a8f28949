//! One server's view as a row of the survey.
ghost use Rattle.std.specs.Prelude.{◌≡◌, ◌<◌, ◌⊎◌, None, Some, IfOk, MatchResult, length};
ghost use Rattle.cluster_views.specs.Rows.{IsWhole, row_of};
ghost use Rattle.cluster_views.specs.Views.{IsRowOf, plain_fault, view_fault};
ghost use Rattle.cluster_views.specs.declared.fault.SurveyFault.TheVariants.{Memory};
ghost use Rattle.server_commands.specs.Servers.{server_at};

use crate::fault::SurveyFault;
use crate::knowing::{masters_fault, own_fault, unaware_fault};
use crate::marks::{marks_fault, own_words, row_with};
use crate::named_book::NamedBook;
use crate::owners::{first_without, overlap_fault, owners_said, table_of};
use crate::server_row::ServerRow;
use byte_texts::Memory;
use key_slots::NodeId;
use listed_nodes::NodeLine;
use std::alloc::Global;

/// What is wrong with the view, but for slots without an owner.
fn plain_fault(
    alloc: Global,
    book: &NamedBook,
    node: NodeId,
    lines: &[NodeLine],
) -> Result<Option<SurveyFault>, Memory>
    requires { node < length book.now }
    ensures { IfOk result (λ o. o ≡ plain_fault book.now node lines.now) }
{
    let own = own_fault(node, book.server(node), lines);
    if own.is_some() {
        return Ok(own);
    }
    let masters = masters_fault(book, node, lines);
    if masters.is_some() {
        return Ok(masters);
    }
    let unaware = unaware_fault(alloc, book, node, lines)?;
    if unaware.is_some() {
        return Ok(unaware);
    }
    let marks = marks_fault(book, node, own_words(lines));
    if marks.is_some() {
        return Ok(marks);
    }
    Ok(overlap_fault(node, lines))
}

/// The row that the server tells.
pub(crate) fn row_of_view(
    alloc: Global,
    book: &NamedBook,
    node: NodeId,
    lines: &[NodeLine],
) -> Result<ServerRow, SurveyFault>
    requires { node < length book.now }
    ensures { MatchResult result
        (λ r. (view_fault book.now node lines.now ≡ None) × IsRowOf book.now lines.now (row_of r)
        × IsWhole (length book.now) r)
        (λ e. (e ≡ Memory) ⊎ (view_fault book.now node lines.now ≡ Some e)) }
{
    let plain = plain_fault(alloc, book, node, lines)?;
    if let Some(fault) = plain {
        return Err(fault);
    }
    let owners = owners_said(alloc, book, lines)?;
    if let Some(slot) = first_without(owners.as_slice()) {
        return Err(SurveyFault::Uncovered { at: node, slot });
    }
    let table = table_of(alloc, book.nodes(), owners.as_slice())?;
    let _nodes = table.nodes();
    Ok(row_with(alloc, book, table, own_words(lines))?)
}
