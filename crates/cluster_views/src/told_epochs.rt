//! The config epochs that a server tells of all masters.
ghost use Rattle.std.specs.Prelude.{◌≡◌, ◌<◌, ◌==◌, ℕ, List, None, Some, IfOk, if◌then◌else◌, length, slice_index_or};
ghost use Rattle.std.specs.Option.{option_or};
ghost use Rattle.listed_nodes.specs.declared.node_line.NodeLine.{NodeLine as Line};
ghost use Rattle.cluster_views.specs.Naming.{AreToldIn, epoch_told, told_by};
ghost use Rattle.cluster_views.specs.Numbers.{first_given};
ghost use Rattle.server_commands.specs.Servers.{server_at};

use crate::named_book::NamedBook;
use byte_texts::Memory;
use key_slots::NodeId;
use listed_nodes::NodeLine;
use std::alloc::Global;

/// What the lines tell of each server, by its number: the first line about it as a master counts. Of several servers
/// with one ID the first has it.
pub(crate) fn epochs_in(
    alloc: Global,
    book: &NamedBook,
    lines: &[NodeLine],
) -> Result<Vec<Option<u64>>, Memory>
    ensures { IfOk result (λ v. AreToldIn book.now lines.now v.items) }
{
    let mut row = Vec::new(alloc);
    row.resize(usize::from(book.nodes()), None)?;
    put_lines(book, lines, row.as_mut_slice());
    Ok(row)
}

/// Puts the epochs that the lines tell, where none is told yet.
fn put_lines(book: &NamedBook, lines: &[NodeLine], row: &mut [Option<u64>])
    requires { length row.old ≡ length book.now }
    ensures { (k : ℕ) → k < length book.now → slice_index_or row.new k None
        ≡ option_or (slice_index_or row.old k None) (first_given (told_by book.now k) lines.now) }
{
    for line in lines {
        put_line(book, line, row);
    }
}

/// Puts the epoch that the line tells, where none is told yet.
fn put_line(book: &NamedBook, line: &NodeLine, row: &mut [Option<u64>])
    requires { length row.old ≡ length book.now }
    ensures { (k : ℕ) → k < length book.now
        → slice_index_or row.new k None ≡ option_or (slice_index_or row.old k None) (told_by book.now k line.now) }
{
    if line.is_master {
        if let Some(node) = book.number_of(line.name.get()) {
            put(row, node, line.epoch);
        }
    }
}

/// Puts the epoch at the node, where none is told yet.
fn put(row: &mut [Option<u64>], node: NodeId, epoch: u64)
    requires { node < length row.old }
    ensures { (k : ℕ) → k < length row.old → slice_index_or row.new k None
        ≡ option_or (slice_index_or row.old k None) (if k == node then Some epoch else None) }
{
    let place = usize::from(node.get());
    if row[place].is_none() {
        row[place] = Some(epoch);
    }
}

/// The config epoch that lines tell of the node, of which this row is.
pub(crate) fn epoch_told(book: &NamedBook, row: &[Option<u64>], node: NodeId) -> Option<u64>
    requires row { length row.now ≡ length book.now }
    requires node { node < length book.now }
    ensures { (ls : List Line) → AreToldIn book.now ls row.now
        → result ≡ epoch_told (server_at book.now node) ls }
{
    let first = book.number_of(book.server(node).name.get())?;
    row[usize::from(first.get())]
}
