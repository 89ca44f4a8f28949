//! The marks of a server.
ghost use Rattle.std.specs.Prelude.{◌≡◌, ◌<◌, ◌==◌, ℕ, None, IfOk, IfSome, if◌then◌else◌, length};
ghost use Rattle.std.specs.FinMap as finite;
ghost use Rattle.std.specs.Option.{option_or};
ghost use Rattle.slot_marks.specs.Rows.{AreOfSlots};
ghost use Rattle.cluster_views.specs.Numbers.{first_given};
ghost use Rattle.cluster_views.specs.Views.{imports, mark_fault, migrates, named_fault, own_words};

use crate::fault::SurveyFault;
use crate::knowing::own_line;
use crate::named_book::NamedBook;
use crate::server_row::ServerRow;
use byte_texts::Memory;
use key_slots::{NodeId, OwnerTable, Slot};
use listed_nodes::{NodeLine, SlotWord};
use slot_marks::MarkRow;
use std::alloc::Global;

/// What stands after the link state in the line of the server that answers.
pub(crate) fn own_words(lines: &[NodeLine]) -> &[SlotWord]
    ensures { result.now ≡ own_words lines.entry.now }
{
    match own_line(lines) {
        Some(line) => line.slots.get(),
        None => &[],
    }
}

/// The first mark of a node that is none of the servers.
pub(crate) fn marks_fault(book: &NamedBook, at: NodeId, words: &[SlotWord]) -> Option<SurveyFault>
    ensures { result ≡ first_given (mark_fault book.now at) words.now }
{
    for word in words {
        let fault = mark_fault(book, at, word);
        if fault.is_some() {
            return fault;
        }
    }
    None
}

fn mark_fault(book: &NamedBook, at: NodeId, word: &SlotWord) -> Option<SurveyFault>
    ensures { result ≡ mark_fault book.now at word.now }
{
    match word {
        SlotWord::Slots(_, _) => None,
        SlotWord::Migrating(slot, name) => named_fault(at, *slot, book.number_of(name.get())),
        SlotWord::Importing(slot, name) => named_fault(at, *slot, book.number_of(name.get())),
    }
}

fn named_fault(at: NodeId, slot: Slot, node: Option<NodeId>) -> Option<SurveyFault>
    ensures { result ≡ named_fault at slot node }
{
    if node.is_some() {
        None
    } else {
        Some(SurveyFault::UnknownMark { at, slot })
    }
}

/// The row of these owners, and of the marks that the words are.
pub(crate) fn row_with(
    alloc: Global,
    book: &NamedBook,
    owners: OwnerTable,
    words: &[SlotWord],
) -> Result<ServerRow, Memory>
    ensures owners { IfOk result (λ r. r.owners ≡ owners) }
    ensures migrating { IfOk result
        (λ r. (s : ℕ) → s < 16384 → finite.get r.migrating s ≡ first_given (migrates book.now s) words.now) }
    ensures importing { IfOk result
        (λ r. (s : ℕ) → s < 16384 → finite.get r.importing s ≡ first_given (imports book.now s) words.now) }
    ensures migrating_slots { IfOk result (λ r. AreOfSlots r.migrating) }
    ensures importing_slots { IfOk result (λ r. AreOfSlots r.importing) }
    ensures going { IfOk result (λ r. (s : ℕ) → IfSome (finite.get r.migrating s) (λ m. m < length book.now)) }
    ensures coming { IfOk result (λ r. (s : ℕ) → IfSome (finite.get r.importing s) (λ m. m < length book.now)) }
{
    let mut migrating = MarkRow::new(alloc)?;
    let mut importing = MarkRow::new(alloc)?;
    for word in words {
        put_mark(book, word, &mut migrating, &mut importing);
    }
    Ok(ServerRow {
        owners,
        migrating,
        importing,
    })
}

/// Puts the mark that the word is among these, where the slot has none of its kind yet.
fn put_mark(book: &NamedBook, word: &SlotWord, migrating: &mut MarkRow, importing: &mut MarkRow)
    ensures migrating { (s : ℕ) → finite.get migrating.new s
        ≡ option_or (finite.get migrating.old s) (migrates book.now s word.now) }
    ensures importing { (s : ℕ) → finite.get importing.new s
        ≡ option_or (finite.get importing.old s) (imports book.now s word.now) }
    ensures migrating_slots { AreOfSlots migrating.old → AreOfSlots migrating.new }
    ensures importing_slots { AreOfSlots importing.old → AreOfSlots importing.new }
{
    match word {
        SlotWord::Slots(_, _) => {}
        SlotWord::Migrating(slot, name) => put(migrating, *slot, book.number_of(name.get())),
        SlotWord::Importing(slot, name) => put(importing, *slot, book.number_of(name.get())),
    }
}

/// Puts a mark of this node, if there is one, where the slot has none yet.
fn put(row: &mut MarkRow, slot: Slot, node: Option<NodeId>)
    ensures marks { (s : ℕ) → finite.get row.new s
        ≡ option_or (finite.get row.old s) (if s == slot then node else None) }
    ensures slots { AreOfSlots row.old → AreOfSlots row.new }
{
    if row.get(slot).is_none() {
        if let Some(node) = node {
            row.set(slot, node);
        }
    }
}
