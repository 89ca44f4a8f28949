//! A survey of servers as one of the model, over which plans are verified.
ghost use Rattle.std.specs.Prelude.{◌≡◌, ◌+◌, ◌<◌, ◌≤◌, IfOk, IfSome, MatchOption, MatchResult, length};
ghost use Rattle.std.specs.List.{All};
ghost use Rattle.cluster_views.specs.Rows.{with_coming, with_going};
ghost use Rattle.server_phases.specs.Opened.{AreOrdinary, AreTablesBelow, IsNotOpened, IsOpened, IsStrangeSlot};
ghost use Rattle.server_phases.specs.Opened.{MayBeAmong, MayCome, MayGo, MayHaveMarks, with_marks, with_told};

use crate::phase_fault::PhaseFault;
use crate::phases::{comes_by, goes_by, phase_at};
use crate::server_phase::ServerPhase;
use crate::strangeness::Strangeness;
use byte_texts::Memory;
use cluster_admin::Survey;
use cluster_views::ServerSurvey;
use key_slots::{NodeId, SLOTS, Slot};
use slot_marks::SlotTable;
use std::alloc::Global;

/// The survey of the model in which each slot stands as the servers show it. A slot whose target was told stands as one
/// of which nobody but the target knows yet, and whose source has its mark: so its rest tells all others, which may be
/// told twice. Where slots are strange the lowest of them is reported, and what keeps it from being in a phase; out of
/// memory may come in place of a survey. Each slot's phase is found twice, whatever the number of nodes: when strange
/// ones are looked for, before memory is taken, and when it is put into all tables (the page of CLUSTER SETSLOT).
pub fn open_survey(alloc: Global, survey: &ServerSurvey) -> Result<Survey, PhaseFault>
    ensures { MatchResult result (IsOpened survey.now) (IsNotOpened survey.now) }
{
    match strange_slot(survey) {
        Some((slot, strangeness)) => Err(PhaseFault::Strange(slot, strangeness)),
        None => Ok(survey_of_phases(alloc, survey)?),
    }
}

/// The lowest strange slot, and why it is one.
fn strange_slot(survey: &ServerSurvey) -> Option<(Slot, Strangeness)>
    ensures { MatchOption result (AreOrdinary survey.now) (λ p. IsStrangeSlot survey.now p.0 p.1) }
{
    for number in 0..SLOTS as u16 {
        let slot = Slot::of(number);
        match phase_at(survey, slot) {
            ServerPhase::Strange(strangeness) => return Some((slot, strangeness)),
            _ => {}
        }
    }
    None
}

/// The survey of the model, where no slot is strange.
fn survey_of_phases(alloc: Global, survey: &ServerSurvey) -> Result<Survey, Memory>
    requires { AreOrdinary survey.now }
    ensures { IfOk result (IsOpened survey.now) }
{
    let mut tables = tables_told(alloc, survey)?;
    for number in 0..SLOTS as u16 {
        let slot = Slot::of(number);
        put_slot(&mut tables, survey, slot);
    }
    Ok(Survey::of(tables))
}

/// Each node's table, with the owners that it tells and no mark.
fn tables_told(alloc: Global, survey: &ServerSurvey) -> Result<Vec<SlotTable>, Memory>
    ensures told { IfOk result
        (λ ts. (length ts.items ≡ length survey.now.rows) × AreTablesBelow survey.now 0 ts.items) }
    ensures few { IfOk result (λ ts. (1 ≤ length ts.items) × (length ts.items ≤ 255)) }
{
    let mut tables = Vec::new(alloc);
    for number in 0..survey.nodes() {
        let node = NodeId::of(number);
        let owners = survey.owners(node).try_copy()?;
        let table = SlotTable::new(alloc, node, owners)?;
        let _nodes = table.nodes();
        tables.push(table)?;
    }
    Ok(tables)
}

/// Puts what the slot's phase is in the model into the tables of all nodes. The phase is found once.
fn put_slot(tables: &mut Vec<SlotTable>, survey: &ServerSurvey, slot: Slot)
    requires ordinary { AreOrdinary survey.now }
    requires many { length tables.old.items ≡ length survey.now.rows }
    requires below { AreTablesBelow survey.now slot tables.old.items }
    ensures many { length tables.new.items ≡ length survey.now.rows }
    ensures below { AreTablesBelow survey.now (slot + 1) tables.new.items }
{
    let phase = phase_at(survey, slot);
    for table in tables.iter_mut() {
        put_phase(table, slot, &phase);
    }
}

/// Puts the owner and the marks of the slot that the table's node has in the model.
fn put_phase(table: &mut SlotTable, slot: Slot, phase: &ServerPhase)
    requires among { MayBeAmong table.old.nodes phase.now }
    requires marks { MayHaveMarks (with_told table.old slot phase.now) slot phase.now }
    ensures put { table.new ≡ with_marks (with_told table.old slot phase.now) slot phase.now }
    ensures width { length table.new.owners ≡ 16384 }
    ensures named { All (λ n. n < table.new.nodes) table.new.owners }
{
    put_owner(table, slot, phase);
    put_marks(table, slot, phase);
    let _nodes = table.nodes();
}

/// Makes the slot's owner the one that the table's node tells in the model.
fn put_owner(table: &mut SlotTable, slot: Slot, phase: &ServerPhase)
    requires { MayBeAmong table.old.nodes phase.now }
    ensures { table.new ≡ with_told table.old slot phase.now }
{
    match *phase {
        ServerPhase::Told { source, target } => {
            let owner = if table.me() == target { target } else { source };
            match table.set_node(slot, owner, 0) {
                Ok(()) => {}
                Err(_) => unreachable!(),
            }
        }
        _ => {}
    }
}

/// Puts the marks of the slot that the table's node has in the model.
fn put_marks(table: &mut SlotTable, slot: Slot, phase: &ServerPhase)
    requires { MayHaveMarks table.old slot phase.now }
    ensures { table.new ≡ with_marks table.old slot phase.now }
{
    let node = table.me();
    put_going(table, slot, goes_by(node, phase));
    put_coming(table, slot, comes_by(node, phase));
}

/// Marks the slot as one that goes to the node, if there is one.
fn put_going(table: &mut SlotTable, slot: Slot, target: Option<NodeId>)
    requires { IfSome target (MayGo table.old slot) }
    ensures { table.new ≡ with_going table.old slot target }
{
    if let Some(target) = target {
        match table.set_migrating(slot, target) {
            Ok(()) => {}
            Err(_) => unreachable!(),
        }
    }
}

/// Marks the slot as one that comes from the node, if there is one.
fn put_coming(table: &mut SlotTable, slot: Slot, source: Option<NodeId>)
    requires { IfSome source (MayCome table.old slot) }
    ensures { table.new ≡ with_coming table.old slot source }
{
    if let Some(source) = source {
        match table.set_importing(slot, source) {
            Ok(()) => {}
            Err(_) => unreachable!(),
        }
    }
}
