ghost use Rattle.std.specs.Prelude.{◌≡◌, ◌≢◌, [], Some};
ghost use Rattle.plan_language.specs.Lines.{IsVersion};
ghost use Rattle.plan_language.specs.LinesLeft.{read_on};
ghost use Rattle.plan_language.specs.Texts.{any_plan_of_text, as_plan, names_in, parts, plan_of_text, GivesPlan};

use crate::name_reading::take_names;
use crate::parse_fault::ParseFault;
use crate::plan::Plan;
use crate::plan_lines::PlanLines;
use crate::words::listing_version_in;
use byte_texts::split_once;
use node_names::{NameTable, NodeNames};
use std::alloc::Global;

/// PlanTextExact: reads a plan of a version 1 to 3. The first line at fault decides, and out of memory comes only where
/// none is.
pub fn parse(alloc: Global, text: &[u8]) -> Result<Plan, ParseFault>
    ensures { GivesPlan result (plan_of_text text.now) }
{
    let lines = PlanLines::of(text)?;
    let plan = Plan::of_version(alloc, lines.version());
    take_lines(plan, lines)
}

/// PlanTextExact: reads a plan of any version, for a cluster of servers, of whose nodes the versions 4 and 5 list the
/// names. The first line at fault decides, and out of memory comes only where none is.
pub fn parse_any(alloc: Global, text: &[u8]) -> Result<Plan, ParseFault>
    ensures { GivesPlan result (any_plan_of_text text.now) }
{
    let Some((header, rest)) = split_once(text, b'\n') else {
        return parse(alloc, text);
    };
    match listing_version_in(header) {
        Some(version) => parse_listed(alloc, version, rest),
        None => parse(alloc, text),
    }
}

/// Reads what follows the header of a plan that lists its nodes.
fn parse_listed(alloc: Global, version: u8, text: &[u8]) -> Result<Plan, ParseFault>
    requires version { IsVersion version }
    requires rules { version ≢ 2 }
    ensures { GivesPlan result (names_in version 2 [] (parts 10 text.now)) }
{
    let mut table = NameTable::new();
    let (rest, number) = take_names(&mut table, text)?;
    let lines = PlanLines::after(version, table.get(), rest, number);
    match NodeNames::copy_of(alloc, table.get()) {
        Ok(names) => take_lines(Plan::of_names(version, names), lines),
        Err(_) => Err(lines.out_of_memory()),
    }
}

/// Puts all lines that are left into a plan that has none yet.
#[tactic(auto, using(crate::proofs::Reading::read_after, crate::proofs::Pushed::count_pushed))]
fn take_lines(mut plan: Plan, mut lines: PlanLines) -> Result<Plan, ParseFault>
    requires none { plan.lines ≡ [] }
    requires begun { lines.before ≡ 0 }
    requires version { plan.version ≡ lines.version }
    requires names { plan.names ≡ lines.names }
    ensures { GivesPlan result (as_plan plan.version plan.names (read_on lines.entry)) }
{
    loop {
        match lines.next() {
            Ok(Some(line)) => {
                if plan.push(line).is_err() {
                    return Err(lines.out_of_memory());
                }
            }
            Ok(None) => return Ok(plan),
            Err(fault) => return Err(fault),
        }
    }
}
