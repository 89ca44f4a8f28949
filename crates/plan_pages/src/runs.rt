//! The slots that move more than once, and those that come back.
ghost use Rattle.std.specs.Prelude.{◌≡◌, ◌≤◌, ◌+◌, ◌*◌, ◌++◌, IfOk, OnOk, length};
ghost use Rattle.plan_pages.specs.Runs.{again_heading, back_heading, fits, gap, more_runs, room_after, run_text};
ghost use Rattle.plan_pages.specs.Runs.{runs_section, runs_text};

use crate::moves::put_last;
use crate::putting::{put, put_number};
use byte_texts::Memory;
use plan_outlines::SlotRun;
use std::alloc::Global;

/// Puts both lists. No line is wider than 80 columns.
pub(crate) fn put_runs(
    alloc: Global,
    out: &mut Vec<u8>,
    again: &[SlotRun],
    back: &[SlotRun],
) -> Result<(), Memory>
    ensures text { OnOk result (out.new.items ≡ out.old.items ++ runs_section again.now back.now) }
    ensures few { OnOk result (length out.new.items
        ≤ length out.old.items + (80 + 50 * (length again.now + length back.now))) }
{
    put(out, again_heading())?;
    put_list(alloc, out, again, 48)?;
    put(out, b"\n")?;
    put(out, back_heading())?;
    put_list(alloc, out, back, 49)?;
    put(out, b"\n")
}

#[tactic(auto, unfolding(crate::specs::Runs::again_heading))]
fn again_heading() -> &'static [u8]
    ensures word { result.now ≡ again_heading }
    ensures few { length result.now ≤ 33 }
{
    b"\nslots that move more than once: "
}

#[tactic(auto, unfolding(crate::specs::Runs::back_heading))]
fn back_heading() -> &'static [u8]
    ensures word { result.now ≡ back_heading }
    ensures few { length result.now ≤ 33 }
{
    b"slots that move and come back: "
}

/// Puts the runs on a line on which so many columns are left.
fn put_list(alloc: Global, out: &mut Vec<u8>, runs: &[SlotRun], room: usize) -> Result<(), Memory>
    ensures text { OnOk result (out.new.items ≡ out.old.items ++ runs_text room runs.now) }
    ensures few { OnOk result (length out.new.items ≤ length out.old.items + (4 + 50 * length runs.now)) }
{
    let [first, others @ ..] = runs else {
        return put(out, b"none");
    };
    let text = run_text(alloc, first)?;
    put(out, text.as_slice())?;
    put_others(
        alloc,
        out,
        others,
        room.saturating_sub(text.as_slice().len()),
    )
}

/// Puts the runs that follow, where so many columns are left.
fn put_others(
    alloc: Global,
    out: &mut Vec<u8>,
    runs: &[SlotRun],
    mut room: usize,
) -> Result<(), Memory>
    ensures text { OnOk result (out.new.items ≡ out.old.items ++ more_runs room runs.now) }
    ensures few { OnOk result (length out.new.items ≤ length out.old.items + 50 * length runs.now) }
{
    let mut left = runs;
    while let [run, others @ ..] = left {
        let text = run_text(alloc, run)?;
        room = put_other(out, text.as_slice(), room)?;
        left = others;
    }
    Ok(())
}

/// Puts the text after a comma, and gives how many columns are left after it.
fn put_other(out: &mut Vec<u8>, text: &[u8], room: usize) -> Result<usize, Memory>
    ensures put { OnOk result (out.new.items ≡ out.old.items ++ (gap (fits room text.now) ++ text.now)) }
    ensures few { OnOk result (length out.new.items ≤ length out.old.items + (4 + length text.now)) }
    ensures left { IfOk result (λ left. left ≡ room_after room text.now) }
{
    let fits = text.len() < room.saturating_sub(2);
    put(out, if fits { b", " } else { b",\n  " })?;
    put(out, text)?;
    Ok(if fits {
        room - 2 - text.len()
    } else {
        78usize.saturating_sub(text.len())
    })
}

/// The run, as `100-120` or `24`.
#[tactic(auto, unfolding(crate::specs::Runs::run_text))]
fn run_text(alloc: Global, run: &SlotRun) -> Result<Vec<u8>, Memory>
    ensures text { IfOk result (λ t. t.items ≡ run_text run.now) }
    ensures few { IfOk result (λ t. length t.items ≤ 41) }
{
    let mut text = Vec::new(alloc);
    put_number(&mut text, u64::from(run.first.get()))?;
    put_last(&mut text, run.first, run.last)?;
    Ok(text)
}
