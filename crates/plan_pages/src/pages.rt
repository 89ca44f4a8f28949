//! The page.
ghost use Rattle.std.specs.Prelude.{◌≡◌, ◌≤◌, ◌+◌, ◌*◌, IfOk, length};
ghost use Rattle.plan_pages.specs.Pages.{page_text};
ghost use Rattle.plan_pages.specs.Servers.{names};

use crate::commands::put_commands;
use crate::moves::put_moves;
use crate::nodes::put_nodes;
use crate::pairs::put_pairs;
use crate::runs::put_runs;
use crate::servers::put_servers;
use crate::stops::put_stop;
use byte_texts::Memory;
use plan_outlines::{NodeServer, PlanOutline};
use std::alloc::Global;

/// The plan's page: its pairs of nodes, its nodes, the servers if there are any, the ranges whose owner changes, its
/// commands, the slots that move more than once, and what continues after a stop: the command line `resume`, which is
/// put as it is. How wide its lines are is said by [`pages_are_narrow`](crate::pages_are_narrow).
pub fn page(
    alloc: Global,
    outline: &PlanOutline,
    servers: &[NodeServer],
    resume: &[u8],
) -> Result<Vec<u8>, Memory>
    ensures text { IfOk result (λ t. t.items ≡ page_text outline.now servers.now resume.now) }
    ensures few { IfOk result (λ t. length t.items ≤ 760 + (150 * length outline.now.ranges.items
        + (360 * length outline.now.nodes.items + (140 * length outline.now.pairs.items
        + (240 * length servers.now + (length (names servers.now)
        + (50 * (length outline.now.moved_again.items + length outline.now.moved_back.items)
        + length resume.now))))))) }
{
    let mut out = Vec::new(alloc);
    put_pairs(&mut out, outline.pairs.as_slice(), outline.load.is_some())?;
    put_nodes(&mut out, outline.nodes.as_slice())?;
    put_servers(&mut out, servers)?;
    put_moves(&mut out, outline.ranges.as_slice())?;
    put_commands(&mut out, outline)?;
    put_runs(
        alloc,
        &mut out,
        outline.moved_again.as_slice(),
        outline.moved_back.as_slice(),
    )?;
    put_stop(&mut out, outline.most_open, resume)?;
    Ok(out)
}
