//! Lines of JSON.
ghost use Rattle.std.specs.Prelude.{◌≡◌, ◌≤◌, ◌+◌, ◌*◌, false, IfOk, OnOk, length};
ghost use Rattle.serde_json.specs.Data.{no_members, object};
ghost use Rattle.serde_json.specs.View.{members_view};
ghost use Rattle.serde_json.specs.Written.{members_have_float};
ghost use Rattle.plan_json.specs.Sizes.{longest, size, text_size};
ghost use Rattle.plan_json.specs.Values.{line_of, outline_data, refusal_data, with_refusal};

use crate::members::{Members, put_str};
use crate::outline_values::outline_members;
use byte_texts::Memory;
use plan_outlines::{NodeServer, PlanOutline};
use serde_json::Value;
use std::alloc::Global;

/// What the page of `plan_pages` tells, and the number of commands, as one line of JSON: an object whose members stand
/// in the order of their names. A node is `"n0"`, and has what its server tells where there is one. What is not known
/// is null, but for the keys of a pair of nodes, which it lacks then. Bytes of hosts, IDs and `resume` that are no
/// UTF-8 become U+FFFD.
pub fn json(
    alloc: Global,
    outline: &PlanOutline,
    servers: &[NodeServer],
    commands: u32,
    resume: &[u8],
) -> Result<Vec<u8>, Memory>
    ensures told { IfOk result (λ t. t.items
        ≡ line_of (outline_data outline.now servers.now commands resume.now)) }
    ensures few { IfOk result (λ t. length t.items ≤ 1260 + (240 * length outline.now.pairs.items
        + (length outline.now.nodes.items * (680 + longest servers.now) + (240 * length outline.now.ranges.items
        + (110 * (length outline.now.moved_again.items + length outline.now.moved_back.items)
        + text_size resume.now))))) }
{
    let members = outline_members(alloc, outline, servers, commands, resume)?;
    line_of(alloc, members)
}

/// Why a plan is refused, as one line of JSON.
pub fn refusal_json(alloc: Global, reason: &str) -> Result<Vec<u8>, Memory>
    ensures told { IfOk result (λ t. t.items ≡ line_of (refusal_data reason.now)) }
    ensures few { IfOk result (λ t. length t.items ≤ 140 + 6 * length reason.now) }
{
    let members = refusal_members(alloc, reason)?;
    line_of(alloc, members)
}

fn refusal_members(alloc: Global, reason: &str) -> Result<Members, Memory>
    ensures told { IfOk result (λ ms. members_view ms.entries ≡ with_refusal reason.now no_members) }
    ensures few { IfOk result (λ ms. size (members_view ms.entries) ≤ 133 + 6 * length reason.now) }
{
    let mut members = Members::new(alloc);
    put_refusal(&mut members, alloc, reason)?;
    Ok(members)
}

#[tactic(auto, unfolding(crate::specs::Values::with_refusal))]
fn put_refusal(members: &mut Members, alloc: Global, reason: &str) -> Result<(), Memory>
    ensures told { OnOk result (members_view members.new.entries
        ≡ with_refusal reason.now (members_view members.old.entries)) }
    ensures few { OnOk result (size (members_view members.new.entries)
        ≤ size (members_view members.old.entries) + (132 + 6 * length reason.now)) }
{
    put_str(members, alloc, "verdict", "refused")?;
    put_str(members, alloc, "reason", reason)
}

/// The object of these members, with a line feed after it.
fn line_of(alloc: Global, members: Members) -> Result<Vec<u8>, Memory>
    requires { members_have_float (members_view members.entries) ≡ false }
    ensures told { IfOk result (λ t. t.items ≡ line_of (object (members_view members.entries))) }
    ensures few { IfOk result (λ t. length t.items ≡ 2 + size (members_view members.entries)) }
{
    let value = Value::from(members);
    let mut text = value.to_vec(alloc)?;
    text.push(b'\n')?;
    Ok(text)
}
