//! What moves between which nodes, as JSON.
ghost use Rattle.std.specs.Prelude.{◌≡◌, ◌≤◌, ◌+◌, ◌*◌, map, IfOk, OnOk, length};
ghost use Rattle.serde_json.specs.Data.{no_members};
ghost use Rattle.serde_json.specs.View.{view, members_view};
ghost use Rattle.plan_json.specs.Sizes.{items_size, size};
ghost use Rattle.plan_json.specs.Values.{pair_data, with_known, with_pair};

use crate::members::{Members, push_object, put_count, put_node_name};
use byte_texts::Memory;
use plan_outlines::PairChange;
use serde_json::Value;
use std::alloc::Global;

/// An object for each pair, with its keys where they are known.
pub(crate) fn pair_values(
    alloc: Global,
    pairs: &[PairChange],
    has_keys: bool,
) -> Result<Vec<Value>, Memory>
    ensures told { IfOk result (λ vs. map view vs.items ≡ map (pair_data has_keys) pairs.now) }
    ensures few { IfOk result (λ vs. items_size (map view vs.items) ≤ 1 + 240 * length pairs.now) }
{
    let mut values = Vec::new(alloc);
    for pair in pairs {
        push_object(&mut values, pair_members(alloc, pair, has_keys)?)?;
    }
    Ok(values)
}

fn pair_members(alloc: Global, pair: &PairChange, has_keys: bool) -> Result<Members, Memory>
    ensures told { IfOk result (λ ms. members_view ms.entries ≡ with_pair has_keys pair.now no_members) }
    ensures few { IfOk result (λ ms. size (members_view ms.entries) ≤ 235) }
{
    let mut members = Members::new(alloc);
    put_pair(&mut members, alloc, pair, has_keys)?;
    Ok(members)
}

#[tactic(auto, unfolding(crate::specs::Values::with_pair))]
fn put_pair(
    members: &mut Members,
    alloc: Global,
    pair: &PairChange,
    has_keys: bool,
) -> Result<(), Memory>
    ensures told { OnOk result (members_view members.new.entries
        ≡ with_pair has_keys pair.now (members_view members.old.entries)) }
    ensures few { OnOk result (size (members_view members.new.entries)
        ≤ size (members_view members.old.entries) + 234) }
{
    put_node_name(members, alloc, "source", pair.source)?;
    put_node_name(members, alloc, "target", pair.target)?;
    put_count(members, alloc, "slots", u64::from(pair.slots))?;
    put_known(members, alloc, pair.keys, has_keys)
}

fn put_known(members: &mut Members, alloc: Global, keys: u64, has_keys: bool) -> Result<(), Memory>
    ensures told { OnOk result (members_view members.new.entries
        ≡ with_known has_keys keys (members_view members.old.entries)) }
    ensures few { OnOk result (size (members_view members.new.entries)
        ≤ size (members_view members.old.entries) + 48) }
{
    if has_keys {
        put_count(members, alloc, "keys", keys)
    } else {
        Ok(())
    }
}
