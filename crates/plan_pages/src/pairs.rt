//! What moves between which nodes.
ghost use Rattle.std.specs.Prelude.{◌≡◌, ◌≤◌, ◌+◌, ◌*◌, ◌++◌, OnOk, length};
ghost use Rattle.std.specs.List.{flat_map};
ghost use Rattle.plan_pages.specs.Pairs.{keys_column, keys_part, pair_line, pairs_heading, pairs_section};

use crate::putting::{key_word, put, put_if_none, put_left_pair, put_right, put_slots};
use byte_texts::Memory;
use plan_outlines::PairChange;

/// Puts a line for each pair, with its keys where they are known.
#[tactic(auto, using(crate::proofs::NoLines::none_put))]
pub(crate) fn put_pairs(
    out: &mut Vec<u8>,
    pairs: &[PairChange],
    has_keys: bool,
) -> Result<(), Memory>
    ensures text { OnOk result (out.new.items ≡ out.old.items ++ pairs_section has_keys pairs.now) }
    ensures few { OnOk result (length out.new.items ≤ length out.old.items + (30 + 140 * length pairs.now)) }
{
    put_heading(out)?;
    let start = out.as_slice().len();
    put_lines(out, pairs, has_keys)?;
    put_if_none(out, start)
}

#[tactic(auto, unfolding(crate::specs::Pairs::pairs_heading))]
fn put_heading(out: &mut Vec<u8>) -> Result<(), Memory>
    ensures text { OnOk result (out.new.items ≡ out.old.items ++ pairs_heading) }
    ensures few { OnOk result (length out.new.items ≤ length out.old.items + 23) }
{
    put(out, b"slots by pair of nodes\n")
}

fn put_lines(out: &mut Vec<u8>, pairs: &[PairChange], has_keys: bool) -> Result<(), Memory>
    ensures text { OnOk result (out.new.items ≡ out.old.items ++ flat_map (pair_line has_keys) pairs.now) }
    ensures few { OnOk result (length out.new.items ≤ length out.old.items + 140 * length pairs.now) }
{
    for pair in pairs {
        put_line(out, pair, has_keys)?;
    }
    Ok(())
}

#[tactic(auto, unfolding(crate::specs::Pairs::pair_line))]
fn put_line(out: &mut Vec<u8>, pair: &PairChange, has_keys: bool) -> Result<(), Memory>
    ensures text { OnOk result (out.new.items ≡ out.old.items ++ pair_line has_keys pair.now) }
    ensures few { OnOk result (length out.new.items ≤ length out.old.items + 140) }
{
    put(out, b"  ")?;
    put_left_pair(out, pair.source, pair.target, 12)?;
    put_slots(out, pair.slots, 12)?;
    put_keys_part(out, pair, has_keys)?;
    put(out, b"\n")
}

fn put_keys_part(out: &mut Vec<u8>, pair: &PairChange, has_keys: bool) -> Result<(), Memory>
    ensures text { OnOk result (out.new.items ≡ out.old.items ++ keys_part has_keys pair.now) }
    ensures few { OnOk result (length out.new.items ≤ length out.old.items + 37) }
{
    if has_keys {
        put_keys(out, pair.keys)
    } else {
        Ok(())
    }
}

#[tactic(auto, unfolding(crate::specs::Pairs::keys_column))]
fn put_keys(out: &mut Vec<u8>, keys: u64) -> Result<(), Memory>
    ensures text { OnOk result (out.new.items ≡ out.old.items ++ keys_column keys) }
    ensures few { OnOk result (length out.new.items ≤ length out.old.items + 37) }
{
    put(out, b", ")?;
    put_right(out, keys, 10)?;
    put(out, key_word(keys))
}
