ghost use Rattle.std.specs.Prelude.{◌≡◌, ◌<◌, not, ◌&&◌, length, List, [], ◌∷◌, nat_eq};
ghost use Rattle.std.specs.Cmp.Lexicographic.{pointwise};
ghost use Rattle.std.specs.List.{list_any, list_all};
ghost use Rattle.slot_marks.specs.Verdicts.{first_row, first_slot, is_pair, judged_by};
ghost use Rattle.slot_marks.specs.declared.verdict.Verdict.TheVariants.{Serve, Ask, TryAgain};

use crate::slot_table::SlotTable;
use crate::verdict::Verdict;
use byte_texts::Text;
use key_slots::{NodeId, Slot, has_other_slot, slot_of};

/// NodeExact: the verdict of the table's node on a command with these keys, of which `present` says, in their order,
/// which are there; `asking` is whether the client said so just before. Takes no memory, and hashes each key once.
pub fn judge(table: &SlotTable, asking: bool, keys: &[Text], present: &[bool]) -> Verdict
    requires some { 0 < length keys.now }
    requires each { length present.now ≡ length keys.now }
    ensures { result ≡ judged_by table.now asking keys.now present.now }
{
    judge_at(table, slot_of(keys[0].get()), asking, keys, present)
}

/// The verdict, by the slot of the first key, which is not hashed again; the first that applies. `CrossSlot`: a key has
/// another slot. At an owner that migrates the slot: `Serve` where all keys are here, `Ask` where none is, else
/// `TryAgain`. After ASKING at a node that imports it: `TryAgain` where one of several keys is missing, else `Serve`.
/// Otherwise `Serve` at the owner, and `Moved` elsewhere. Where the slot has no mark, `present` is not looked at and
/// may say anything.
pub fn judge_at(
    table: &SlotTable,
    slot: Slot,
    asking: bool,
    keys: &[Text],
    present: &[bool],
) -> Verdict
    requires some { 0 < length keys.now }
    requires slot { slot ≡ first_slot keys.now }
    ensures { result ≡ judged_by table.now asking keys.now present.now }
{
    if has_other_slot(slot, &keys[1..]) {
        return Verdict::CrossSlot;
    }
    let owner = table.owner(slot);
    let is_mine = owner == table.me();
    if is_mine {
        if let Some(target) = table.migrating(slot) {
            return at_source(target, present);
        }
    }
    if asking && table.importing(slot).is_some() {
        return at_target(keys, present);
    }
    if is_mine {
        Verdict::Serve
    } else {
        Verdict::Moved(owner)
    }
}

/// At the owner of a slot that goes to `target`: a key that is not here is there.
fn at_source(target: NodeId, present: &[bool]) -> Verdict
    ensures { result
        ≡ first_row
        ((list_any not present.now && list_any (λ b. b) present.now, TryAgain) ∷ (list_all not present.now, Ask target)
        ∷ []) Serve }
{
    if !any_here(present) {
        Verdict::Ask(target)
    } else if any_missing(present) {
        Verdict::TryAgain
    } else {
        Verdict::Serve
    }
}

fn any_here(present: &[bool]) -> bool
    ensures { result ≡ list_any (λ b. b) present.now }
{
    present.iter().any(|here| *here)
}

fn any_missing(present: &[bool]) -> bool
    ensures { result ≡ list_any not present.now }
{
    present.iter().any(|here| !*here)
}

/// At the node to which a slot comes, for a client that is asking: several keys can be served once all are here.
fn at_target(keys: &[Text], present: &[bool]) -> Verdict
    requires { 0 < length keys.now }
    ensures { result ≡ first_row ((is_pair keys.now && list_any not present.now, TryAgain) ∷ []) Serve }
{
    if names_other(keys[0].get(), &keys[1..]) && any_missing(present) {
        Verdict::TryAgain
    } else {
        Verdict::Serve
    }
}

/// Whether one of the keys is another than the first.
fn names_other(first: &[u8], keys: &[Text]) -> bool
    ensures { result ≡ list_any (λ q. not (pointwise nat_eq first.now q)) keys.now }
{
    keys.iter().any(|key| first != key.get())
}
