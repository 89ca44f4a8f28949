ghost use Rattle.std.specs.Prelude.{◌≡◌, ◌<◌, ◌≤◌, ◌&&◌, IfOk, OnOk, IsTrue, Ok, length, map, nat_eq};
ghost use Rattle.std.specs.Cmp.Lexicographic.{pointwise};
ghost use Rattle.std.specs.List.{IsDistinct};
ghost use Rattle.typed_values.specs.Members.{with_member};
ghost use Rattle.key_slots.specs.OneSlot.{have_one_slot};
ghost use Rattle.cluster_admin.specs.Commands.{AreMovable};
ghost use Rattle.script_lines.specs.Faults.{Gives};
ghost use Rattle.script_lines.specs.Batches.{are_distinct, one_batch};
ghost use Rattle.script_lines.specs.Forms.{batch, stands_at_to, route, moving, route_form, migrate_form};
ghost use Rattle.script_lines.specs.Lines.{IsLine};

use crate::fault::{Halt, ScriptFault};
use crate::line::Line;
use crate::named::{node_named, texts_of};
use crate::words::is_verb;
use byte_texts::Text;
use cluster_admin::{AdminCommand, KeyList};
use key_slots::{NodeId, have_one_slot};
use std::alloc::{AllocError, Global};
use typed_values::MemberSet;

/// How many keys one MIGRATE names at most.
const MAX_KEYS: usize = 1_000;

/// How many words stand after the keys: `at nI to nJ`.
const ROUTE_WORDS: usize = 4;

/// The words after `migrate`: `KEY .. at nI to nJ`.
pub fn migrate(alloc: Global, nodes: u8, words: &[&[u8]]) -> Result<Line, Halt>
    ensures value { Gives (migrate_form nodes (map (λ w. w.now) words.now)) result }
    ensures well_formed { IfOk result (IsLine nodes) }
{
    if words.len() <= ROUTE_WORDS {
        return Err(Halt::Fault(ScriptFault::Verb));
    }
    let (keys, route) = words.split_at(words.len() - ROUTE_WORDS);
    with_route(alloc, nodes, keys, route)
}

/// A `migrate` line of these keys, by the words after them.
fn with_route(alloc: Global, nodes: u8, keys: &[&[u8]], route: &[&[u8]]) -> Result<Line, Halt>
    requires some { 0 < length keys.now }
    requires four { length route.now ≡ 4 }
    ensures value { Gives (route_form nodes (map (λ w. w.now) keys.now) (map (λ w. w.now) route.now)) result }
    ensures well_formed { IfOk result (IsLine nodes) }
{
    let [at, source, to, target] = route else {
        unreachable!()
    };
    if !stands_at_to(alloc, at, to)? {
        return Err(Halt::Fault(ScriptFault::Verb));
    }
    moving(alloc, nodes, keys, source, target)
}

fn stands_at_to(alloc: Global, at: &[u8], to: &[u8]) -> Result<bool, Halt>
    ensures { Gives (Ok (stands_at_to at.now to.now)) result }
{
    if is_verb(alloc, at, b"at")? {
        is_verb(alloc, to, b"to")
    } else {
        Ok(false)
    }
}

#[tactic(auto, using(crate::proofs::Halting::handed_on))]
fn moving(
    alloc: Global,
    nodes: u8,
    keys: &[&[u8]],
    source: &[u8],
    target: &[u8],
) -> Result<Line, Halt>
    requires { 0 < length keys.now }
    ensures value { Gives (moving nodes (map (λ w. w.now) keys.now) source.now target.now) result }
    ensures well_formed { IfOk result (IsLine nodes) }
{
    let keys = batch(alloc, keys)?;
    let (node, target) = route(alloc, nodes, source, target)?;
    Ok(Line::Admin {
        node,
        command: AdminCommand::Migrate(keys, target),
    })
}

fn route(alloc: Global, nodes: u8, source: &[u8], target: &[u8]) -> Result<(NodeId, NodeId), Halt>
    ensures value { Gives (route nodes source.now target.now) result }
    ensures within { IfOk result (λ r. r.0 < nodes) }
{
    let source = node_named(alloc, source, nodes)?;
    let target = node_named(alloc, target, nodes)?;
    Ok((source, target))
}

/// The keys of a MIGRATE: at most 1,000, each once, and all of one slot.
#[tactic(auto, using(crate::proofs::Halting::handed_on))]
fn batch(alloc: Global, words: &[&[u8]]) -> Result<KeyList, Halt>
    requires { 0 < length words.now }
    ensures value { Gives (batch (map (λ w. w.now) words.now)) result }
    ensures movable { IfOk result (λ keys. AreMovable keys) }
{
    if words.len() > MAX_KEYS {
        return Err(Halt::Fault(ScriptFault::Word));
    }
    let keys = texts_of(alloc, words)?;
    one_batch(alloc, keys)
}

fn one_batch(alloc: Global, keys: Vec<Text>) -> Result<KeyList, Halt>
    requires some { 0 < length keys.items }
    requires most { length keys.items ≤ 1000 }
    ensures value { Gives (one_batch keys.items) result }
    ensures movable { IfOk result (λ keys. AreMovable keys) }
{
    if are_one_batch(alloc, &keys)? {
        Ok(KeyList::from_vec(keys))
    } else {
        Err(Halt::Fault(ScriptFault::Word))
    }
}

fn are_one_batch(alloc: Global, keys: &[Text]) -> Result<bool, AllocError>
    ensures value { IfOk result (λ b. b ≡ (are_distinct keys.now && have_one_slot keys.now)) }
    ensures distinct { IfOk result (λ b. IsTrue b → IsDistinct (pointwise nat_eq) keys.now) }
{
    Ok(are_distinct(alloc, keys)? && have_one_slot(keys))
}

/// Whether no key is named twice.
fn are_distinct(alloc: Global, keys: &[Text]) -> Result<bool, AllocError>
    ensures value { IfOk result (λ b. b ≡ are_distinct keys.now) }
    ensures distinct { IfOk result (λ b. IsTrue b → IsDistinct (pointwise nat_eq) keys.now) }
{
    let mut seen = MemberSet::new(alloc);
    for key in keys {
        put(&mut seen, key.try_copy(alloc)?)?;
    }
    Ok(seen.len() == keys.len())
}

/// Puts a key among those that were seen. A batch has far fewer than a set may hold, so memory alone can be wanting.
fn put(seen: &mut MemberSet, key: Text) -> Result<(), AllocError>
    ensures { OnOk result (seen.new ≡ with_member seen.old key) }
{
    match seen.insert_new(key) {
        Ok(_) => Ok(()),
        Err(_) => Err(AllocError),
    }
}
