//! Keys in order, among which one is found in few steps.
ghost use Rattle.std.specs.Prelude.{◌≡◌, ◌≤◌, ◌∷◌, ◌++◌, [], cond, IfOk, IsPermutation, IsSorted, OnOk, length};
ghost use Rattle.std.specs.Ordering.{nat_cmp};
ghost use Rattle.std.specs.Cmp.Lexicographic.{slice_cmp};
ghost use Rattle.server_settling.specs.Keys.{has, at_both, at_one_alone};

use byte_texts::{Memory, Text, TextList};
use std::alloc::Global;
use std::marker::Model;

/// Keys in the order of their bytes, as many as a number of 32 bits counts at most.
#[derive(Drop)]
pub(crate) struct SortedKeys {
    keys: TextList,
}

impl Model for SortedKeys {
    ghost use Rattle.std.specs.Prelude.{List, ℕ, length, ◌≤◌};
    ghost use Rattle.std.specs.List.Sorted.{IsSorted};
    ghost use Rattle.std.specs.Ordering.{nat_cmp};
    ghost use Rattle.std.specs.Cmp.Lexicographic.{slice_cmp};

    ghost Value = { List (List ℕ) };

    ghost view = { λ s. s.keys };

    ghost invariant = { λ s. (IsSorted (slice_cmp nat_cmp) s.keys) × (length s.keys ≤ 4294967295) };
}

impl SortedKeys {
    /// These keys, which are in order.
    pub(crate) fn of(keys: TextList) -> Self
        requires sorted { IsSorted (slice_cmp nat_cmp) keys }
        requires few { length keys ≤ 4294967295 }
        ensures { result ≡ keys }
    {
        Self { keys }
    }

    /// Whether one of them is this one.
    fn has(&self, key: &[u8]) -> bool
        ensures { result ≡ has self.now key.now }
    {
        self.keys
            .get()
            .binary_search_by(|other| other.get().cmp(key))
            .is_ok()
    }

    /// Copies of those that are among the others too.
    #[tactic(auto, using(crate::proofs::Keeping::keys_found))]
    pub(crate) fn shared_with(&self, alloc: Global, others: &SortedKeys) -> Result<TextList, Memory>
        ensures value { IfOk result (λ l. l ≡ at_both self.now others.now) }
        ensures few { IfOk result (λ l. length l ≤ 4294967295) }
    {
        let mut found = TextList::new(alloc);
        let mut rest = self.keys.get();
        while let [key, more @ ..] = rest {
            note_shared(alloc, &mut found, key, others)?;
            rest = more;
        }
        Ok(found)
    }

    /// How many of them are not among the others.
    #[tactic(auto, using(crate::proofs::Keeping::keys_counted))]
    pub(crate) fn count_without(&self, others: &SortedKeys) -> u32
        ensures { result ≡ length (at_one_alone self.now others.now) }
    {
        let mut count = 0u32;
        let mut rest = self.keys.get();
        while let [key, more @ ..] = rest {
            count += one_unless(others.has(key.get()));
            rest = more;
        }
        count
    }
}

/// Puts a copy of the key at the end if the others have it.
fn note_shared(
    alloc: Global,
    found: &mut TextList,
    key: &Text,
    others: &SortedKeys,
) -> Result<(), Memory>
    ensures { OnOk result (found.new ≡ found.old ++ at_both (key.now ∷ []) others.now) }
{
    if others.has(key.get()) {
        found.push(key.try_copy(alloc)?)?;
    }
    Ok(())
}

fn one_unless(is_there: bool) -> u32
    ensures { result ≡ cond is_there 0 1 }
{
    if is_there { 0 } else { 1 }
}

/// The texts in the order of their bytes. They are put in order where they are: it takes no memory.
pub(crate) fn sorted(texts: TextList) -> TextList
    ensures same { IsPermutation texts result }
    ensures ascending { IsSorted (slice_cmp nat_cmp) result }
{
    let mut texts = texts.into_vec();
    texts.sort_unstable_by(|text, other| text.get().cmp(other.get()));
    TextList::from_vec(texts)
}
