ghost use Rattle.std.specs.Prelude.{◌≡◌};
ghost use Rattle.std.specs.Ordering.{is_lt};
ghost use Rattle.cluster_admin.specs.Keys.{order};
ghost use Rattle.plan_runner.specs.Listings.{is_listing, is_rising};

use byte_texts::Text;
use key_slots::{Slot, are_of};

/// Whether the first key stands before the second, by their bytes.
fn is_before(first: &Text, second: &Text) -> bool
    ensures { result ≡ is_lt (order first.now second.now) }
{
    first.get().cmp(second.get()).is_lt()
}

/// Whether each key stands before the one after it.
#[tactic(auto, using(crate::proofs::Rising::rising_whole))]
fn is_rising(keys: &[Text]) -> bool
    ensures { result ≡ is_rising keys.now }
{
    for i in 1..keys.len() {
        if !is_before(&keys[i - 1], &keys[i]) {
            return false;
        }
    }
    true
}

/// Whether a node can have listed these keys: keys of the slot, ascending, at most the batch.
pub(crate) fn is_listing(keys: &[Text], slot: Slot, batch: u16) -> bool
    ensures { result ≡ is_listing slot batch keys.now }
{
    keys.len() <= usize::from(batch) && are_of(keys, slot) && is_rising(keys)
}
