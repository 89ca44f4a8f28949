//! The marks that a server tells of itself: a replica tells those of its master (Valkey).
ghost use Rattle.std.specs.Prelude.{◌≡◌, ◌<◌, ◌||◌, ℕ, false, is_some, length, true};
ghost use Rattle.cluster_views.specs.Surveying.{has_mark};
ghost use Rattle.server_replicas.specs.Marks.{is_marked, marks, marks_own, shows_mark};

use cluster_views::ServerSurvey;
use key_slots::{NodeId, SLOTS, Slot};
use listed_nodes::{NodeLine, SlotWord};

/// Whether the node has a mark of any slot.
pub(crate) fn has_marks(survey: &ServerSurvey, node: NodeId) -> bool
    requires { node < length survey.now.rows }
    ensures some { result ≡ true → (s : ℕ) × (s < 16384) × (has_mark survey.now s node ≡ true) }
    ensures none { result ≡ false → (s : ℕ) → s < 16384 → has_mark survey.now s node ≡ false }
{
    for number in 0..SLOTS as u16 {
        if has_mark(survey, node, Slot::of(number)) {
            return true;
        }
    }
    false
}

/// Whether the node has a mark of the slot.
pub(crate) fn has_mark(survey: &ServerSurvey, node: NodeId, slot: Slot) -> bool
    requires { node < length survey.now.rows }
    ensures { result ≡ has_mark survey.now slot node }
{
    survey.migrating(node, slot).is_some() || survey.importing(node, slot).is_some()
}

/// Whether the server that tells these lines has a mark of the slot.
pub(crate) fn shows_mark(lines: &[NodeLine], slot: Slot) -> bool
    ensures { result ≡ shows_mark slot lines.now }
{
    let mut left = lines;
    while let [line, others @ ..] = left {
        if marks_own(line, slot) {
            return true;
        }
        left = others;
    }
    false
}

/// Whether this is the line of the server itself, with a mark of the slot.
fn marks_own(line: &NodeLine, slot: Slot) -> bool
    ensures { result ≡ marks_own slot line.now }
{
    line.is_myself && is_marked(line.slots.get(), slot)
}

/// Whether one of the words is a mark of the slot.
fn is_marked(words: &[SlotWord], slot: Slot) -> bool
    ensures { result ≡ is_marked slot words.now }
{
    let mut left = words;
    while let [word, others @ ..] = left {
        if marks(word, slot) {
            return true;
        }
        left = others;
    }
    false
}

/// Whether the word is a mark of the slot.
fn marks(word: &SlotWord, slot: Slot) -> bool
    ensures { result ≡ marks slot word.now }
{
    match word {
        SlotWord::Slots(_, _) => false,
        SlotWord::Migrating(marked, _) | SlotWord::Importing(marked, _) => *marked == slot,
    }
}
