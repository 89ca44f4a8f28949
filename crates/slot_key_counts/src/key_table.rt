//! The keys that nodes told of slots.
ghost use Rattle.std.specs.Prelude.{◌≡◌, ◌+◌, ◌*◌, ◌<◌, ◌≤◌, IfOk, length};
ghost use Rattle.slot_key_counts.specs.Rounds.{nothing, with_keys};

use key_slots::{NodeId, SLOTS, Slot};
use std::alloc::{AllocError, Global};

/// The keys of slots at nodes, as far as they were told.
#[derive(Drop)]
pub struct KeyTable {
    nodes: usize,
    /// Those of n0, from slot 0 on, and then those of n1.
    keys: Vec<Option<u32>>,
    ghost few: { nodes ≤ 255 },
    ghost places: { length keys.items ≡ nodes * 16384 },
}

impl KeyTable {
    ghost use Rattle.slot_key_counts.specs.Tables.{told_in};

    /// So many nodes told nothing yet.
    #[tactic(auto, using(crate::proofs::Placed::blank_told))]
    pub(crate) fn new(alloc: Global, nodes: usize) -> Result<Self, AllocError>
        requires { nodes ≤ 255 }
        ensures nodes { IfOk result (λ t. t.nodes ≡ nodes) }
        ensures told { IfOk result (λ t. told_in t ≡ nothing) }
    {
        let keys = vec![in alloc; None; nodes * SLOTS]?;
        Ok(Self { nodes, keys })
    }

    /// The node told so many keys of the slot.
    pub(crate) fn put(&mut self, node: NodeId, slot: Slot, keys: u32)
        requires { node < self.old.nodes }
        ensures nodes { self.new.nodes ≡ self.old.nodes }
        ensures told { told_in self.new ≡ with_keys (told_in self.old) node slot keys }
    {
        let place = place_of(node, slot);
        self.keys[place] = Some(keys);
    }

    /// How many keys the node told of the slot, if it was asked for them.
    pub fn keys(&self, node: NodeId, slot: Slot) -> Option<u32>
        ensures { result ≡ told_in self.now node slot }
    {
        let place = place_of(node, slot);
        if place < self.keys.len() {
            self.keys[place]
        } else {
            None
        }
    }
}

/// Where the keys of the slot at the node stand.
fn place_of(node: NodeId, slot: Slot) -> usize
    ensures { result ≡ node * 16384 + slot }
{
    usize::from(node.get()) * SLOTS + usize::from(slot.get())
}
