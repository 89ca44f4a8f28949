//! Hash slots of keys, nodes, and which node owns each slot.
#![tactic(auto)]

mod crc16;
mod hash_slot;
mod hash_tag;
mod laws;
mod node_id;
mod one_slot;
mod owner_table;
mod slot;
mod slot_range;
mod start_row;

pub use hash_slot::slot_of;
pub use hash_tag::tag_of;
pub use laws::{hash_tags_are_between_braces, ranges_are_longest};
pub use node_id::{MAX_NODES, NODES, NodeId};
pub use one_slot::{are_of, has_other_slot, have_one_slot};
pub use owner_table::OwnerTable;
pub use slot::{SLOTS, Slot};
pub use slot_range::SlotRange;
