//! The keys of users: those of one user have one hash tag, and so one slot.
use crate::words::put;
use key_slots::{NodeId, OwnerTable, Slot, slot_of};
use std::alloc::{AllocError, Global};

/// Puts the user's key of this kind.
pub fn put_key(out: &mut Vec<u8>, user: u64, kind: &[u8]) -> Result<(), AllocError> {
    put(out, b"session:{", user, b"}:")?;
    out.extend_from_slice(kind)
}

/// The slot of the user's keys.
pub fn slot_of_user(alloc: Global, user: u64) -> Result<Slot, AllocError> {
    let mut key = Vec::new(alloc);
    put_key(&mut key, user, b"")?;
    Ok(slot_of(key.as_slice()))
}

/// The node that owns the user's keys, for each user below the count.
pub fn homes(alloc: Global, owners: &OwnerTable, count: u64) -> Result<Vec<NodeId>, AllocError> {
    let mut homes = Vec::new(alloc);
    for user in 0..count {
        homes.push(owners.owner(slot_of_user(alloc, user)?))?;
    }
    Ok(homes)
}
