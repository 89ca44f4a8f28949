use crate::batches::{batch_of_one, copied_batch, empty_batch};
use byte_texts::Memory;
use key_slots::slot_of;
use slot_keyspace::Keyspace;

/// A key of a slot with two goes from one keyspace to another.
#[test]
fn a_key_moves(rt: HostRuntime) -> Result<(), Memory> {
    let mut source = Keyspace::new(rt.alloc())?;
    source.put_all(batch_of_one(rt.alloc(), b"{a}2")?)?;
    source.put_all(batch_of_one(rt.alloc(), b"{a}1")?)?;
    let slot = slot_of(b"a");
    let keys = source.keys_in(slot, 1)?;
    let copies = source.copy_all(keys.get())?;
    assert!(rt; keys.len() == 1 && copies.len() == 1);
    let mut target = Keyspace::new(rt.alloc())?;
    target.put_all(batch_of_one(rt.alloc(), keys.get()[0].get())?)?;
    source.remove_all(keys.get());
    assert!(rt; source.get(b"{a}1").is_none());
    assert!(rt; target.get(b"{a}1").is_some());
    assert!(rt; source.count_in(slot) == 1 && target.count_in(slot) == 1);
    Ok(())
}

#[test]
fn a_batch_without_a_key(rt: HostRuntime) -> Result<(), Memory> {
    let mut keyspace = Keyspace::new(rt.alloc())?;
    keyspace.put_all(empty_batch(rt.alloc()))?;
    assert!(rt; keyspace.count_in(slot_of(b"a")) == 0);
    Ok(())
}

/// A slot with more keys than a stack has room for calls moves in one batch.
#[test]
fn a_long_batch(rt: HostRuntime) -> Result<(), Memory> {
    let mut source = Keyspace::new(rt.alloc())?;
    for number in 0..400_000u32 {
        let key = format!(in rt.alloc(); "{{b}}{number}")?;
        if key.len() <= 1_000 {
            source.put_all(batch_of_one(rt.alloc(), key.as_bytes())?)?;
        }
    }
    let slot = slot_of(b"b");
    let mut target = Keyspace::new(rt.alloc())?;
    target.put_all(copied_batch(&source, slot, 400_000)?)?;
    assert!(rt; source.count_in(slot) == 400_000);
    assert!(rt; target.count_in(slot) == 400_000);
    Ok(())
}
