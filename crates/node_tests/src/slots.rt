use crate::tables::{owners_of_three, with_owner};
use byte_texts::{Memory, number_in};
use key_slots::{NODES, NodeId, OwnerTable, SLOTS, Slot, slot_of, tag_of};
use std::process::Abort;
use std::test::Fail;

/// Keys with their slots, as CLUSTER KEYSLOT answers them.
const KEYS: &[(&[u8], u16)] = &[
    (b"123456789", 0x31c3),
    (b"a", 15495),
    (b"b", 3300),
    (b"c", 7365),
    (b"foo", 12182),
    (b"bar", 5061),
    (b"foo{bar}{zap}", 5061),
    (b"foo{{bar}}zap", 4015),
    (b"foo{}{bar}", 8363),
    (b"{}foo", 9500),
    (b"", 0),
    (b"{user1000}.following", 3443),
];

#[test]
fn slots_of_keys(rt: HostRuntime) {
    for (key, slot) in KEYS {
        assert!(rt; slot_of(key).get() == *slot);
    }
    assert!(rt; tag_of(b"foo{{bar}}zap") == b"{bar".as_slice());
}

#[test]
fn numbers(rt: HostRuntime) -> Result<(), Fail> {
    assert!(rt; matches!(Slot::new(16383), Some(slot) if slot.get() == 16383));
    assert!(rt; Slot::new(16384).is_none());
    assert!(rt; Slot::of(7) < Slot::of(8));
    assert!(rt; matches!(NodeId::new(7), Some(node) if node.get() == NODES - 1));
    assert!(rt; NodeId::new(8).is_none());
    let name = format!(in rt.alloc(); "{}", NodeId::of(5))?;
    assert!(rt; name.as_str() == "n5");
    Ok(())
}

#[test]
fn tables(rt: HostRuntime) -> Result<(), Memory> {
    let first = owners_of_three(rt.alloc())?;
    assert!(rt; first.nodes() == 3);
    assert_ranges(
        &rt,
        &first,
        &[(0, 5460, 0), (5461, 10922, 1), (10923, 16383, 2)],
    )?;
    let mut table = with_owner(&first, Slot::of(3300), NodeId::of(1))?;
    assert!(rt; table.owner(Slot::of(3300)).get() == 1);
    assert!(rt; !table.same(&first));
    assert_ranges(
        &rt,
        &table,
        &[
            (0, 3299, 0),
            (3300, 3300, 1),
            (3301, 5460, 0),
            (5461, 10922, 1),
            (10923, 16383, 2),
        ],
    )?;
    table.set(Slot::of(3300), NodeId::of(0));
    assert!(rt; table.same(&first));
    let whole = OwnerTable::even(rt.alloc(), 8, 1)?;
    assert_ranges(&rt, &whole, &[(0, SLOTS as u16 - 1, 0)])
}

fn assert_ranges(
    rt: &impl Abort,
    table: &OwnerTable,
    wanted: &[(u16, u16, u8)],
) -> Result<(), Memory> {
    let ranges = table.ranges()?;
    assert!(rt; ranges.len() == wanted.len());
    for (range, wanted) in ranges.iter().zip(wanted) {
        assert!(rt; (range.first.get(), range.last.get(), range.owner.get()) == *wanted);
    }
    Ok(())
}

/// The words of the least and the greatest slot and node name them.
#[test]
fn words_of_slots_and_nodes(rt: HostRuntime) {
    for (word, number) in [(b"0".as_slice(), 0), (b"16383", 16_383)] {
        assert!(rt; matches!(Slot::parse(word), Some(slot) if slot.get() == number));
    }
    for (word, number) in [(b"n0", 0), (b"n7", 7)] {
        assert!(rt; matches!(NodeId::parse(word), Some(node) if node.get() == number));
    }
    assert!(rt; matches!(number_in(b"1000", 1, 1_000), Some(1_000)));
}

/// Words beyond the bounds, with a leading zero, and what is no number.
const NO_SLOTS: &[&[u8]] = &[b"16384", b"07", b"-1", b"", b"1x", b"99999999999999999999"];

const NO_NODES: &[&[u8]] = &[b"n8", b"n", b"n00"];

#[test]
fn other_words_name_none(rt: HostRuntime) {
    for word in NO_SLOTS {
        assert!(rt; Slot::parse(word).is_none());
    }
    for word in NO_NODES {
        assert!(rt; NodeId::parse(word).is_none());
    }
    assert!(rt; number_in(b"1001", 1, 1_000).is_none());
}
