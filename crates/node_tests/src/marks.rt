ghost use Rattle.std.specs.Prelude.{◌<◌};

use byte_texts::Memory;
use key_slots::{NodeId, OwnerTable, Slot};
use slot_marks::{MarkRow, SlotFault, SlotTable};

/// The slot of the keys that have the tag `a`, which node 2 of three owns.
const SLOT: u16 = 15495;

fn source_table(rt: &HostRuntime) -> Result<SlotTable, Memory> {
    let mut table = even_table(rt, 2)?;
    let _ = table.set_migrating(Slot::of(SLOT), NodeId::of(0));
    Ok(table)
}

#[test]
fn settings(rt: HostRuntime) -> Result<(), Memory> {
    let mut table = source_table(&rt)?;
    let slot = Slot::of(SLOT);
    assert!(rt; table.me().get() == 2 && table.nodes() == 3);
    assert!(rt; matches!(table.migrating(slot), Some(target) if target.get() == 0));
    assert!(rt; table.importing(slot).is_none());
    let refused = table.set_node(slot, NodeId::of(0), 1);
    assert!(rt; matches!(refused, Err(SlotFault::KeysRemain)));
    assert!(rt; !table.is_unmarked());
    assert!(rt; table.set_node(slot, NodeId::of(0), 0).is_ok());
    assert!(rt; table.owner(slot).get() == 0);
    assert!(rt; table.is_unmarked());
    assert!(rt; table.owner_ranges()?.len() == 5);
    Ok(())
}

#[test]
fn owners(rt: HostRuntime) -> Result<(), Memory> {
    let even = OwnerTable::even(rt.alloc(), 3, 3)?;
    assert!(rt; even_table(&rt, 1)?.has_owners(&even));
    Ok(())
}

/// A range is split in three, the three are joined again, and the end of a range goes to the next one.
#[test]
fn ranges(rt: HostRuntime) -> Result<(), Memory> {
    let mut table = even_table(&rt, 2)?;
    assert!(rt; table.ranges().len() == 3);
    assert!(rt; table.set_node(Slot::of(3300), NodeId::of(1), 0).is_ok());
    assert!(rt; table.ranges().len() == 5);
    assert!(rt; table.set_node(Slot::of(3300), NodeId::of(0), 0).is_ok());
    assert!(rt; table.ranges().len() == 3);
    assert!(rt; table.set_node(Slot::of(5460), NodeId::of(1), 0).is_ok());
    assert!(rt; table.ranges().len() == 3);
    Ok(())
}

/// The table of a node in a cluster of three with an even split.
fn even_table(rt: &HostRuntime, node: u8) -> Result<SlotTable, Memory>
    requires { node < 3 }
{
    let owners = OwnerTable::even(rt.alloc(), 3, 3)?;
    SlotTable::new(rt.alloc(), NodeId::of(node), owners)
}

#[test]
fn marks(rt: HostRuntime) -> Result<(), Memory> {
    let mut marks = MarkRow::new(rt.alloc())?;
    assert!(rt; marks.is_empty());
    marks.set(Slot::of(7), NodeId::of(1));
    assert!(rt; matches!(marks.get(Slot::of(7)), Some(node) if node.get() == 1));
    marks.clear(Slot::of(7));
    assert!(rt; marks.is_empty());
    Ok(())
}
