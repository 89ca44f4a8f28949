//! Tests of `byte_texts`.
use byte_texts::{Text, TextList};
use std::test::Fail;

#[test]
fn texts_grow_and_are_copied(rt: HostRuntime) -> Result<(), Fail> {
    let alloc = rt.alloc();
    let mut text = Text::from_slice(alloc, b"one")?;
    text.append(b" two")?;
    let mut list = TextList::new(alloc);
    list.push(text.try_copy(alloc)?)?;
    let copy = list.try_copy(alloc)?;
    assert!(rt; copy.len() == 1);
    for copied in copy.get() {
        assert!(rt; copied.get() == b"one two".as_slice());
    }
    Ok(())
}
