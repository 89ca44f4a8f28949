//! How much room texts and lists have once it is given back, which no contract says: as much as they need, where memory
//! is ample. That of commands is counted by `tests/run_refusals.py`.
use byte_texts::{Text, TextList};
use std::alloc::{AllocError, Global};
use std::test::Fail;
use typed_values::PairList;

/// More room than any of the texts and lists here needs.
const ROOM: usize = 1_000;

/// Three bytes, with much room.
fn roomy_text(alloc: Global) -> Result<Text, AllocError> {
    let mut bytes = Vec::with_capacity(alloc, ROOM)?;
    bytes.resize(3, b'k')?;
    Ok(Text::from_vec(bytes))
}

/// Two such texts, with much room for more.
fn roomy_texts(alloc: Global) -> Result<Vec<Text>, AllocError> {
    let mut texts = Vec::with_capacity(alloc, ROOM)?;
    texts.push(roomy_text(alloc)?)?;
    texts.push(roomy_text(alloc)?)?;
    Ok(texts)
}

/// One pair of such texts, with much room for more.
fn roomy_pairs(alloc: Global) -> Result<Vec<(Text, Text)>, AllocError> {
    let mut pairs = Vec::with_capacity(alloc, ROOM)?;
    pairs.push((roomy_text(alloc)?, roomy_text(alloc)?))?;
    Ok(pairs)
}

fn room_of_text(text: Text) -> usize {
    text.into_vec().capacity()
}

/// How many texts the list has room for, and how many bytes its texts have room for.
fn room_of_list(list: TextList) -> (usize, usize) {
    let texts = list.into_vec();
    let places = texts.capacity();
    let mut bytes = 0usize;
    for text in texts {
        bytes = bytes.saturating_add(room_of_text(text));
    }
    (places, bytes)
}

/// The room of pairs.
fn room_of_pairs(list: PairList) -> (usize, usize) {
    let pairs = list.into_vec();
    let places = pairs.capacity();
    let mut bytes = 0usize;
    for (name, value) in pairs {
        bytes = bytes.saturating_add(room_of_text(name));
        bytes = bytes.saturating_add(room_of_text(value));
    }
    (places, bytes)
}

#[test]
fn a_text_has_room_for_its_bytes(rt: HostRuntime) -> Result<(), Fail> {
    let mut text = roomy_text(rt.alloc())?;
    text.shrink_to_fit();
    assert!(rt; room_of_text(text) == 3);
    Ok(())
}

#[test]
fn a_list_has_room_for_its_texts(rt: HostRuntime) -> Result<(), Fail> {
    let mut list = TextList::from_vec(roomy_texts(rt.alloc())?);
    list.shrink_to_fit();
    assert!(rt; room_of_list(list) == (2, 6));
    Ok(())
}

#[test]
fn a_list_of_pairs_has_room_for_its_pairs(rt: HostRuntime) -> Result<(), Fail> {
    let mut list = PairList::from_vec(roomy_pairs(rt.alloc())?);
    list.shrink_to_fit();
    assert!(rt; room_of_pairs(list) == (1, 6));
    Ok(())
}
