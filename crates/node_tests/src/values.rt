use byte_texts::{Text, TextList};
use std::alloc::{AllocError, Global};
use std::test::Fail;
use typed_values::{
    Edit, FieldMap, Items, MemberSet, PairList, TextEdit, Value, ValueFault, read_number, sum_of,
};

// Each byte as a text of its own.
fn texts(alloc: Global, bytes: &[u8]) -> Result<TextList, AllocError> {
    let mut list = TextList::new(alloc);
    for byte in bytes {
        list.push(Text::from_slice(alloc, &[*byte])?)?;
    }
    Ok(list)
}

// Bytes two by two: a name with its value.
fn pairs(alloc: Global, bytes: &[(u8, u8)]) -> Result<PairList, AllocError> {
    let mut list = PairList::new(alloc);
    for pair in bytes {
        let name = Text::from_slice(alloc, &[pair.0])?;
        let value = Text::from_slice(alloc, &[pair.1])?;
        list.push(name, value)?;
    }
    Ok(list)
}

fn join(alloc: Global, list: &TextList) -> Result<Vec<u8>, AllocError> {
    let mut bytes = Vec::new(alloc);
    for text in list.get() {
        bytes.extend_from_slice(text.get())?;
    }
    Ok(bytes)
}

const NUMBERS: &[(&str, i64)] = &[
    ("0", 0),
    ("-7", -7),
    ("9223372036854775807", i64::MAX),
    ("-9223372036854775808", i64::MIN),
];

const NO_NUMBERS: &[&str] = &["9223372036854775808", "", "-", "+5", "-0", "03", " 3", "3x"];

#[test]
fn reads_numbers_in_their_one_spelling(rt: HostRuntime) {
    for (text, number) in NUMBERS {
        assert!(rt;
            matches!(read_number(text.as_bytes()), Some(read) if read == *number),
            "at {text}"
        );
    }
    for text in NO_NUMBERS {
        assert!(rt; read_number(text.as_bytes()).is_none(), "at {text}");
    }
    assert!(rt; matches!(sum_of(b"9223372036854775807", 1), Err(ValueFault::Overflow)));
    assert!(rt; matches!(sum_of(b"ten", 1), Err(ValueFault::NotInteger)));
}

#[test]
fn edits_a_hash(rt: HostRuntime) -> Result<(), Fail> {
    let alloc = rt.alloc();
    let mut fields = FieldMap::new(alloc);
    let added = fields.set_all(pairs(alloc, &[(b'f', b'1'), (b'g', b'2'), (b'f', b'3')])?)?;
    assert!(rt; added == 2);
    let listed = join(alloc, &fields.all(alloc)?)?;
    assert!(rt; listed.as_slice() == b"f3g2".as_slice());
    Ok(())
}

#[test]
fn edits_a_list(rt: HostRuntime) -> Result<(), Fail> {
    let alloc = rt.alloc();
    let mut items = Items::new(alloc);
    let length = items.push_front_all(texts(alloc, b"ab")?)?;
    assert!(rt; length == 2);
    let listed = join(alloc, &items.range(alloc, -3, 2)?)?;
    assert!(rt; listed.as_slice() == b"ba".as_slice());
    Ok(())
}

#[test]
fn edits_a_set(rt: HostRuntime) -> Result<(), Fail> {
    let alloc = rt.alloc();
    let mut members = MemberSet::new(alloc);
    let added = members.add_all(texts(alloc, b"abca")?)?;
    assert!(rt; added == 3);
    let listed = join(alloc, &members.all(alloc)?)?;
    assert!(rt; listed.as_slice() == b"abc".as_slice());
    Ok(())
}

#[test]
fn copies_a_hash(rt: HostRuntime) -> Result<(), Fail> {
    let alloc = rt.alloc();
    let mut fields = FieldMap::new(alloc);
    let _added = fields.set_all(pairs(alloc, &[(b'f', b'1')])?)?;
    let copy = Value::of_fields(alloc, fields)?.try_copy(alloc)?;
    assert!(rt; matches!(copy.as_hash(), Ok(fields) if fields.len() == 1));
    Ok(())
}

#[test]
fn copies_a_list(rt: HostRuntime) -> Result<(), Fail> {
    let alloc = rt.alloc();
    let mut items = Items::new(alloc);
    let _pushed = items.push_front_all(texts(alloc, b"ab")?)?;
    let copy = Value::of_items(alloc, items)?.try_copy(alloc)?;
    assert!(rt; matches!(copy.as_list(), Ok(items) if items.len() == 2));
    Ok(())
}

#[test]
fn copies_a_set(rt: HostRuntime) -> Result<(), Fail> {
    let alloc = rt.alloc();
    let mut members = MemberSet::new(alloc);
    let _added = members.add_all(texts(alloc, b"cd")?)?;
    let copy = Value::of_members(alloc, members)?.try_copy(alloc)?;
    assert!(rt; matches!(copy.as_set(), Ok(members) if members.len() == 2));
    Ok(())
}

#[test]
fn edits_a_counter(rt: HostRuntime) -> Result<(), Fail> {
    let alloc = rt.alloc();
    let mut value = Value::Text(Text::from_slice(alloc, b"10")?);
    value.edit(alloc, Edit::Text(TextEdit::Increase(-11)))?;
    assert!(rt; matches!(value.as_text(), Ok(held) if held.get() == b"-1".as_slice()));
    Ok(())
}
