//! What was read, in hexadecimal.
use byte_texts::Text;
use std::alloc::Global;
use typed_values::{FieldMap, Items, MemberSet, Value};

/// The entries of a batch, each as its key, its kind and the texts of its value.
pub fn entries(alloc: Global, batch: &[(Text, Value)]) -> anyhow::Result<String> {
    let mut printed = String::new(alloc);
    for (key, value) in batch {
        push_text(alloc, &mut printed, key.get())?;
        push_value(alloc, &mut printed, value)?;
        printed.push(';')?;
    }
    Ok(printed)
}

/// Texts, each after a comma.
pub fn push_texts(alloc: Global, printed: &mut String, texts: &[Text]) -> anyhow::Result<()> {
    for text in texts {
        printed.push(',')?;
        push_text(alloc, printed, text.get())?;
    }
    Ok(())
}

fn push_text(alloc: Global, printed: &mut String, text: &[u8]) -> anyhow::Result<()> {
    printed.push_str(hex::encode(alloc, text)?.as_str())?;
    Ok(())
}

fn push_value(alloc: Global, printed: &mut String, value: &Value) -> anyhow::Result<()> {
    match value {
        Value::Text(text) => {
            printed.push_str(" text ")?;
            push_text(alloc, printed, text.get())
        }
        Value::Hash(fields) => push_fields(alloc, printed, fields.get()),
        Value::List(items) => push_items(alloc, printed, items.get()),
        Value::Set(members) => push_members(alloc, printed, members.get()),
    }
}

fn push_fields(alloc: Global, printed: &mut String, fields: &FieldMap) -> anyhow::Result<()> {
    printed.push_str(" hash ")?;
    for place in 0..fields.len() {
        let (name, value) = fields.pair(place);
        push_text(alloc, printed, name)?;
        printed.push('=')?;
        push_text(alloc, printed, value)?;
        printed.push(',')?;
    }
    Ok(())
}

fn push_items(alloc: Global, printed: &mut String, items: &Items) -> anyhow::Result<()> {
    printed.push_str(" list ")?;
    for place in 0..items.len() {
        if let Some(element) = items.element(place) {
            push_text(alloc, printed, element.get())?;
            printed.push(',')?;
        }
    }
    Ok(())
}

fn push_members(alloc: Global, printed: &mut String, members: &MemberSet) -> anyhow::Result<()> {
    printed.push_str(" set ")?;
    for place in 0..members.len() {
        push_text(alloc, printed, members.member(place))?;
        printed.push(',')?;
    }
    Ok(())
}
