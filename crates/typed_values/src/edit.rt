use crate::pairs::PairList;
use byte_texts::{Text, TextList};

/// A change of a text.
#[derive(Drop)]
pub enum TextEdit {
    /// Puts the text at the end.
    Append(Text),
    /// Adds to the number that the text spells.
    Increase(i64),
}

/// A change of a hash.
#[derive(Drop)]
pub enum HashEdit {
    /// Sets each field to its value, one after the other.
    SetFields(PairList),
    /// Removes the fields of these names.
    DeleteFields(TextList),
}

/// A change of a list.
#[derive(Drop)]
pub enum ListEdit {
    /// Puts the elements to the front, one after the other.
    PushFront(TextList),
    /// Puts the elements to the back, one after the other.
    PushBack(TextList),
    /// Takes the first element, if there is one.
    PopFront,
    /// Takes the last element, if there is one.
    PopBack,
}

/// A change of a set.
#[derive(Drop)]
pub enum SetEdit {
    /// Adds those that are not members yet.
    AddMembers(TextList),
    /// Removes those that are members.
    RemoveMembers(TextList),
}

/// A change of one value where it stands, with what it needs.
#[derive(Drop)]
pub enum Edit {
    /// Of a text.
    Text(TextEdit),
    /// Of a hash.
    Hash(HashEdit),
    /// Of a list.
    List(ListEdit),
    /// Of a set.
    Set(SetEdit),
}
