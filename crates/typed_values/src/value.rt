ghost use Rattle.std.specs.Prelude.{◌≡◌, Bool, codes, Ok, Err, IfOk, IfErr, OnOk, OnErr};
ghost use Rattle.byte_texts.specs.Outcomes.{RefusedUnlessMemory};
ghost use Rattle.typed_values.specs.Faults.{map_ok, is_memory};
ghost use Rattle.typed_values.specs.Values.{kind, text_of, hash_of, list_of, set_of, is_empty_collection};
ghost use Rattle.typed_values.specs.Edits.{text_edit, edit_of, value_after};

use crate::boxed::Boxed;
use crate::edit::{Edit, TextEdit};
use crate::fault::ValueFault;
use crate::fields::FieldMap;
use crate::items::Items;
use crate::members::MemberSet;
use crate::texts::{append, increase};
use byte_texts::Text;
use std::alloc::{AllocError, Global};
use std::mem::size_of;

/// A value of a store. A map of entries holds it where it stands, so a collection is behind a pointer.
#[derive(Drop)]
pub enum Value {
    /// A byte text, which a counter is too.
    Text(Text),
    /// Fields with their values, in the order in which the fields came.
    Hash(Boxed<FieldMap>),
    /// Elements from the front to the back.
    List(Boxed<Items>),
    /// Members, in the order in which they came.
    Set(Boxed<MemberSet>),
}

/// A text's room, and the word for the kind.
const _: () = prove!(size_of::<Value>() == size_of::<Text>() + 8);

impl Value {
    /// The hash of these fields.
    pub fn of_fields(alloc: Global, fields: FieldMap) -> Result<Self, AllocError>
        ensures { IfOk result (λ v. v ≡ Value.Hash fields) }
    {
        Ok(Self::Hash(Boxed::new(alloc, fields)?))
    }

    /// The list of these elements.
    pub fn of_items(alloc: Global, items: Items) -> Result<Self, AllocError>
        ensures { IfOk result (λ v. v ≡ Value.List items) }
    {
        Ok(Self::List(Boxed::new(alloc, items)?))
    }

    /// The set of these members.
    pub fn of_members(alloc: Global, members: MemberSet) -> Result<Self, AllocError>
        ensures { IfOk result (λ v. v ≡ Value.Set members) }
    {
        Ok(Self::Set(Boxed::new(alloc, members)?))
    }

    /// The word for its kind: `string`, `hash`, `list` or `set`.
    pub fn kind(&self) -> &'static str
        ensures { result.now ≡ kind self.now }
    {
        match self {
            Self::Text(_) => "string",
            Self::Hash(_) => "hash",
            Self::List(_) => "list",
            Self::Set(_) => "set",
        }
    }

    /// The text that it is.
    pub fn as_text(&self) -> Result<&Text, ValueFault>
        ensures value { map_ok (λ t. t.now) result ≡ text_of self.now }
        ensures kind { IfOk result (λ t. self.now ≡ Value.Text t.now) }
    {
        match self {
            Self::Text(text) => Ok(text),
            _ => Err(ValueFault::WrongType),
        }
    }

    /// The hash that it is.
    pub fn as_hash(&self) -> Result<&FieldMap, ValueFault>
        ensures value { map_ok (λ m. m.now) result ≡ hash_of self.now }
        ensures kind { IfOk result (λ m. self.now ≡ Value.Hash m.now) }
    {
        match self {
            Self::Hash(fields) => Ok(fields.get()),
            _ => Err(ValueFault::WrongType),
        }
    }

    /// The list that it is.
    pub fn as_list(&self) -> Result<&Items, ValueFault>
        ensures value { map_ok (λ l. l.now) result ≡ list_of self.now }
        ensures kind { IfOk result (λ l. self.now ≡ Value.List l.now) }
    {
        match self {
            Self::List(items) => Ok(items.get()),
            _ => Err(ValueFault::WrongType),
        }
    }

    /// The set that it is.
    pub fn as_set(&self) -> Result<&MemberSet, ValueFault>
        ensures value { map_ok (λ m. m.now) result ≡ set_of self.now }
        ensures kind { IfOk result (λ m. self.now ≡ Value.Set m.now) }
    {
        match self {
            Self::Set(members) => Ok(members.get()),
            _ => Err(ValueFault::WrongType),
        }
    }

    /// Whether it is a collection with nothing in it, which a store does not keep.
    pub fn is_empty_collection(&self) -> bool
        ensures { result ≡ is_empty_collection self.now }
    {
        match self {
            Self::Text(_) => false,
            Self::Hash(fields) => fields.get().is_empty(),
            Self::List(items) => items.get().is_empty(),
            Self::Set(members) => members.get().is_empty(),
        }
    }

    /// StoreExact: makes the change where the value stands, or none.
    pub fn edit(&mut self, alloc: Global, edit: Edit) -> Result<(), ValueFault>
        ensures ok { OnOk result (edit_of edit self.old ≡ Ok self.new) }
        ensures err { OnErr result (self.new ≡ self.old) }
        ensures fault { IfErr result (RefusedUnlessMemory is_memory (edit_of edit self.old)) }
    {
        match (self, edit) {
            (Self::Text(text), Edit::Text(edit)) => edit_text(alloc, text, edit),
            (Self::Hash(fields), Edit::Hash(edit)) => fields.get_mut().edit(edit),
            (Self::List(items), Edit::List(edit)) => items.get_mut().edit(edit),
            (Self::Set(members), Edit::Set(edit)) => members.get_mut().edit(edit),
            _ => Err(ValueFault::WrongType),
        }
    }

    /// Makes the change where the value stands. One that cannot be made leaves the value, and so does out of memory.
    pub fn edit_if_fit(&mut self, alloc: Global, edit: Edit) -> Result<(), AllocError>
        ensures ok { OnOk result (self.new ≡ value_after edit self.old) }
        ensures err { OnErr result (self.new ≡ self.old) }
    {
        match self.edit(alloc, edit) {
            Err(ValueFault::Memory) => Err(AllocError),
            _ => Ok(()),
        }
    }

    /// An equal value of its own.
    pub fn try_copy(&self, alloc: Global) -> Result<Self, AllocError>
        ensures { IfOk result (λ v. v ≡ self.now) }
    {
        match self {
            Self::Text(text) => Ok(Self::Text(text.try_copy(alloc)?)),
            Self::Hash(fields) => Self::of_fields(alloc, fields.get().try_copy()?),
            Self::List(items) => Self::of_items(alloc, items.get().try_copy(alloc)?),
            Self::Set(members) => Self::of_members(alloc, members.get().try_copy()?),
        }
    }
}

fn edit_text(alloc: Global, text: &mut Text, edit: TextEdit) -> Result<(), ValueFault>
    ensures ok { OnOk result (text_edit edit text.old ≡ Ok text.new) }
    ensures err { OnErr result (text.new ≡ text.old) }
    ensures fault { IfErr result (RefusedUnlessMemory is_memory (text_edit edit text.old)) }
{
    match edit {
        TextEdit::Append(more) => {
            append(text, &more)?;
        }
        TextEdit::Increase(more) => {
            increase(alloc, text, more)?;
        }
    }
    Ok(())
}
