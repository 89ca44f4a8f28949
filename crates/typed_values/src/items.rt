ghost use Rattle.std.specs.Prelude.{◌≡◌, ◌≤◌, ◌<◌, ◌+◌, ◌++◌, [], ◌∷◌, ℤ, length, slice_get, min, IsTrue, Ok, Err};
ghost use Rattle.std.specs.Prelude.{Some, OnOk, OnErr, IfOk, IfErr, option_map};
ghost use Rattle.std.specs.VecDeque.{deque_len, deque_capacity};
ghost use Rattle.byte_texts.specs.Outcomes.{RefusedUnlessMemory};
ghost use Rattle.typed_values.specs.Faults.{within, map_ok, is_memory};
ghost use Rattle.typed_values.specs.Elements.{pushed_each, pushed_front, pushed_back, popped_front, popped_back, front};
ghost use Rattle.typed_values.specs.Elements.{back, range, start_of, end_of};
ghost use Rattle.typed_values.specs.Values.{is_nil};
ghost use Rattle.typed_values.specs.Edits.{list_edit};

use crate::edit::ListEdit;
use crate::fault::ValueFault;
use crate::limit::grown;
use byte_texts::{Text, TextList};
use std::alloc::{AllocError, Global};
use std::collections::VecDeque;
use std::marker::Model;

/// The elements of a list, from the front to the back: at most 1,048,576.
pub struct Items {
    texts: VecDeque<Text>,
}

/// Written out, so that a proof sees one call where such a value is dropped.
impl Drop for Items {
    fn drop(self) {
        let Self { texts } = self;
        drop(texts);
    }
}

impl Model for Items {
    ghost use Rattle.std.specs.Prelude.{List, ℕ, ◌≤◌, length};

    ghost Value = { List (List ℕ) };

    ghost view = { λ l. l.texts.items };

    ghost invariant = { λ l. length l.texts.items ≤ 1048576 };
}

impl Items {
    /// No element; it takes no memory.
    pub fn new(alloc: Global) -> Self
        ensures { result ≡ [] }
    {
        Self {
            texts: VecDeque::new(alloc),
        }
    }

    /// How many elements there are.
    pub fn len(&self) -> usize
        ensures count { result ≡ length self.now }
        ensures limit { length self.now ≤ 1048576 }
    {
        self.texts.len()
    }

    /// Whether there is none.
    pub fn is_empty(&self) -> bool
        ensures { result ≡ is_nil self.now }
    {
        self.texts.is_empty()
    }

    /// The element at a place, which counts from 0 at the front.
    pub fn element(&self, place: usize) -> Option<&Text>
        ensures { option_map (λ t. t.now) result ≡ slice_get self.now place }
    {
        self.texts.get(place)
    }

    /// The first element.
    pub fn front(&self) -> Option<&Text>
        ensures { option_map (λ t. t.now) result ≡ front self.now }
    {
        self.texts.front()
    }

    /// The last element.
    pub fn back(&self) -> Option<&Text>
        ensures { option_map (λ t. t.now) result ≡ back self.now }
    {
        self.texts.back()
    }

    /// How many elements there will be once these are pushed to the front or to the back.
    pub fn pushed_len(&self, elements: &TextList) -> Result<usize, ValueFault>
        ensures back { result ≡ map_ok length (pushed_back self.now elements.now) }
        ensures front { result ≡ map_ok length (pushed_front self.now elements.now) }
    {
        grown(self.len(), elements.len())
    }

    /// Puts one element to the back.
    pub fn push_back(&mut self, element: Text) -> Result<(), ValueFault>
        ensures ok { OnOk result (self.new ≡ self.old ++ element ∷ []) }
        ensures err { OnErr result (self.new ≡ self.old) }
        ensures fault { IfErr result (RefusedUnlessMemory is_memory (within (length self.old + 1) self.old)) }
    {
        grown(self.len(), 1)?;
        self.texts.push_back(element)?;
        Ok(())
    }

    /// Puts the elements to the back, one after the other, and returns how many there are then.
    pub fn push_back_all(&mut self, elements: TextList) -> Result<usize, ValueFault>
        ensures ok { OnOk result (pushed_back self.old elements ≡ Ok self.new) }
        ensures reply { IfOk result (λ n. n ≡ length self.new) }
        ensures err { OnErr result (self.new ≡ self.old) }
        ensures fault { IfErr result (RefusedUnlessMemory is_memory (pushed_back self.old elements)) }
    {
        let length = self.pushed_len(&elements)?;
        self.texts.reserve(elements.len())?;
        push_back_each(&mut self.texts, elements.into_vec());
        Ok(length)
    }

    /// Puts the elements to the front, one after the other, and returns how many there are then.
    pub fn push_front_all(&mut self, elements: TextList) -> Result<usize, ValueFault>
        ensures ok { OnOk result (pushed_front self.old elements ≡ Ok self.new) }
        ensures reply { IfOk result (λ n. n ≡ length self.new) }
        ensures err { OnErr result (self.new ≡ self.old) }
        ensures fault { IfErr result (RefusedUnlessMemory is_memory (pushed_front self.old elements)) }
    {
        let length = self.pushed_len(&elements)?;
        self.texts.reserve(elements.len())?;
        push_front_each(&mut self.texts, elements.into_vec());
        Ok(length)
    }

    /// Takes the first element.
    pub fn pop_front(&mut self) -> Option<Text>
        ensures taken { result ≡ front self.old }
        ensures rest { self.new ≡ popped_front self.old }
    {
        self.texts.pop_front()
    }

    /// Takes the last element.
    pub fn pop_back(&mut self) -> Option<Text>
        ensures taken { result ≡ back self.old }
        ensures rest { self.new ≡ popped_back self.old }
    {
        self.texts.pop_back()
    }

    /// Copies of the elements from `start` to `stop`, both included. A negative index counts from the end, -1 being the
    /// last.
    pub fn range(&self, alloc: Global, start: i64, stop: i64) -> Result<TextList, AllocError>
        ensures { IfOk result (λ l. l ≡ range self.now start stop) }
    {
        let length = self.len();
        let first = start_place(length, start);
        let end = end_place(length, stop);
        if end <= first {
            return Ok(TextList::new(alloc));
        }
        let mut copies = Vec::with_capacity(alloc, end - first)?;
        for place in first..end {
            copies.push(self.texts[place].try_copy(alloc)?)?;
        }
        Ok(TextList::from_vec(copies))
    }

    /// Makes the change, or none.
    pub fn edit(&mut self, edit: ListEdit) -> Result<(), ValueFault>
        ensures ok { OnOk result (list_edit edit self.old ≡ Ok self.new) }
        ensures err { OnErr result (self.new ≡ self.old) }
        ensures fault { IfErr result (RefusedUnlessMemory is_memory (list_edit edit self.old)) }
    {
        match edit {
            ListEdit::PushFront(elements) => {
                self.push_front_all(elements)?;
            }
            ListEdit::PushBack(elements) => {
                self.push_back_all(elements)?;
            }
            ListEdit::PopFront => drop(self.pop_front()),
            ListEdit::PopBack => drop(self.pop_back()),
        }
        Ok(())
    }

    /// Equal elements of their own.
    pub fn try_copy(&self, alloc: Global) -> Result<Self, AllocError>
        ensures { IfOk result (λ l. l ≡ self.now) }
    {
        let mut copies = VecDeque::with_capacity(alloc, self.len())?;
        for place in 0..self.len() {
            let text = &self.texts[place];
            copies.push_back(text.try_copy(alloc)?)?;
        }
        Ok(Self { texts: copies })
    }
}

fn push_back_each(texts: &mut VecDeque<Text>, elements: Vec<Text>)
    requires { deque_len texts.old + length elements.items ≤ deque_capacity texts.old }
    ensures { texts.new.items ≡ texts.old.items ++ elements.items }
{
    for element in elements {
        texts.push_back_reserved(element);
    }
}

fn push_front_each(texts: &mut VecDeque<Text>, elements: Vec<Text>)
    requires { deque_len texts.old + length elements.items ≤ deque_capacity texts.old }
    ensures { texts.new.items ≡ pushed_each texts.old.items elements.items }
{
    for element in elements {
        texts.push_front_reserved(element);
    }
}

// Where the elements from an index begin.
fn start_place(length: usize, index: i64) -> usize
    ensures { result ≡ start_of length index }
{
    if index < 0 {
        length.saturating_sub(index.unsigned_abs() as usize)
    } else {
        index as usize
    }
}

// Where the elements to an index end: one past the last of them.
fn end_place(length: usize, index: i64) -> usize
    ensures place { result ≡ end_of length index }
    ensures within { result ≤ length }
{
    if index < 0 {
        length.saturating_sub(index.unsigned_abs() as usize - 1)
    } else {
        length.min(index as usize + 1)
    }
}
