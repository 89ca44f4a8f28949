ghost use Rattle.std.specs.Prelude.{◌≡◌, ℕ, ◌<◌, ◌≤◌, ◌+◌, ◌||◌, ◌&&◌, Bool, false, List, [], ◌∷◌, ◌++◌, length};
ghost use Rattle.std.specs.Prelude.{slice_get, slice_index_or, take, Ok, Err, Some, IfOk, IfSome, OnOk, OnErr, IfErr};
ghost use Rattle.std.specs.Prelude.{IsOk, is_some, not, option_map, None, if◌then◌else◌};
ghost use Rattle.std.specs.List.{list_any};
ghost use Rattle.indexmap.specs.IndexMap.{spare};
ghost use Rattle.byte_texts.specs.Outcomes.{RefusedUnlessMemory};
ghost use Rattle.typed_values.specs.Faults.{within, is_memory};
ghost use Rattle.typed_values.specs.Fields.{same_bytes, field, put, without, fields_with, fields_set, fields_new};
ghost use Rattle.typed_values.specs.Fields.{fields_without, fields_gone, names_and_values, HasDistinctFields};
ghost use Rattle.typed_values.specs.Fields.{AreShortFields, fields_of};
ghost use Rattle.typed_values.specs.Members.{has};
ghost use Rattle.typed_values.specs.Values.{is_nil};
ghost use Rattle.typed_values.specs.Edits.{hash_edit};

use crate::edit::HashEdit;
use crate::fault::ValueFault;
use crate::limit::{LIMIT, grown};
use crate::names::{FEW, has_name, has_text, one_if};
use crate::pairs::PairList;
use crate::seen::NamesSeen;
use crate::sorted::SortedTexts;
use byte_texts::{Text, TextList};
use indexmap::IndexMap;
use std::alloc::{AllocError, Global};
use std::marker::Model;

/// The fields of a hash with their values, in the order in which they came: at most 1,048,576.
pub struct FieldMap {
    map: IndexMap<Vec<u8>, Vec<u8>>,
}

/// Written out, so that a proof sees one call where such a value is dropped.
impl Drop for FieldMap {
    fn drop(self) {
        let Self { map } = self;
        drop(map);
    }
}

impl Model for FieldMap {
    ghost use Rattle.std.specs.Prelude.{List, ℕ, length, ◌≤◌};
    ghost use Rattle.typed_values.specs.Fields.{fields_of, AreShortFields};

    ghost Value = { List (List ℕ × List ℕ) };

    ghost view = { λ m. fields_of m.map.entries };

    ghost invariant = { λ m. (length (fields_of m.map.entries) ≤ 1048576) × AreShortFields (fields_of m.map.entries) };
}

impl FieldMap {
    /// No field; it takes no memory.
    pub fn new(alloc: Global) -> Self
        ensures { result ≡ [] }
    {
        Self {
            map: IndexMap::new(alloc),
        }
    }

    /// How many fields there are.
    pub fn len(&self) -> usize
        ensures count { result ≡ length self.now }
        ensures distinct { HasDistinctFields self.now }
        ensures limit { length self.now ≤ 1048576 }
        ensures short { AreShortFields self.now }
    {
        self.map.len()
    }

    /// Whether there is none.
    pub fn is_empty(&self) -> bool
        ensures { result ≡ is_nil self.now }
    {
        self.map.is_empty()
    }

    /// The value of a field.
    pub fn get(&self, name: &[u8]) -> Option<&[u8]>
        ensures value { option_map (λ v. v.now) result ≡ field self.now name.now }
        ensures limit { IfSome result (λ v. length v.now ≤ 1048576) }
    {
        match self.map.get(name) {
            Some(value) => Some(value.as_slice()),
            None => None,
        }
    }

    /// Whether there is such a field.
    pub fn contains(&self, name: &[u8]) -> bool
        ensures { result ≡ is_some (field self.now name.now) }
    {
        self.get(name).is_some()
    }

    /// Name and value of the field at a place, which counts from 0 in the order of insertion.
    pub fn pair(&self, place: usize) -> (&[u8], &[u8])
        requires { place < length self.now }
        ensures pair { slice_get self.now place ≡ Some (result.0.now, result.1.now) }
        ensures name { length result.0.now ≤ 1048576 }
        ensures value { length result.1.now ≤ 1048576 }
    {
        let (name, value) = self.map.get_index(place).unwrap();
        (name.as_slice(), value.as_slice())
    }

    /// Puts a new field last. A field that is there already is refused: the answer is false, and nothing changes.
    pub fn insert_new(&mut self, name: Text, value: Text) -> Result<bool, ValueFault>
        ensures added { IfOk result (λ b. b ≡ not (is_some (field self.old name))) }
        ensures absent { OnErr result (is_some (field self.old name) ≡ false) }
        ensures ok { IfOk result (λ b. self.new ≡ (if b then self.old ++ (name, value) ∷ [] else self.old)) }
        ensures err { OnErr result (self.new ≡ self.old) }
        ensures fault { IfErr result (RefusedUnlessMemory is_memory (within (length self.old + 1) self.old)) }
    {
        if self.contains(name.get()) {
            return Ok(false);
        }
        grown(self.len(), 1)?;
        put_in(&mut self.map, name, value)?;
        Ok(true)
    }

    /// How many of the pairs bring a new field, where one that is named twice counts once.
    pub fn count_new(&self, pairs: &PairList) -> Result<usize, ValueFault>
        ensures { result ≡ fields_new self.now pairs.now }
    {
        let count = self.added_by(pairs.get());
        grown(self.len(), count)?;
        Ok(count)
    }

    /// Sets each field to its value, one after the other, and returns how many are new. A field that is there keeps its
    /// place.
    #[tactic(auto, using(crate::proofs::Limits::fields_with_grows))]
    pub fn set_all(&mut self, pairs: PairList) -> Result<usize, ValueFault>
        ensures ok { OnOk result (fields_set self.old pairs ≡ Ok self.new) }
        ensures reply { IfOk result (λ n. fields_new self.old pairs ≡ Ok n) }
        ensures err { OnErr result (self.new ≡ self.old) }
        ensures fault { IfErr result (RefusedUnlessMemory is_memory (fields_set self.old pairs)) }
    {
        self.find_room(&pairs)?;
        let before = self.len();
        self.map.reserve(pairs.len())?;
        insert_each(&mut self.map, pairs.into_vec());
        Ok(self.len() - before)
    }

    /// How many of the named fields are there, where one that is named twice counts once.
    pub fn count_present(&self, names: &TextList) -> usize
        ensures { result ≡ fields_gone self.now names.now }
    {
        if self.len() == 0 {
            return 0;
        }
        self.removed_by(names.get())
    }

    /// Removes the named fields, and returns how many there were. The others keep their order.
    pub fn remove_all(&mut self, names: TextList) -> usize
        ensures after { self.new ≡ fields_without self.old names }
        ensures reply { result ≡ fields_gone self.old names }
    {
        let before = self.len();
        remove_named(&mut self.map, names.into_vec());
        before - self.len()
    }

    // Refuses pairs with which there would be too many fields. Where all of them fit even if each brings a new field,
    // no name is looked up for it.
    #[tactic(auto, using(crate::proofs::Limits::fields_with_bound))]
    fn find_room(&self, pairs: &PairList) -> Result<(), ValueFault>
        ensures fits { OnOk result (length (fields_with self.now pairs.now) ≤ 1048576) }
        ensures fault { IfErr result (λ f. fields_set self.now pairs.now ≡ Err f) }
    {
        if pairs.len() <= LIMIT - self.len() {
            return Ok(());
        }
        let _count = self.count_new(pairs)?;
        Ok(())
    }

    fn added_by(&self, pairs: &[(Text, Text)]) -> usize
        ensures { result + length self.now ≡ length (fields_with self.now pairs.now) }
    {
        if pairs.len() > FEW {
            if let Ok(count) = self.added_by_many(pairs) {
                return count;
            }
        }
        self.added_by_few(pairs)
    }

    // Compares each name with those before it, which takes no memory.
    fn added_by_few(&self, pairs: &[(Text, Text)]) -> usize
        ensures { result + length self.now ≡ length (fields_with self.now pairs.now) }
    {
        let mut count = 0;
        for place in 0..pairs.len() {
            count += one_if(self.adds(pairs, place));
        }
        count
    }

    fn added_by_many(&self, pairs: &[(Text, Text)]) -> Result<usize, AllocError>
        ensures { IfOk result (λ n. n + length self.now ≡ length (fields_with self.now pairs.now)) }
    {
        let mut seen = NamesSeen::new(*self.map.allocator());
        let mut count = 0;
        for place in 0..pairs.len() {
            let name = pairs[place].0.get();
            let repeated = seen.note(name)?;
            count += one_if(self.is_added(name, repeated));
        }
        Ok(count)
    }

    fn removed_by(&self, names: &[Text]) -> usize
        ensures { result + length (fields_without self.now names.now) ≡ length self.now }
    {
        if names.len() > FEW {
            if let Ok(count) = self.removed_by_many(names) {
                return count;
            }
        }
        self.removed_by_few(names)
    }

    // Compares each name with those before it, which takes no memory.
    fn removed_by_few(&self, names: &[Text]) -> usize
        ensures { result + length (fields_without self.now names.now) ≡ length self.now }
    {
        // Asked for what its contract says besides: no field stands twice.
        let _count = self.len();
        let mut count = 0;
        for place in 0..names.len() {
            count += one_if(self.removes(names, place));
        }
        count
    }

    fn removed_by_many(&self, names: &[Text]) -> Result<usize, AllocError>
        ensures { IfOk result (λ n. n + length (fields_without self.now names.now) ≡ length self.now) }
    {
        let _count = self.len();
        let mut seen = NamesSeen::new(*self.map.allocator());
        let mut count = 0;
        for place in 0..names.len() {
            let name = names[place].get();
            let repeated = seen.note(name)?;
            count += one_if(self.is_removed(name, repeated));
        }
        Ok(count)
    }

    fn is_added(&self, name: &[u8], repeated: bool) -> bool
        ensures { result ≡ not (is_some (field self.now name.now) || repeated) }
    {
        !(self.contains(name) || repeated)
    }

    fn is_removed(&self, name: &[u8], repeated: bool) -> bool
        ensures { result ≡ (is_some (field self.now name.now) && not repeated) }
    {
        self.contains(name) && !repeated
    }

    // Whether the pair at the place brings a new field and is the first of its name among the pairs.
    fn adds(&self, pairs: &[(Text, Text)], place: usize) -> bool
        requires { place < length pairs.now }
        ensures { let name = (slice_index_or pairs.now place ([], [])).0 in
            result ≡ not (is_some (field self.now name) || list_any (λ p. same_bytes name p.0) (take place pairs.now)) }
    {
        let name = pairs[place].0.get();
        !(self.contains(name) || has_name(&pairs[..place], name))
    }

    // Whether the name at the place is that of a field and the first of its kind among the names.
    fn removes(&self, names: &[Text], place: usize) -> bool
        requires { place < length names.now }
        ensures { let name = slice_index_or names.now place [] in
            result ≡ (is_some (field self.now name) && not (has (take place names.now) name)) }
    {
        let name = names[place].get();
        self.contains(name) && !has_text(&names[..place], name)
    }

    /// Copies of each field's name and value, in turn.
    pub fn all(&self, alloc: Global) -> Result<TextList, AllocError>
        ensures { IfOk result (λ l. l ≡ names_and_values self.now) }
    {
        let mut copies = Vec::new(alloc);
        for place in 0..self.len() {
            let (name, value) = self.pair(place);
            copies.push(Text::from_slice(alloc, name)?)?;
            copies.push(Text::from_slice(alloc, value)?)?;
        }
        Ok(TextList::from_vec(copies))
    }

    /// Makes the change, or none.
    pub fn edit(&mut self, edit: HashEdit) -> Result<(), ValueFault>
        ensures ok { OnOk result (hash_edit edit self.old ≡ Ok self.new) }
        ensures err { OnErr result (self.new ≡ self.old) }
        ensures fault { IfErr result (RefusedUnlessMemory is_memory (hash_edit edit self.old)) }
    {
        match edit {
            HashEdit::SetFields(pairs) => {
                self.set_all(pairs)?;
            }
            HashEdit::DeleteFields(names) => {
                self.remove_all(names);
            }
        }
        Ok(())
    }

    /// Equal fields of their own.
    pub fn try_copy(&self) -> Result<Self, AllocError>
        ensures { IfOk result (λ m. m ≡ self.now) }
    {
        Ok(Self {
            map: self.map.clone()?,
        })
    }
}

fn put_in(map: &mut IndexMap<Vec<u8>, Vec<u8>>, name: Text, value: Text) -> Result<(), AllocError>
    ensures ok { OnOk result (fields_of map.new.entries ≡ put (fields_of map.old.entries) name value) }
    ensures short { AreShortFields (fields_of map.old.entries) → AreShortFields (fields_of map.new.entries) }
    ensures err { OnErr result (fields_of map.new.entries ≡ fields_of map.old.entries) }
    ensures succeeds { 0 < spare map.old → IsOk result }
    ensures room { spare map.old ≤ spare map.new + 1 }
{
    let replaced = map.insert(name.into_vec(), value.into_vec())?;
    drop(replaced);
    Ok(())
}

fn insert_each(map: &mut IndexMap<Vec<u8>, Vec<u8>>, pairs: Vec<(Text, Text)>)
    requires room { length pairs.items ≤ spare map.old }
    requires short { AreShortFields (fields_of map.old.entries) }
    ensures after { fields_of map.new.entries ≡ fields_with (fields_of map.old.entries) pairs.items }
    ensures short { AreShortFields (fields_of map.new.entries) }
{
    for (name, value) in pairs {
        put_in(map, name, value).unwrap();
    }
}

fn take_out(map: &mut IndexMap<Vec<u8>, Vec<u8>>, name: &[u8])
    ensures { fields_of map.new.entries ≡ without (fields_of map.old.entries) name.now }
{
    drop(map.shift_remove(name));
}

fn remove_each(map: &mut IndexMap<Vec<u8>, Vec<u8>>, names: &[Text])
    ensures { fields_of map.new.entries ≡ fields_without (fields_of map.old.entries) names.now }
{
    for name in names {
        take_out(map, name.get());
    }
}

// A field that is taken out moves all that stand after it, so several go in one pass.
fn remove_named(map: &mut IndexMap<Vec<u8>, Vec<u8>>, names: Vec<Text>)
    requires { HasDistinctFields (fields_of map.old.entries) }
    ensures { fields_of map.new.entries ≡ fields_without (fields_of map.old.entries) names.items }
{
    let present = names.iter().filter(|name| map.contains_key(name.get()));
    if present.count() < 2 {
        remove_each(map, names.as_slice());
    } else {
        keep_others(map, &SortedTexts::from_vec(names));
    }
}

fn keep_others(map: &mut IndexMap<Vec<u8>, Vec<u8>>, names: &SortedTexts)
    requires { HasDistinctFields (fields_of map.old.entries) }
    ensures { fields_of map.new.entries ≡ fields_without (fields_of map.old.entries) names.now }
{
    map.retain(|name, _value| !names.contains(name.as_slice()));
}
