ghost use Rattle.std.specs.Prelude.{◌≡◌, ℕ, ◌<◌, ◌≤◌, ◌+◌, ◌||◌, ◌&&◌, Bool, false, List, [], ◌∷◌, ◌++◌, length};
ghost use Rattle.std.specs.Prelude.{slice_get, slice_index_or, take, Ok, Err, Some, IfOk, OnOk, OnErr, IfErr, IsOk};
ghost use Rattle.std.specs.Prelude.{not, if◌then◌else◌};
ghost use Rattle.indexmap.specs.IndexSet.{spare};
ghost use Rattle.byte_texts.specs.Outcomes.{RefusedUnlessMemory};
ghost use Rattle.typed_values.specs.Faults.{within, is_memory};
ghost use Rattle.typed_values.specs.Members.{has, with_member, members_with, members_added, members_new};
ghost use Rattle.typed_values.specs.Members.{members_without, members_gone, HasDistinctMembers, AreShortMembers};
ghost use Rattle.typed_values.specs.Members.{members_of};
ghost use Rattle.typed_values.specs.Values.{is_nil};
ghost use Rattle.typed_values.specs.Edits.{set_edit};

use crate::edit::SetEdit;
use crate::fault::ValueFault;
use crate::limit::{LIMIT, grown};
use crate::names::{FEW, has_text, one_if};
use crate::seen::NamesSeen;
use crate::sorted::SortedTexts;
use byte_texts::{Text, TextList};
use indexmap::IndexSet;
use std::alloc::{AllocError, Global};
use std::marker::Model;

/// The members of a set, in the order in which they came: at most 1,048,576.
pub struct MemberSet {
    set: IndexSet<Vec<u8>>,
}

/// Written out, so that a proof sees one call where such a value is dropped.
impl Drop for MemberSet {
    fn drop(self) {
        let Self { set } = self;
        drop(set);
    }
}

impl Model for MemberSet {
    ghost use Rattle.std.specs.Prelude.{List, ℕ, length, ◌≤◌};
    ghost use Rattle.typed_values.specs.Members.{members_of, AreShortMembers};

    ghost Value = { List (List ℕ) };

    ghost view = { λ m. members_of m.set.keys };

    ghost invariant = { λ m. (length (members_of m.set.keys) ≤ 1048576) × AreShortMembers (members_of m.set.keys) };
}

impl MemberSet {
    /// No member; it takes no memory.
    pub fn new(alloc: Global) -> Self
        ensures { result ≡ [] }
    {
        Self {
            set: IndexSet::new(alloc),
        }
    }

    /// How many members there are.
    pub fn len(&self) -> usize
        ensures count { result ≡ length self.now }
        ensures distinct { HasDistinctMembers self.now }
        ensures limit { length self.now ≤ 1048576 }
        ensures short { AreShortMembers self.now }
    {
        self.set.len()
    }

    /// Whether there is none.
    pub fn is_empty(&self) -> bool
        ensures { result ≡ is_nil self.now }
    {
        self.set.is_empty()
    }

    /// Whether it is a member.
    pub fn contains(&self, member: &[u8]) -> bool
        ensures { result ≡ has self.now member.now }
    {
        self.set.contains(member)
    }

    /// The member at a place, which counts from 0 in the order of insertion.
    pub fn member(&self, place: usize) -> &[u8]
        requires { place < length self.now }
        ensures member { slice_get self.now place ≡ Some result.now }
        ensures limit { length result.now ≤ 1048576 }
    {
        self.set.get_index(place).unwrap().as_slice()
    }

    /// Puts a new member last. One that is there already is refused: the answer is false, and nothing changes.
    pub fn insert_new(&mut self, member: Text) -> Result<bool, ValueFault>
        ensures added { IfOk result (λ b. b ≡ not (has self.old member)) }
        ensures absent { OnErr result (has self.old member ≡ false) }
        ensures ok { IfOk result (λ b. self.new ≡ (if b then self.old ++ member ∷ [] else self.old)) }
        ensures err { OnErr result (self.new ≡ self.old) }
        ensures fault { IfErr result (RefusedUnlessMemory is_memory (within (length self.old + 1) self.old)) }
    {
        if self.contains(member.get()) {
            return Ok(false);
        }
        grown(self.len(), 1)?;
        put_in(&mut self.set, member)?;
        Ok(true)
    }

    /// How many of the texts are no members yet, where one that is named twice counts once.
    pub fn count_new(&self, texts: &TextList) -> Result<usize, ValueFault>
        ensures { result ≡ members_new self.now texts.now }
    {
        let count = self.added_by(texts.get());
        grown(self.len(), count)?;
        Ok(count)
    }

    /// Adds the texts that are no members yet, one after the other, and returns how many there were.
    #[tactic(auto, using(crate::proofs::Limits::members_with_grows))]
    pub fn add_all(&mut self, texts: TextList) -> Result<usize, ValueFault>
        ensures ok { OnOk result (members_added self.old texts ≡ Ok self.new) }
        ensures reply { IfOk result (λ n. members_new self.old texts ≡ Ok n) }
        ensures err { OnErr result (self.new ≡ self.old) }
        ensures fault { IfErr result (RefusedUnlessMemory is_memory (members_added self.old texts)) }
    {
        self.find_room(&texts)?;
        let before = self.len();
        self.set.reserve(texts.len())?;
        insert_each(&mut self.set, texts.into_vec());
        Ok(self.len() - before)
    }

    /// How many of the texts are members, where one that is named twice counts once.
    pub fn count_present(&self, texts: &TextList) -> usize
        ensures { result ≡ members_gone self.now texts.now }
    {
        if self.len() == 0 {
            return 0;
        }
        self.removed_by(texts.get())
    }

    /// Removes the texts that are members, one after the other, and returns how many there were. The others keep their
    /// order.
    pub fn remove_all(&mut self, texts: &TextList) -> usize
        ensures after { self.new ≡ members_without self.old texts.now }
        ensures reply { result ≡ members_gone self.old texts.now }
    {
        let before = self.len();
        remove_each(&mut self.set, texts.get());
        before - self.len()
    }

    // Removes the texts that are members: several in one pass, for which they are put in order.
    fn remove_many(&mut self, texts: TextList)
        ensures { self.new ≡ members_without self.old texts }
    {
        // Asked for what its contract says besides: no member stands twice.
        let _count = self.len();
        remove_named(&mut self.set, texts.into_vec());
    }

    // Refuses texts with which there would be too many members. Where all of them fit even if each is a new member,
    // none is looked up for it.
    #[tactic(auto, using(crate::proofs::Limits::members_with_bound))]
    fn find_room(&self, texts: &TextList) -> Result<(), ValueFault>
        ensures fits { OnOk result (length (members_with self.now texts.now) ≤ 1048576) }
        ensures fault { IfErr result (λ f. members_added self.now texts.now ≡ Err f) }
    {
        if texts.len() <= LIMIT - self.len() {
            return Ok(());
        }
        let _count = self.count_new(texts)?;
        Ok(())
    }

    fn added_by(&self, texts: &[Text]) -> usize
        ensures { result + length self.now ≡ length (members_with self.now texts.now) }
    {
        if texts.len() > FEW {
            if let Ok(count) = self.added_by_many(texts) {
                return count;
            }
        }
        self.added_by_few(texts)
    }

    // Compares each text with those before it, which takes no memory.
    fn added_by_few(&self, texts: &[Text]) -> usize
        ensures { result + length self.now ≡ length (members_with self.now texts.now) }
    {
        let mut count = 0;
        for place in 0..texts.len() {
            count += one_if(self.adds(texts, place));
        }
        count
    }

    fn added_by_many(&self, texts: &[Text]) -> Result<usize, AllocError>
        ensures { IfOk result (λ n. n + length self.now ≡ length (members_with self.now texts.now)) }
    {
        let mut seen = NamesSeen::new(*self.set.allocator());
        let mut count = 0;
        for place in 0..texts.len() {
            let text = texts[place].get();
            let repeated = seen.note(text)?;
            count += one_if(self.is_added(text, repeated));
        }
        Ok(count)
    }

    fn removed_by(&self, texts: &[Text]) -> usize
        ensures { result + length (members_without self.now texts.now) ≡ length self.now }
    {
        if texts.len() > FEW {
            if let Ok(count) = self.removed_by_many(texts) {
                return count;
            }
        }
        self.removed_by_few(texts)
    }

    // Compares each text with those before it, which takes no memory.
    fn removed_by_few(&self, texts: &[Text]) -> usize
        ensures { result + length (members_without self.now texts.now) ≡ length self.now }
    {
        // Asked for what its contract says besides: no member stands twice.
        let _count = self.len();
        let mut count = 0;
        for place in 0..texts.len() {
            count += one_if(self.removes(texts, place));
        }
        count
    }

    fn removed_by_many(&self, texts: &[Text]) -> Result<usize, AllocError>
        ensures { IfOk result (λ n. n + length (members_without self.now texts.now) ≡ length self.now) }
    {
        let _count = self.len();
        let mut seen = NamesSeen::new(*self.set.allocator());
        let mut count = 0;
        for place in 0..texts.len() {
            let text = texts[place].get();
            let repeated = seen.note(text)?;
            count += one_if(self.is_removed(text, repeated));
        }
        Ok(count)
    }

    fn is_added(&self, text: &[u8], repeated: bool) -> bool
        ensures { result ≡ not (has self.now text.now || repeated) }
    {
        !(self.contains(text) || repeated)
    }

    fn is_removed(&self, text: &[u8], repeated: bool) -> bool
        ensures { result ≡ (has self.now text.now && not repeated) }
    {
        self.contains(text) && !repeated
    }

    // Whether the text at the place is no member and the first of its kind among the texts.
    fn adds(&self, texts: &[Text], place: usize) -> bool
        requires { place < length texts.now }
        ensures { let text = slice_index_or texts.now place [] in
            result ≡ not (has self.now text || has (take place texts.now) text) }
    {
        let text = texts[place].get();
        !(self.contains(text) || has_text(&texts[..place], text))
    }

    // Whether the text at the place is a member and the first of its kind among the texts.
    fn removes(&self, texts: &[Text], place: usize) -> bool
        requires { place < length texts.now }
        ensures { let text = slice_index_or texts.now place [] in
            result ≡ (has self.now text && not (has (take place texts.now) text)) }
    {
        let text = texts[place].get();
        self.contains(text) && !has_text(&texts[..place], text)
    }

    /// Copies of the members.
    pub fn all(&self, alloc: Global) -> Result<TextList, AllocError>
        ensures { IfOk result (λ l. l ≡ self.now) }
    {
        let mut copies = Vec::new(alloc);
        for place in 0..self.len() {
            copies.push(Text::from_slice(alloc, self.member(place))?)?;
        }
        Ok(TextList::from_vec(copies))
    }

    /// Makes the change, or none.
    pub fn edit(&mut self, edit: SetEdit) -> Result<(), ValueFault>
        ensures ok { OnOk result (set_edit edit self.old ≡ Ok self.new) }
        ensures err { OnErr result (self.new ≡ self.old) }
        ensures fault { IfErr result (RefusedUnlessMemory is_memory (set_edit edit self.old)) }
    {
        match edit {
            SetEdit::AddMembers(texts) => {
                self.add_all(texts)?;
            }
            SetEdit::RemoveMembers(texts) => {
                self.remove_many(texts);
            }
        }
        Ok(())
    }

    /// Equal members of their own.
    pub fn try_copy(&self) -> Result<Self, AllocError>
        ensures { IfOk result (λ m. m ≡ self.now) }
    {
        Ok(Self {
            set: self.set.clone()?,
        })
    }
}

fn put_in(set: &mut IndexSet<Vec<u8>>, text: Text) -> Result<(), AllocError>
    ensures ok { OnOk result (members_of set.new.keys ≡ with_member (members_of set.old.keys) text) }
    ensures short { AreShortMembers (members_of set.old.keys) → AreShortMembers (members_of set.new.keys) }
    ensures err { OnErr result (members_of set.new.keys ≡ members_of set.old.keys) }
    ensures succeeds { 0 < spare set.old → IsOk result }
    ensures room { spare set.old ≤ spare set.new + 1 }
{
    set.insert(text.into_vec())?;
    Ok(())
}

fn insert_each(set: &mut IndexSet<Vec<u8>>, texts: Vec<Text>)
    requires room { length texts.items ≤ spare set.old }
    requires short { AreShortMembers (members_of set.old.keys) }
    ensures after { members_of set.new.keys ≡ members_with (members_of set.old.keys) texts.items }
    ensures short { AreShortMembers (members_of set.new.keys) }
{
    for text in texts {
        put_in(set, text).unwrap();
    }
}

fn remove_each(set: &mut IndexSet<Vec<u8>>, texts: &[Text])
    ensures { members_of set.new.keys ≡ members_without (members_of set.old.keys) texts.now }
{
    for text in texts {
        let _was_member = set.shift_remove(text.get());
    }
}

// A member that is taken out moves all that stand after it, so several go in one pass.
fn remove_named(set: &mut IndexSet<Vec<u8>>, texts: Vec<Text>)
    requires { HasDistinctMembers (members_of set.old.keys) }
    ensures { members_of set.new.keys ≡ members_without (members_of set.old.keys) texts.items }
{
    let present = texts.iter().filter(|text| set.contains(text.get()));
    if present.count() < 2 {
        remove_each(set, texts.as_slice());
    } else {
        keep_others(set, &SortedTexts::from_vec(texts));
    }
}

fn keep_others(set: &mut IndexSet<Vec<u8>>, texts: &SortedTexts)
    requires { HasDistinctMembers (members_of set.old.keys) }
    ensures { members_of set.new.keys ≡ members_without (members_of set.old.keys) texts.now }
{
    set.retain(|member| !texts.contains(member.as_slice()));
}
