ghost use Rattle.std.specs.Prelude.{◌≡◌, ◌∷◌, [], ◌&&◌, cond, IfOk, OnOk, List, ℕ, Some, map, nat_eq};
ghost use Rattle.std.specs.Cmp.Lexicographic.{pointwise};
ghost use Rattle.store_commands.specs.Store.{Key};
ghost use Rattle.cluster_world.specs.Earning.{is_error};
ghost use Rattle.cluster_world.specs.Imported.{is_after, is_ask_of, place_in};

use crate::event::Event;
use byte_texts::{Memory, Text};
use indexmap::IndexMap;
use resp2_wire::Reply;
use std::alloc::Global;
use std::marker::Model;

/// The errors that commands were answered with, each with the command's keys, and the place in the trail of the last
/// such event. What they are made of is borrowed from the events, and looking one up does not depend on how many there
/// are.
pub struct AnsweredErrors<'e> {
    places: IndexMap<Vec<&'e [u8]>, usize>,
}

/// Written out, so that a proof sees one call where such a value is dropped.
impl Drop for AnsweredErrors<'_> {
    fn drop(self) {
        let Self { places } = self;
        drop(places);
    }
}

impl<'e> Model for AnsweredErrors<'e> {
    ghost use Rattle.std.specs.Prelude.{map};
    ghost use Rattle.cluster_world.specs.Imported.{Errors};

    ghost Value = { Errors };

    ghost view = { λ e. map (λ p. (map (λ b. b.now) p.0.items, p.1)) e.places.entries };
}

/// An error as it is looked up: its text, and then the keys.
fn error_of<'e>(alloc: Global, text: &'e [u8], keys: &'e [Text]) -> Result<Vec<&'e [u8]>, Memory>
    ensures { IfOk result (λ v. map (λ b. b.now) v.items ≡ text.now ∷ keys.now) }
{
    let mut error = Vec::with_capacity(alloc, keys.len() + 1)?;
    error.push(text)?;
    for key in keys {
        error.push(key.get())?;
    }
    Ok(error)
}

impl<'e> AnsweredErrors<'e> {
    /// No error; it takes no memory.
    pub fn new(alloc: Global) -> Self
        ensures { result ≡ [] }
    {
        Self {
            places: IndexMap::new(alloc),
        }
    }

    /// The errors with that of the event at this place, where it answered a command with one.
    pub fn note(&mut self, alloc: Global, place: usize, event: &'e Event) -> Result<(), Memory>
        ensures { OnOk result ((text : List ℕ) (ks : List Key)
            → place_in self.new text ks
            ≡ cond (is_ask_of text ks event.now) (Some place) (place_in self.old text ks)) }
    {
        match event {
            Event::Client { command, reply, .. } => {
                self.note_reply(alloc, place, command.keys(), reply)
            }
            _ => Ok(()),
        }
    }

    fn note_reply(
        &mut self,
        alloc: Global,
        place: usize,
        keys: &'e [Text],
        reply: &'e Reply,
    ) -> Result<(), Memory>
        ensures { OnOk result ((text : List ℕ) (ks : List Key)
            → place_in self.new text ks
            ≡ cond (pointwise (pointwise nat_eq) keys.now ks && is_error text reply.now) (Some place)
            (place_in self.old text ks)) }
    {
        match reply {
            Reply::Error(text) => self.add(error_of(alloc, text.get(), keys)?, place),
            _ => Ok(()),
        }
    }

    fn add(&mut self, error: Vec<&'e [u8]>, place: usize) -> Result<(), Memory>
        ensures { OnOk result ((text : List ℕ) (ks : List Key)
            → place_in self.new text ks
            ≡ cond (pointwise (pointwise nat_eq) (text ∷ ks) (map (λ b. b.now) error.entry.items)) (Some place)
            (place_in self.old text ks)) }
    {
        self.places.insert(error, place)?;
        Ok(())
    }

    /// Whether these keys were answered with this error after the place.
    pub fn has_after(
        &self,
        alloc: Global,
        text: &[u8],
        keys: &[Text],
        place: usize,
    ) -> Result<bool, Memory>
        ensures { IfOk result (λ b. b ≡ is_after (place_in self.now text.now keys.now) place) }
    {
        let error = error_of(alloc, text, keys)?;
        match self.places.get(error.as_slice()) {
            Some(last) => Ok(place < *last),
            None => Ok(false),
        }
    }
}
