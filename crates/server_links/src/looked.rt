//! How far what has come is looked through for the end of the first reply.
ghost use Rattle.std.specs.Prelude.{◌<◌, List, ℕ};
ghost use Rattle.std.specs.Bool.{OnFalse};
ghost use Rattle.server_links.specs.Looking.{Finds, IsLooked};
ghost use Rattle.server_links.specs.Replies.{IsUnfinished};

use crate::array_header::array_begun;
use resp2_wire::{MAX_REPLIES, decode_reply};
use std::alloc::Global;

/// Behind the first bytes, which were looked through, so many replies still have to come before the first reply is
/// whole: itself, or of an array those that stand in it. So a long array that comes in pieces is gone through once.
#[derive(Clone, Copy)]
pub(crate) struct Looked {
    place: usize,
    left: usize,
}

/// Where more replies than these are left, they aren't counted.
const MOST_LEFT: usize = 4_294_967_295;

/// What is found at the place.
enum Look {
    /// The mark, or a reply, that was looked for.
    On(Looked),
    /// The bytes end too early.
    Short,
    /// The first reply is whole, or something else, which reading it tells.
    Whole,
}

impl Looked {
    /// Nothing was looked through.
    pub(crate) fn nothing() -> Self
        ensures { (bytes : List ℕ) → IsLooked bytes result.place result.left }
    {
        Self { place: 0, left: 1 }
    }

    /// Looks on through the bytes, to which some may have come. Whether the first reply may be whole.
    pub(crate) fn look_on(&mut self, alloc: Global, bytes: &[u8]) -> bool
        requires { IsLooked bytes.now self.old.place self.old.left }
        ensures looked { IsLooked bytes.now self.new.place self.new.left }
        ensures unfinished { OnFalse result (IsUnfinished bytes.now) }
    {
        for _ in self.place..bytes.len() + 1 {
            match self.step(alloc, bytes) {
                Look::On(next) => *self = next,
                Look::Short => return false,
                Look::Whole => return true,
            }
        }
        true
    }

    /// Looks at what stands at the place.
    fn step(&self, alloc: Global, bytes: &[u8]) -> Look
        requires { IsLooked bytes.now self.now.place self.now.left }
        ensures { Finds bytes.now result }
    {
        if self.left == 0 {
            return Look::Whole;
        }
        if self.left > MOST_LEFT {
            return Look::Whole;
        }
        match array_begun(&bytes[self.place..], 0, MAX_REPLIES as u32) {
            Some((count, after)) => Look::On(Self {
                place: bytes.len() - after.len(),
                left: self.left - 1 + count as usize,
            }),
            None => self.past_reply(alloc, bytes),
        }
    }

    /// Looks at the reply that stands at the place.
    fn past_reply(&self, alloc: Global, bytes: &[u8]) -> Look
        requires looked { IsLooked bytes.now self.now.place self.now.left }
        requires left { 0 < self.now.left }
        ensures { Finds bytes.now result }
    {
        match decode_reply(alloc, &bytes[self.place..]) {
            Ok(Some((reply, width))) => {
                drop(reply);
                Look::On(Self {
                    place: self.place + width,
                    left: self.left - 1,
                })
            }
            Ok(None) => Look::Short,
            Err(_) => Look::Whole,
        }
    }
}
