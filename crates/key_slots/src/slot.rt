ghost use Rattle.std.specs.Prelude.{◌≡◌, ◌<◌, SomeIff};
ghost use Rattle.key_slots.specs.Numbers.{slot_in};

use byte_texts::number_in;
use std::fmt;
use std::marker::Model;

/// How many hash slots there are.
pub const SLOTS: usize = 16_384;

/// A hash slot: a number below [`SLOTS`].
#[derive(Clone, Copy, Debug, PartialEq, Eq, PartialOrd, Ord)]
pub struct Slot {
    number: u16,
}

impl Model for Slot {
    ghost use Rattle.std.specs.Prelude.{ℕ, ◌<◌};

    ghost Value = { ℕ };

    ghost view = { λ s. s.number };

    ghost inverse = { λ n. record { number = n } };

    ghost invariant = { λ s. s.number < 16384 };
}

impl Slot {
    /// The slot with this number, if there is one.
    pub fn new(number: u64) -> Option<Self>
        ensures { SomeIff result (number < 16384) number }
    {
        if number < SLOTS as u64 {
            Some(Self {
                number: number as u16,
            })
        } else {
            None
        }
    }

    /// The slot with this number, where the caller knows that there is one.
    pub fn of(number: u16) -> Self
        requires { number < 16384 }
        ensures { result ≡ number }
    {
        Self { number }
    }

    /// The slot that the word names: a decimal number from 0 to 16383, with no leading zero.
    pub fn parse(word: &[u8]) -> Option<Self>
        ensures { result ≡ slot_in word.now }
    {
        match number_in(word, 0, 16_383) {
            Some(number) => Some(Self {
                number: number as u16,
            }),
            None => None,
        }
    }

    /// The slot's number.
    pub fn get(self) -> u16
        ensures value { result ≡ self }
        ensures within { result < 16384 }
    {
        self.number
    }
}

/// The form of scripts and plans: the number.
impl fmt::Display for Slot {
    ghost use Rattle.std.specs.Prelude.{Some};
    ghost use Rattle.std.specs.Fmt.{decimal};

    ghost output = { λ s. Some (decimal s) };

    fn fmt<W: fmt::Write>(&self, f: &mut fmt::Formatter<W>) -> fmt::Result {
        let number = self.number;
        write!(f, "{number}")
    }
}
