//! A text in which numbers of two digits are others at each turn, so that no turn reads what another read.
use crate::random::Random;
use std::alloc::{AllocError, Global};

#[derive(Drop)]
pub struct Varied {
    pub text: Vec<u8>,
    places: Vec<usize>,
}

impl Varied {
    pub fn new(alloc: Global) -> Self {
        Self {
            text: Vec::new(alloc),
            places: Vec::new(alloc),
        }
    }

    /// Puts two digits that vary.
    pub fn put_digits(&mut self) -> Result<(), AllocError> {
        self.places.push(self.text.len())?;
        self.text.extend_from_slice(b"10")
    }

    /// Makes each number another one from 10 to 99.
    pub fn vary(&mut self, random: &mut Random) {
        for place in self.places.as_slice() {
            let number = random.next();
            if let Some(digit) = self.text.as_mut_slice().get_mut(*place) {
                *digit = b'1' + (number % 9) as u8;
            }
            if let Some(digit) = self.text.as_mut_slice().get_mut(place.saturating_add(1)) {
                *digit = b'0' + (number / 9 % 10) as u8;
            }
        }
    }
}
