ghost use Rattle.std.specs.Prelude.{◌≡◌, true, SomeIff};
ghost use Rattle.std.specs.List.{list_all};
ghost use Rattle.node_names.specs.Names.{is_name, is_name_digit};

use std::marker::Model;
use std::{fmt, str};

/// The name that a Redis server gives itself: 40 hexadecimal digits in lower case.
#[derive(Clone, Copy)]
pub struct NodeName {
    digits: [u8; 40],
}

impl Model for NodeName {
    ghost use Rattle.std.specs.Prelude.{◌≡◌, true, List, ℕ};
    ghost use Rattle.node_names.specs.Names.{is_name};

    ghost Value = { List ℕ };

    ghost view = { λ n. n.digits };

    ghost inverse = { λ t. record { digits = t } };

    ghost invariant = { λ n. is_name n.digits ≡ true };
}

impl NodeName {
    /// The name that the word is.
    pub fn parse(word: &[u8]) -> Option<Self>
        ensures { SomeIff result (is_name word.now ≡ true) word.now }
    {
        if !is_name(word) {
            return None;
        }
        let mut digits = [b'0'; 40];
        digits.copy_from_slice(word);
        Some(Self { digits })
    }

    /// The name whose digits are all 0.
    pub(crate) fn zeros() -> Self {
        Self { digits: [b'0'; 40] }
    }

    /// The name's digits as text.
    #[tactic(auto, using(crate::proofs::Names::name_is_text))]
    fn as_str(&self) -> &str
        ensures { result.now ≡ self.now }
    {
        match str::from_utf8(&self.digits) {
            Ok(text) => text,
            Err(_) => unreachable!(),
        }
    }

    /// The name's digits.
    pub fn get(&self) -> &[u8]
        ensures value { result.now ≡ self.now }
        ensures are { is_name result.now ≡ true }
    {
        &self.digits
    }
}

/// Its digits.
impl fmt::Display for NodeName {
    ghost use Rattle.std.specs.Prelude.{Some};

    ghost output = { λ n. Some n };

    fn fmt<W: fmt::Write>(&self, f: &mut fmt::Formatter<W>) -> fmt::Result {
        let name = self.as_str();
        write!(f, "{name}")
    }
}

/// Whether the word is a name.
fn is_name(word: &[u8]) -> bool
    ensures { result ≡ is_name word.now }
{
    word.len() == 40 && are_name_digits(word)
}

/// Whether all bytes are digits of names.
fn are_name_digits(word: &[u8]) -> bool
    ensures { result ≡ list_all is_name_digit word.now }
{
    word.iter().all(|byte| is_name_digit(*byte))
}

/// Whether the byte is a digit of a name.
fn is_name_digit(byte: u8) -> bool
    ensures { result ≡ is_name_digit byte }
{
    matches!(byte, b'0'..=b'9' | b'a'..=b'f')
}
