ghost use Rattle.std.specs.Prelude.{◌≡◌, ◌<◌, ◌≤◌, ◌-◌, IfSome, SomeIff, [], ◌∷◌};
ghost use Rattle.byte_texts.specs.Decimals.{number_in};
ghost use Rattle.key_slots.specs.Numbers.{node_among, node_in};

use byte_texts::number_in;
use std::fmt;
use std::marker::Model;

/// The most nodes of a cluster that this process is.
pub const NODES: u8 = 8;

/// The most nodes of any cluster, whether this process is it or real servers are.
pub const MAX_NODES: u8 = 255;

/// A node of the cluster, `n0` to `n254`: a number below [`MAX_NODES`].
#[derive(Clone, Copy, Debug, PartialEq, Eq, PartialOrd, Ord)]
pub struct NodeId {
    number: u8,
}

impl Model for NodeId {
    ghost use Rattle.std.specs.Prelude.{ℕ, ◌<◌};

    ghost Value = { ℕ };

    ghost view = { λ n. n.number };

    ghost inverse = { λ n. record { number = n } };

    ghost invariant = { λ n. n.number < 255 };
}

impl NodeId {
    /// The node with this number, if a cluster that this process is can have it: `n0` to `n7`.
    pub fn new(number: u64) -> Option<Self>
        ensures { SomeIff result (number < 8) number }
    {
        if number < u64::from(NODES) {
            Some(Self {
                number: number as u8,
            })
        } else {
            None
        }
    }

    /// The node with this number, where the caller knows that there can be one.
    pub fn of(number: u8) -> Self
        requires { number < 255 }
        ensures { result ≡ number }
    {
        Self { number }
    }

    /// The node that the word names: `n0` to `n7`.
    pub fn parse(word: &[u8]) -> Option<Self>
        ensures { result ≡ node_in word.now }
    {
        Self::parse_among(NODES, word)
    }

    /// The node that the word names in a cluster of so many nodes, without a zero before other digits: `n0`, `n12`.
    pub fn parse_among(nodes: u8, word: &[u8]) -> Option<Self>
        requires { 1 ≤ nodes }
        ensures value { result ≡ node_among nodes word.now }
        ensures within { IfSome result (λ n. n < nodes) }
    {
        match word {
            [b'n', digit] => Self::of_digit(nodes, *digit),
            [b'n', number @ ..] => {
                let number = number_in(number, 0, u32::from(nodes - 1))?;
                Some(Self::of(number as u8))
            }
            _ => None,
        }
    }

    /// The node of one digit, by a short way: most words of scripts and plans name one.
    #[tactic(auto, unfolding(byte_texts::specs::Decimals::number_of))]
    fn of_digit(nodes: u8, digit: u8) -> Option<Self>
        requires { 1 ≤ nodes }
        ensures value { result ≡ number_in 0 (nodes - 1) (digit ∷ []) }
        ensures within { IfSome result (λ n. n < nodes) }
    {
        if !digit.is_ascii_digit() {
            return None;
        }
        let number = digit - b'0';
        if number < nodes {
            Some(Self { number })
        } else {
            None
        }
    }

    /// The node's number.
    pub fn get(self) -> u8
        ensures value { result ≡ self }
        ensures within { result < 255 }
    {
        self.number
    }
}

/// The form of scripts and plans: `n` and the number.
impl fmt::Display for NodeId {
    ghost use Rattle.std.specs.Prelude.{Some, ◌∷◌};
    ghost use Rattle.std.specs.Fmt.{decimal};

    ghost output = { λ n. Some (110 ∷ decimal n) };

    fn fmt<W: fmt::Write>(&self, f: &mut fmt::Formatter<W>) -> fmt::Result {
        let number = self.number;
        write!(f, "n{number}")
    }
}
