use std::fmt;
use thiserror::Error;

/// Why a text is no plan.
#[derive(Clone, Copy, Debug, PartialEq, Eq, Error)]
pub enum ParseCause {
    /// The first line is none of `reshard-plan 1`, `reshard-plan 2` and `reshard-plan 3`, nor, for a cluster of
    /// servers, `reshard-plan 4` or `reshard-plan 5`.
    Header = 1,
    /// The line is none that a plan of this version has here: an empty line, another number of words, another word,
    /// or bytes after the end.
    Verb = 2,
    /// No slot, or no range of slots.
    Slot = 3,
    /// No node: they are `n0` to `n7`, and in versions 4 and 5 `n0` to `n254`.
    Node = 4,
    /// No batch: 1 to 1,000.
    Count = 5,
    /// A range whose first slot is not below its second.
    Range = 6,
    /// The text ends before `end` and its line feed.
    NoEnd = 7,
    /// More than 200,000 commands, a move counted as eleven for each slot; in versions 4 and 5 more than 4,227,072, a
    /// move counted as 258 for each slot.
    TooLong = 8,
    /// Out of memory.
    Memory = 9,
    /// No name of a node: 40 hexadecimal digits in lower case.
    Name = 10,
    /// A node that is not above those in the lines before.
    Order = 11,
    /// A name that a node in a line before has.
    SameName = 12,
    /// A command of a node that no line lists.
    Unlisted = 13,
}

/// Why a text is no plan, and the number of the line, from 1.
#[derive(Clone, Copy, Debug, PartialEq, Eq, Error)]
pub struct ParseFault {
    pub cause: ParseCause,
    pub line: u32,
}

/// The number and the name, as `6 Range`.
impl fmt::Display for ParseCause {
    ghost use Rattle.std.specs.Prelude.{Some};
    ghost use Rattle.plan_language.specs.Faults.{cause_text};

    ghost output = { λ f. Some (cause_text f) };

    fn fmt<W: fmt::Write>(&self, f: &mut fmt::Formatter<W>) -> fmt::Result {
        match self {
            Self::Header => write!(f, "1 Header"),
            Self::Verb => write!(f, "2 Verb"),
            Self::Slot => write!(f, "3 Slot"),
            Self::Node => write!(f, "4 Node"),
            Self::Count => write!(f, "5 Count"),
            Self::Range => write!(f, "6 Range"),
            Self::NoEnd => write!(f, "7 NoEnd"),
            Self::TooLong => write!(f, "8 TooLong"),
            Self::Memory => write!(f, "9 Memory"),
            Self::Name => write!(f, "10 Name"),
            Self::Order => write!(f, "11 Order"),
            Self::SameName => write!(f, "12 SameName"),
            Self::Unlisted => write!(f, "13 Unlisted"),
        }
    }
}

/// The line before the cause, as `line 2: 6 Range`.
impl fmt::Display for ParseFault {
    ghost use Rattle.std.specs.Prelude.{Some};
    ghost use Rattle.plan_language.specs.Faults.{parse_fault_text};

    ghost output = { λ f. Some (parse_fault_text f) };

    fn fmt<W: fmt::Write>(&self, f: &mut fmt::Formatter<W>) -> fmt::Result {
        let ParseFault { cause, line } = self;
        write!(f, "line {line}: {cause}")
    }
}
