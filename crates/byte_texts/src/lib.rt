//! Byte texts within the limit of one argument, and lists of them, which contracts see as lists of bytes; the parts of
//! a text, the decimal numbers that texts write, and hexadecimal digits.
#![tactic(auto)]

mod decimals;
mod hexadecimal;
mod laws;
mod list;
mod parts;
mod text;
mod words;

pub use decimals::{MAX_NUMERAL, Numeral, number_in, number_of, numeral_of, wide_number};
pub use hexadecimal::hex_digit;
pub use laws::{numbers_have_one_text, texts_are_their_parts};
pub use list::TextList;
pub use parts::{Parts, part_list, split_once};
use std::alloc::AllocError;
pub use text::{MAX_BYTES, Text};
pub use words::{begins, is};

/// Out of memory: the one refusal of a call that needs a growth which the allocator would not give.
pub type Memory = AllocError;
