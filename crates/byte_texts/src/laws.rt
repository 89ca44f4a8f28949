//! What the definitions of this crate amount to, in other words.
ghost use Rattle.byte_texts.specs.Decimals.{NumbersHaveOneText};
ghost use Rattle.byte_texts.specs.Parts.{TextsAreTheirParts};

/// A text is read as a number exactly where it is what that number is written as.
pub fn numbers_have_one_text()
    ensures { NumbersHaveOneText }
{}

/// The parts of a text have none of the bytes that part it, and are the text with such a byte between them.
pub fn texts_are_their_parts()
    ensures { TextsAreTheirParts }
{}
