//! What the definitions of this crate amount to, in other words.

ghost use Rattle.std.specs.Prelude.{ℕ, List, length};
ghost use Rattle.key_slots.specs.HashTag.{TagsAreBetweenBraces};
ghost use Rattle.key_slots.specs.Ranges.{RangesAreLongest};

/// SlotsExact: a key's hash tag is what stands between its first `{` and the first `}` after it, if anything does, and
/// else the whole key.
pub fn hash_tags_are_between_braces()
    ensures { TagsAreBetweenBraces }
{}

/// SlotsExact: the ranges of a list of owners are ascending, cover it without a gap, have one owner each, and no two
/// neighbours have the same.
pub fn ranges_are_longest()
    ensures { RangesAreLongest }
{}
