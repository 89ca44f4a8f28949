/// The byte for a text.
pub const TEXT: u8 = 0;

/// The byte for a hash.
pub const HASH: u8 = 1;

/// The byte for a list.
pub const LIST: u8 = 2;

/// The byte for a set.
pub const SET: u8 = 3;
