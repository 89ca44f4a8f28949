use byte_texts::Text;
use client_commands::{Arguments, Assignments, KeyPair};
use typed_values::{Edit, Value};

/// What a command is still to do to its entries.
#[derive(Drop)]
pub enum Effect {
    /// Nothing.
    Nothing,
    /// Put the value at the key.
    Put(Text, Value),
    /// Edit the value at the key, where it stands.
    Edit(Text, Edit),
    /// Put each text at its key, one after the other.
    Assign(Assignments),
    /// Take the keys out.
    Remove(Arguments),
    /// Move the value at the first key to the second.
    Move(KeyPair),
    /// Move the member from the set at the first key to that at the second, which is another key.
    MoveMember(KeyPair, Text),
}
