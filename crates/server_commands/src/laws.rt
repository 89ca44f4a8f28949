//! What the definitions of this crate amount to.
ghost use Rattle.server_commands.specs.Telling.{HidesPasswords};

/// A password stands nowhere in what is told of a text, wherever it stood there. One that has a star itself may be seen
/// in the stars that are in its place.
pub fn passwords_are_hidden()
    ensures { HidesPasswords }
{}
