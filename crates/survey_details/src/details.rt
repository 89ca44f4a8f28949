/// What is printed of each master beside its line and its replicas.
#[derive(Clone, Copy, Debug, PartialEq, Eq)]
pub struct Details {
    /// The ranges of its slots.
    pub slots: bool,
    /// Its number of keys, for which it is asked.
    pub keys: bool,
}
