ghost use Rattle.std.specs.Prelude.{◌≡◌, ℕ, ◌≤◌};

/// A port to nodes, whose number stays.
pub trait NodeCount {
    ghost count: { Self → ℕ };

    /// How many nodes there are: 1 to 255.
    fn nodes(&self) -> u8
        ensures value { result ≡ count self.now }
        ensures least { 1 ≤ result }
        ensures most { result ≤ 255 };
}
