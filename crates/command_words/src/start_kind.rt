ghost use Rattle.std.specs.Prelude.{◌≡◌};
ghost use Rattle.command_words.specs.StartKinds.{is_cluster, is_even, is_survey};

/// Which options say who owns the slots where a plan starts.
#[derive(Clone, Copy, Debug, PartialEq, Eq)]
pub(crate) enum StartKind {
    /// Those of an even split.
    Even,
    /// `--cluster`.
    Cluster,
    /// `--survey`.
    Survey,
}

impl StartKind {
    pub(crate) fn is_even(self) -> bool
        ensures { result ≡ is_even self }
    {
        matches!(self, Self::Even)
    }

    pub(crate) fn is_cluster(self) -> bool
        ensures { result ≡ is_cluster self }
    {
        matches!(self, Self::Cluster)
    }

    pub(crate) fn is_survey(self) -> bool
        ensures { result ≡ is_survey self }
    {
        matches!(self, Self::Survey)
    }
}
