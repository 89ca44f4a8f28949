use std::marker::Brand;

/// Tells one running cluster from every other in types. Seats, locks and ports of the brand `B` are of one cluster, so
/// that no call can be given a seat of another.
///
/// A program enters once, by a function that is generic in `B` and is called with the standard library's `Brand`: see
/// `ClusterSetup`.
pub trait ClusterBrand {
    ghost use Rattle.shared_trail.specs.Setups.{Setup};

    /// The setup that the cluster was opened from.
    ghost setup: { Setup };
}

impl ClusterBrand for Brand {
    ghost use Rattle.shared_trail.specs.Setups.{no_setup};

    ghost setup = { no_setup };
}
