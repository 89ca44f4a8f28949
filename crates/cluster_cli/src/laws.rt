//! What the definitions of this crate amount to, in other words.

ghost use Rattle.cluster_cli.specs.ByName.{WeightsAreByName};

/// The weights of some nodes are read exactly where each item gives a weight to a node and no node comes twice. Each
/// node then has what is given to it, or 1.
pub fn weights_are_by_name()
    ensures { WeightsAreByName }
{}
