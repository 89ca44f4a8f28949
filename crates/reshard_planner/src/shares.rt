ghost use Rattle.std.specs.Prelude.{◌≡◌, ℕ, ◌+◌, ◌*◌, ◌/◌, ◌≤◌, ◌<◌, slice_index};
ghost use Rattle.reshard_planner.specs.Sums.{sum_below};
ghost use Rattle.reshard_planner.specs.Shares.{share};
ghost use Rattle.reshard_planner.specs.Starts.{Lists};

use crate::held::{PerNode, nothing};

/// The sum over the first nodes.
pub(crate) fn sum_over(numbers: &PerNode, nodes: u8) -> usize
    requires small { (node : ℕ) → node < nodes → slice_index numbers.now node ≤ 16384 }
    ensures { result ≡ sum_below (λ node. slice_index numbers.now node) nodes }
{
    let mut sum = 0;
    for node in 0..usize::from(nodes) {
        sum += numbers[node];
    }
    sum
}

/// A total that is laid along the weights of nodes.
#[derive(Clone, Copy)]
pub(crate) struct Scale {
    /// What is shared out.
    pub(crate) total: usize,
    /// What is added before rounding down: 0, or half of the whole to round to the nearest.
    pub(crate) half: usize,
    /// What all nodes weigh.
    pub(crate) whole: usize,
}

impl Scale {
    /// What lies along so much weight.
    fn upto(self, weight: usize) -> usize
        requires total { self.total ≤ 16384 }
        requires half { self.half ≤ 255000 }
        requires whole { 0 < self.whole }
        requires weight { weight ≤ 255000 }
        ensures { result ≡ (self.total * weight + self.half) / self.whole }
    {
        (self.total * weight + self.half) / self.whole
    }

    /// The share of each of the first nodes.
    pub(crate) fn shares(self, weights: &PerNode, nodes: u8) -> PerNode
        requires total { self.total ≤ 16384 }
        requires half { self.half ≤ 255000 }
        requires some { 0 < self.whole }
        requires whole { self.whole ≡ sum_below (λ node. slice_index weights.now node) nodes }
        requires most { self.whole ≤ 255000 }
        ensures { Lists (share self.total self.half (λ node. slice_index weights.now node) nodes) nodes result }
    {
        let mut shares = nothing();
        let mut before = 0;
        for node in 0..usize::from(nodes) {
            let after = before + weights[node];
            shares[node] = self.upto(after) - self.upto(before);
            before = after;
        }
        shares
    }
}
