ghost use Rattle.std.specs.Prelude.{◌∷◌, [], IfOk, map};
ghost use Rattle.script_lines.specs.Faults.{Gives};
ghost use Rattle.script_lines.specs.Forms.{cluster_form, opening, sizes};
ghost use Rattle.script_lines.specs.Lines.{AreSizes};

use crate::fault::{Halt, ScriptFault};
use crate::named::count_of_nodes;
use crate::sizes::ClusterSizes;
use crate::words::{is_verb, split_words};
use std::alloc::Global;

/// What the first line of a script says, `cluster N` or `cluster N even M`. A line of any other form is `NoCluster`. In
/// the place of a number, a word with a bad escape is `Word`, and one that is no number, or out of its range, is
/// `Number`.
pub fn sizes_of(alloc: Global, line: &[u8]) -> Result<ClusterSizes, Halt>
    ensures value { Gives (opening line.now) result }
    ensures within { IfOk result AreSizes }
{
    match split_words(alloc, line) {
        Ok(words) => sizes_in(alloc, words.as_slice()),
        Err(Halt::Fault(_)) => Err(Halt::Fault(ScriptFault::NoCluster)),
        Err(halt) => Err(halt),
    }
}

#[tactic(auto, using(crate::proofs::Shapes::opening_forms))]
fn sizes_in(alloc: Global, words: &[&[u8]]) -> Result<ClusterSizes, Halt>
    ensures value { Gives (cluster_form (map (λ w. w.now) words.now)) result }
    ensures within { IfOk result AreSizes }
{
    match words {
        [cluster, nodes] => all_owning(alloc, cluster, nodes),
        [cluster, nodes, even, owning] => some_owning(alloc, cluster, nodes, even, owning),
        _ => Err(Halt::Fault(ScriptFault::NoCluster)),
    }
}

/// `cluster N`: all nodes own slots.
fn all_owning(alloc: Global, cluster: &[u8], nodes: &[u8]) -> Result<ClusterSizes, Halt>
    ensures value { Gives (cluster_form (cluster.now ∷ nodes.now ∷ [])) result }
    ensures within { IfOk result AreSizes }
{
    if is_verb(alloc, cluster, b"cluster")? {
        sizes(alloc, nodes, nodes)
    } else {
        Err(Halt::Fault(ScriptFault::NoCluster))
    }
}

/// `cluster N even M`: the first M nodes do.
fn some_owning(
    alloc: Global,
    cluster: &[u8],
    nodes: &[u8],
    even: &[u8],
    owning: &[u8],
) -> Result<ClusterSizes, Halt>
    ensures value { Gives (cluster_form (cluster.now ∷ nodes.now ∷ even.now ∷ owning.now ∷ [])) result }
    ensures within { IfOk result AreSizes }
{
    if is_verb(alloc, cluster, b"cluster")? && is_verb(alloc, even, b"even")? {
        sizes(alloc, nodes, owning)
    } else {
        Err(Halt::Fault(ScriptFault::NoCluster))
    }
}

fn sizes(alloc: Global, nodes: &[u8], owning: &[u8]) -> Result<ClusterSizes, Halt>
    ensures value { Gives (sizes nodes.now owning.now) result }
    ensures within { IfOk result AreSizes }
{
    let nodes = count_of_nodes(alloc, nodes, 8)?;
    let owning = count_of_nodes(alloc, owning, nodes)?;
    Ok(ClusterSizes { nodes, owning })
}
