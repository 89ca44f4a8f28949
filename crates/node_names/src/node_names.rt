ghost use Rattle.std.specs.Prelude.{◌≡◌, ◌↔◌, ◌∷◌, [], ◌++◌, true, IfOk, IsTrue, OnErr, OnOk};
ghost use Rattle.node_names.specs.Names.{are_below, has_name, has_node, AreNames, IsNext};

use crate::node_name::NodeName;
use byte_texts::{Memory, is};
use key_slots::NodeId;
use std::alloc::Global;
use std::marker::Model;

/// Nodes in ascending order, with the names that their servers give themselves, of which no two are the same.
pub struct NodeNames {
    names: Vec<(NodeId, NodeName)>,
}

/// Written out, so that a proof sees one call where such a value is dropped.
impl Drop for NodeNames {
    fn drop(self) {
        let Self { names } = self;
        drop(names);
    }
}

impl Model for NodeNames {
    ghost use Rattle.node_names.specs.Names.{AreNames, Names};

    ghost Value = { Names };

    ghost view = { λ n. n.names.items };

    ghost invariant = { λ n. AreNames n.names.items };
}

impl NodeNames {
    /// No nodes, which takes no memory.
    pub fn new(alloc: Global) -> Self
        ensures { result ≡ [] }
    {
        Self {
            names: Vec::new(alloc),
        }
    }

    /// A list of these.
    pub fn copy_of(alloc: Global, names: &[(NodeId, NodeName)]) -> Result<Self, Memory>
        requires { AreNames names.now }
        ensures { IfOk result (λ n. n ≡ names.now) }
    {
        let names = Vec::from_slice(alloc, names)?;
        Ok(Self { names })
    }

    /// Whether the node may be put at the end with this name: it is above those that are there, none of which has it.
    pub fn is_next(&self, node: NodeId, name: &NodeName) -> bool
        ensures { IsTrue result ↔ IsNext self.now (node, name.now) }
    {
        let names = self.get();
        are_below(names, node) && !has_name(names, name.get())
    }

    /// Whether the node is one of these.
    pub fn has_node(&self, node: NodeId) -> bool
        ensures { result ≡ has_node self.now node }
    {
        has_node(self.get(), node)
    }

    /// Puts the node at the end, or leaves the list as it is where memory runs out. The node is above those that are
    /// there, and none of them has the name.
    #[tactic(auto, using(crate::proofs::Names::names_pushed))]
    pub fn push(&mut self, node: NodeId, name: NodeName) -> Result<(), Memory>
        requires { IsNext self.old (node, name) }
        ensures ok { OnOk result (self.new ≡ self.old ++ (node, name) ∷ []) }
        ensures err { OnErr result (self.new ≡ self.old) }
    {
        self.names.extend_from_slice(&[(node, name)])?;
        Ok(())
    }

    /// The nodes and their names.
    pub fn get(&self) -> &[(NodeId, NodeName)]
        ensures value { result.now ≡ self.now }
        ensures are { AreNames result.now }
    {
        self.names.as_slice()
    }

    /// Where the list's memory comes from.
    pub fn allocator(&self) -> Global {
        *self.names.allocator()
    }

    /// An equal list of its own.
    pub fn try_copy(&self) -> Result<Self, Memory>
        ensures { IfOk result (λ n. n ≡ self.now) }
    {
        Self::copy_of(*self.names.allocator(), self.names.as_slice())
    }
}

/// Whether one of these is the node.
pub fn has_node(names: &[(NodeId, NodeName)], node: NodeId) -> bool
    ensures { result ≡ has_node names.now node }
{
    is_at_its_place(names, node) || names.iter().any(|(other, _)| other.get() == node.get())
}

/// Whether the node stands at the place of its number, as each does where all below the last are listed.
#[tactic(auto, using(crate::proofs::Names::has_node_at))]
fn is_at_its_place(names: &[(NodeId, NodeName)], node: NodeId) -> bool
    ensures { IsTrue result → has_node names.now node ≡ true }
{
    let place = usize::from(node.get());
    place < names.len() && names[place].0.get() == node.get()
}

/// Whether one of these has the name.
pub fn has_name(names: &[(NodeId, NodeName)], name: &[u8]) -> bool
    ensures { result ≡ has_name names.now name.now }
{
    names.iter().any(|(_, other)| is(other.get(), name))
}

/// Whether all of these are below the node.
pub fn are_below(names: &[(NodeId, NodeName)], node: NodeId) -> bool
    ensures { result ≡ are_below names.now node }
{
    names.iter().all(|(other, _)| other.get() < node.get())
}
