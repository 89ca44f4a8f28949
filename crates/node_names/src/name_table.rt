ghost use Rattle.std.specs.Prelude.{◌≡◌, ◌≤◌, ◌∷◌, [], ◌++◌, length};
ghost use Rattle.node_names.specs.Names.{AreNames, IsNext};

use crate::node_name::NodeName;
use key_slots::NodeId;
use std::marker::Model;

/// The nodes that a plan's text lists with their names, without memory of the allocator: what is at fault in a text is
/// found where there is none, too.
#[derive(Drop)]
pub struct NameTable {
    names: [(NodeId, NodeName); 255],
    len: usize,
}

impl Model for NameTable {
    ghost use Rattle.std.specs.Prelude.{◌≡◌, ◌≤◌, length, take};
    ghost use Rattle.node_names.specs.Names.{AreNames, Names};

    ghost Value = { Names };

    ghost view = { λ t. take t.len t.names };

    ghost invariant = { λ t. (length t.names ≡ 255) × (t.len ≤ 255) × AreNames (take t.len t.names) };
}

impl NameTable {
    /// No nodes.
    pub fn new() -> Self
        ensures { result ≡ [] }
    {
        Self {
            names: [(NodeId::of(0), NodeName::zeros()); 255],
            len: 0,
        }
    }

    /// The nodes and their names.
    pub fn get(&self) -> &[(NodeId, NodeName)]
        ensures value { result.now ≡ self.now }
        ensures are { AreNames result.now }
        ensures few { length result.now ≤ 255 }
    {
        &self.names[..self.len]
    }

    /// Puts the node after those that are there.
    pub fn push(&mut self, node: NodeId, name: NodeName)
        requires { IsNext self.old (node, name) }
        ensures value { self.new ≡ self.old ++ (node, name) ∷ [] }
        ensures few { length self.new ≤ 255 }
    {
        self.names[self.len] = (node, name);
        self.len += 1;
    }
}
