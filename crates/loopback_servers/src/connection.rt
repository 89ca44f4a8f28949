use key_slots::NodeId;

/// A client's connection to a node: where its requests come from, and where their replies go.
#[derive(Drop)]
pub struct Connection<I: Drop, O: Drop> {
    pub node: NodeId,
    pub reader: I,
    pub writer: O,
}
