ghost use Rattle.std.specs.Prelude.{◌≡◌, ◌↔◌, ◌<◌, IfOk, IsTrue, length};
ghost use Rattle.cluster_world.specs.Worlds.{survey_of};

use crate::world::World;
use byte_texts::Memory;
use cluster_admin::{Survey, add_copy};

impl World {
    /// What each node says of the slots' owners, and its marks.
    pub fn survey(&self) -> Result<Survey, Memory>
        ensures { IfOk result (λ v. v ≡ survey_of self.now) }
    {
        let mut tables = Vec::with_capacity(*self.nodes.allocator(), self.nodes.len())?;
        for node in &self.nodes {
            add_copy(&mut tables, node.table())?;
        }
        Ok(Survey::of(tables))
    }

    /// Whether the nodes say and have just what the survey tells. Takes no memory.
    pub fn matches(&self, survey: &Survey) -> bool
        ensures { IsTrue result ↔ (survey_of self.now ≡ survey.now) }
    {
        if self.nodes() != survey.nodes() {
            return false;
        }
        for node in &self.nodes {
            if !survey.has(node.table()) {
                return false;
            }
        }
        true
    }
}
