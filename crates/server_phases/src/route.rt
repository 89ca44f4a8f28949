use key_slots::NodeId;
use std::fmt;

/// Where a slot goes, by a mark.
#[derive(Clone, Copy, Debug, PartialEq, Eq)]
pub struct Route {
    pub source: NodeId,
    pub target: NodeId,
}

/// For example `from n0 to n1`.
impl fmt::Display for Route {
    ghost use Rattle.std.specs.Prelude.{Some};
    ghost use Rattle.server_phases.specs.Faults.{course_text};

    ghost output = { λ x. Some (course_text x.source x.target) };

    fn fmt<W: fmt::Write>(&self, f: &mut fmt::Formatter<W>) -> fmt::Result {
        let Route { source, target } = *self;
        write!(f, "from {source} to {target}")
    }
}
