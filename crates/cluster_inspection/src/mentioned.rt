//! The nodes that lines mention.
ghost use Rattle.cluster_inspection.specs.Mentioned.{AreMarks};

use plan_language::Line;

/// Which nodes the lines mention, each at its number. Looks at each line once.
pub(crate) fn marks_of(lines: &[Line]) -> [bool; 255]
    ensures { AreMarks lines.now result }
{
    let mut marks = [false; 255];
    for line in lines {
        let (node, other) = line.nodes();
        marks[usize::from(node.get())] = true;
        marks[usize::from(other.get())] = true;
    }
    marks
}
