//! Masters that failed for good, of which no survey is.
ghost use Rattle.std.specs.Prelude.{◌≡◌, ◌&&◌, ◌==◌, length};
ghost use Rattle.cluster_views.specs.Gone.{is_gone, is_present};

use listed_nodes::NodeLine;

/// Whether the line is that of a master which failed, by the view of most, and has no slot.
pub fn is_gone(line: &NodeLine) -> bool
    ensures { result ≡ is_gone line.now }
{
    line.is_master && is_dead(line)
}

/// Whether the line is that of a master which is not gone.
pub fn is_present(line: &NodeLine) -> bool
    ensures { result ≡ is_present line.now }
{
    line.is_master && !is_dead(line)
}

/// Whether the node failed, by the view of most, and has no slot.
fn is_dead(line: &NodeLine) -> bool
    ensures { result ≡ (line.now.has_failed && length line.now.slots == 0) }
{
    line.has_failed && line.slots.get().is_empty()
}
