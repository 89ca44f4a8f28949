//! What a reader of CLUSTER NODES knows of a node that told it.
ghost use Rattle.told_nodes.specs.Reading.{IdsAreDistinct, LinesAreTheTable, NodesAreRead};
ghost use Rattle.told_nodes.specs.Tables.{ExampleIsTold, TablesStaySo};

/// The text that a node tells on CLUSTER NODES is read as its table: a line for each node, in order, with its ID,
/// address, flags, epoch and link, the ranges of slots that it owns, and in the line of the node itself its marks. So
/// of each slot its owner is read, and its mark; where it has two, the migrating one alone.
pub fn told_nodes_are_read()
    ensures read { NodesAreRead }
    ensures table { LinesAreTheTable }
    ensures ids { IdsAreDistinct }
{}

/// What that asks of a table holds of the one that a node begins with, and each SETSLOT keeps it. It holds of one with
/// marks of both kinds.
pub fn told_tables_stay_so()
    ensures tables { TablesStaySo }
    ensures example { ExampleIsTold }
{}
