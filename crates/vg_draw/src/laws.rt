//! Laws of drawings: each is a function whose contract is the law.
ghost use Rattle.vg_draw.specs.Once.{NodesStandOnce, ArcsStandOnce};
ghost use Rattle.vg_draw.specs.Ends.{LinesEndAtNodes};

/// A drawing has one line for each node that stands in it, in the order of their numbers, and no other line of a node.
pub fn nodes_stand_once()
    ensures { NodesStandOnce }
{}

/// A drawing has one line for each arc, by node and slot, and no other line of an arc.
pub fn arcs_stand_once()
    ensures { ArcsStandOnce }
{}

/// In the drawing of a valid graph no line ends at a node that is left out: not an arc, not the way of packets that are handed over, and
/// not a drop of a report.
pub fn lines_end_at_nodes()
    ensures { LinesEndAtNodes }
{}
