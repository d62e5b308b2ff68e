//! The drawing of a graph.
ghost use Rattle.std.specs.Prelude.{◌≡◌, ◌<◌, ◌++◌, OnOk, Some, length};
ghost use Rattle.vg_model.specs.Graph.{kind_at, next_nodes, with_routes};
ghost use Rattle.vg_draw.specs.Prefixes.{seen};
ghost use Rattle.vg_draw.specs.Drawing.{arc_lines, drawn_line, drawn_lines, node_lines, all_arc_lines, all_drop_lines, interface_lines, adjacency_lines, drawing};

use crate::lines::{
    put_adjacency_line, put_arc_line, put_drop_lines, put_head, put_interface_line, put_node_line,
};
use crate::prefixes::Routes;
use crate::ways::Ways;
use crate::words::put;
use std::alloc::AllocError;
use vg_graph::Graph;
use vg_model::{Kind, Name};
use vg_report::Report;

// Appends the line of a node, where the node stands in the drawing.
fn put_drawn_line(
    out: &mut Vec<u8>,
    report: &Option<Report>,
    ways: Ways,
    number: u16,
    name: &Name,
    kind: Kind,
) -> Result<(), AllocError>
    ensures { OnOk result (out.new.items ≡ out.old.items ++ drawn_line ways report.now number name.now kind) }
{
    if ways.shows(number) {
        put_node_line(out, report, number, name, kind)
    } else {
        Ok(())
    }
}

// Appends the lines of the nodes that stand in the drawing.
fn put_drawn_lines(
    out: &mut Vec<u8>,
    report: &Option<Report>,
    graph: &Graph,
    ways: Ways,
) -> Result<(), AllocError>
    ensures { OnOk result (out.new.items ≡ out.old.items ++ drawn_lines ways report.now graph.now.nodes) }
{
    for number in 0..graph.nodes() {
        let kind = graph.kind(number);
        put_drawn_line(out, report, ways, number, graph.node_name(number), kind)?;
    }
    Ok(())
}

fn put_nodes(out: &mut Vec<u8>, report: &Option<Report>, graph: &Graph) -> Result<(), AllocError>
    ensures { OnOk result (out.new.items ≡ out.old.items ++ node_lines report.now graph.now.nodes) }
{
    put_drawn_lines(out, report, graph, Ways::of(report, graph))
}

// Appends the lines of the arcs of a node of this name and this kind.
fn put_arcs_of(
    out: &mut Vec<u8>,
    report: &Option<Report>,
    graph: &Graph,
    number: u16,
    name: &Name,
    kind: Kind,
) -> Result<(), AllocError>
    requires node { number < length graph.now.nodes }
    requires kind { kind_at graph.now number ≡ Some kind }
    ensures { OnOk result (out.new.items ≡ out.old.items ++ arc_lines report.now number name.now kind (next_nodes graph.now number)) }
{
    // A reader tells what the graph keeps: each slot has an arc.
    let _nodes = graph.nodes();
    for slot in 0..kind.slots() {
        let target = graph.arc(number, slot);
        put_arc_line(out, report, number, name, kind, slot, target)?;
    }
    Ok(())
}

fn put_arcs(out: &mut Vec<u8>, report: &Option<Report>, graph: &Graph) -> Result<(), AllocError>
    ensures { OnOk result (out.new.items ≡ out.old.items ++ all_arc_lines report.now graph.now.nodes) }
{
    for number in 0..graph.nodes() {
        let kind = graph.kind(number);
        put_arcs_of(out, report, graph, number, graph.node_name(number), kind)?;
    }
    Ok(())
}

fn put_drops(out: &mut Vec<u8>, report: &Option<Report>, graph: &Graph) -> Result<(), AllocError>
    ensures { OnOk result (out.new.items ≡ out.old.items ++ all_drop_lines report.now graph.now.nodes) }
{
    for number in 0..graph.nodes() {
        put_drop_lines(out, report, number, graph.node_name(number))?;
    }
    Ok(())
}

fn put_interfaces(
    out: &mut Vec<u8>,
    report: &Option<Report>,
    graph: &Graph,
) -> Result<(), AllocError>
    ensures { OnOk result (out.new.items ≡ out.old.items ++ interface_lines report.now graph.now.interfaces) }
{
    for number in 0..graph.interfaces() {
        put_interface_line(out, report, number, graph.interface_at(number))?;
    }
    Ok(())
}

fn put_adjacencies(
    out: &mut Vec<u8>,
    graph: &Graph,
    before: Routes<'_>,
    routes: Routes<'_>,
) -> Result<(), AllocError>
    ensures { OnOk result (out.new.items ≡ out.old.items ++ adjacency_lines (seen before.entry) (seen routes.entry) graph.now.adjacencies) }
{
    for number in 0..graph.adjacencies() {
        put_adjacency_line(out, before, routes, number, graph.adjacency_at(number))?;
    }
    Ok(())
}

/// Appends the drawing of a generation's graph and its routes, in the DOT language, under a label with the generation's number and the
/// time from which on it was the graph, in microseconds from the first packet: a line for each node with its name, and its kind where
/// that is another word, for each arc with the name of its slot, and for each interface and each neighbor. The node that takes packets
/// from the queues stands in it where a node hands packets over, and the node that drops where an arc or a drop of the report leads to
/// it. A neighbor has the prefixes that are routed over it, those of IPv4 first: eight, and how many more there are. In bold are those
/// that no route led over it with in the generation before, whose routes are given too; for the first generation give its own. An
/// interface that is down is red.
///
/// With a report of a run the label has how many packets began in the generation, and the lines of the nodes have the visits; a node
/// that was never visited is grey. Each error that a node dropped with is a red line to the node that drops, with its count, and the
/// line to each interface has what was transmitted on it. An arc has what it carried where the report tells: it counts by node, and so
/// not what each of two arcs carried. By one rule each line is grey where it carried nothing, and else as wide as its share of the
/// run's packets.
///
/// The report counts over all generations, and its counts are found by name. The only error is want of memory.
pub fn draw(
    out: &mut Vec<u8>,
    report: &Option<Report>,
    generation: u32,
    from: u64,
    before: Routes<'_>,
    graph: &Graph,
    routes: Routes<'_>,
) -> Result<(), AllocError>
    ensures { OnOk result (out.new.items ≡ out.old.items
        ++ drawing report.now generation from (seen before.entry) (with_routes graph.now routes.entry.ip4.now routes.entry.ip6.now)) }
{
    put_head(out, report, generation, from)?;
    put_nodes(out, report, graph)?;
    put_arcs(out, report, graph)?;
    put_drops(out, report, graph)?;
    put_interfaces(out, report, graph)?;
    put_adjacencies(out, graph, before, routes)?;
    put(out, b"}\n")
}
