//! What comes to the two nodes that stand in a drawing only where something comes to them.
ghost use Rattle.std.specs.Prelude.{◌≡◌, ◌<◌, ℕ, List, Some, bytes_eq, length, option_map, slice_get};
ghost use Rattle.std.specs.List.{list_any};
ghost use Rattle.vg_model.specs.declared.kinds.DropError.{DropError};
ghost use Rattle.vg_model.specs.Graph.{kind_at, next_nodes};
ghost use Rattle.vg_draw.specs.Drawing.{hands_over as hands_over_of, any_hands_over as any_hands_over_of, leads_to_drop as leads_to_drop_of, has_drop as has_drop_of, drops as drops_of, any_drops as any_drops_of, ways_of, is_drawn};

use vg_graph::Graph;
use vg_model::start::{ERROR_DROP, HANDOFF_DEQUEUE};
use vg_model::{DropError, Kind, Name};
use vg_report::Report;

/// What comes to the node that takes packets from the queues, and to the node that drops.
#[derive(Clone, Copy)]
pub struct Ways {
    /// Packets are handed over to other workers.
    pub handed: bool,
    /// Packets are dropped.
    pub dropped: bool,
}

impl Ways {
    /// What comes to these two nodes of a graph, and by a report of a run.
    pub fn of(report: &Option<Report>, graph: &Graph) -> Self
        ensures { result ≡ ways_of report.now graph.now.nodes }
    {
        Ways {
            handed: any_hands_over(graph),
            dropped: any_drops(report, graph),
        }
    }

    /// Whether the node of this number stands in a drawing.
    pub fn shows(self, number: u16) -> bool
        ensures { result ≡ is_drawn self number }
    {
        match number {
            HANDOFF_DEQUEUE => self.handed,
            ERROR_DROP => self.dropped,
            _ => true,
        }
    }
}

// Whether a node of this kind hands packets over.
fn hands_over(kind: Kind) -> bool
    ensures { result ≡ hands_over_of kind }
{
    matches!(kind, Kind::WorkerHandoff(_))
}

// Whether a node hands packets over.
fn any_hands_over(graph: &Graph) -> bool
    ensures { result ≡ any_hands_over_of graph.now.nodes }
{
    for number in 0..graph.nodes() {
        if hands_over(graph.kind(number)) {
            return true;
        }
    }
    false
}

// Whether an arc of a node of this kind leads to the node that drops.
fn leads_to_drop(graph: &Graph, number: u16, kind: Kind) -> bool
    requires node { number < length graph.now.nodes }
    requires kind { kind_at graph.now number ≡ Some kind }
    ensures { result ≡ leads_to_drop_of (next_nodes graph.now number) }
{
    // A reader tells what the graph keeps: each slot has an arc.
    let _nodes = graph.nodes();
    for slot in 0..kind.slots() {
        if graph.arc(number, slot) == ERROR_DROP {
            return true;
        }
    }
    false
}

// Whether one of these drops is of the node of this name.
fn has_entry(errors: &[(Name, DropError, u64)], name: &Name) -> bool
    ensures { result ≡ list_any (λ (e : List ℕ × DropError × ℕ). bytes_eq e.0 name.now) errors.now }
{
    errors.iter().any(|entry| entry.0 == *name)
}

// Whether a report has a drop of the node of this name.
fn has_drop(report: &Option<Report>, name: &Name) -> bool
    ensures { result ≡ has_drop_of report.now name.now }
{
    match report {
        None => false,
        Some(report) => has_entry(report.errors.as_slice(), name),
    }
}

// Whether a node drops packets: an arc of it leads to the node that drops, or the report has a drop of it.
fn drops(report: &Option<Report>, graph: &Graph, number: u16) -> bool
    requires { number < length graph.now.nodes }
    ensures { option_map (drops_of report.now) (slice_get graph.now.nodes number) ≡ Some result }
{
    leads_to_drop(graph, number, graph.kind(number)) || has_drop(report, graph.node_name(number))
}

// Whether a node drops packets.
fn any_drops(report: &Option<Report>, graph: &Graph) -> bool
    ensures { result ≡ any_drops_of report.now graph.now.nodes }
{
    for number in 0..graph.nodes() {
        if drops(report, graph, number) {
            return true;
        }
    }
    false
}
