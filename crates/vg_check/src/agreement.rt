//! Whether a report is that of what came of packets.
ghost use Rattle.std.specs.Prelude.{◌≡◌, ◌↔◌, ◌<◌, ◌≤◌, true, length, map, take, IsTrue, IfOk};
ghost use Rattle.std.specs.List.{AllByRecursion};
ghost use Rattle.vg_model.specs.Journey.{end_of};
ghost use Rattle.vg_journeys.specs.Ends.{IsEndIn};
ghost use Rattle.vg_replay.specs.Legs.{outcome_of};
ghost use Rattle.vg_report.specs.Lawful.{IsLawful};
ghost use Rattle.vg_report.specs.Seen.{line_seen, end_seen};
ghost use Rattle.vg_check.specs.Output.{interface_name, node_name, named_end};
ghost use Rattle.vg_check.specs.Reports.{line_by, lines_by, trace_of as trace, reported, with_counts, CanReport};

use crate::reporting::{errors, interfaces, nodes};
use std::alloc::{AllocError, Global};
use vg_graph::Graph;
use vg_model::start::ERROR_DROP;
use vg_model::{DropError, Leg, Memory, Name};
use vg_replay::{Outcome, Replayed, Trip, Trips};
use vg_report::{EndRef, LineRef, Names, PacketLines, Report};

// Whether two counts by name are the same.
fn is_count(one: &(Name, u64), other: &(Name, u64)) -> bool
    ensures { IsTrue result ↔ (one.now ≡ other.now) }
{
    one.0 == other.0 && one.1 == other.1
}

// Whether counts by name are the same.
fn are_counts(ones: &[(Name, u64)], others: &[(Name, u64)]) -> bool
    ensures { IsTrue result ↔ (ones.now ≡ others.now) }
{
    if ones.len() != others.len() {
        return false;
    }
    for k in 0..ones.len() {
        if !is_count(&ones[k], &others[k]) {
            return false;
        }
    }
    true
}

// Whether two errors of nodes are the same.
fn is_error(one: &(Name, DropError, u64), other: &(Name, DropError, u64)) -> bool
    ensures { IsTrue result ↔ (one.now ≡ other.now) }
{
    one.0 == other.0 && one.1 == other.1 && one.2 == other.2
}

// Whether errors of nodes are the same.
fn are_errors(ones: &[(Name, DropError, u64)], others: &[(Name, DropError, u64)]) -> bool
    ensures { IsTrue result ↔ (ones.now ≡ others.now) }
{
    if ones.len() != others.len() {
        return false;
    }
    for k in 0..ones.len() {
        if !is_error(&ones[k], &others[k]) {
            return false;
        }
    }
    true
}

// Whether two legs are the same.
fn is_leg(one: &Leg, other: &Leg) -> bool
    ensures { IsTrue result ↔ (one.now ≡ other.now) }
{
    one.worker == other.worker && one.generation == other.generation
}

// Whether legs are the same.
fn are_legs(ones: &[Leg], others: &[Leg]) -> bool
    ensures { IsTrue result ↔ (ones.now ≡ others.now) }
{
    if ones.len() != others.len() {
        return false;
    }
    for k in 0..ones.len() {
        if !is_leg(&ones[k], &others[k]) {
            return false;
        }
    }
    true
}

// Whether a node has this name.
fn is_node(graph: &Graph, node: u16, name: &Name) -> bool
    ensures { IsTrue result ↔ (name.now ≡ node_name graph.now node) }
{
    let _bytes = name.bytes();
    node < graph.nodes() && *name == *graph.node_name(node)
}

// Whether an interface has this name.
fn is_interface(graph: &Graph, interface: u16, name: &Name) -> bool
    ensures { IsTrue result ↔ (name.now ≡ interface_name graph.now interface) }
{
    let _bytes = name.bytes();
    interface < graph.interfaces() && *name == graph.interface_at(interface).name
}

// Whether an end by names is this one.
fn is_end(graph: &Graph, end: EndRef<'_>, outcome: Outcome) -> bool
    ensures { IsTrue result ↔ (end_seen end.entry ≡ named_end graph.now (end_of (outcome_of outcome))) }
{
    match (end, outcome) {
        (EndRef::Tx { interface: name }, Outcome::Sent { interface }) => {
            is_interface(graph, interface, name)
        }
        (EndRef::Dropped { node: name, error }, Outcome::Dropped { node, error: made }) => {
            error == made && is_node(graph, node, name)
        }
        (EndRef::Dropped { node: name, error }, Outcome::Handed { node, .. }) => {
            error == DropError::Congestion && is_node(graph, node, name)
        }
        _ => false,
    }
}

// Whether a packet's line is that of how it went, but for the count that the line names.
fn is_line(graph: &Graph, line: LineRef<'_>, trip: &Trip<'_>) -> bool
    ensures { IsTrue result ↔ (line_seen line.entry ≡ line_by graph.now line.entry.congested trip.now) }
{
    are_legs(line.legs.as_slice(), trip.legs()) && is_end(graph, line.end, trip.outcome())
}

// Whether packets' lines are those of how they went, but for the counts that the lines name.
fn are_lines(graph: &Graph, lines: &PacketLines, trips: &Trips) -> bool
    requires { length lines.now ≡ length trips.now }
    ensures { IsTrue result ↔ (lines.now ≡ lines_by graph.now lines.now trips.now) }
{
    for k in 0..trips.len() {
        let line = lines.get(k);
        let trip = trips.get(k);
        if !is_line(graph, line, &trip) {
            return false;
        }
    }
    true
}

// The nodes that a packet visited.
fn trace_of(alloc: Global, trip: &Trip<'_>) -> Result<Vec<u16>, AllocError>
    ensures { IfOk result (λ nodes. nodes.items ≡ trace trip.now) }
{
    let mut nodes = Vec::from_slice(alloc, trip.visits())?;
    match trip.outcome() {
        Outcome::Sent { .. } => {}
        Outcome::Dropped { node, .. } | Outcome::Handed { node, .. } => {
            if node != ERROR_DROP {
                nodes.push(ERROR_DROP)?;
            }
        }
    }
    Ok(nodes)
}

// Whether names are those of nodes.
fn are_nodes(graph: &Graph, names: &[Name], nodes: &[u16]) -> bool
    ensures { IsTrue result ↔ (names.now ≡ map (node_name graph.now) nodes.now) }
{
    if names.len() != nodes.len() {
        return false;
    }
    for k in 0..names.len() {
        if !is_node(graph, nodes[k], &names[k]) {
            return false;
        }
    }
    true
}

// Whether a trace is that of how a packet went.
fn is_trace(
    alloc: Global,
    graph: &Graph,
    names: &Names,
    trip: &Trip<'_>,
) -> Result<bool, AllocError>
    ensures { IfOk result (λ same. IsTrue same ↔ (names.now ≡ map (node_name graph.now) (trace trip.now))) }
{
    let nodes = trace_of(alloc, trip)?;
    Ok(are_nodes(graph, names.as_slice(), nodes.as_slice()))
}

// Whether traces are those of how the first packets went.
fn are_traces(
    alloc: Global,
    graph: &Graph,
    traces: &[Names],
    trips: &Trips,
) -> Result<bool, AllocError>
    requires { length traces.now ≤ length trips.now }
    ensures { IfOk result (λ same. IsTrue same ↔ (traces.now ≡ map (λ t. map (node_name graph.now) (trace t)) (take (length traces.now) trips.now))) }
{
    for k in 0..traces.len() {
        let trip = trips.get(k);
        let same = is_trace(alloc, graph, &traces[k], &trip)?;
        if !same {
            return Ok(false);
        }
    }
    Ok(true)
}

// Whether all five hold.
fn all_five(a: bool, b: bool, c: bool, d: bool, e: bool) -> bool
    ensures { IsTrue result ↔ ((a ≡ true) × (b ≡ true) × (c ≡ true) × (d ≡ true) × (e ≡ true)) }
{
    a && b && c && d && e
}

/// Whether a report is that of what came of packets, with its own head and as many traces as it has.
pub(crate) fn is_reported(
    alloc: Global,
    report: &Report,
    replayed: &Replayed,
) -> Result<bool, Memory>
    requires { CanReport report.now replayed.now }
    ensures same { IfOk result (λ same. IsTrue same ↔ (report.now ≡ reported report.now replayed.now)) }
    ensures lawful { IfOk result (λ same. IsLawful (with_counts (reported report.now replayed.now))) }
{
    let graph = replayed.last.graph();
    let counts = &replayed.counts;
    let trips = &replayed.trips;
    let interfaces = interfaces(alloc, graph, counts)?;
    let nodes = nodes(alloc, graph, counts)?;
    let errors = errors(alloc, graph, counts)?;
    let traces = are_traces(alloc, graph, report.traces.as_slice(), trips)?;
    let interfaces = are_counts(report.interfaces.as_slice(), interfaces.as_slice());
    let nodes = are_counts(report.nodes.as_slice(), nodes.as_slice());
    let errors = are_errors(report.errors.as_slice(), errors.as_slice());
    let lines = are_lines(graph, &report.packets, trips);
    Ok(all_five(interfaces, nodes, errors, lines, traces))
}
