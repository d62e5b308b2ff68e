//! The report that packets come to.
ghost use Rattle.std.specs.Prelude.{◌≡◌, ◌<◌, ◌≤◌, length, map, take, IfOk};
ghost use Rattle.std.specs.List.{AllByRecursion};
ghost use Rattle.vg_model.specs.Journey.{end_of};
ghost use Rattle.vg_journeys.specs.Ends.{IsEndIn};
ghost use Rattle.vg_replay.specs.Legs.{outcome_of};
ghost use Rattle.vg_report.specs.Lawful.{IsLawful};
ghost use Rattle.vg_check.specs.Output.{node_name, named_end};
ghost use Rattle.vg_check.specs.Reports.{count_with, line_by, lines_by, trace_of as trace, with_count, CanReport};
ghost use Rattle.vg_differs.specs.Wanted.{wanted, wanted_text};

use std::alloc::{AllocError, Global};
use vg_counters::TraceLists;
use vg_graph::Graph;
use vg_model::start::ERROR_DROP;
use vg_model::{Bytes, DropError, Memory};
use vg_replay::{Outcome, Replayed, Trip, Trips, copied};
use vg_report::{PacketEnd, PacketLine, PacketLines, Report, TraceLines, write_report};
use vg_reporting::{errors, interfaces, nodes, traces};

// An end by the names of a graph.
fn named(graph: &Graph, outcome: Outcome) -> PacketEnd
    requires { IsEndIn graph.now (end_of (outcome_of outcome)) }
    ensures { result ≡ named_end graph.now (end_of (outcome_of outcome)) }
{
    match outcome {
        Outcome::Sent { interface } => PacketEnd::Tx {
            interface: graph.interface_at(interface).name.copied(),
        },
        Outcome::Dropped { node, error } => PacketEnd::Dropped {
            node: graph.node_name(node).copied(),
            error,
        },
        Outcome::Handed { node, .. } => PacketEnd::Dropped {
            node: graph.node_name(node).copied(),
            error: DropError::Congestion,
        },
    }
}

// The count of a line that ends so: its own, and 0 where a drop by congestion has none.
fn count_of(congested: Option<u64>, end: &PacketEnd) -> Option<u64>
    ensures { result ≡ count_with congested end.now }
{
    if congested.is_some() {
        return congested;
    }
    match end {
        PacketEnd::Dropped { error, .. } if *error == DropError::Congestion => Some(0),
        _ => None,
    }
}

// The line of a packet that went so, with the count of the queue that refused it.
fn line_of(graph: &Graph, congested: Option<u64>, trip: &Trip<'_>) -> PacketLine
    requires { IsEndIn graph.now (end_of trip.now.outcome) }
    ensures { result ≡ with_count (line_by graph.now congested trip.now) }
{
    let end = named(graph, trip.outcome());
    PacketLine {
        legs: copied(trip.legs()),
        congested: count_of(congested, &end),
        end,
    }
}

// The lines of packets, with the counts that these lines name.
fn lines_of(
    alloc: Global,
    graph: &Graph,
    lines: &PacketLines,
    trips: &Trips,
) -> Result<PacketLines, AllocError>
    requires many { length lines.now ≡ length trips.now }
    requires ends { AllByRecursion (λ t. IsEndIn graph.now (end_of t.outcome)) trips.now }
    ensures { IfOk result (λ made. made ≡ map with_count (lines_by graph.now lines.now trips.now)) }
{
    let mut made = Vec::with_capacity(alloc, trips.len())?;
    for number in 0..trips.len() {
        let congested = lines.get(number).congested;
        made.push(line_of(graph, congested, &trips.get(number)))?;
    }
    Ok(PacketLines::from_vec(made))
}

// The nodes that a packet visited.
fn trace_of(alloc: Global, trip: &Trip<'_>) -> Result<Vec<u16>, AllocError>
    ensures { IfOk result (λ nodes. nodes.items ≡ trace trip.now) }
{
    let mut nodes = Vec::from_slice(alloc, trip.visits())?;
    match trip.outcome() {
        Outcome::Sent { .. } => {}
        Outcome::Dropped { node, .. } | Outcome::Handed { node, .. } => {
            if node != ERROR_DROP {
                nodes.push(ERROR_DROP)?;
            }
        }
    }
    Ok(nodes)
}

// The nodes that each of so many packets visited, of the first ones.
fn visits_of(alloc: Global, trips: &Trips, count: usize) -> Result<TraceLists, AllocError>
    requires { count ≤ length trips.now }
    ensures { IfOk result (λ lists. lists ≡ map trace (take count trips.now)) }
{
    let mut lists = Vec::with_capacity(alloc, count)?;
    for number in 0..count {
        lists.push(trace_of(alloc, &trips.get(number))?)?;
    }
    Ok(TraceLists::from_vec(lists))
}

// The traces of so many packets, the first ones.
fn traces_of(
    alloc: Global,
    graph: &Graph,
    trips: &Trips,
    count: usize,
) -> Result<TraceLines, AllocError>
    requires few { count ≤ length trips.now }
    requires nodes { AllByRecursion (λ t. AllByRecursion (λ node. node < length graph.now.nodes) (trace t)) (take count trips.now) }
    ensures { IfOk result (λ lines. lines ≡ map (λ t. map (node_name graph.now) (trace t)) (take count trips.now)) }
{
    traces(alloc, graph, &visits_of(alloc, trips, count)?)
}

// The report that packets come to, with the head of this one and as many traces.
fn wanted_report(alloc: Global, report: &Report, replayed: &Replayed) -> Result<Report, AllocError>
    requires { CanReport report.now replayed.now }
    ensures report { IfOk result (λ made. made ≡ wanted report.now replayed.now) }
    ensures lawful { IfOk result IsLawful }
{
    let graph = replayed.last.graph();
    let counts = &replayed.counts;
    let interfaces = interfaces(alloc, graph, counts)?;
    let nodes = nodes(alloc, graph, counts)?;
    let errors = errors(alloc, graph, counts)?;
    let packets = lines_of(alloc, graph, &report.packets, &replayed.trips)?;
    let traced = report.traces.as_slice().len();
    let traces = traces_of(alloc, graph, &replayed.trips, traced)?;
    Ok(Report {
        workers: report.workers,
        buffers: report.buffers,
        generations: report.generations,
        interfaces,
        nodes,
        errors,
        packets,
        traces,
    })
}

/// The text of the report that packets come to under the choices that this report names, with the head of this one and as many traces.
///
/// # Errors
///
/// [`Memory`] where memory runs out.
pub fn wanted_report_text(
    alloc: Global,
    report: &Report,
    replayed: &Replayed,
) -> Result<Bytes, Memory>
    requires { CanReport report.now replayed.now }
    ensures { IfOk result (λ made. made ≡ wanted_text report.now replayed.now) }
{
    let wanted = wanted_report(alloc, report, replayed)?;
    write_report(alloc, &wanted)
}
