//! The parts of a report.
ghost use Rattle.std.specs.Prelude.{◌≡◌, ◌++◌, ◌<◌, ◌≤◌, length, map, IfOk, OnOk};
ghost use Rattle.std.specs.List.{AllByRecursion};
ghost use Rattle.vg_model.specs.Errors.{all_errors};
ghost use Rattle.vg_model.specs.Name.{IsName};
ghost use Rattle.vg_journeys.specs.Ends.{IsEndIn};
ghost use Rattle.vg_check.specs.Output.{node_name};
ghost use Rattle.vg_reporting.specs.Reports.{counted, made_of, made_by, all_made, line_of_fate};

use std::alloc::{AllocError, Global};
use vg_counters::{Counters, TraceLists};
use vg_fates::FateList;
use vg_graph::Graph;
use vg_model::{DropError, Name};
use vg_report::{ErrorCounts, NameCounts, Names, PacketLines, TraceLines};

/// The interfaces by number, each with the packets that were transmitted on it.
pub fn interfaces(alloc: Global, graph: &Graph, counts: &Counters) -> Result<NameCounts, AllocError>
    requires { length graph.now.interfaces ≤ length counts.now.sends }
    ensures counts { IfOk result (λ entries. entries ≡ counted (λ interface. interface.name) graph.now.interfaces counts.now.sends) }
    ensures names { IfOk result (λ entries. AllByRecursion (λ entry. IsName entry.0) entries) }
{
    let mut entries = Vec::with_capacity(alloc, usize::from(graph.interfaces()))?;
    for n in 0..graph.interfaces() {
        let name = graph.interface_at(n).name.copied();
        entries.push((name, counts.sends(n)))?;
    }
    Ok(NameCounts::from_vec(entries))
}

/// The nodes by number, each with the visits of it.
pub fn nodes(alloc: Global, graph: &Graph, counts: &Counters) -> Result<NameCounts, AllocError>
    requires { length graph.now.nodes ≤ length counts.now.visits }
    ensures counts { IfOk result (λ entries. entries ≡ counted (λ node. node.name) graph.now.nodes counts.now.visits) }
    ensures names { IfOk result (λ entries. AllByRecursion (λ entry. IsName entry.0) entries) }
{
    let mut entries = Vec::with_capacity(alloc, usize::from(graph.nodes()))?;
    for n in 0..graph.nodes() {
        entries.push((graph.node_name(n).copied(), counts.visits(n)))?;
    }
    Ok(NameCounts::from_vec(entries))
}

/// The errors that a node made, in their order, behind those of the nodes before it.
fn put_errors(
    entries: &mut Vec<(Name, DropError, u64)>,
    name: &Name,
    node: u16,
    counts: &Counters,
) -> Result<(), AllocError>
    requires { node < length counts.now.visits }
    ensures { OnOk result (entries.new.items ≡ entries.old.items ++ made_of name.now (made_by counts.now.drops node) all_errors) }
{
    for error in DropError::ALL.iter() {
        let count = counts.drops(node, *error);
        if count > 0 {
            entries.push((name.copied(), *error, count))?;
        }
    }
    Ok(())
}

/// The errors that nodes made, node by node.
pub fn errors(alloc: Global, graph: &Graph, counts: &Counters) -> Result<ErrorCounts, AllocError>
    requires { length graph.now.nodes ≤ length counts.now.visits }
    ensures { IfOk result (λ entries. entries ≡ all_made graph.now.nodes counts.now.drops) }
{
    let mut entries = Vec::new(alloc);
    for n in 0..graph.nodes() {
        put_errors(&mut entries, graph.node_name(n), n, counts)?;
    }
    Ok(ErrorCounts::from_vec(entries))
}

/// The names of the interfaces, by number.
fn interface_names(alloc: Global, graph: &Graph) -> Result<Vec<Name>, AllocError>
    ensures { IfOk result (λ names. names.items ≡ map (λ interface. interface.name) graph.now.interfaces) }
{
    let mut names = Vec::with_capacity(alloc, usize::from(graph.interfaces()))?;
    for n in 0..graph.interfaces() {
        names.push(graph.interface_at(n).name.copied())?;
    }
    Ok(names)
}

/// The names of the nodes, by number.
fn node_names(alloc: Global, graph: &Graph) -> Result<Vec<Name>, AllocError>
    ensures { IfOk result (λ names. names.items ≡ map (λ node. node.name) graph.now.nodes) }
{
    let mut names = Vec::with_capacity(alloc, usize::from(graph.nodes()))?;
    for n in 0..graph.nodes() {
        names.push(graph.node_name(n).copied())?;
    }
    Ok(names)
}

/// The lines of packets: their fates, and the names of where they end.
pub fn lines(alloc: Global, graph: &Graph, fates: FateList) -> Result<PacketLines, AllocError>
    requires { AllByRecursion (λ fate. IsEndIn graph.now fate.end) fates }
    ensures { IfOk result (λ lines. lines ≡ map (line_of_fate graph.now) fates) }
{
    let interfaces = interface_names(alloc, graph)?;
    let nodes = node_names(alloc, graph)?;
    Ok(PacketLines::of_fates(alloc, fates, interfaces, nodes))
}

/// The names of nodes.
fn names(alloc: Global, graph: &Graph, nodes: &[u16]) -> Result<Names, AllocError>
    requires { AllByRecursion (λ node. node < length graph.now.nodes) nodes.now }
    ensures { IfOk result (λ names. names ≡ map (node_name graph.now) nodes.now) }
{
    let mut names = Vec::with_capacity(alloc, nodes.len())?;
    for node in nodes {
        names.push(graph.node_name(*node).copied())?;
    }
    Ok(Names::from_vec(names))
}

/// The lines of traces.
pub fn traces(alloc: Global, graph: &Graph, lists: &TraceLists) -> Result<TraceLines, AllocError>
    requires { AllByRecursion (AllByRecursion (λ node. node < length graph.now.nodes)) lists.now }
    ensures { IfOk result (λ traces. traces ≡ map (map (node_name graph.now)) lists.now) }
{
    let lists = lists.as_slice();
    let mut traces = Vec::with_capacity(alloc, lists.len())?;
    for nodes in lists {
        traces.push(names(alloc, graph, nodes.as_slice())?)?;
    }
    Ok(TraceLines::from_vec(traces))
}
