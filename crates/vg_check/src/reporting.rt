//! The counts of a report of what came of packets.
ghost use Rattle.std.specs.Prelude.{◌≡◌, ◌++◌, ◌<◌, ◌≤◌, length, IfOk, OnOk};
ghost use Rattle.vg_model.specs.Errors.{all_errors};
ghost use Rattle.vg_check.specs.Reports.{counted, made_of, made_by, all_made, AreNames};

use std::alloc::{AllocError, Global};
use vg_counters::Counters;
use vg_graph::Graph;
use vg_model::{DropError, Name};
use vg_report::{ErrorCounts, NameCounts};

/// The interfaces by number, each with the packets that were transmitted on it.
pub(crate) fn interfaces(
    alloc: Global,
    graph: &Graph,
    counts: &Counters,
) -> Result<NameCounts, AllocError>
    requires { length graph.now.interfaces ≤ length counts.now.sends }
    ensures counts { IfOk result (λ entries. entries ≡ counted (λ interface. interface.name) graph.now.interfaces counts.now.sends) }
    ensures names { IfOk result (λ entries. AreNames entries) }
{
    let mut entries = Vec::with_capacity(alloc, usize::from(graph.interfaces()))?;
    for n in 0..graph.interfaces() {
        let name = graph.interface_at(n).name.copied();
        entries.push((name, counts.sends(n)))?;
    }
    Ok(NameCounts::from_vec(entries))
}

/// The nodes by number, each with the visits of it.
pub(crate) fn nodes(
    alloc: Global,
    graph: &Graph,
    counts: &Counters,
) -> Result<NameCounts, AllocError>
    requires { length graph.now.nodes ≤ length counts.now.visits }
    ensures counts { IfOk result (λ entries. entries ≡ counted (λ node. node.name) graph.now.nodes counts.now.visits) }
    ensures names { IfOk result (λ entries. AreNames entries) }
{
    let mut entries = Vec::with_capacity(alloc, usize::from(graph.nodes()))?;
    for n in 0..graph.nodes() {
        entries.push((graph.node_name(n).copied(), counts.visits(n)))?;
    }
    Ok(NameCounts::from_vec(entries))
}

// The errors that a node made, in their order, behind those of the nodes before it.
fn put_errors(
    entries: &mut Vec<(Name, DropError, u64)>,
    name: &Name,
    node: u16,
    counts: &Counters,
) -> Result<(), AllocError>
    requires { node < length counts.now.visits }
    ensures { OnOk result (entries.new.items ≡ entries.old.items ++ made_of name.now (made_by counts.now.drops node) all_errors) }
{
    for error in DropError::ALL.iter() {
        let count = counts.drops(node, *error);
        if count > 0 {
            entries.push((name.copied(), *error, count))?;
        }
    }
    Ok(())
}

/// The errors that nodes made, node by node.
pub(crate) fn errors(
    alloc: Global,
    graph: &Graph,
    counts: &Counters,
) -> Result<ErrorCounts, AllocError>
    requires { length graph.now.nodes ≤ length counts.now.visits }
    ensures { IfOk result (λ entries. entries ≡ all_made graph.now.nodes counts.now.drops) }
{
    let mut entries = Vec::new(alloc);
    for n in 0..graph.nodes() {
        put_errors(&mut entries, graph.node_name(n), n, counts)?;
    }
    Ok(ErrorCounts::from_vec(entries))
}
