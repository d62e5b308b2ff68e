//! The lines of a drawing. Each function appends to one growing buffer; where memory runs out it stops.
ghost use Rattle.std.specs.Prelude.{◌≡◌, ◌<◌, ◌++◌, OnOk, codes, flat_map, length};
ghost use Rattle.vg_model.specs.Graph.{slots};
ghost use Rattle.vg_draw.specs.Prefixes.{seen};
ghost use Rattle.vg_draw.specs.Drawing.{id, dashed, leaving, kind_text, down_text, node_line, arc_line, drop_text, drop_line, drop_lines, state_text, interface_label, interface_line, adjacency_label, adjacency_line, generation_label, head_text};

use crate::counts::{
    arc_count, is_unvisited, packets_of, passed_count, put_began, put_node_counts, sent_count,
};
use crate::prefixes::{Routes, put_prefixes};
use crate::shares::{put_carrying, put_grey, put_sent, put_share};
use crate::words::{put, put_decimal, put_id, put_kind, put_mac, slot_name};
use std::alloc::AllocError;
use vg_model::{Adjacency, DropError, Interface, Kind, Name};
use vg_report::Report;

// Appends the label of a drawing: the generation, from when on it was the graph, and how many packets began in it.
fn put_generation_label(
    out: &mut Vec<u8>,
    report: &Option<Report>,
    generation: u32,
    from: u64,
) -> Result<(), AllocError>
    ensures { OnOk result (out.new.items ≡ out.old.items ++ generation_label report.now generation from) }
{
    put(out, b"generation ")?;
    put_decimal(out, u64::from(generation))?;
    put(out, b", from ")?;
    put_decimal(out, from)?;
    put(out, b" us")?;
    put_began(out, report, generation)
}

/// Appends the first lines.
pub fn put_head(
    out: &mut Vec<u8>,
    report: &Option<Report>,
    generation: u32,
    from: u64,
) -> Result<(), AllocError>
    ensures { OnOk result (out.new.items ≡ out.old.items ++ head_text report.now generation from) }
{
    put(out, b"digraph \"generation ")?;
    put_decimal(out, u64::from(generation))?;
    put(out, b"\" {\n  label=\"")?;
    put_generation_label(out, report, generation, from)?;
    put(
        out,
        b"\";\n  labelloc=t;\n  node [shape=box];\n  wire [shape=point];\n",
    )
}

// Appends a dashed line from a node, by what it carried.
fn put_dashed(
    out: &mut Vec<u8>,
    packets: u64,
    number: u16,
    target: &[u8],
    count: Option<u64>,
) -> Result<(), AllocError>
    ensures { OnOk result (out.new.items ≡ out.old.items ++ dashed packets number target.now count) }
{
    put(out, b" ")?;
    put_id(out, b'n', number)?;
    put(out, b" -> ")?;
    put(out, target)?;
    put(out, b" [style=dashed")?;
    put_share(out, packets, count)?;
    put(out, b"];")
}

// Appends where packets go from a node other than over its arcs.
fn put_leaving(
    out: &mut Vec<u8>,
    report: &Option<Report>,
    number: u16,
    name: &Name,
    kind: Kind,
) -> Result<(), AllocError>
    ensures { OnOk result (out.new.items ≡ out.old.items ++ leaving report.now number name.now kind) }
{
    let packets = packets_of(report);
    match kind {
        Kind::InterfaceTx => put_dashed(out, packets, number, b"wire", passed_count(report, name)),
        Kind::WorkerHandoff(_) => put_dashed(out, packets, number, b"n1", None),
        _ => Ok(()),
    }
}

// Appends the beginning of a line up to a label: the letter and the number of a thing, and its shape.
fn put_begin(out: &mut Vec<u8>, letter: u8, number: u16, shape: &[u8]) -> Result<(), AllocError>
    ensures { OnOk result (out.new.items ≡ out.old.items ++ (codes "  " ++ (id letter number ++ shape.now))) }
{
    put(out, b"  ")?;
    put_id(out, letter, number)?;
    put(out, shape)
}

// Appends the kind of a node as a further line of its label, where its name is another word.
fn put_kind_line(out: &mut Vec<u8>, name: &Name, kind: Kind) -> Result<(), AllocError>
    ensures { OnOk result (out.new.items ≡ out.old.items ++ kind_text name.now kind) }
{
    let mut word = Vec::new(*out.allocator());
    put_kind(&mut word, kind)?;
    if word.as_slice() == name.bytes() {
        return Ok(());
    }
    put(out, b"\\n")?;
    put(out, word.as_slice())
}

/// Appends the line of a node.
pub fn put_node_line(
    out: &mut Vec<u8>,
    report: &Option<Report>,
    number: u16,
    name: &Name,
    kind: Kind,
) -> Result<(), AllocError>
    ensures { OnOk result (out.new.items ≡ out.old.items ++ node_line report.now number name.now kind) }
{
    put_begin(out, b'n', number, b" [label=\"")?;
    put(out, name.bytes())?;
    put_kind_line(out, name, kind)?;
    put_node_counts(out, report, name)?;
    put(out, b"\"")?;
    put_grey(out, is_unvisited(report, name))?;
    put(out, b"];")?;
    put_leaving(out, report, number, name, kind)?;
    put(out, b"\n")
}

/// Appends the line of an arc from a slot of a node to a node.
pub fn put_arc_line(
    out: &mut Vec<u8>,
    report: &Option<Report>,
    number: u16,
    name: &Name,
    kind: Kind,
    slot: u8,
    target: u16,
) -> Result<(), AllocError>
    requires { slot < length (slots kind) }
    ensures { OnOk result (out.new.items ≡ out.old.items ++ arc_line report.now number name.now kind slot target) }
{
    put_begin(out, b'n', number, b" -> ")?;
    put_id(out, b'n', target)?;
    put(out, b" [")?;
    put_carrying(
        out,
        packets_of(report),
        slot_name(kind, slot).as_bytes(),
        arc_count(report, name, kind),
    )?;
    put(out, b"];\n")
}

// Appends a red line from a node to the node that drops, with an error and its count.
fn put_drop_text(
    out: &mut Vec<u8>,
    packets: u64,
    number: u16,
    error: DropError,
    count: u64,
) -> Result<(), AllocError>
    ensures { OnOk result (out.new.items ≡ out.old.items ++ drop_text packets number error count) }
{
    put_begin(out, b'n', number, b" -> n8 [")?;
    put_carrying(out, packets, error.word().as_bytes(), Some(count))?;
    put(out, b", color=red, fontcolor=red];\n")
}

// Appends the line of a drop, where it is the node's.
fn put_drop(
    out: &mut Vec<u8>,
    packets: u64,
    number: u16,
    name: &Name,
    entry: &(Name, DropError, u64),
) -> Result<(), AllocError>
    ensures { OnOk result (out.new.items ≡ out.old.items ++ drop_line packets number name.now entry.now) }
{
    if entry.0 == *name {
        put_drop_text(out, packets, number, entry.1, entry.2)
    } else {
        Ok(())
    }
}

// Appends the lines of those of these drops that are the node's.
fn put_drops_of(
    out: &mut Vec<u8>,
    packets: u64,
    errors: &[(Name, DropError, u64)],
    number: u16,
    name: &Name,
) -> Result<(), AllocError>
    ensures { OnOk result (out.new.items ≡ out.old.items ++ flat_map (drop_line packets number name.now) errors.now) }
{
    for entry in errors {
        put_drop(out, packets, number, name, entry)?;
    }
    Ok(())
}

/// Appends the lines of a node's drops, in the order of the report.
pub fn put_drop_lines(
    out: &mut Vec<u8>,
    report: &Option<Report>,
    number: u16,
    name: &Name,
) -> Result<(), AllocError>
    ensures { OnOk result (out.new.items ≡ out.old.items ++ drop_lines report.now number name.now) }
{
    match report {
        None => Ok(()),
        Some(report) => {
            let packets = report.packets.len() as u64;
            put_drops_of(out, packets, report.errors.as_slice(), number, name)
        }
    }
}

// Appends whether an interface is up, and whether it filters.
fn put_state(out: &mut Vec<u8>, up: bool, filter: bool) -> Result<(), AllocError>
    ensures { OnOk result (out.new.items ≡ out.old.items ++ state_text up filter) }
{
    put(out, if up { b" up" } else { b" down" })?;
    put(out, if filter { b" filter" } else { b"" })
}

// Appends the label of an interface.
fn put_interface_label(out: &mut Vec<u8>, interface: &Interface) -> Result<(), AllocError>
    ensures { OnOk result (out.new.items ≡ out.old.items ++ interface_label interface.now) }
{
    put(out, interface.name.bytes())?;
    put(out, b"\\n")?;
    put_mac(out, interface.mac)?;
    put(out, b"\\nmtu ")?;
    put_decimal(out, u64::from(interface.mtu))?;
    put_state(out, interface.up, interface.filter)
}

// Appends the color red where an interface is down.
fn put_down(out: &mut Vec<u8>, up: bool) -> Result<(), AllocError>
    ensures { OnOk result (out.new.items ≡ out.old.items ++ down_text up) }
{
    if up {
        Ok(())
    } else {
        put(out, b", color=red, fontcolor=red")
    }
}

/// Appends the line of an interface, red where it is down, and the dashed line to it.
pub fn put_interface_line(
    out: &mut Vec<u8>,
    report: &Option<Report>,
    number: u16,
    interface: &Interface,
) -> Result<(), AllocError>
    ensures { OnOk result (out.new.items ≡ out.old.items ++ interface_line report.now number interface.now) }
{
    put_begin(out, b'i', number, b" [shape=house, label=\"")?;
    put_interface_label(out, interface)?;
    put(out, b"\"")?;
    put_down(out, interface.up)?;
    put(out, b"]; wire -> ")?;
    put_id(out, b'i', number)?;
    put(out, b" [style=dashed")?;
    put_sent(out, packets_of(report), sent_count(report, &interface.name))?;
    put(out, b"];\n")
}

// Appends the label of a neighbor: its name, its address, and the prefixes that are routed over it.
fn put_adjacency_label(
    out: &mut Vec<u8>,
    before: Routes<'_>,
    routes: Routes<'_>,
    number: u16,
    adjacency: &Adjacency,
) -> Result<(), AllocError>
    ensures { OnOk result (out.new.items ≡ out.old.items ++ adjacency_label (seen before.entry) (seen routes.entry) number adjacency.now) }
{
    put(out, adjacency.name.bytes())?;
    put(out, b"<BR/>")?;
    put_mac(out, adjacency.mac)?;
    put_prefixes(out, number, before, routes)
}

/// Appends the line of a neighbor.
pub fn put_adjacency_line(
    out: &mut Vec<u8>,
    before: Routes<'_>,
    routes: Routes<'_>,
    number: u16,
    adjacency: &Adjacency,
) -> Result<(), AllocError>
    ensures { OnOk result (out.new.items ≡ out.old.items ++ adjacency_line (seen before.entry) (seen routes.entry) number adjacency.now) }
{
    put_begin(out, b'a', number, b" [style=rounded, label=<")?;
    put_adjacency_label(out, before, routes, number, adjacency)?;
    put(out, b">]; ")?;
    put_id(out, b'i', adjacency.interface)?;
    put(out, b" -> ")?;
    put_id(out, b'a', number)?;
    put(out, b" [style=dashed];\n")
}
