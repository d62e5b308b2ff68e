//! The text of pieces. Each function appends to one growing buffer; where memory runs out it stops.
ghost use Rattle.std.specs.Prelude.{◌≡◌, ◌++◌, OnOk};
ghost use Rattle.vg_model.specs.Graph.{kind_entry};
ghost use Rattle.vg_story.specs.Text as texts;

use crate::pieces::{Fact, Field, Piece, Value, Word};
use crate::words::{
    put, put_address, put_address6, put_decimal, put_hex, put_link, put_prefix, put_prefix6,
};
use std::alloc::AllocError;
use vg_graph::Graph;
use vg_model::{Kind, KindWord};

// Appends the name of a neighbor, where the graph has it.
fn put_neighbor(out: &mut Vec<u8>, graph: &Graph, number: u16) -> Result<(), AllocError>
    ensures { OnOk result (out.new.items ≡ out.old.items ++ texts.neighbor_name graph.now number) }
{
    if number < graph.adjacencies() {
        put(out, graph.adjacency_at(number).name.bytes())
    } else {
        Ok(())
    }
}

/// Appends the name of an interface, where the graph has it.
pub fn put_interface(out: &mut Vec<u8>, graph: &Graph, number: u16) -> Result<(), AllocError>
    ensures { OnOk result (out.new.items ≡ out.old.items ++ texts.interface_name graph.now number) }
{
    if number < graph.interfaces() {
        put(out, graph.interface_at(number).name.bytes())
    } else {
        Ok(())
    }
}

/// Appends the name of a node, where the graph has it.
pub fn put_node(out: &mut Vec<u8>, graph: &Graph, number: u16) -> Result<(), AllocError>
    ensures { OnOk result (out.new.items ≡ out.old.items ++ texts.node_name graph.now number) }
{
    if number < graph.nodes() {
        put(out, graph.node_name(number).bytes())
    } else {
        Ok(())
    }
}

// Appends the name of a kind: a text, and the number behind it where the kind has one.
fn put_kind(out: &mut Vec<u8>, kind: Kind) -> Result<(), AllocError>
    ensures { OnOk result (out.new.items ≡ out.old.items ++ (kind_entry kind).name) }
{
    let KindWord { text, number } = kind.name();
    put(out, text.as_bytes())?;
    match number {
        Some(number) => put_decimal(out, u64::from(number)),
        None => Ok(()),
    }
}

// Appends the name of a node's kind, where the graph has the node.
fn put_kind_of(out: &mut Vec<u8>, graph: &Graph, number: u16) -> Result<(), AllocError>
    ensures { OnOk result (out.new.items ≡ out.old.items ++ texts.kind_name graph.now number) }
{
    if number < graph.nodes() {
        put_kind(out, graph.kind(number))
    } else {
        Ok(())
    }
}

/// Appends a value, with its neighbor and its interface by the names that the graph has.
pub fn put_value(out: &mut Vec<u8>, graph: &Graph, value: Value) -> Result<(), AllocError>
    ensures { OnOk result (out.new.items ≡ out.old.items ++ texts.value_text graph.now value) }
{
    match value {
        Value::Number(number) => put_decimal(out, number),
        Value::Hex(number) => put_hex(out, number),
        Value::Address(address) => put_address(out, address),
        Value::Address6(address) => put_address6(out, address),
        Value::Prefix(prefix) => put_prefix(out, prefix),
        Value::Prefix6(prefix) => put_prefix6(out, prefix),
        Value::Link(number) => put_link(out, number),
        Value::Neighbor(number) => put_neighbor(out, graph, number),
        Value::Interface(number) => put_interface(out, graph, number),
        Value::Error(error) => put(out, error.word().as_bytes()),
    }
}

impl Word {
    /// The word in the text.
    pub fn text(self) -> &'static str
        ensures { result.now ≡ texts.word_text self }
    {
        match self {
            Word::Type => "type",
            Word::Frame => "frame-to",
            Word::Bytes => "bytes",
            Word::Version => "version",
            Word::Header => "header",
            Word::Length => "length",
            Word::Checksum => "checksum",
            Word::Ttl => "ttl",
            Word::Mtu => "mtu",
            Word::To => "to",
            Word::Route => "route",
            Word::Line => "line",
            Word::Via => "via",
            Word::On => "on",
            Word::Hash => "hash",
            Word::Place => "place",
            Word::Of => "of",
            Word::Worker => "worker",
            Word::Tag => "vlan",
            Word::Drop => "drop",
        }
    }
}

impl Field {
    /// The word in the text.
    pub fn text(self) -> &'static str
        ensures { result.now ≡ texts.field_text self }
    {
        match self {
            Field::Length => "length",
            Field::Destination => "dst",
            Field::Source => "src",
            Field::Vlan => "vlan",
            Field::Ttl => "ttl",
            Field::Checksum => "checksum",
            Field::HopLimit => "hop-limit",
        }
    }
}

// Appends the number of a field.
fn put_field_number(out: &mut Vec<u8>, field: Field, number: u64) -> Result<(), AllocError>
    ensures { OnOk result (out.new.items ≡ out.old.items ++ texts.field_number field number) }
{
    match field {
        Field::Destination | Field::Source => put_link(out, number),
        Field::Length | Field::Vlan | Field::Ttl | Field::HopLimit => put_decimal(out, number),
        Field::Checksum => put_hex(out, (number % 65_536) as u16),
    }
}

// Appends a fact.
fn put_fact(out: &mut Vec<u8>, graph: &Graph, fact: Fact) -> Result<(), AllocError>
    ensures { OnOk result (out.new.items ≡ out.old.items ++ texts.fact_text graph.now fact) }
{
    put(out, b" ")?;
    put(out, fact.word.text().as_bytes())?;
    put(out, b" ")?;
    put_value(out, graph, fact.value)
}

// Appends the line of a change, behind a line feed.
fn put_change(out: &mut Vec<u8>, field: Field, before: u64, after: u64) -> Result<(), AllocError>
    ensures { OnOk result (out.new.items ≡ out.old.items ++ texts.change_text field before after) }
{
    put(out, b"\n      change ")?;
    put(out, field.text().as_bytes())?;
    put(out, b" ")?;
    put_field_number(out, field, before)?;
    put(out, b" ")?;
    put_field_number(out, field, after)
}

// Appends the begin of a visit's line, behind a line feed.
fn put_visit(out: &mut Vec<u8>, graph: &Graph, node: u16) -> Result<(), AllocError>
    ensures { OnOk result (out.new.items ≡ out.old.items ++ texts.visit_text graph.now node) }
{
    put(out, b"\n    visit ")?;
    put_node(out, graph, node)?;
    put(out, b" ")?;
    put_kind_of(out, graph, node)
}

// Appends the line of a leg, behind a line feed.
fn put_leg(out: &mut Vec<u8>, worker: u8, generation: u32) -> Result<(), AllocError>
    ensures { OnOk result (out.new.items ≡ out.old.items ++ texts.leg_text worker generation) }
{
    put(out, b"\n  leg worker ")?;
    put_decimal(out, u64::from(worker))?;
    put(out, b" generation ")?;
    put_decimal(out, u64::from(generation))
}

// Appends a piece.
fn put_piece(out: &mut Vec<u8>, graph: &Graph, piece: Piece) -> Result<(), AllocError>
    ensures { OnOk result (out.new.items ≡ out.old.items ++ texts.piece_text graph.now piece) }
{
    match piece {
        Piece::Leg { worker, generation } => put_leg(out, worker, generation),
        Piece::Visit { node } => put_visit(out, graph, node),
        Piece::Because(fact) => put_fact(out, graph, fact),
        Piece::Change {
            field,
            before,
            after,
        } => put_change(out, field, before, after),
    }
}

/// Appends the text of pieces: a line for each leg, a line for each visit, with what it decided by, and a line for each field that it changed. Each
/// line stands behind a line feed.
///
/// # Errors
///
/// [`AllocError`] where memory runs out.
pub fn put_pieces(out: &mut Vec<u8>, graph: &Graph, pieces: &[Piece]) -> Result<(), AllocError>
    ensures { OnOk result (out.new.items ≡ out.old.items ++ texts.pieces_text graph.now pieces.now) }
{
    for piece in pieces {
        put_piece(out, graph, *piece)?;
    }
    Ok(())
}
