//! The ways of packets as text. Each function appends to one growing buffer; where memory runs out it stops.
ghost use Rattle.std.specs.Prelude.{◌≡◌, ◌++◌, codes, OnOk};
ghost use Rattle.vg_ways.specs.Ways.{numbered, numbered_if, first_text, packet_text, drop_text, accepted_text, sent_text, outcome_text, end_text, way_text};

use crate::stages::Stages;
use crate::stories::Went;
use std::alloc::AllocError;
use vg_graph::Graph;
use vg_model::{DropError, End, Leg};
use vg_story::{Piece, put, put_decimal, put_interface, put_node, put_pieces};

/// Where a packet stands: its time in microseconds from the first packet, and how many packets before it were transmitted.
#[derive(Clone, Copy)]
pub struct Place {
    pub time: u64,
    pub index: u32,
}

// Appends a word and a number.
fn put_number(out: &mut Vec<u8>, word: &[u8], number: u64) -> Result<(), AllocError>
    ensures { OnOk result (out.new.items ≡ out.old.items ++ numbered word.now number) }
{
    put(out, word)?;
    put_decimal(out, number)
}

// Appends the generation of the first leg, and the line of the script where it begins.
fn put_first(out: &mut Vec<u8>, stages: &Stages<'_>, legs: &[Leg]) -> Result<(), AllocError>
    ensures { OnOk result (out.new.items ≡ out.old.items ++ first_text stages.now.plan.script legs.now) }
{
    let Some((first, _)) = legs.split_first() else {
        return Ok(());
    };
    put_number(out, b" generation ", u64::from(first.generation))?;
    put_line(out, stages.line(first.generation))
}

// Appends the line of the script where a generation begins.
fn put_line(out: &mut Vec<u8>, line: Option<u32>) -> Result<(), AllocError>
    ensures { OnOk result (out.new.items ≡ out.old.items ++ numbered_if (codes " line ") line) }
{
    match line {
        Some(line) => put_number(out, b" line ", u64::from(line)),
        None => Ok(()),
    }
}

// Appends the line of a packet: its number from 0, its number from 1, as other programs have it, its time, and how it began.
fn put_packet(
    out: &mut Vec<u8>,
    stages: &Stages<'_>,
    place: Place,
    went: &Went<'_>,
) -> Result<(), AllocError>
    ensures { OnOk result (out.new.items ≡ out.old.items ++ packet_text stages.now.plan.script place went.now) }
{
    put_number(out, b"packet ", u64::from(went.number))?;
    put_number(out, b" frame ", u64::from(went.number) + 1)?;
    put_number(out, b" time ", place.time)?;
    put_first(out, stages, went.legs)
}

// Appends a drop.
fn put_drop(out: &mut Vec<u8>, names: &Graph, node: u16, error: DropError) -> Result<(), AllocError>
    ensures { OnOk result (out.new.items ≡ out.old.items ++ drop_text names.now node error) }
{
    put(out, b"drop ")?;
    put_node(out, names, node)?;
    put(out, b" ")?;
    put(out, error.word().as_bytes())
}

// Appends that a packet was transmitted on an interface, and its record.
fn put_sent(out: &mut Vec<u8>, names: &Graph, interface: u16, index: u32) -> Result<(), AllocError>
    ensures { OnOk result (out.new.items ≡ out.old.items ++ sent_text names.now interface index) }
{
    put(out, b"tx ")?;
    put_interface(out, names, interface)?;
    put_number(out, b" record ", u64::from(index))?;
    put_number(out, b" frame ", u64::from(index) + 1)
}

// Appends the count of the queue that refused a packet, where one did.
fn put_accepted(out: &mut Vec<u8>, accepted: Option<u64>) -> Result<(), AllocError>
    ensures { OnOk result (out.new.items ≡ out.old.items ++ accepted_text accepted) }
{
    match accepted {
        Some(accepted) => {
            put_number(out, b"congested ", accepted)?;
            put(out, b" ")
        }
        None => Ok(()),
    }
}

// Appends how a packet ended.
fn put_outcome(
    out: &mut Vec<u8>,
    names: &Graph,
    index: u32,
    accepted: Option<u64>,
    end: End,
) -> Result<(), AllocError>
    ensures { OnOk result (out.new.items ≡ out.old.items ++ outcome_text names.now index accepted end) }
{
    match end {
        End::Tx { interface } => put_sent(out, names, interface, index),
        End::Dropped { node, error } => {
            put_accepted(out, accepted)?;
            put_drop(out, names, node, error)
        }
    }
}

// Appends the line of an end, behind a line feed.
fn put_end(
    out: &mut Vec<u8>,
    names: &Graph,
    index: u32,
    accepted: Option<u64>,
    end: End,
) -> Result<(), AllocError>
    ensures { OnOk result (out.new.items ≡ out.old.items ++ end_text names.now index accepted end) }
{
    put(out, b"\n  end ")?;
    put_outcome(out, names, index, accepted, end)?;
    put(out, b"\n")
}

/// Appends the text of a packet's way, which these pieces show, by the names of a graph: a line for the packet, a line for each leg, visit and
/// changed field, and a line for its end.
///
/// # Errors
///
/// [`AllocError`] where memory runs out.
pub fn put_way(
    out: &mut Vec<u8>,
    stages: &Stages<'_>,
    names: &Graph,
    place: Place,
    went: &Went<'_>,
    pieces: &[Piece],
) -> Result<(), AllocError>
    ensures { OnOk result (out.new.items ≡ out.old.items ++ way_text stages.now.plan.script names.now place went.now pieces.now) }
{
    put_packet(out, stages, place, went)?;
    put_pieces(out, names, pieces)?;
    put_end(out, names, place.index, went.accepted, went.end)
}
