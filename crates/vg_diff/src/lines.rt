//! The lines that say how packets differ. Each function appends to one growing buffer; where memory runs out it stops.
ghost use Rattle.std.specs.Prelude.{◌≡◌, ◌++◌, ◌∷◌, [], OnOk, IfOk, slice_get};
ghost use Rattle.vg_report.specs.Seen.{end_seen};
ghost use Rattle.vg_diff.specs.Lines.{number_at as number_standing_at, frame_at as frame_standing_at, file_of as file_with, first_of as first_number_of, place_text};
ghost use Rattle.vg_diff.specs.Lines.{common_front as front_in_common, change_of as change_between, change_in, change_text, change_name, names_text, trace_text};
ghost use Rattle.vg_diff.specs.Lines.{missing_line, difference_text, changed_line, extra_line, end_text, drop_text, there_line, wanted_line, got_line};
ghost use Rattle.vg_match.specs.Frames.{IsSmall};

use crate::texts::{put, put_begin, put_decimal, put_hex};
use std::alloc::{AllocError, Global};
use vg_match::{Diff, Field, Layout, Span, compared, cut, layout_of};
use vg_model::Name;
use vg_report::{EndRef, Report};

/// What the lines speak of: how the packets differ, and their frames and numbers.
#[derive(Clone, Copy)]
pub struct Findings<'a> {
    /// How the packets differ.
    pub diff: &'a Diff,
    /// How many equal packets came in another order.
    pub reordered: u64,
    /// How many packets of either side are left out.
    pub noise: (u64, u64),
    /// The frames of the run's savefile.
    pub wanted: &'a [&'a [u8]],
    /// The numbers that these packets have in the run.
    pub sent: &'a [u32],
    /// The frames that came.
    pub got: &'a [&'a [u8]],
    /// The numbers of the first packet of each savefile but the first, among those that came.
    pub starts: &'a [u32],
    /// The numbers in the run of the packets that were dropped.
    pub dropped: &'a [u32],
    /// What became of the run's packets.
    pub report: &'a Report,
    /// The fields that may differ.
    pub ignored: &'a [Field],
}

/// An element, or 0 behind the last.
pub fn number_at(numbers: &[u32], at: usize) -> u32
    ensures { result ≡ number_standing_at numbers.now at }
{
    match numbers.get(at) {
        Some(number) => *number,
        None => 0,
    }
}

/// A frame, or none behind the last.
pub fn frame_at<'a>(frames: &[&'a [u8]], at: u32) -> &'a [u8]
    ensures { result.now ≡ frame_standing_at frames.now at }
{
    match frames.get(at as usize) {
        Some(frame) => frame,
        None => &[],
    }
}

/// The savefile that a packet of this number stands in, by the numbers of the first packets of all savefiles but the first.
pub fn file_of(starts: &[u32], number: u32) -> usize
    ensures { result ≡ file_with starts.now number }
{
    starts.iter().filter(|start| **start <= number).count()
}

// The number of the first packet of a savefile.
fn first_of(starts: &[u32], file: usize) -> u32
    ensures { result ≡ first_number_of starts.now file }
{
    if file == 0 {
        0
    } else {
        number_at(starts, file - 1)
    }
}

/// Appends the place of a packet that came: the savefile, and the frame's number there as Wireshark counts, from 1.
///
/// # Errors
///
/// [`AllocError`] where memory runs out.
pub fn put_place(out: &mut Vec<u8>, starts: &[u32], number: u32) -> Result<(), AllocError>
    ensures { OnOk result (out.new.items ≡ out.old.items ++ place_text starts.now number) }
{
    let file = file_of(starts, number);
    let first = first_of(starts, file);
    put_decimal(out, file as u64)?;
    put(out, b":")?;
    put_decimal(out, u64::from(number.saturating_sub(first)) + 1)
}

// Appends names, each behind a space.
fn put_names(out: &mut Vec<u8>, names: &[Name]) -> Result<(), AllocError>
    ensures { OnOk result (out.new.items ≡ out.old.items ++ names_text names.now) }
{
    for name in names {
        put(out, b" ")?;
        put(out, name.bytes())?;
    }
    Ok(())
}

// Appends the nodes that a packet of the run visited, where the report has its trace.
fn put_trace(out: &mut Vec<u8>, report: &Report, number: u32) -> Result<(), AllocError>
    ensures { OnOk result (out.new.items ≡ out.old.items ++ trace_text report.now number) }
{
    match report.traces.as_slice().get(number as usize) {
        Some(names) => put_names(out, names.as_slice()),
        None => Ok(()),
    }
}

// Appends the line of a packet that had to come and didn't.
fn put_missing(out: &mut Vec<u8>, found: &Findings<'_>, wanted: u32) -> Result<(), AllocError>
    ensures { OnOk result (out.new.items ≡ out.old.items ++ missing_line found.now wanted) }
{
    let number = number_at(found.sent, wanted as usize);
    put(out, b"missing ")?;
    put_decimal(out, u64::from(number))?;
    put_trace(out, found.report, number)?;
    put(out, b"\n")
}

/// Where two frames differ first.
#[derive(Clone, Copy)]
pub struct Change {
    /// The field, where it is in one.
    pub field: Option<Field>,
    /// The bytes of that field, or the one byte.
    pub span: Span,
}

// How many bytes two texts have in common at the front.
#[tactic(auto, using(crate::proofs::LineLemmas::front_more, crate::proofs::LineLemmas::front_apart, crate::proofs::LineLemmas::front_none, crate::proofs::LineLemmas::front_over))]
fn common_front(first: &[u8], second: &[u8]) -> usize
    ensures { result ≡ front_in_common first.now second.now }
{
    for at in 0..first.len() {
        if at >= second.len() {
            return at;
        }
        if first[at] != second[at] {
            return at;
        }
    }
    first.len()
}

// The change at a place of a frame of this layout, which is in this field or in none.
fn change_at(layout: &Layout, at: usize, field: Option<Field>) -> Change
    requires { IsSmall layout.now }
    ensures { result ≡ change_in layout.now at field }
{
    let byte = Span { at, len: 1 };
    let Some(name) = field else {
        return Change { field, span: byte };
    };
    let span = match name.span(layout) {
        Some(span) => span,
        None => byte,
    };
    Change { field, span }
}

/// Where a frame that came differs first from the one that was wanted, but for the fields that are ignored.
///
/// # Errors
///
/// [`AllocError`] where memory runs out.
#[tactic(auto, unfolding(crate::specs::Lines::change_of))]
pub fn change_of(
    alloc: Global,
    wanted: &[u8],
    got: &[u8],
    ignored: &[Field],
) -> Result<Change, AllocError>
    ensures { IfOk result (λ change. change ≡ change_between ignored.now wanted.now got.now) }
{
    let first = compared(alloc, wanted, ignored)?;
    let second = compared(alloc, got, ignored)?;
    let at = common_front(first.as_slice(), second.as_slice());
    let layout = layout_of(wanted);
    Ok(change_at(&layout, at, Field::at(&layout, at)))
}

// Appends a field's name, or the number of a byte.
fn put_change_name(out: &mut Vec<u8>, field: Option<Field>, at: usize) -> Result<(), AllocError>
    ensures { OnOk result (out.new.items ≡ out.old.items ++ change_name field at) }
{
    match field {
        Some(field) => put(out, field.name().as_bytes()),
        None => put_decimal(out, at as u64),
    }
}

// Appends where two frames differ, what was wanted there, and what came.
fn put_change(
    out: &mut Vec<u8>,
    change: Change,
    wanted: &[u8],
    got: &[u8],
) -> Result<(), AllocError>
    ensures { OnOk result (out.new.items ≡ out.old.items ++ change_text change wanted.now got.now) }
{
    put_change_name(out, change.field, change.span.at)?;
    put(out, b" ")?;
    put_hex(out, cut(wanted, change.span))?;
    put(out, b" ")?;
    put_hex(out, cut(got, change.span))
}

// Appends what differs in a packet that changed.
fn put_difference(
    out: &mut Vec<u8>,
    alloc: Global,
    found: &Findings<'_>,
    wanted: u32,
    got: u32,
) -> Result<(), AllocError>
    ensures { OnOk result (out.new.items ≡ out.old.items ++ difference_text found.now wanted got) }
{
    let first = frame_at(found.wanted, wanted);
    let second = frame_at(found.got, got);
    let change = change_of(alloc, first, second, found.ignored)?;
    put_change(out, change, first, second)
}

// Appends the line of a packet that changed.
fn put_changed(
    out: &mut Vec<u8>,
    alloc: Global,
    found: &Findings<'_>,
    wanted: u32,
    got: u32,
) -> Result<(), AllocError>
    ensures { OnOk result (out.new.items ≡ out.old.items ++ changed_line found.now wanted got) }
{
    let number = number_at(found.sent, wanted as usize);
    put_begin(out, "changed", u64::from(number))?;
    put_difference(out, alloc, found, wanted, got)?;
    put(out, b"\n")
}

// Appends the line of a packet that nobody wanted.
fn put_extra(out: &mut Vec<u8>, found: &Findings<'_>, got: u32) -> Result<(), AllocError>
    ensures { OnOk result (out.new.items ≡ out.old.items ++ extra_line found.now got) }
{
    put(out, b"extra ")?;
    put_decimal(out, u64::from(got))?;
    put(out, b" ")?;
    put_place(out, found.starts, got)?;
    put(out, b"\n")
}

// Appends the node that dropped a packet, and the error.
fn put_end(out: &mut Vec<u8>, end: EndRef<'_>) -> Result<(), AllocError>
    ensures { OnOk result (out.new.items ≡ out.old.items ++ end_text (end_seen end.entry)) }
{
    match end {
        EndRef::Tx { .. } => Ok(()),
        EndRef::Dropped { node, error } => {
            put(out, node.bytes())?;
            put(out, b" ")?;
            put(out, error.word().as_bytes())?;
            put(out, b" ")
        }
    }
}

// Appends the node that dropped a packet of the run, and the error.
fn put_drop(out: &mut Vec<u8>, report: &Report, number: u32) -> Result<(), AllocError>
    ensures { OnOk result (out.new.items ≡ out.old.items ++ drop_text (slice_get report.now.packets number)) }
{
    let at = number as usize;
    if at < report.packets.len() {
        put_end(out, report.packets.get(at).end)
    } else {
        Ok(())
    }
}

// Appends the line of a packet that came though it had to be dropped.
fn put_there(
    out: &mut Vec<u8>,
    found: &Findings<'_>,
    dropped: u32,
    got: u32,
) -> Result<(), AllocError>
    ensures { OnOk result (out.new.items ≡ out.old.items ++ there_line found.now dropped got) }
{
    let number = number_at(found.dropped, dropped as usize);
    put_begin(out, "dropped-but-there", u64::from(number))?;
    put_drop(out, found.report, number)?;
    put_place(out, found.starts, got)?;
    put(out, b"\n")
}

/// Appends the line of a packet that had to come: it changed where it has a partner, else it is missing.
pub fn put_wanted(
    out: &mut Vec<u8>,
    alloc: Global,
    found: &Findings<'_>,
    wanted: u32,
    got: Option<u32>,
) -> Result<(), AllocError>
    ensures { OnOk result (out.new.items ≡ out.old.items ++ wanted_line found.now wanted got) }
{
    match got {
        Some(got) => put_changed(out, alloc, found, wanted, got),
        None => put_missing(out, found, wanted),
    }
}

/// Appends the line of a packet that came: it had to be dropped where it has a partner, else it is extra.
pub fn put_got(
    out: &mut Vec<u8>,
    found: &Findings<'_>,
    got: u32,
    dropped: Option<u32>,
) -> Result<(), AllocError>
    ensures { OnOk result (out.new.items ≡ out.old.items ++ got_line found.now got dropped) }
{
    match dropped {
        Some(dropped) => put_there(out, found, dropped, got),
        None => put_extra(out, found, got),
    }
}
