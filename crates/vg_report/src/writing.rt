//! Writing the text of a report. Each function appends to one growing buffer; where memory runs out it stops.
ghost use Rattle.std.specs.Prelude.{◌≡◌, ◌++◌, [], ◌∷◌, ◌<◌, codes, decimal, ◌+◌, ◌≤◌, flat_map, length, map, take, OnOk, IfOk, IfSome};
ghost use Rattle.vg_fates.specs.Seen.{fate_seen};
ghost use Rattle.vg_report.specs.Text.{line_text, numbered, count_line, head_lines, interface_line, node_line, error_line, leg_text, legs_word, further, congested_words, end_words, sent_end as sent_end_of, packet_line, trace_line, text};
ghost use Rattle.vg_report.specs.Lawful.{IsLawful};
ghost use Rattle.vg_report.specs.Named.{lines_of, line_by, AreNamed, IsNamed};
ghost use Rattle.vg_report.specs.Ready.{IsReady};
ghost use Rattle.vg_report.specs.Seen.{line_seen, end_seen};

use crate::laying::{DroppedEnd, Front, LINE_ROOM, lay_line, short_of};
use crate::lists::{NamedFates, Names, PacketLines, line_of};
use crate::pieces::{Piece, ROOM};
use crate::reports::{EndRef, LineRef, Report};
use itoa::Buffer;
use std::alloc::{AllocError, Global};
use vg_fates::FateRef;
use vg_model::{Bytes, DropError, End, Leg, Memory, Name};

// How many bytes the line of a packet mostly has at most, and how many the lines that aren't of packets. A longer text makes the
// buffer grow.
const ROOM_OF_A_LINE: usize = 48;

const ROOM_OF_THE_OTHERS: usize = 16_384;

// How many bytes lines are laid in before they are appended.
const WINDOW: usize = 2048;

// Appends these bytes.
fn put(out: &mut Vec<u8>, bytes: &[u8]) -> Result<(), AllocError>
    ensures { OnOk result (out.new.items ≡ out.old.items ++ bytes.now) }
{
    out.extend_from_slice(bytes)
}

// Appends the digits of a number.
#[inline]
fn put_decimal(out: &mut Vec<u8>, number: u64) -> Result<(), AllocError>
    ensures { OnOk result (out.new.items ≡ out.old.items ++ decimal number) }
{
    put(out, Buffer::new().format(number).as_bytes())
}

// A further word of a line, behind the space that parts it from the word before.
fn put_word(out: &mut Vec<u8>, word: &[u8]) -> Result<(), AllocError>
    ensures { OnOk result (out.new.items ≡ out.old.items ++ 32 ∷ word.now) }
{
    put(out, b" ")?;
    put(out, word)
}

// A further word that is a number.
fn put_number(out: &mut Vec<u8>, number: u64) -> Result<(), AllocError>
    ensures { OnOk result (out.new.items ≡ out.old.items ++ 32 ∷ decimal number) }
{
    put(out, b" ")?;
    put_decimal(out, number)
}

fn end_line(out: &mut Vec<u8>) -> Result<(), AllocError>
    ensures { OnOk result (out.new.items ≡ out.old.items ++ 10 ∷ []) }
{
    put(out, b"\n")
}

fn put_count_line(out: &mut Vec<u8>, word: &[u8], count: u64) -> Result<(), AllocError>
    ensures { OnOk result (out.new.items ≡ out.old.items ++ line_text (count_line word.now count)) }
{
    put(out, word)?;
    put_number(out, count)?;
    end_line(out)
}

fn put_interface_line(
    out: &mut Vec<u8>,
    number: usize,
    name: &Name,
    count: u64,
) -> Result<(), AllocError>
    ensures { OnOk result (out.new.items ≡ out.old.items ++ line_text (interface_line number (name.now, count))) }
{
    put(out, b"interface")?;
    put_number(out, number as u64)?;
    put_word(out, name.bytes())?;
    put_word(out, b"tx")?;
    put_number(out, count)?;
    end_line(out)
}

fn put_node_line(
    out: &mut Vec<u8>,
    number: usize,
    name: &Name,
    count: u64,
) -> Result<(), AllocError>
    ensures { OnOk result (out.new.items ≡ out.old.items ++ line_text (node_line number (name.now, count))) }
{
    put(out, b"node")?;
    put_number(out, number as u64)?;
    put_word(out, name.bytes())?;
    put_number(out, count)?;
    end_line(out)
}

fn put_error_line(
    out: &mut Vec<u8>,
    node: &Name,
    error: DropError,
    count: u64,
) -> Result<(), AllocError>
    ensures { OnOk result (out.new.items ≡ out.old.items ++ line_text (error_line (node.now, error, count))) }
{
    put(out, b"error")?;
    put_word(out, node.bytes())?;
    put_word(out, error.word().as_bytes())?;
    put_number(out, count)?;
    end_line(out)
}

// Appends a leg behind a mark: the space that parts words, or the comma that parts legs.
#[inline]
fn put_leg(out: &mut Vec<u8>, mark: u8, leg: Leg) -> Result<(), AllocError>
    ensures { OnOk result (out.new.items ≡ out.old.items ++ mark ∷ leg_text leg) }
{
    if leg.worker < 10 && leg.generation < 10 {
        let worker = b'0' + leg.worker;
        let generation = b'0' + leg.generation as u8;
        return put(out, &[mark, worker, b':', generation]);
    }
    put(out, &[mark])?;
    put_decimal(out, u64::from(leg.worker))?;
    put(out, b":")?;
    put_decimal(out, u64::from(leg.generation))
}

// Appends the legs of a packet as a further word.
#[inline]
fn put_legs(out: &mut Vec<u8>, legs: &[Leg]) -> Result<(), AllocError>
    ensures { OnOk result (out.new.items ≡ out.old.items ++ 32 ∷ legs_word legs.now) }
{
    let Some((first, others)) = legs.split_first() else {
        return put(out, b" ");
    };
    put_leg(out, b' ', *first)?;
    for leg in others {
        put_leg(out, b',', *leg)?;
    }
    Ok(())
}

// Appends how many frames a full queue had accepted, if one was the end.
fn put_congested(out: &mut Vec<u8>, congested: Option<u64>) -> Result<(), AllocError>
    ensures { OnOk result (out.new.items ≡ out.old.items ++ further (congested_words congested)) }
{
    if let Some(accepted) = congested {
        put_word(out, b"congested")?;
        put_number(out, accepted)?;
    }
    Ok(())
}

// Appends how a packet ended, and ends the line.
#[inline]
fn put_end(out: &mut Vec<u8>, end: &EndRef<'_>) -> Result<(), AllocError>
    ensures { OnOk result (out.new.items ≡ out.old.items ++ (further (end_words (end_seen end.now)) ++ 10 ∷ [])) }
{
    match end {
        EndRef::Tx { interface } => {
            put(out, b" tx ")?;
            put(out, interface.bytes())?;
            end_line(out)
        }
        EndRef::Dropped { node, error } => {
            put(out, b" drop ")?;
            put(out, node.bytes())?;
            put_word(out, error.word().as_bytes())?;
            end_line(out)
        }
    }
}

// Appends `packet`, the number of the packet and its legs.
fn put_long_front(out: &mut Vec<u8>, number: usize, legs: &[Leg]) -> Result<(), AllocError>
    ensures { OnOk result (out.new.items ≡ out.old.items ++ (codes "packet " ++ (decimal number ++ 32 ∷ legs_word legs.now))) }
{
    put(out, b"packet ")?;
    put_decimal(out, number as u64)?;
    put_legs(out, legs)
}

fn put_packet_line(out: &mut Vec<u8>, number: usize, packet: &LineRef<'_>) -> Result<(), AllocError>
    ensures { OnOk result (out.new.items ≡ out.old.items ++ line_text (packet_line number (line_seen packet.now))) }
{
    put_long_front(out, number, packet.legs.as_slice())?;
    put_congested(out, packet.congested)?;
    put_end(out, &packet.end)
}

// The end of the line of a packet that was transmitted on this interface, from the space behind its legs on.
fn sent_end(alloc: Global, interface: &Name) -> Result<Piece, AllocError>
    ensures { IfOk result (λ end. end ≡ sent_end_of interface.now) }
{
    let name = interface.bytes();
    let mut end = Vec::new(alloc);
    put(&mut end, b" tx ")?;
    put(&mut end, name)?;
    end_line(&mut end)?;
    Ok(Piece::of(end.as_slice()))
}

// The same for each of these interfaces.
fn sent_ends(alloc: Global, interfaces: &[Name]) -> Result<Vec<Piece>, AllocError>
    ensures { IfOk result (λ ends. ends.items ≡ map sent_end_of interfaces.now) }
{
    let mut ends = Vec::new(alloc);
    for interface in interfaces {
        ends.push(sent_end(alloc, interface)?)?;
    }
    Ok(ends)
}

// The end of the lines of packets that a node dropped with an error, where it is short enough.
fn dropped_end(
    alloc: Global,
    names: &NamedFates<'_>,
    node: u16,
    error: DropError,
) -> Result<Option<DroppedEnd>, AllocError>
    requires { node < length names.now.nodes.now }
    ensures { IfOk result (λ ready. IfSome ready (IsReady names.now.interfaces.now names.now.nodes.now)) }
{
    let mut end = Vec::new(alloc);
    let node_name = &names.nodes[usize::from(node)];
    put_end(
        &mut end,
        &EndRef::Dropped {
            node: node_name,
            error,
        },
    )?;
    if end.len() > ROOM {
        return Ok(None);
    }
    let text = Piece::of(end.as_slice());
    Ok(Some(DroppedEnd { node, error, text }))
}

// The end that stands ready for packets that were dropped; if there is none yet, that of a packet that ended so.
#[cold]
#[inline(never)]
fn first_dropped(
    alloc: Global,
    names: &NamedFates<'_>,
    dropped: Option<DroppedEnd>,
    end: End,
) -> Result<Option<DroppedEnd>, AllocError>
    requires named { IsNamed names.now.interfaces.now names.now.nodes.now end }
    requires ready { IfSome dropped (IsReady names.now.interfaces.now names.now.nodes.now) }
    ensures { IfOk result (λ ready. IfSome ready (IsReady names.now.interfaces.now names.now.nodes.now)) }
{
    if dropped.is_some() {
        return Ok(dropped);
    }
    match end {
        End::Tx { .. } => Ok(None),
        End::Dropped { node, error } => dropped_end(alloc, names, node, error),
    }
}

// How a packet with this fate ended.
fn end_of(fate: FateRef<'_>) -> End
    ensures { result ≡ (fate_seen fate.entry).end }
{
    match fate {
        FateRef::Plain { end, .. } => end,
        FateRef::Other(fate) => fate.end,
    }
}

// Appends what lies at the start of the window, and behind it the line of a packet with this fate.
#[cold]
#[inline(never)]
fn put_behind(
    out: &mut Vec<u8>,
    laid: &[u8],
    number: usize,
    fate: FateRef<'_>,
    names: &NamedFates<'_>,
) -> Result<(), AllocError>
    requires { IsNamed names.now.interfaces.now names.now.nodes.now (fate_seen fate).end }
    ensures { OnOk result (out.new.items ≡ (out.old.items ++ laid.now) ++ line_text (packet_line number (line_by names.now.interfaces.now names.now.nodes.now (fate_seen fate.entry)))) }
{
    put(out, laid)?;
    put_packet_line(out, number, &line_of(names.interfaces, names.nodes, fate))
}

// Appends what lies in the window up to this place, where there is no room for a line behind it. Answers up to where something lies there now.
#[inline]
fn put_full(out: &mut Vec<u8>, window: &[u8], at: usize) -> Result<usize, AllocError>
    requires window { length window.now ≡ 2048 }
    requires within { at ≤ 2048 }
    ensures room { IfOk result (λ rest. rest + 88 ≤ 2048) }
    ensures all { IfOk result (λ rest. out.new.items ++ take rest window.now ≡ out.old.items ++ take at window.now) }
{
    if at <= WINDOW - LINE_ROOM {
        return Ok(at);
    }
    put(out, &window[..at])?;
    Ok(0)
}

// Appends the names as further words.
fn put_names(out: &mut Vec<u8>, names: &[Name]) -> Result<(), AllocError>
    ensures { OnOk result (out.new.items ≡ out.old.items ++ further names.now) }
{
    for name in names {
        put_word(out, name.bytes())?;
    }
    Ok(())
}

fn put_trace_line(out: &mut Vec<u8>, number: usize, names: &Names) -> Result<(), AllocError>
    ensures { OnOk result (out.new.items ≡ out.old.items ++ line_text (trace_line number names.now)) }
{
    put(out, b"trace")?;
    put_number(out, number as u64)?;
    put_names(out, names.as_slice())?;
    end_line(out)
}

fn put_interface_lines(out: &mut Vec<u8>, interfaces: &[(Name, u64)]) -> Result<(), AllocError>
    ensures { OnOk result (out.new.items ≡ out.old.items ++ flat_map line_text (numbered interface_line 0 interfaces.now)) }
{
    for (number, (name, count)) in interfaces.iter().enumerate() {
        put_interface_line(out, number, name, *count)?;
    }
    Ok(())
}

fn put_node_lines(out: &mut Vec<u8>, nodes: &[(Name, u64)]) -> Result<(), AllocError>
    ensures { OnOk result (out.new.items ≡ out.old.items ++ flat_map line_text (numbered node_line 0 nodes.now)) }
{
    for (number, (name, count)) in nodes.iter().enumerate() {
        put_node_line(out, number, name, *count)?;
    }
    Ok(())
}

fn put_error_lines(out: &mut Vec<u8>, errors: &[(Name, DropError, u64)]) -> Result<(), AllocError>
    ensures { OnOk result (out.new.items ≡ out.old.items ++ flat_map line_text (map error_line errors.now)) }
{
    for (node, error, count) in errors {
        put_error_line(out, node, *error, *count)?;
    }
    Ok(())
}

// Appends the lines of packets with these fates. Most are laid into a window first, from which they are appended many at once.
#[inline(never)]
fn put_lines_by(
    out: &mut Vec<u8>,
    window: &mut [u8],
    names: &NamedFates<'_>,
    sent: &[Piece],
) -> Result<(), AllocError>
    requires window { length window.old ≡ 2048 }
    requires named { AreNamed names.now.interfaces.now names.now.nodes.now names.now.fates.now }
    requires ready { sent.now ≡ map sent_end_of names.now.interfaces.now }
    ensures { OnOk result (out.new.items ≡ out.old.items
        ++ flat_map line_text (numbered packet_line 0 (lines_of names.now.interfaces.now names.now.nodes.now names.now.fates.now))) }
{
    let alloc = *out.allocator();
    let mut dropped = None;
    let mut front = Front::first();
    let mut at = 0;
    let fates = names.fates;
    for number in 0..fates.len() {
        let fate = fates.view(number);
        match short_of(&front, fate, names, sent, &dropped) {
            Some(short) => {
                let end = lay_line(window, at, &front, short);
                at = put_full(out, window, end)?;
            }
            None => {
                // It is looked up once more, so that the lines that are laid need no more of a fate than its leg and its end.
                let other = fates.view(number);
                put_behind(out, &window[..at], number, other, names)?;
                at = 0;
                dropped = first_dropped(alloc, names, dropped, end_of(other))?;
            }
        }
        front.step();
    }
    put(out, &window[..at])
}

fn put_fate_lines(out: &mut Vec<u8>, names: &NamedFates<'_>) -> Result<(), AllocError>
    requires { AreNamed names.now.interfaces.now names.now.nodes.now names.now.fates.now }
    ensures { OnOk result (out.new.items ≡ out.old.items
        ++ flat_map line_text (numbered packet_line 0 (lines_of names.now.interfaces.now names.now.nodes.now names.now.fates.now))) }
{
    let sent = sent_ends(*out.allocator(), names.interfaces)?;
    let mut window = [0; WINDOW];
    put_lines_by(out, &mut window, names, sent.as_slice())
}

fn put_packet_lines(out: &mut Vec<u8>, packets: &PacketLines) -> Result<(), AllocError>
    ensures { OnOk result (out.new.items ≡ out.old.items ++ flat_map line_text (numbered packet_line 0 packets.now)) }
{
    let names = packets.named_fates();
    put_fate_lines(out, &names)?;
    for number in names.fates.len()..packets.len() {
        put_packet_line(out, number, &packets.get(number))?;
    }
    Ok(())
}

fn put_trace_lines(out: &mut Vec<u8>, traces: &[Names]) -> Result<(), AllocError>
    ensures { OnOk result (out.new.items ≡ out.old.items ++ flat_map line_text (numbered trace_line 0 traces.now)) }
{
    for (number, names) in traces.iter().enumerate() {
        put_trace_line(out, number, names)?;
    }
    Ok(())
}

fn put_head_lines(out: &mut Vec<u8>, report: &Report) -> Result<(), AllocError>
    ensures { OnOk result (out.new.items ≡ out.old.items ++ flat_map line_text (head_lines report.now)) }
{
    put(out, b"vgd report 1\n")?;
    put_count_line(out, b"workers", u64::from(report.workers))?;
    put_count_line(out, b"buffers", u64::from(report.buffers))?;
    put_count_line(out, b"generations", u64::from(report.generations))?;
    put_count_line(out, b"packets", report.packets.len() as u64)
}

fn put_report(out: &mut Vec<u8>, report: &Report) -> Result<(), AllocError>
    ensures { OnOk result (out.new.items ≡ out.old.items ++ text report.now) }
{
    put_head_lines(out, report)?;
    put_interface_lines(out, report.interfaces.as_slice())?;
    put_node_lines(out, report.nodes.as_slice())?;
    put_error_lines(out, report.errors.as_slice())?;
    put_packet_lines(out, &report.packets)?;
    put_trace_lines(out, report.traces.as_slice())?;
    put(out, b"end\n")
}

/// The text of a lawful report: the counts, a line for each packet, and the traces. Words are parted by one
/// space, and each line ends with a line feed. The only error is want of memory.
pub fn write_report(alloc: Global, report: &Report) -> Result<Bytes, Memory>
    requires { IsLawful report.now }
    ensures { IfOk result (λ bytes. bytes ≡ text report.now) }
{
    // One vector has room for it from the start.
    let room = report
        .packets
        .len()
        .saturating_mul(ROOM_OF_A_LINE)
        .saturating_add(ROOM_OF_THE_OTHERS);
    let mut out = Vec::with_capacity(alloc, room)?;
    put_report(&mut out, report)?;
    Ok(Bytes::from_vec(out))
}
