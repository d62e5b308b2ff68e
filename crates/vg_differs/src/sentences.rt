//! A sentence on what is found of a check, written to the standard error.

use crate::finding::Finding;
use crate::lines::OtherLine;
use crate::records::{Fault, Part, Spot};
use crate::saved::OtherFile;
use std::alloc::{AllocError, Global};
use std::{io, str};

// Where in a record a byte stands.
fn place_of(alloc: Global, part: Part) -> Result<String, AllocError> {
    match part {
        Part::Seconds => String::from_str(alloc, "in the seconds of its time stamp"),
        Part::Fraction => String::from_str(alloc, "in the fraction of its time stamp"),
        Part::CapturedLength => String::from_str(alloc, "in its captured length"),
        Part::OriginalLength => String::from_str(alloc, "in its original length"),
        Part::Packet { at, field: None } => format!(in alloc; "at byte {at} of the packet"),
        Part::Packet {
            at,
            field: Some(field),
        } => {
            let name = field.name();
            format!(in alloc; "at byte {at} of the packet, in the field `{name}`")
        }
    }
}

// A byte that may be there.
fn byte_of(alloc: Global, byte: Option<u8>) -> Result<String, AllocError> {
    match byte {
        Some(byte) => format!(in alloc; "0x{byte:02x}"),
        None => String::from_str(alloc, "the end of the file"),
    }
}

// What stands at a place, and what is wanted there.
fn bytes_of(alloc: Global, other: &OtherFile) -> Result<String, AllocError> {
    let stands = byte_of(alloc, other.stands)?;
    let wanted = byte_of(alloc, other.wanted)?;
    format!(in alloc; "{stands} stands there, and {wanted} is wanted")
}

// The sentence on another record.
fn record_sentence(alloc: Global, other: &OtherFile, spot: &Spot) -> Result<String, AllocError> {
    let (record, packet) = (spot.record, spot.packet);
    match other.fault {
        Fault::Missing => {
            format!(in alloc;
                "record {record} of TX, counted from 0, is missing: that of packet {packet}"
            )
        }
        Fault::TooMany => {
            format!(in alloc;
                "record {record} of TX, counted from 0, is one too many: that of packet {packet} stands behind it"
            )
        }
        Fault::Exchanged => {
            format!(in alloc;
                "record {record} of TX, counted from 0, and the next are exchanged: that of packet {packet} comes first"
            )
        }
        Fault::Byte => {
            let place = place_of(alloc, spot.part)?;
            let bytes = bytes_of(alloc, other)?;
            format!(in alloc;
                "record {record} of TX, counted from 0, is that of packet {packet}, and differs first {place}: {bytes}"
            )
        }
    }
}

// The sentence on another savefile.
fn file_sentence(alloc: Global, other: &OtherFile) -> Result<String, AllocError> {
    let (place, records) = (other.place, other.records);
    match &other.spot {
        Some(spot) => record_sentence(alloc, other, spot),
        None if other.wanted.is_none() => {
            format!(in alloc;
                "record {records} of TX, counted from 0, is one too many: {records} are wanted"
            )
        }
        None => {
            let bytes = bytes_of(alloc, other)?;
            format!(in alloc;
                "TX differs first at byte {place}, in the header of the file: {bytes}"
            )
        }
    }
}

// The sentence on another line.
fn line_sentence(alloc: Global, line: &OtherLine) -> Result<String, AllocError> {
    let number = line.number;
    let stands = str::from_utf8(line.stands.as_slice()).unwrap_or("?");
    let wanted = str::from_utf8(line.wanted.as_slice()).unwrap_or("?");
    format!(in alloc; "line {number} of the report is `{stands}`, and `{wanted}` is wanted")
}

// The sentence on a count of a full queue.
fn queue_sentence(
    alloc: Global,
    number: u32,
    accepted: Option<u64>,
    slots: u64,
) -> Result<String, AllocError> {
    match accepted {
        Some(count) if count < slots => format!(in alloc;
            "the line of packet {number} says `congested {count}`, but a queue of {slots} slots has accepted {slots} before it is full: give `--queue` as the run had it"
        ),
        Some(count) => format!(in alloc;
            "the line of packet {number} says `congested {count}`, more than the packets that go over that queue"
        ),
        None => format!(in alloc; "the line of packet {number} names no queue"),
    }
}

/// The sentence on what is found, without the end of its line.
///
/// # Errors
///
/// [`AllocError`] where memory runs out.
pub fn sentence(alloc: Global, finding: &Finding) -> Result<String, AllocError> {
    match finding {
        Finding::Choices { number, time, due } => {
            let (number, time, due) = (*number, *time, *due);
            format!(in alloc;
                "packet {number} came at {time} microseconds, when generation {due} was due: its legs begin with that generation, and none goes back to an older one"
            )
        }
        Finding::Queue {
            number,
            accepted,
            slots,
        } => queue_sentence(alloc, *number, *accepted, *slots),
        Finding::Text(line) => line_sentence(alloc, line),
        Finding::Tx(other) => file_sentence(alloc, other),
    }
}

/// Writes the sentence on what is found to the standard error.
pub fn print_finding<R: Eprint + AllocGlobal>(rt: &R, finding: &Finding) -> io::Result<()> {
    let sentence = sentence(rt.alloc(), finding)?;
    eprintln!(rt; "vgd: {sentence}")
}
