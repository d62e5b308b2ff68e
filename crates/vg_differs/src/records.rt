//! The record of a savefile that a place is in.
ghost use Rattle.std.specs.Prelude.{◌≡◌, slice_get, MatchOption};
ghost use Rattle.vg_capture.specs.Savefile.{pairs};
ghost use Rattle.vg_differs.specs.Records.{part_of as part_in, next_len, IsOutside, IsSpot};

use vg_capture::Sent;
use vg_match::{Field, layout_of};

/// How many bytes a savefile has in front of its records.
const FILE_HEADER_LEN: usize = 24;

/// How many bytes a record has in front of its packet.
pub(crate) const RECORD_HEADER_LEN: usize = 16;

/// What of a record a byte is.
#[derive(Clone, Copy, Debug, PartialEq, Eq)]
pub enum Part {
    /// One of the seconds of its time stamp.
    Seconds,
    /// One of the fraction of a second.
    Fraction,
    /// One of the captured length.
    CapturedLength,
    /// One of the length that the packet had when it came in.
    OriginalLength,
    /// The byte of this number of the packet, from 0, and the field that it is in, where it is in one.
    Packet { at: usize, field: Option<Field> },
}

/// What is wrong with a savefile at a record.
#[derive(Clone, Copy, Debug, PartialEq, Eq)]
pub enum Fault {
    /// The record is missing: the file ends in front of it, or the next one stands in its place.
    Missing,
    /// Another record stands in front of it.
    TooMany,
    /// It and the next record are exchanged.
    Exchanged,
    /// A byte is another.
    Byte,
}

/// A record of a savefile that a place is in.
#[derive(Clone, Copy, Debug, PartialEq, Eq)]
pub struct Spot {
    /// Its number among the records, from 0.
    pub record: usize,
    /// The number of its packet, from 0.
    pub packet: u32,
    /// Where it begins in the file.
    pub start: usize,
    /// How many bytes it has.
    pub len: usize,
    /// How many bytes the next record has; 0 where it is the last.
    pub next: usize,
    /// What of it the byte at the place is.
    pub part: Part,
}

// What of a record its byte of this number is, where its packet has these bytes.
fn part_of(bytes: &[u8], at: usize) -> Part
    ensures { result ≡ part_in bytes.now at }
{
    if at < 4 {
        return Part::Seconds;
    }
    if at < 8 {
        return Part::Fraction;
    }
    if at < 12 {
        return Part::CapturedLength;
    }
    if at < RECORD_HEADER_LEN {
        return Part::OriginalLength;
    }
    let at = at - RECORD_HEADER_LEN;
    Part::Packet {
        at,
        field: Field::at(&layout_of(bytes), at),
    }
}

// How many bytes the record of this number has; 0 where there is none.
fn len_of(sent: &[Sent], number: usize) -> usize
    ensures { result ≡ next_len (slice_get (pairs sent.now) number) }
{
    match sent.get(number) {
        Some(one) => RECORD_HEADER_LEN + one.bytes.as_slice().len(),
        None => 0,
    }
}

/// The record that a place of the savefile of packets sent is in. None in front of the first, and behind the last.
pub fn spot_at(sent: &[Sent], place: usize) -> Option<Spot>
    ensures { MatchOption result (IsOutside (pairs sent.now) place) (IsSpot (pairs sent.now) place) }
{
    if place < FILE_HEADER_LEN {
        return None;
    }
    let mut start = FILE_HEADER_LEN;
    for number in 0..sent.len() {
        let one = &sent[number];
        let bytes = one.bytes.as_slice();
        let len = RECORD_HEADER_LEN + bytes.len();
        if place - start < len {
            return Some(Spot {
                record: number,
                packet: one.number,
                start,
                len,
                next: len_of(sent, number + 1),
                part: part_of(bytes, place - start),
            });
        }
        start += len;
    }
    None
}
