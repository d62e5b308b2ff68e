//! Where a file first differs from the savefile of packets.
ghost use Rattle.std.specs.Prelude.{◌≡◌, ◌<◌, ◌≤◌, ◌++◌, ℕ, [], length, drop, slice_get, take, IfOk, OnOk, MatchOption};
ghost use Rattle.vg_capture.specs.Savefile.{pairs, savefile, AreWithin};
ghost use Rattle.vg_check.specs.Saves.{sent_first, sent_from};
ghost use Rattle.vg_differs.specs.Records.{fault_at as fault_in, fault_by as fault_among, own_len as len_by_header, IsOtherFile};

use crate::places::first_difference;
use crate::records::{Fault, RECORD_HEADER_LEN, Spot, spot_at};
use byteorder::{ByteOrder, LittleEndian};
use std::alloc::{AllocError, Global};
use vg_capture::{Capture, Sent, know_few, write_capture};
use vg_model::{Bytes, Memory};
use vg_replay::{Outcome, Trip, Trips};

/// Where a file first differs from the savefile that is wanted.
#[derive(Clone, Copy, Debug, PartialEq, Eq)]
pub struct OtherFile {
    /// The first place at which they differ.
    pub place: usize,
    /// The byte that stands there; None where the file ends.
    pub stands: Option<u8>,
    /// The byte that is wanted there; None where nothing is.
    pub wanted: Option<u8>,
    /// How many records are wanted.
    pub records: usize,
    /// The wanted record that the place is in; None in the file's header, and behind the last record.
    pub spot: Option<Spot>,
    /// What is wrong with that record; another byte where there is none.
    pub fault: Fault,
}

// Puts a packet behind those that were sent, where it was sent.
fn put_sent(
    alloc: Global,
    sent: &mut Vec<Sent>,
    number: u32,
    trip: &Trip<'_>,
) -> Result<(), AllocError>
    ensures sent { OnOk result (pairs sent.new.items ≡ pairs sent.old.items ++ sent_first number trip.now.packet.bytes trip.now.outcome []) }
    ensures within { OnOk result ((packets : ℕ) → number < packets → AreWithin packets sent.old.items → AreWithin packets sent.new.items) }
{
    match trip.outcome() {
        Outcome::Sent { .. } => {
            let bytes = Bytes::from_vec(Vec::from_slice(alloc, trip.bytes())?);
            sent.push(Sent { number, bytes })?;
            Ok(())
        }
        Outcome::Dropped { .. } | Outcome::Handed { .. } => Ok(()),
    }
}

// The packets that were sent, in their order.
fn sent_of(alloc: Global, packets: usize, trips: &Trips) -> Result<Vec<Sent>, AllocError>
    requires few { length trips.now ≤ packets }
    requires most { packets ≤ 65536 }
    ensures sent { IfOk result (λ sent. pairs sent.items ≡ sent_from 0 trips.now) }
    ensures within { IfOk result (λ sent. AreWithin packets sent.items) }
{
    let mut sent = Vec::new(alloc);
    for number in 0..trips.len() {
        put_sent(alloc, &mut sent, number as u32, &trips.get(number))?;
    }
    Ok(sent)
}

// How many bytes a record has by its own header; its header's alone where that isn't whole.
fn own_len(bytes: &[u8]) -> usize
    ensures { result ≡ len_by_header bytes.now }
{
    if bytes.len() < 12 {
        return RECORD_HEADER_LEN;
    }
    RECORD_HEADER_LEN + LittleEndian::read_u32(&bytes[8..]) as usize
}

// The bytes from a place on; none where there are fewer.
fn from(bytes: &[u8], place: usize) -> &[u8]
    ensures { result.now ≡ drop place bytes.now }
{
    match bytes.get(place..) {
        Some(rest) => rest,
        None => &[],
    }
}

// The first bytes, or all where there are fewer.
fn first(bytes: &[u8], count: usize) -> &[u8]
    ensures { result.now ≡ take count bytes.now }
{
    match bytes.get(..count) {
        Some(front) => front,
        None => bytes,
    }
}

// The byte at a place, where there is one.
fn byte_at(bytes: &[u8], place: usize) -> Option<u8>
    ensures { result ≡ slice_get bytes.now place }
{
    bytes.get(place).copied()
}

// What is wrong where these bytes stand and this record is wanted, and the next behind it.
fn fault_by(there: &[u8], due: &[u8], next: &[u8]) -> Fault
    ensures { result ≡ fault_among there.now due.now next.now }
{
    if there.is_empty() {
        return Fault::Missing;
    }
    if !next.is_empty() && there.starts_with(next) {
        return if from(there, next.len()).starts_with(due) {
            Fault::Exchanged
        } else {
            Fault::Missing
        };
    }
    if from(there, own_len(there)).starts_with(due) {
        Fault::TooMany
    } else {
        Fault::Byte
    }
}

// What is wrong with a file at a record of the one that is wanted.
fn fault_at(file: &[u8], wanted: &[u8], spot: Option<Spot>) -> Fault
    ensures { result ≡ fault_in file.now wanted.now spot }
{
    let Some(spot) = spot else {
        return Fault::Byte;
    };
    let due = first(from(wanted, spot.start), spot.len);
    let behind = from(from(wanted, spot.start), spot.len);
    fault_by(from(file, spot.start), due, first(behind, spot.next))
}

/// Where a file first differs from the savefile of what packets sent. None where it is that savefile.
///
/// # Errors
///
/// [`Memory`] where memory runs out.
pub fn other_file(
    alloc: Global,
    capture: &Capture,
    trips: &Trips,
    file: &[u8],
) -> Result<Option<OtherFile>, Memory>
    requires { length trips.now ≤ length capture.now.packets }
    ensures { IfOk result (λ other. MatchOption other (file.now ≡ savefile capture.now (sent_from 0 trips.now))
        (IsOtherFile capture.now (sent_from 0 trips.now) file.now)) }
{
    know_few(capture);
    let sent = sent_of(alloc, capture.packets.len(), trips)?;
    let sent = sent.as_slice();
    let wanted = write_capture(alloc, capture, sent)?;
    let wanted = wanted.as_slice();
    match first_difference(file, wanted) {
        None => Ok(None),
        Some(place) => {
            let spot = spot_at(sent, place);
            Ok(Some(OtherFile {
                place,
                stands: byte_at(file, place),
                wanted: byte_at(wanted, place),
                records: sent.len(),
                spot,
                fault: fault_at(file, wanted, spot),
            }))
        }
    }
}
