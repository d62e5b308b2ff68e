//! The savefile of what packets sent, compared where it stands.
ghost use Rattle.std.specs.Prelude.{◌≡◌, ◌≢◌, ◌↔◌, ◌++◌, ◌<◌, ◌≤◌, ◌^◌, ℕ, List, length, IsTrue, IfOk, MatchOption};
ghost use Rattle.vg_capture.specs.Places.{head_of};
ghost use Rattle.vg_capture.specs.Savefile.{savefile};
ghost use Rattle.vg_check.specs.Saves.{record_in, records_from, sent_from};

use std::alloc::Global;
use vg_capture::{Capture, Marks, Savefile};
use vg_model::Memory;
use vg_replay::{Outcome, Trip, Trips};

// What stands behind these bytes; None where others stand at the front.
fn behind<'a>(bytes: &'a [u8], front: &[u8]) -> Option<&'a [u8]>
    ensures { MatchOption result ((more : List ℕ) → bytes.now ≢ front.now ++ more) (λ rest. bytes.now ≡ front.now ++ rest.now) }
{
    bytes.strip_prefix(front)
}

// What stands behind the header of a record of a packet with these marks and so many bytes, little-endian; None where another
// stands at the front.
fn behind_head<'a>(bytes: &'a [u8], marks: Marks, len: u32) -> Option<&'a [u8]>
    ensures { MatchOption result ((more : List ℕ) → bytes.now ≢ head_of marks len ++ more) (λ rest. bytes.now ≡ head_of marks len ++ rest.now) }
{
    let bytes = behind(bytes, &marks.seconds.to_le_bytes())?;
    let bytes = behind(bytes, &marks.fraction.to_le_bytes())?;
    let bytes = behind(bytes, &len.to_le_bytes())?;
    behind(bytes, &marks.original.to_le_bytes())
}

// What stands behind the record of a packet with these marks and these bytes; None where another stands at the front.
fn behind_record<'a>(bytes: &'a [u8], marks: Marks, packet: &[u8]) -> Option<&'a [u8]>
    requires { length packet.now < 2 ^ 32 }
    ensures { MatchOption result ((more : List ℕ) → bytes.now ≢ head_of marks (length packet.now) ++ packet.now ++ more)
        (λ rest. bytes.now ≡ head_of marks (length packet.now) ++ packet.now ++ rest.now) }
{
    let bytes = behind_head(bytes, marks, packet.len() as u32)?;
    behind(bytes, packet)
}

// What stands behind the record of a packet that was sent, or all where it wasn't; None where another record stands at the front.
fn behind_sent<'a>(
    bytes: &'a [u8],
    capture: &Capture,
    number: usize,
    trip: &Trip<'_>,
) -> Option<&'a [u8]>
    requires { number < length capture.now.packets }
    ensures { MatchOption result ((more : List ℕ) → bytes.now ≢ record_in capture.now.packets number trip.now ++ more)
        (λ rest. bytes.now ≡ record_in capture.now.packets number trip.now ++ rest.now) }
{
    match trip.outcome() {
        Outcome::Sent { .. } => behind_record(bytes, capture.packets.marks(number), trip.bytes()),
        Outcome::Dropped { .. } | Outcome::Handed { .. } => Some(bytes),
    }
}

// Whether bytes are the records of what packets sent.
fn are_records(capture: &Capture, trips: &Trips, bytes: &[u8]) -> bool
    requires { length trips.now ≤ length capture.now.packets }
    ensures { IsTrue result ↔ (bytes.now ≡ records_from capture.now.packets 0 trips.now) }
{
    let mut rest = bytes;
    for k in 0..trips.len() {
        let trip = trips.get(k);
        match behind_sent(rest, capture, k, &trip) {
            Some(more) => rest = more,
            None => return false,
        }
    }
    rest.is_empty()
}

/// Whether a file is the savefile of what packets sent.
pub(crate) fn is_saved(
    alloc: Global,
    capture: &Capture,
    trips: &Trips,
    file: &[u8],
) -> Result<bool, Memory>
    requires { length trips.now ≤ length capture.now.packets }
    ensures { IfOk result (λ same. IsTrue same ↔ (file.now ≡ savefile capture.now (sent_from 0 trips.now))) }
{
    let header = Savefile::begin(alloc, capture, Savefile::room(0, 0))?;
    let header = header.end();
    match behind(file, header.as_slice()) {
        Some(records) => Ok(are_records(capture, trips, records)),
        None => Ok(false),
    }
}
