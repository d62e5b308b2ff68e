//! Captured packets, and the packets sent of them.
ghost use Rattle.std.specs.Prelude.{◌≡◌, ◌+◌, ◌<◌, ◌≤◌, ◌∷◌, ◌++◌, [], false, take, drop, Some, IfOk, OnOk, length, option_map, slice_get};
ghost use Rattle.vg_capture.specs.Places.{ArePlaces, captured_in, captured_with, marks_of};

use crate::layout::RECORD_HEADER_LEN;
use crate::records::{head, number_at};
use std::alloc::{AllocError, Global};
use std::marker::Model;
use vg_model::Bytes;
use vg_model::limits::MOST_PACKETS;

/// A captured packet: a record of a savefile.
#[derive(Drop)]
pub struct Captured {
    /// The time stamp's whole seconds.
    pub seconds: u32,
    /// The rest of the time stamp, in microseconds or nanoseconds as the capture says. It may be a
    /// second or more.
    pub fraction: u32,
    /// The packet's length on the wire in bytes, which may be more than was captured.
    pub original: u32,
    /// The bytes that were captured.
    pub bytes: Bytes,
}

/// A captured packet's time stamp and its length on the wire, as [`Captured`] has them.
#[derive(Clone, Copy)]
pub struct Marks {
    /// The time stamp's whole seconds.
    pub seconds: u32,
    /// The rest of the time stamp.
    pub fraction: u32,
    /// The packet's length on the wire in bytes.
    pub original: u32,
}

// Where the record of a captured packet stands, and how many bytes it has behind its header.
#[derive(Clone, Copy)]
pub(crate) struct Place {
    pub(crate) at: u32,
    pub(crate) len: u32,
}

/// The packets of a capture, at most [`MOST_PACKETS`]. They are seen as the list of them.
///
/// Their records stay where they were read: each packet is a place in them.
#[derive(Drop)]
pub struct Packets {
    bytes: Bytes,
    // Whether the numbers in the records' headers begin with their highest byte.
    big: bool,
    places: Vec<Place>,
}

impl Model for Packets {
    ghost use Rattle.std.specs.Prelude.{List};
    ghost use Rattle.vg_capture.specs.declared.captures.Captured.{Captured};
    ghost use Rattle.vg_capture.specs.Places.{ArePlaces, captured_in};

    ghost Value = { List Captured };

    ghost view = { λ p. captured_in p.big p.bytes p.places.items };

    ghost invariant = { λ p. ArePlaces p.bytes p.places.items };
}

/// Packets of a capture that stand one behind the other. They are seen as the list of them.
#[derive(Drop)]
pub struct Stretch<'a> {
    bytes: &'a [u8],
    big: bool,
    places: &'a [Place],
}

impl<'a> Model for Stretch<'a> {
    ghost use Rattle.std.specs.Prelude.{List};
    ghost use Rattle.vg_capture.specs.declared.captures.Captured.{Captured};
    ghost use Rattle.vg_capture.specs.Places.{ArePlaces, captured_in};

    ghost Value = { List Captured };

    ghost view = { λ s. captured_in s.big s.bytes.now s.places.now };

    ghost invariant = { λ s. ArePlaces s.bytes.now s.places.now };
}

impl<'a> Stretch<'a> {
    /// How many packets there are.
    pub fn len(&self) -> usize
        ensures count { result ≡ length self.now }
        ensures few { length self.now ≤ MOST_PACKETS }
    {
        self.places.len()
    }

    /// The bytes that were captured of one of them.
    pub fn bytes(&self, k: usize) -> &'a [u8]
        requires { k < length self.now }
        ensures { option_map (λ packet. packet.bytes) (slice_get self.now k) ≡ Some result.now }
    {
        let places = self.places;
        let place = places[k];
        let start = place.at as usize + RECORD_HEADER_LEN;
        &self.bytes[start..start + place.len as usize]
    }
}

impl Packets {
    // The packets whose records stand at these places of the bytes.
    pub(crate) fn from_places(bytes: Bytes, big: bool, places: Vec<Place>) -> Packets
        requires { ArePlaces bytes places.items }
        ensures { result ≡ captured_in big bytes places.items }
    {
        Packets { bytes, big, places }
    }

    /// These packets. Their bytes are copied.
    ///
    /// # Errors
    ///
    /// [`AllocError`] where memory runs out, or where a record, with a header of 16 bytes, would begin at byte 2^32 or later, or a
    /// packet has 2^32 bytes or more.
    pub fn of(alloc: Global, packets: &[Captured]) -> Result<Packets, AllocError>
        requires { length packets.now ≤ MOST_PACKETS }
        ensures { IfOk result (λ made. made ≡ packets.now) }
    {
        let mut bytes = Vec::new(alloc);
        let mut places = Vec::new(alloc);
        for packet in packets {
            let marks = Marks {
                seconds: packet.seconds,
                fraction: packet.fraction,
                original: packet.original,
            };
            add(&mut bytes, &mut places, marks, packet.bytes.as_slice())?;
        }
        Ok(Packets {
            bytes: Bytes::from_vec(bytes),
            big: false,
            places,
        })
    }

    /// How many packets there are.
    pub fn len(&self) -> usize
        ensures count { result ≡ length self.now }
        ensures few { length self.now ≤ MOST_PACKETS }
    {
        self.places.len()
    }

    /// So many packets, from the one of this number on.
    pub fn stretch(&self, from: usize, count: usize) -> Stretch<'_>
        requires { from + count ≤ length self.now }
        ensures { result ≡ take count (drop from self.now) }
    {
        Stretch {
            bytes: self.bytes.as_slice(),
            big: self.big,
            places: &self.places[from..from + count],
        }
    }

    /// The bytes that were captured of a packet.
    pub fn bytes(&self, number: usize) -> &[u8]
        requires { number < length self.now }
        ensures { option_map (λ packet. packet.bytes) (slice_get self.now number) ≡ Some result.now }
    {
        let place = self.places[number];
        let start = place.at as usize + RECORD_HEADER_LEN;
        &self.bytes.as_slice()[start..start + place.len as usize]
    }

    /// The time stamp of a packet and its length on the wire.
    pub fn marks(&self, number: usize) -> Marks
        requires { number < length self.now }
        ensures { option_map marks_of (slice_get self.now number) ≡ Some result }
    {
        let at = self.places[number].at as usize;
        let bytes = self.bytes.as_slice();
        Marks {
            seconds: number_at(self.big, bytes, at),
            fraction: number_at(self.big, bytes, at + 4),
            original: number_at(self.big, bytes, at + 12),
        }
    }
}

// Adds a packet behind the others: its record, and the place of that.
fn add(
    bytes: &mut Vec<u8>,
    places: &mut Vec<Place>,
    marks: Marks,
    more: &[u8],
) -> Result<(), AllocError>
    requires few { length places.old.items < MOST_PACKETS }
    requires places { ArePlaces bytes.old.items places.old.items }
    ensures packets { OnOk result (captured_in false bytes.new.items places.new.items ≡ captured_in false bytes.old.items places.old.items ++ captured_with marks more.now ∷ []) }
    ensures places { OnOk result (ArePlaces bytes.new.items places.new.items) }
{
    let Ok(at) = u32::try_from(bytes.len()) else {
        return Err(AllocError);
    };
    let Ok(len) = u32::try_from(more.len()) else {
        return Err(AllocError);
    };
    let head = head(marks, len);
    bytes.extend_from_slice(&head)?;
    bytes.extend_from_slice(more)?;
    places.push(Place { at, len })?;
    Ok(())
}

/// A capture: what a savefile holds.
#[derive(Drop)]
pub struct Capture {
    /// Whether the fractions of time stamps are nanoseconds; else they are microseconds.
    pub nanos: bool,
    /// The greatest number of bytes that were to be captured of a packet. It is kept, and not checked.
    pub snaplen: u32,
    /// The packets, in the order of the file.
    pub packets: Packets,
}

/// A packet that was transmitted.
#[derive(Drop)]
pub struct Sent {
    /// The number of the captured packet that it was, from 0.
    pub number: u32,
    /// The bytes that were transmitted.
    pub bytes: Bytes,
}

/// A capture has at most 65,536 packets: for proofs that need the fact stated.
pub fn know_few(capture: &Capture)
    ensures { length capture.now.packets ≤ 65536 }
{
    let _count = capture.packets.len();
}
