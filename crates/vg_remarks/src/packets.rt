//! What became of single packets that need not have been so.
ghost use Rattle.std.specs.Prelude.{◌≡◌, ◌<◌, ℕ, List, is_some, length, slice_get};
ghost use Rattle.vg_model.specs.declared.routes.Prefix.{Prefix as PrefixValue};
ghost use Rattle.vg_report.specs.Seen.{line_seen};
ghost use Rattle.vg_remarks.specs.Addresses.{destination as destination_in, IsKnown};
ghost use Rattle.vg_remarks.specs.Found.{IsFound};
ghost use Rattle.vg_remarks.specs.Packets.{congested as congested_in, is_sent as is_sent_in, told_below, told_of, said_of};

use crate::addresses::{Class, Known, destination};
use crate::found::Found;
use vg_capture::Packets;
use vg_report::{EndRef, LineRef, PacketLines};

/// A packet that was transmitted, though a router does not forward to its destination.
#[derive(Clone, Copy, Debug, PartialEq, Eq)]
pub struct Unforwarded {
    /// The packet's number, from 0.
    pub number: u32,
    /// Its destination, in the host's order.
    pub address: u32,
    /// Why a router does not forward to it.
    pub class: Class,
}

/// What became of the packets of a run that need not have been so.
#[derive(Clone, Copy, Debug, PartialEq, Eq)]
pub struct Ends {
    /// How many packets were dropped, each since a queue to another worker was full.
    pub congested: usize,
    /// The packets that were transmitted though a router does not forward to their destinations.
    pub unforwarded: Found<Unforwarded>,
}

// Whether a packet was transmitted.
fn is_sent(line: LineRef<'_>) -> bool
    ensures { result ≡ is_sent_in (line_seen line.entry).end }
{
    match line.end {
        EndRef::Tx { .. } => true,
        EndRef::Dropped { .. } => false,
    }
}

// What is said of a packet to this address.
fn said(known: &Known, number: u32, address: Option<u32>) -> Option<Unforwarded>
    ensures { (led : List PrefixValue) → IsKnown led known.now → result ≡ said_of led number address }
{
    match address {
        None => None,
        Some(address) => match known.class(address) {
            None => None,
            Some(class) => Some(Unforwarded {
                number,
                address,
                class,
            }),
        },
    }
}

// What is said of the packet of this number. What became of it is looked up only where something is said of packets to its destination.
#[inline(never)]
fn told(known: &Known, packets: &Packets, lines: &PacketLines, number: u32) -> Option<Unforwarded>
    requires packet { number < length packets.now }
    requires line { number < length lines.now }
    ensures { (led : List PrefixValue) → IsKnown led known.now → result ≡ told_of led number (slice_get packets.now number) (slice_get lines.now number) }
{
    let one = said(known, number, destination(packets.bytes(number as usize)))?;
    if is_sent(lines.get(number as usize)) {
        Some(one)
    } else {
        None
    }
}

// Whether something is said of a packet with this frame, where it was transmitted.
#[inline]
fn is_remarkable(known: &Known, frame: &[u8]) -> bool
    ensures { (led : List PrefixValue) → IsKnown led known.now → (number : ℕ) → result ≡ is_some (said_of led number (destination_in frame.now)) }
{
    match destination(frame) {
        None => false,
        Some(address) => known.has_class(address),
    }
}

/// What became of the packets of a run that need not have been so: how many a full queue dropped, and those that were transmitted though a
/// router does not forward to their destinations.
pub fn ends_of(known: &Known, packets: &Packets, lines: &PacketLines) -> Ends
    requires { length lines.now ≡ length packets.now }
    ensures congested { result.congested ≡ congested_in lines.now }
    ensures unforwarded { (led : List PrefixValue) → IsKnown led known.now → IsFound (told_below led packets.now lines.now (length lines.now)) result.unforwarded }
{
    let mut congested = 0;
    let mut unforwarded = Found::none();
    for number in 0..packets.len() {
        if lines.is_congested(number) {
            congested += 1;
        }
        if is_remarkable(known, packets.bytes(number)) {
            unforwarded = unforwarded.with(told(known, packets, lines, number as u32));
        }
    }
    Ends {
        congested,
        unforwarded,
    }
}
