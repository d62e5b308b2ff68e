//! The visit of `ip4-rewrite` (RFC 1812, section 5.3.1).
ghost use Rattle.std.specs.Prelude.{◌≡◌, ◌≢◌, ◌<◌, ◌≤◌, true, take, slice_get, IfSome, length, option_and_then};
ghost use Rattle.std.specs.Option.{option_copied};
ghost use Rattle.vg_model.specs.Header.{lowered};
ghost use Rattle.vg_model.specs.Valid.{IsMac, IsPacket};
ghost use Rattle.vg_model.specs.Visit as visits;
ghost use Rattle.vg_pool.specs.Contents.{written, head_of, Passes};

use crate::heads::{header_of, know_headers, time_to_live_of, total_len_of};
use crate::nodes::steps::{NEXT, dropped};
use vg_fork::Fork;
use vg_model::{Adjacency, DropError, Interface, Step};
use vg_packet::headers::ETHERNET_LEN;
use vg_packet::{TIME_TO_LIVE, lowered_ttl};
use vg_pool::{Buffer, know_contents};

// Makes the frame ready for the next hop.
#[inline(always)]
pub(crate) fn ip4_rewrite(fork: &Fork, buffer: &mut Buffer) -> Step
    ensures visited { (result, buffer.new.packet) ≡ visits.ip4_rewrite fork.now.graph buffer.old.packet }
    ensures legs { buffer.new.legs ≡ buffer.old.legs }
    ensures chain { buffer.new.pieces ≡ buffer.old.pieces }
{
    if !buffer.checked() {
        return dropped(DropError::Unchecked);
    }
    match adjacency_of(fork, buffer.adjacency()) {
        None => dropped(DropError::NoRoute),
        Some(adjacency) => send_over(fork, adjacency, buffer),
    }
}

/// The adjacency of this number, where the graph has it.
#[inline]
pub fn adjacency_of(fork: &Fork, number: Option<u16>) -> Option<&Adjacency>
    ensures adjacency { option_copied result ≡ option_and_then (slice_get fork.now.graph.adjacencies) number }
    ensures interface { IfSome result (λ a. a.now.interface < length fork.now.graph.interfaces) }
    ensures mac { IfSome result (λ a. IsMac a.now.mac) }
{
    match number {
        Some(number) if number < fork.adjacencies() => Some(fork.adjacency(number)),
        _ => None,
    }
}

// Makes the frame ready for this neighbor, where its time to live and its length allow it.
#[inline(always)]
fn send_over(fork: &Fork, adjacency: &Adjacency, buffer: &mut Buffer) -> Step
    requires interface { adjacency.now.interface < length fork.now.graph.interfaces }
    requires mac { IsMac adjacency.now.mac }
    requires checked { buffer.old.packet.checked ≡ true }
    ensures visited { (result, buffer.new.packet)
        ≡ visits.over_interface adjacency.now (slice_get fork.now.graph.interfaces adjacency.now.interface) buffer.old.packet }
    ensures legs { buffer.new.legs ≡ buffer.old.legs }
    ensures chain { buffer.new.pieces ≡ buffer.old.pieces }
{
    let interface = fork.interface(adjacency.interface);
    if time_to_live_of(buffer) == 1 {
        return dropped(DropError::TtlExpired);
    }
    if total_len_of(buffer) > interface.mtu {
        return dropped(DropError::MtuExceeded);
    }
    know_contents(buffer);
    know_headers(buffer);
    rewrite(buffer, adjacency, interface);
    buffer.set_interface(adjacency.interface);
    NEXT
}

// Writes the Ethernet header to a neighbor, and lowers the time to live (RFC 1812, section 5.3.1).
#[inline(always)]
fn rewrite(buffer: &mut Buffer, adjacency: &Adjacency, interface: &Interface)
    requires neighbor { IsMac adjacency.now.mac }
    requires own { IsMac interface.now.mac }
    requires possible { IsPacket buffer.old.packet }
    requires long { 34 ≤ length (head_of buffer.old.packet) }
    requires checked { buffer.old.packet.checked ≡ true }
    requires alive { visits.time_to_live (visits.datagram buffer.old.packet) ≢ 1 }
    ensures { buffer.new ≡ record buffer.old { packet = record buffer.old.packet { bytes = visits.rewritten adjacency.now interface.now buffer.old.packet.bytes } } }
{
    let neighbor = adjacency.mac.0;
    let own = interface.mac.0;
    buffer.write(0, &neighbor);
    buffer.write(6, &own);
    lower_header(buffer);
}

// Lowers the time to live of the IPv4 header. No more than the bytes that change are written, at once with the one between them.
#[inline(always)]
fn lower_header(buffer: &mut Buffer)
    requires passes { Passes buffer.old.packet }
    requires sound { let d = visits.datagram buffer.old.packet in
        Passes (written buffer.old.packet visits.ethernet_len (lowered (take (visits.header_len d) d))) }
    ensures { let d = visits.datagram buffer.old.packet in
        buffer.new ≡ record buffer.old { packet = written buffer.old.packet visits.ethernet_len (lowered (take (visits.header_len d) d)) } }
{
    let lowered = lowered_ttl(header_of(buffer));
    buffer.write((ETHERNET_LEN + TIME_TO_LIVE) as u32, &lowered);
}
