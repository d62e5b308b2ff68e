//! The visit of `ip6-rewrite` (RFC 8200, section 3).
ghost use Rattle.std.specs.Prelude.{◌≡◌, ◌≤◌, ◌<◌, [], ◌∷◌, false, length, slice_get};
ghost use Rattle.vg_model.specs.Bytes.{overwritten};
ghost use Rattle.vg_model.specs.Valid.{IsMac};
ghost use Rattle.vg_model.specs.Visit.{datagram};
ghost use Rattle.vg_pool.specs.Contents.{head_of};
ghost use Rattle.vg_ip6.specs.Header as headers;
ghost use Rattle.vg_ip6.specs.Visit as visits;

use crate::fields::{HEADER_LEN, HOP_LIMIT};
use crate::heads::{hop_limit_of, know_header, lacks_header, payload_len_of};
use vg_fork::Fork;
use vg_model::{Adjacency, DropError, Interface, Step};
use vg_nodes::parts::{NEXT, adjacency_of, dropped};
use vg_packet::headers::ETHERNET_LEN;
use vg_pool::Buffer;

// Makes the frame ready for the next hop.
#[inline(always)]
pub(crate) fn ip6_rewrite(fork: &Fork, buffer: &mut Buffer) -> Step
    ensures visited { (result, buffer.new.packet) ≡ visits.ip6_rewrite fork.now.graph buffer.old.packet }
    ensures legs { buffer.new.legs ≡ buffer.old.legs }
    ensures chain { buffer.new.pieces ≡ buffer.old.pieces }
{
    if lacks_header(buffer) {
        return dropped(DropError::Unchecked);
    }
    match adjacency_of(fork, buffer.adjacency()) {
        None => dropped(DropError::NoRoute),
        Some(adjacency) => send_over(fork, adjacency, buffer),
    }
}

// Makes the frame ready for this neighbor, where its hop limit and its length allow it.
#[inline(always)]
fn send_over(fork: &Fork, adjacency: &Adjacency, buffer: &mut Buffer) -> Step
    requires interface { adjacency.now.interface < length fork.now.graph.interfaces }
    requires mac { IsMac adjacency.now.mac }
    requires has { headers.lacks_header (datagram buffer.old.packet) ≡ false }
    ensures visited { (result, buffer.new.packet)
        ≡ visits.over_interface6 adjacency.now (slice_get fork.now.graph.interfaces adjacency.now.interface) buffer.old.packet }
    ensures legs { buffer.new.legs ≡ buffer.old.legs }
    ensures chain { buffer.new.pieces ≡ buffer.old.pieces }
{
    let interface = fork.interface(adjacency.interface);
    let hops = hop_limit_of(buffer);
    if hops <= 1 {
        return dropped(DropError::TtlExpired);
    }
    if HEADER_LEN as u32 + u32::from(payload_len_of(buffer)) > u32::from(interface.mtu) {
        return dropped(DropError::MtuExceeded);
    }
    know_header(buffer);
    rewrite(buffer, adjacency, interface, hops - 1);
    buffer.set_interface(adjacency.interface);
    NEXT
}

// Writes the Ethernet header to a neighbor, and this hop limit.
#[inline(always)]
fn rewrite(buffer: &mut Buffer, adjacency: &Adjacency, interface: &Interface, hops: u8)
    requires neighbor { IsMac adjacency.now.mac }
    requires own { IsMac interface.now.mac }
    requires plain { buffer.old.packet.checked ≡ false }
    requires long { 54 ≤ length (head_of buffer.old.packet) }
    ensures { buffer.new ≡ record buffer.old {
      packet = record buffer.old.packet {
        bytes =
            overwritten (overwritten (overwritten buffer.old.packet.bytes 0 adjacency.now.mac.0) 6 interface.now.mac.0) 21 (hops ∷ []);
      };
    } }
{
    buffer.write(0, &adjacency.mac.0);
    buffer.write(6, &interface.mac.0);
    buffer.write((ETHERNET_LEN + HOP_LIMIT) as u32, &[hops]);
}
