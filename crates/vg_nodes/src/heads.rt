//! What is read of a packet: all of it stands in the packet's head.
ghost use Rattle.std.specs.Prelude.{◌≡◌, ◌≤◌, true, nat_lt, length, take, drop};
ghost use Rattle.vg_model.specs.Bytes.{number16_at};
ghost use Rattle.vg_model.specs.Hash.{flow_hash as hash_of_flow};
ghost use Rattle.vg_model.specs.Visit as visits;
ghost use Rattle.vg_model.specs.Visit.{ethernet_len};
ghost use Rattle.vg_pool.specs.Contents.{Passes, head_of};

use vg_model::{DropError, HashKind, Interface};
use vg_packet::headers::{
    ETHERNET_LEN, ETHERTYPE, destination, header_fault, header_len, is_foreign, time_to_live,
    total_len,
};
use vg_packet::{flow_hash, u16_at};
use vg_pool::{Buffer, know_contents};

/// Whether the packet has less than an Ethernet header.
#[inline]
pub fn is_short(buffer: &Buffer) -> bool
    ensures { result ≡ nat_lt (length buffer.now.packet.bytes) ethernet_len }
{
    buffer.head().len() < ETHERNET_LEN
}

/// Whether the interface filters, and the packet is neither to its address nor to a group.
#[inline]
pub fn is_foreign_to(interface: &Interface, buffer: &Buffer) -> bool
    requires { ethernet_len ≤ length buffer.now.packet.bytes }
    ensures { result ≡ visits.is_foreign interface.now buffer.now.packet.bytes }
{
    is_foreign(interface, buffer.head())
}

/// The type in the Ethernet header.
#[inline]
pub fn type_of(buffer: &Buffer) -> u16
    requires { ethernet_len ≤ length buffer.now.packet.bytes }
    ensures { result ≡ number16_at buffer.now.packet.bytes 12 }
{
    u16_at(buffer.head(), ETHERTYPE)
}

/// The hash of the packet.
#[inline]
pub(crate) fn hash_of(kind: HashKind, buffer: &Buffer) -> u32
    ensures { result ≡ hash_of_flow kind buffer.now.packet.bytes }
{
    flow_hash(kind, buffer.head())
}

// What stands behind the Ethernet header of a head that has one.
#[inline]
fn datagram_in(head: &[u8]) -> &[u8]
    requires { ethernet_len ≤ length head.now }
    ensures { result.now ≡ drop ethernet_len head.now }
{
    &head[ETHERNET_LEN..]
}

/// The first check of the packet's IPv4 header that fails.
#[inline]
pub(crate) fn fault_of(buffer: &Buffer) -> Option<DropError>
    ensures { result ≡ visits.header_fault (visits.datagram buffer.now.packet) }
{
    let head = buffer.head();
    if head.len() < ETHERNET_LEN {
        return Some(DropError::Short);
    }
    let len = buffer.len() as usize - ETHERNET_LEN;
    header_fault(datagram_in(head), len)
}

/// The destination address of a packet with the mark.
#[inline]
pub(crate) fn destination_of(buffer: &Buffer) -> u32
    requires { buffer.now.packet.checked ≡ true }
    ensures { result ≡ visits.destination (visits.datagram buffer.now.packet) }
{
    destination(datagram_in(buffer.head()))
}

/// The time to live of a packet with the mark.
#[inline]
pub(crate) fn time_to_live_of(buffer: &Buffer) -> u8
    requires { buffer.now.packet.checked ≡ true }
    ensures { result ≡ visits.time_to_live (visits.datagram buffer.now.packet) }
{
    time_to_live(datagram_in(buffer.head()))
}

/// The total length of a packet with the mark.
#[inline]
pub(crate) fn total_len_of(buffer: &Buffer) -> u16
    requires { buffer.now.packet.checked ≡ true }
    ensures { result ≡ visits.total_len (visits.datagram buffer.now.packet) }
{
    total_len(datagram_in(buffer.head()))
}

/// Nothing happens. The head of a packet with the mark has the Ethernet header and an IPv4 header.
#[inline]
pub(crate) fn know_headers(buffer: &Buffer)
    requires { buffer.now.packet.checked ≡ true }
    ensures { 34 ≤ length (head_of buffer.now.packet) }
{
    know_contents(buffer);
}

/// The IPv4 header of a packet that passes the checks.
#[inline]
pub(crate) fn header_of(buffer: &Buffer) -> &[u8]
    requires { Passes buffer.now.packet }
    ensures header { let d = visits.datagram buffer.now.packet in result.now ≡ take (visits.header_len d) d }
    ensures long { 34 ≤ length (head_of buffer.now.packet) }
{
    let datagram = datagram_in(buffer.head());
    &datagram[..header_len(datagram)]
}
