//! The fields of a frame's headers that a router reads and writes (RFC 791, section 3.1).
ghost use Rattle.std.specs.Prelude.{◌≡◌, ◌≤◌, drop, length, min};
ghost use Rattle.vg_model.specs.Visit as visits;
ghost use Rattle.vg_model.specs.Visit.{ethernet_len};

use crate::checksums::{TIME_TO_LIVE, lower_ttl, verify_header};
use crate::fields::{u16_at, u32_at};
use vg_model::{Adjacency, DropError, Interface};

/// The length of an Ethernet header: two addresses and a type.
pub const ETHERNET_LEN: usize = 14;

/// Where the type stands in an Ethernet header.
pub const ETHERTYPE: usize = 12;

/// The type of IPv4.
pub const ETHERTYPE_IPV4: u16 = 0x0800;

/// The length of an IPv4 header without options.
pub const LEAST_HEADER: usize = 20;

// The first byte of an IPv4 header without options: version 4, and a length of five words.
const PLAIN: u8 = 0x45;

/// Where the total length stands in an IPv4 header.
const TOTAL_LENGTH: usize = 2;

/// Where the source stands in an IPv4 header.
pub const SOURCE: usize = 12;

/// Where the destination stands in an IPv4 header.
pub const DESTINATION: usize = 16;

/// What stands behind the Ethernet header: the IPv4 datagram, and any padding.
pub fn datagram(frame: &[u8]) -> &[u8]
    ensures { result.now ≡ drop ethernet_len frame.now }
{
    match frame.get(ETHERNET_LEN..) {
        Some(datagram) => datagram,
        None => &[],
    }
}

/// The version of a datagram.
fn version(datagram: &[u8]) -> u8
    requires { 1 ≤ length datagram.now }
    ensures { result ≡ visits.version datagram.now }
{
    datagram[0] >> 4
}

/// The header length of a datagram, in bytes.
pub fn header_len(datagram: &[u8]) -> usize
    requires { 1 ≤ length datagram.now }
    ensures { result ≡ visits.header_len datagram.now }
{
    usize::from(datagram[0] & 0x0f) * 4
}

/// The total length of a datagram, in bytes.
pub fn total_len(datagram: &[u8]) -> u16
    requires { 20 ≤ length datagram.now }
    ensures { result ≡ visits.total_len datagram.now }
{
    u16_at(datagram, TOTAL_LENGTH)
}

/// The time to live of a datagram.
pub fn time_to_live(datagram: &[u8]) -> u8
    requires { 20 ≤ length datagram.now }
    ensures { result ≡ visits.time_to_live datagram.now }
{
    datagram[TIME_TO_LIVE]
}

/// The destination address of a datagram.
pub fn destination(datagram: &[u8]) -> u32
    requires { 20 ≤ length datagram.now }
    ensures { result ≡ visits.destination datagram.now }
{
    u32_at(datagram, DESTINATION)
}

/// The first check that fails of the IPv4 header of a datagram of `len` bytes that begins with these (RFC 1812, section 5.2.2). They are
/// at least 60, the most that a header has, or all of the datagram.
#[inline(always)]
pub fn header_fault(head: &[u8], len: usize) -> Option<DropError>
    requires { min len 60 ≤ length head.now }
    ensures { result ≡ visits.fault_within head.now len }
{
    if len >= LEAST_HEADER && head[0] == PLAIN {
        first_fault(head, len)
    } else {
        first_fault_apart(head, len)
    }
}

// The same for any header. It stands apart, so that the checks of a header without options are short.
#[inline(never)]
fn first_fault_apart(head: &[u8], len: usize) -> Option<DropError>
    requires { min len 60 ≤ length head.now }
    ensures { result ≡ visits.fault_within head.now len }
{
    first_fault(head, len)
}

// The checks one after the other. Where the first byte is known, so are the version and the header's length.
#[inline(always)]
fn first_fault(head: &[u8], len: usize) -> Option<DropError>
    requires { min len 60 ≤ length head.now }
    ensures { result ≡ visits.fault_within head.now len }
{
    if len < LEAST_HEADER {
        return Some(DropError::Short);
    }
    if version(head) != 4 {
        return Some(DropError::BadVersion);
    }
    let header = header_len(head);
    if header < LEAST_HEADER || header > len {
        return Some(DropError::BadHeaderLength);
    }
    let total = usize::from(total_len(head));
    if total < header || total > len {
        return Some(DropError::BadLength);
    }
    if !verify_header(&head[..header]) {
        return Some(DropError::BadChecksum);
    }
    if time_to_live(head) == 0 {
        return Some(DropError::TtlZero);
    }
    None
}

/// Whether the interface filters, and the frame is neither to its address nor to a group, whose addresses have the lowest
/// bit of their first byte set.
pub fn is_foreign(interface: &Interface, frame: &[u8]) -> bool
    requires { ethernet_len ≤ length frame.now }
    ensures { result ≡ visits.is_foreign interface.now frame.now }
{
    interface.filter && &frame[..6] != interface.mac.0.as_slice() && frame[0] % 2 == 0
}

/// Writes the Ethernet header to a neighbor, and lowers the time to live (RFC 1812, section 5.3.1).
pub fn rewrite(frame: &mut [u8], adjacency: &Adjacency, interface: &Interface)
    requires sound { visits.header_fault (drop ethernet_len frame.old) ≡ None }
    ensures { frame.new ≡ visits.rewritten adjacency.now interface.now frame.old }
{
    let header = header_len(datagram(frame));
    frame[..6].copy_from_slice(&adjacency.mac.0);
    frame[6..12].copy_from_slice(&interface.mac.0);
    lower_ttl(&mut frame[ETHERNET_LEN..ETHERNET_LEN + header]);
}
