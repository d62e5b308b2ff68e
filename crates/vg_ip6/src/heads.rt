//! What is read of an IPv6 packet in its buffer: all of it stands in the packet's head.
ghost use Rattle.std.specs.Prelude.{◌≡◌, ◌≤◌, false, length};
ghost use Rattle.vg_model.specs.Visit.{datagram as datagram_of};
ghost use Rattle.vg_pool.specs.Contents.{head_of};
ghost use Rattle.vg_ip6.specs.Header as headers;

use crate::fields::{destination6, flow_hash6, hop_limit, is_no_header, payload_len};
use vg_packet::headers::{ETHERNET_LEN, datagram};
use vg_pool::{Buffer, know_contents};

/// Whether the packet has no whole IPv6 header behind its Ethernet header, or one of another version.
#[inline]
pub(crate) fn lacks_header(buffer: &Buffer) -> bool
    ensures { result ≡ headers.lacks_header (datagram_of buffer.now.packet) }
{
    is_no_header(datagram(buffer.head()))
}

/// How many bytes stand behind the Ethernet header.
#[inline]
pub(crate) fn datagram_len(buffer: &Buffer) -> u32
    ensures { result ≡ length (datagram_of buffer.now.packet) }
{
    buffer.len().saturating_sub(ETHERNET_LEN as u32)
}

/// The destination address.
#[inline]
pub(crate) fn destination_of(buffer: &Buffer) -> u128
    requires { headers.lacks_header (datagram_of buffer.now.packet) ≡ false }
    ensures { result ≡ headers.destination6 (datagram_of buffer.now.packet) }
{
    destination6(datagram(buffer.head()))
}

/// The hash of the flow.
#[inline]
pub(crate) fn flow_hash_of(buffer: &Buffer) -> u32
    requires { headers.lacks_header (datagram_of buffer.now.packet) ≡ false }
    ensures { result ≡ headers.flow_hash6 (datagram_of buffer.now.packet) }
{
    flow_hash6(datagram(buffer.head()))
}

/// The length of the payload.
#[inline]
pub(crate) fn payload_len_of(buffer: &Buffer) -> u16
    requires { headers.lacks_header (datagram_of buffer.now.packet) ≡ false }
    ensures { result ≡ headers.payload_len (datagram_of buffer.now.packet) }
{
    payload_len(datagram(buffer.head()))
}

/// The hop limit.
#[inline]
pub(crate) fn hop_limit_of(buffer: &Buffer) -> u8
    requires { headers.lacks_header (datagram_of buffer.now.packet) ≡ false }
    ensures { result ≡ headers.hop_limit (datagram_of buffer.now.packet) }
{
    hop_limit(datagram(buffer.head()))
}

/// Nothing happens. The head of a packet with an IPv6 header has the Ethernet header and this one; and such a packet has no mark, since an
/// IPv4 header has another version.
#[inline]
pub(crate) fn know_header(buffer: &Buffer)
    requires { headers.lacks_header (datagram_of buffer.now.packet) ≡ false }
    ensures plain { buffer.now.packet.checked ≡ false }
    ensures long { 54 ≤ length (head_of buffer.now.packet) }
{
    know_contents(buffer);
}
