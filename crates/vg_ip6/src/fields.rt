//! The fields of the fixed header of an IPv6 packet (RFC 8200, section 3), read from the bytes behind the Ethernet header.
ghost use Rattle.std.specs.Prelude.{◌≡◌, ◌≤◌, length};
ghost use Rattle.vg_ip6.specs.Header as headers;

use vg_packet::{mixed, u16_at, u32_at};

/// The length of the header.
pub(crate) const HEADER_LEN: usize = 40;

/// Where the payload length stands.
const PAYLOAD_LENGTH: usize = 4;

/// Where the hop limit stands.
pub(crate) const HOP_LIMIT: usize = 7;

/// Where the source address begins.
const SOURCE: usize = 8;

/// Where the destination address begins.
const DESTINATION: usize = 24;

/// Whether they are no whole header, or one of another version.
pub(crate) fn is_no_header(datagram: &[u8]) -> bool
    ensures { result ≡ headers.lacks_header datagram.now }
{
    datagram.len() < HEADER_LEN || datagram[0] >> 4 != 6
}

/// The length of the payload, in bytes.
pub(crate) fn payload_len(datagram: &[u8]) -> u16
    requires { headers.ip6_header_len ≤ length datagram.now }
    ensures { result ≡ headers.payload_len datagram.now }
{
    u16_at(datagram, PAYLOAD_LENGTH)
}

/// The hop limit.
pub(crate) fn hop_limit(datagram: &[u8]) -> u8
    requires { headers.ip6_header_len ≤ length datagram.now }
    ensures { result ≡ headers.hop_limit datagram.now }
{
    datagram[HOP_LIMIT]
}

/// The destination address, in the host's order.
pub(crate) fn destination6(datagram: &[u8]) -> u128
    requires { headers.ip6_header_len ≤ length datagram.now }
    ensures { result ≡ headers.destination6 datagram.now }
{
    let mut octets = [0; 16];
    octets.copy_from_slice(&datagram[DESTINATION..HEADER_LEN]);
    u128::from_be_bytes(octets)
}

/// The hash of the flow: that of the exclusive or of the eight words of both addresses.
pub(crate) fn flow_hash6(datagram: &[u8]) -> u32
    requires { headers.ip6_header_len ≤ length datagram.now }
    ensures { result ≡ headers.flow_hash6 datagram.now }
{
    let key = u32_at(datagram, SOURCE)
        ^ u32_at(datagram, SOURCE + 4)
        ^ u32_at(datagram, SOURCE + 8)
        ^ u32_at(datagram, SOURCE + 12)
        ^ u32_at(datagram, DESTINATION)
        ^ u32_at(datagram, DESTINATION + 4)
        ^ u32_at(datagram, DESTINATION + 8)
        ^ u32_at(datagram, DESTINATION + 12);
    mixed(key)
}
