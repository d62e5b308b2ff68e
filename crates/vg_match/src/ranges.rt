//! Ranges of addresses, to which a comparison may be limited.
ghost use Rattle.std.specs.Prelude.{◌≡◌, ◌+◌, ◌≤◌, ◌||◌, length};
ghost use Rattle.std.specs.List.{list_any};
ghost use Rattle.vg_model.specs.Bytes.{number32_at};
ghost use Rattle.vg_model.specs.Route.{covers as covers_address};
ghost use Rattle.vg_match.specs.Ranges.{number128_at, has4 as has_address4, has6 as has_address6, touches as frame_touches, is_in_reach as frame_is_in_reach};

use crate::frames::{Carried, layout_of};
use vg_model::{Prefix, Prefix6};
use vg_packet::u32_at;

/// Addresses that begin with the same bits.
#[derive(Clone, Copy, Debug, PartialEq, Eq)]
pub enum Range {
    /// IPv4 addresses.
    Ip4(Prefix),
    /// IPv6 addresses.
    Ip6(Prefix6),
}

// Whether the bits of a prefix are the first bits of an address. They are shifted as 64 bits, since a prefix of no bits leaves 32.
fn covers4(prefix: Prefix, address: u32) -> bool
    ensures { result ≡ covers_address 32 prefix.addr prefix.len address }
{
    let host_bits = 32 - prefix.len;
    u64::from(prefix.addr) >> host_bits == u64::from(address) >> host_bits
}

// Whether the bits of a prefix are the first bits of an address.
fn covers6(prefix: Prefix6, address: u128) -> bool
    ensures { result ≡ covers_address 128 prefix.addr prefix.len address }
{
    // A prefix of no bits covers all addresses; 128 bits can't be shifted by 128.
    if prefix.len == 0 {
        return true;
    }
    let host_bits = 128 - prefix.len;
    prefix.addr >> host_bits == address >> host_bits
}

// The 128-bit number at a place.
fn u128_at(bytes: &[u8], place: usize) -> u128
    requires { place + 16 ≤ length bytes.now }
    ensures { result ≡ number128_at bytes.now place }
{
    let mut octets = [0; 16];
    octets.copy_from_slice(&bytes[place..place + 16]);
    u128::from_be_bytes(octets)
}

impl Range {
    // Whether an IPv4 address is in it.
    fn has4(self, address: u32) -> bool
        ensures { result ≡ has_address4 address self }
    {
        match self {
            Range::Ip4(prefix) => covers4(prefix, address),
            Range::Ip6(_) => false,
        }
    }

    // Whether an IPv6 address is in it.
    fn has6(self, address: u128) -> bool
        ensures { result ≡ has_address6 address self }
    {
        match self {
            Range::Ip4(_) => false,
            Range::Ip6(prefix) => covers6(prefix, address),
        }
    }

    // Whether the source or the destination of the IPv4 header that begins at this place of a frame is in it.
    fn touches4(self, frame: &[u8], at: usize) -> bool
        requires { at + 20 ≤ length frame.now }
        ensures { result ≡ has_address4 (number32_at frame.now (at + 12)) self || has_address4 (number32_at frame.now (at + 16)) self }
    {
        self.has4(u32_at(frame, at + 12)) || self.has4(u32_at(frame, at + 16))
    }

    // Whether the source or the destination of the IPv6 header that begins at this place of a frame is in it.
    fn touches6(self, frame: &[u8], at: usize) -> bool
        requires { at + 40 ≤ length frame.now }
        ensures { result ≡ has_address6 (number128_at frame.now (at + 8)) self || has_address6 (number128_at frame.now (at + 24)) self }
    {
        self.has6(u128_at(frame, at + 8)) || self.has6(u128_at(frame, at + 24))
    }

    /// Whether the source or the destination of the IP datagram which a frame carries is in it.
    pub fn touches(self, frame: &[u8]) -> bool
        ensures { result ≡ frame_touches frame.now self }
    {
        let layout = layout_of(frame);
        match layout.carried {
            Carried::Ip4 => { frame.len() >= layout.at + 20 && self.touches4(frame, layout.at) }
            Carried::Ip6 => { frame.len() >= layout.at + 40 && self.touches6(frame, layout.at) }
            Carried::Other => false,
        }
    }
}

// Whether one of the addresses of a frame is in one of these ranges.
fn is_touched(ranges: &[Range], frame: &[u8]) -> bool
    ensures { result ≡ list_any (frame_touches frame.now) ranges.now }
{
    ranges.iter().any(|range| range.touches(frame))
}

/// Whether a frame is in the reach of these ranges: one of its addresses is in one of them. Where there is no range, each frame is.
pub fn is_in_reach(ranges: &[Range], frame: &[u8]) -> bool
    ensures { result ≡ frame_is_in_reach ranges.now frame.now }
{
    ranges.is_empty() || is_touched(ranges, frame)
}
