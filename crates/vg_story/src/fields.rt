//! The fields of a frame's headers (Ethernet; RFC 791, section 3.1; RFC 8200, section 3; IEEE 802.1Q); 0 where the frame ends before them.
ghost use Rattle.std.specs.Prelude.{◌≡◌};
ghost use Rattle.vg_story.specs.Fields as fields;

use crate::fronts::Front;
use crate::numbers::{byte, number16, number32, number48, number64};
use crate::pieces::Field;
use vg_packet::{mixed, u16_at};

/// The type of IPv4.
const TYPE_IP4: u16 = 0x0800;

/// The type of IPv6.
const TYPE_IP6: u16 = 0x86dd;

/// The type that begins a VLAN tag.
const TYPE_TAG: u16 = 0x8100;

/// The type in the Ethernet header.
pub(crate) fn type_of(front: &Front) -> u16
    ensures { result ≡ fields.type_of front.now }
{
    number16(front.bytes(), 12)
}

/// Whether the frame has a whole tag, and the type behind it.
pub(crate) fn is_tagged(front: &Front) -> bool
    ensures { result ≡ fields.is_tagged front.now }
{
    let bytes = front.bytes();
    bytes.len() >= 18 && u16_at(bytes, 12) == TYPE_TAG
}

/// The VLAN id of the tag; 0 where there is none.
pub(crate) fn vlan(front: &Front) -> u16
    ensures { result ≡ fields.vlan front.now }
{
    if is_tagged(front) {
        number16(front.bytes(), 14) % 4096
    } else {
        0
    }
}

/// The version of an IP header.
pub(crate) fn version(front: &Front) -> u8
    ensures { result ≡ fields.version front.now }
{
    byte(front.bytes(), 14) / 16
}

/// The header length that an IPv4 header says, in bytes.
pub(crate) fn header_len(front: &Front) -> u8
    ensures { result ≡ fields.header_len front.now }
{
    byte(front.bytes(), 14) % 16 * 4
}

/// The total length that an IPv4 header says.
pub(crate) fn total_len(front: &Front) -> u16
    ensures { result ≡ fields.total_len front.now }
{
    number16(front.bytes(), 16)
}

/// The time to live of an IPv4 header.
pub(crate) fn time_to_live(front: &Front) -> u8
    ensures { result ≡ fields.time_to_live front.now }
{
    byte(front.bytes(), 22)
}

/// The checksum of an IPv4 header.
pub(crate) fn checksum(front: &Front) -> u16
    ensures { result ≡ fields.checksum front.now }
{
    number16(front.bytes(), 24)
}

/// The destination of an IPv4 header.
pub(crate) fn destination(front: &Front) -> u32
    ensures { result ≡ fields.destination front.now }
{
    number32(front.bytes(), 30)
}

/// The payload length that an IPv6 header says.
pub(crate) fn payload_len(front: &Front) -> u16
    ensures { result ≡ fields.payload_len front.now }
{
    number16(front.bytes(), 18)
}

/// The hop limit of an IPv6 header.
pub(crate) fn hop_limit(front: &Front) -> u8
    ensures { result ≡ fields.hop_limit front.now }
{
    byte(front.bytes(), 21)
}

/// The destination of an IPv6 header.
#[tactic(auto, unfolding(crate::specs::Fields::destination6))]
pub(crate) fn destination6(front: &Front) -> u128
    ensures { result ≡ fields.destination6 front.now }
{
    let high = u128::from(number64(front.bytes(), 38));
    let low = u128::from(number64(front.bytes(), 46));
    high * 18_446_744_073_709_551_616 + low
}

/// The hash of the flow of an IPv6 header: that of the exclusive or of the eight words of both addresses.
#[tactic(auto, unfolding(crate::specs::Fields::hash6))]
pub(crate) fn hash6(front: &Front) -> u32
    ensures { result ≡ fields.hash6 front.now }
{
    let bytes = front.bytes();
    mixed(
        number32(bytes, 22)
            ^ number32(bytes, 26)
            ^ number32(bytes, 30)
            ^ number32(bytes, 34)
            ^ number32(bytes, 38)
            ^ number32(bytes, 42)
            ^ number32(bytes, 46)
            ^ number32(bytes, 50),
    )
}

/// Whether the frame shows a field: those of an IP header where its type says so, and not behind a tag.
pub(crate) fn has_field(front: &Front, field: Field) -> bool
    ensures { result ≡ fields.has_field front.now field }
{
    match field {
        Field::Length | Field::Destination | Field::Source | Field::Vlan => true,
        Field::Ttl | Field::Checksum => type_of(front) == TYPE_IP4,
        Field::HopLimit => type_of(front) == TYPE_IP6,
    }
}

/// The number of a field.
pub(crate) fn number_of(front: &Front, field: Field) -> u64
    ensures { result ≡ fields.number_of front.now field }
{
    match field {
        Field::Length => u64::from(front.len()),
        Field::Destination => number48(front.bytes(), 0),
        Field::Source => number48(front.bytes(), 6),
        Field::Vlan => u64::from(vlan(front)),
        Field::Ttl => u64::from(time_to_live(front)),
        Field::Checksum => u64::from(checksum(front)),
        Field::HopLimit => u64::from(hop_limit(front)),
    }
}
