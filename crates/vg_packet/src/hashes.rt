//! The hash of a flow, by which packets are handed to workers.
ghost use Rattle.std.specs.Prelude.{◌≡◌};
ghost use Rattle.vg_model.specs.Hash.{flow_hash as hash_of_flow, mixed as mixed_key, hash_key};

use crate::fields::{u16_at, u32_at};
use crate::headers::{DESTINATION, ETHERNET_LEN, ETHERTYPE, ETHERTYPE_IPV4, LEAST_HEADER, SOURCE};
use vg_model::HashKind;

/// Where the source address of a frame's IPv4 header stands.
const SOURCE_IN_FRAME: usize = ETHERNET_LEN + SOURCE;

/// Where the destination address of a frame's IPv4 header stands.
const DESTINATION_IN_FRAME: usize = ETHERNET_LEN + DESTINATION;

/// The length of a frame that ends behind the destination address.
const ADDRESSES_END: usize = ETHERNET_LEN + LEAST_HEADER;

/// The hash of an Ethernet frame: that of the source and destination address, or of one of them, as
/// `kind` says. A frame of another type, or with fewer than 34 bytes, has the hash 0. With
/// [`HashKind::Flow`] a flow and its answers have one hash.
pub fn flow_hash(kind: HashKind, frame: &[u8]) -> u32
    ensures { result ≡ hash_of_flow kind frame.now }
{
    if frame.len() < ADDRESSES_END || u16_at(frame, ETHERTYPE) != ETHERTYPE_IPV4 {
        return 0;
    }
    mixed(key_of(
        kind,
        u32_at(frame, SOURCE_IN_FRAME),
        u32_at(frame, DESTINATION_IN_FRAME),
    ))
}

/// What is hashed of the addresses.
fn key_of(kind: HashKind, source: u32, destination: u32) -> u32
    ensures { result ≡ hash_key kind source destination }
{
    match kind {
        HashKind::Flow => source ^ destination,
        HashKind::Src => source,
        HashKind::Dst => destination,
    }
}

/// The hash of a 32-bit key: its upper bits mixed into its lower ones.
pub fn mixed(key: u32) -> u32
    ensures { result ≡ mixed_key key }
{
    let half = key ^ (key >> 16);
    half ^ (half >> 8)
}
