//! What is shown of a packet's visits.

use vg_model::{DropError, Prefix, Prefix6};

/// What a fact is about.
#[derive(Clone, Copy, Debug, PartialEq, Eq)]
pub enum Word {
    /// The type in the Ethernet header.
    Type,
    /// The link-layer address that a frame is to.
    Frame,
    /// How many bytes there are.
    Bytes,
    /// The version of an IP header.
    Version,
    /// The header length that an IPv4 header says, in bytes.
    Header,
    /// The length that an IP header says, in bytes: of IPv4 the total length, of IPv6 that of the payload.
    Length,
    /// The checksum of an IPv4 header.
    Checksum,
    /// The time to live, or the hop limit.
    Ttl,
    /// The greatest length that an interface takes.
    Mtu,
    /// The destination that a route was looked up for.
    To,
    /// The longest prefix that covers the destination.
    Route,
    /// The line of the script that set the route; 0 where no line did.
    Line,
    /// The neighbor.
    Via,
    /// The interface.
    On,
    /// The hash of the flow.
    Hash,
    /// The place among several neighbors, from 0.
    Place,
    /// How many neighbors there are.
    Of,
    /// The worker that a hash chooses.
    Worker,
    /// The VLAN id of the tag.
    Tag,
    /// Why the node dropped the packet.
    Drop,
}

/// The value of a fact. Neighbors and interfaces are numbers in the graph.
#[derive(Clone, Copy, Debug, PartialEq, Eq)]
pub enum Value {
    Number(u64),
    Hex(u16),
    Address(u32),
    Address6(u128),
    Prefix(Prefix),
    Prefix6(Prefix6),
    /// A link-layer address, a number of 48 bits.
    Link(u64),
    Neighbor(u16),
    Interface(u16),
    Error(DropError),
}

/// Something that a visit decided by.
#[derive(Clone, Copy, Debug, PartialEq, Eq)]
pub struct Fact {
    pub word: Word,
    pub value: Value,
}

/// A field of a frame.
#[derive(Clone, Copy, Debug, PartialEq, Eq)]
pub enum Field {
    /// How many bytes the frame has.
    Length,
    /// The link-layer address that the frame is to.
    Destination,
    /// The link-layer address that the frame is from.
    Source,
    /// The VLAN id of the first tag; 0 where there is none.
    Vlan,
    /// The time to live of IPv4.
    Ttl,
    /// The checksum of the IPv4 header.
    Checksum,
    /// The hop limit of IPv6.
    HopLimit,
}

/// A piece of what is shown of a packet's visits.
#[derive(Clone, Copy, Debug, PartialEq, Eq)]
pub enum Piece {
    /// The next leg begins: on this worker, under this generation.
    Leg {
        worker: u8,
        generation: u32,
    },
    /// A visit of the node of this number.
    Visit {
        node: u16,
    },
    /// What the visit decided by.
    Because(Fact),
    /// A field that the visit changed: its number before and after. A link-layer address is a number of 48 bits.
    Change {
        field: Field,
        before: u64,
        after: u64,
    },
}
