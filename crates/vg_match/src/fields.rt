//! The fields of a frame by name, and where they stand.
ghost use Rattle.std.specs.Prelude.{◌≡◌, ◌<◌, bytes_eq, find, IfSome};
ghost use Rattle.vg_match.specs.Frames.{IsSmall};
ghost use Rattle.vg_match.specs.Fields.{field_name, field_of, header_span_of, span_of, has_place, is_in, field_at as field_standing_at};

use crate::frames::{Carried, Layout};

/// A field of a frame.
#[derive(Clone, Copy, Debug, PartialEq, Eq)]
pub enum Field {
    /// The frame's destination address.
    DestinationMac,
    /// The frame's source address.
    SourceMac,
    /// The type behind the addresses: of what is carried, or of a VLAN tag.
    Type,
    /// The first VLAN tag's priority and id.
    Vlan,
    /// The identification of an IPv4 datagram.
    Identification,
    /// The time to live of an IPv4 datagram, the hop limit of an IPv6 datagram.
    TimeToLive,
    /// The checksum of an IPv4 header.
    Checksum,
    /// The source address of an IP datagram.
    Source,
    /// The destination address of an IP datagram.
    Destination,
    /// The source port of a TCP segment or a UDP datagram.
    SourcePort,
    /// The destination port of a TCP segment or a UDP datagram.
    DestinationPort,
}

/// Bytes of a frame that stand together.
#[derive(Clone, Copy, Debug)]
pub struct Span {
    /// The place of the first.
    pub at: usize,
    /// How many they are.
    pub len: usize,
}

impl Field {
    /// All fields.
    pub const ALL: [Field; 11] = [
        Field::DestinationMac,
        Field::SourceMac,
        Field::Type,
        Field::Vlan,
        Field::Identification,
        Field::TimeToLive,
        Field::Checksum,
        Field::Source,
        Field::Destination,
        Field::SourcePort,
        Field::DestinationPort,
    ];

    /// The field's name.
    pub fn name(self) -> &'static str
        ensures { result.now ≡ field_name self }
    {
        match self {
            Field::DestinationMac => "destination-mac",
            Field::SourceMac => "source-mac",
            Field::Type => "type",
            Field::Vlan => "vlan",
            Field::Identification => "identification",
            Field::TimeToLive => "ttl",
            Field::Checksum => "checksum",
            Field::Source => "source",
            Field::Destination => "destination",
            Field::SourcePort => "source-port",
            Field::DestinationPort => "destination-port",
        }
    }

    // Whether this is the field's name.
    fn is(self, word: &[u8]) -> bool
        ensures { result ≡ bytes_eq word.now (field_name self) }
    {
        word == self.name().as_bytes()
    }

    /// The field of this name.
    pub fn of(word: &[u8]) -> Option<Field>
        ensures { result ≡ field_of word.now }
    {
        first_named(&Field::ALL, word)
    }

    // Where the fields of an IPv4 or IPv6 header stand.
    fn header_span(self, layout: &Layout) -> Option<Span>
        requires { IsSmall layout.now }
        ensures { result ≡ header_span_of self layout.now }
    {
        let (offset, len) = match (layout.carried, self) {
            (Carried::Ip4, Field::Identification) => (4, 2),
            (Carried::Ip4, Field::TimeToLive) => (8, 1),
            (Carried::Ip4, Field::Checksum) => (10, 2),
            (Carried::Ip4, Field::Source) => (12, 4),
            (Carried::Ip4, Field::Destination) => (16, 4),
            (Carried::Ip6, Field::TimeToLive) => (7, 1),
            (Carried::Ip6, Field::Source) => (8, 16),
            (Carried::Ip6, Field::Destination) => (24, 16),
            _ => return None,
        };
        Some(Span {
            at: layout.at + offset,
            len,
        })
    }

    /// Where the field stands in a frame of this layout, where the frame has it.
    pub fn span(self, layout: &Layout) -> Option<Span>
        requires { IsSmall layout.now }
        ensures value { result ≡ span_of self layout.now }
        ensures small { IfSome result (λ span. (span.at < 128) × (span.len < 128)) }
    {
        match self {
            Field::DestinationMac => Some(Span { at: 0, len: 6 }),
            Field::SourceMac => Some(Span { at: 6, len: 6 }),
            Field::Type => Some(Span { at: 12, len: 2 }),
            Field::Vlan if layout.tagged => Some(Span { at: 14, len: 2 }),
            Field::Vlan => None,
            Field::SourcePort => match layout.ports_at {
                Some(at) => Some(Span { at, len: 2 }),
                None => None,
            },
            Field::DestinationPort => match layout.ports_at {
                Some(at) => Some(Span { at: at + 2, len: 2 }),
                None => None,
            },
            _ => self.header_span(layout),
        }
    }

    /// Whether a place of a frame of this layout is in the field.
    pub fn has(self, layout: &Layout, place: usize) -> bool
        requires { IsSmall layout.now }
        ensures { result ≡ has_place layout.now place self }
    {
        match self.span(layout) {
            Some(span) => span.at <= place && place < span.at + span.len,
            None => false,
        }
    }

    /// The field that a place of a frame of this layout is in, where it is in one.
    pub fn at(layout: &Layout, place: usize) -> Option<Field>
        requires { IsSmall layout.now }
        ensures { result ≡ field_standing_at layout.now place }
    {
        first_with(&Field::ALL, layout, place)
    }
}

// The first of these fields that has this name.
fn first_named(fields: &[Field], word: &[u8]) -> Option<Field>
    ensures { result ≡ find (λ field. bytes_eq word.now (field_name field)) fields.now }
{
    fields.iter().find(|field| field.is(word)).copied()
}

// The first of these fields that a place of a frame of this layout is in.
fn first_with(fields: &[Field], layout: &Layout, place: usize) -> Option<Field>
    requires { IsSmall layout.now }
    ensures { result ≡ find (has_place layout.now place) fields.now }
{
    fields
        .iter()
        .find(|field| field.has(layout, place))
        .copied()
}

/// Whether a place of a frame of this layout is in one of these fields.
pub fn is_among(fields: &[Field], layout: &Layout, place: usize) -> bool
    requires { IsSmall layout.now }
    ensures { result ≡ is_in fields.now layout.now place }
{
    fields.iter().any(|field| field.has(layout, place))
}
