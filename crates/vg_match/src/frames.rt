//! Where in an Ethernet frame its fields stand (IEEE 802.3, IEEE 802.1Q, RFC 791, RFC 8200).
ghost use Rattle.std.specs.Prelude.{◌≡◌, ◌+◌, ◌≤◌, ◌<◌, ◌^◌, length, IfSome};
ghost use Rattle.vg_match.specs.Frames.{has_tag_at as tag_stands_at, type_at as type_stands_at, carries as carries_type, carried_by, payload_of, end_of};
ghost use Rattle.vg_match.specs.Frames.{front as front_of, ports_of, has_ports as protocol_has_ports, layout_of as layout_in, IsWhole, IsSmall};

use vg_packet::u16_at;

/// What a frame carries.
#[derive(Clone, Copy, Debug, PartialEq, Eq)]
pub enum Carried {
    /// An IPv4 datagram, with its header of 20 bytes at least.
    Ip4,
    /// An IPv6 datagram, with its header of 40 bytes.
    Ip6,
    /// Something else, or an IP datagram whose header isn't whole.
    Other,
}

/// Where in a frame its parts stand, in bytes from its first.
#[derive(Clone, Copy, Debug)]
pub struct Layout {
    /// Whether a VLAN tag stands behind the addresses.
    pub tagged: bool,
    /// What it carries.
    pub carried: Carried,
    /// Where that begins.
    pub at: usize,
    /// Where the payload behind the header of IPv4 or IPv6 begins.
    pub payload_at: usize,
    /// Where the two ports begin, where it has such.
    pub ports_at: Option<usize>,
    /// Where the frame ends without its padding: behind the IP datagram.
    pub end: usize,
}

/// The type of a frame that carries IPv4.
pub const IP4: u16 = 0x0800;

/// The type of a frame that carries IPv6.
pub const IP6: u16 = 0x86dd;

/// The type of a frame that carries ARP.
pub const ARP: u16 = 0x0806;

// Whether a frame has a VLAN tag at this place.
fn has_tag_at(frame: &[u8], at: usize) -> bool
    requires { at < 64 }
    ensures { result ≡ tag_stands_at frame.now at }
{
    if frame.len() < at + 2 {
        return false;
    }
    let kind = u16_at(frame, at);
    kind == 0x8100 || kind == 0x88a8
}

// Where the type of what a frame carries stands: behind the addresses and at most two tags.
pub(crate) fn type_at(frame: &[u8]) -> usize
    ensures value { result ≡ type_stands_at frame.now }
    ensures small { result ≤ 20 }
{
    if !has_tag_at(frame, 12) {
        12
    } else if !has_tag_at(frame, 16) {
        16
    } else {
        20
    }
}

// Whether a frame carries something of this type, with a whole header of so many bytes.
pub(crate) fn carries(frame: &[u8], kind: u16, header: usize) -> bool
    requires { header < 64 }
    ensures { result ≡ carries_type kind header frame.now }
{
    let at = type_at(frame);
    frame.len() >= at + 2 + header && u16_at(frame, at) == kind
}

// What a frame carries.
pub(crate) fn kind_of(frame: &[u8]) -> Carried
    ensures { result ≡ carried_by frame.now }
{
    if carries(frame, IP4, 20) {
        Carried::Ip4
    } else if carries(frame, IP6, 40) {
        Carried::Ip6
    } else {
        Carried::Other
    }
}

// Whether the payload of this protocol begins with two ports.
fn has_ports(protocol: u8) -> bool
    ensures { result ≡ protocol_has_ports protocol }
{
    protocol == 6 || protocol == 17
}

// Where the payload begins of what a frame carries from this place on.
fn payload_at(frame: &[u8], carried: Carried, at: usize) -> usize
    requires at { at ≤ 22 }
    requires whole { IsWhole carried at frame.now }
    ensures value { result ≡ payload_of carried at frame.now }
    ensures small { result ≤ 90 }
{
    match carried {
        Carried::Ip4 => at + (4 * usize::from(frame[at] % 16)).max(20),
        Carried::Ip6 => at + 40,
        Carried::Other => at,
    }
}

// Where a frame ends that carries this from this place on.
fn end(frame: &[u8], carried: Carried, at: usize) -> usize
    requires at { at ≤ 22 }
    requires whole { IsWhole carried at frame.now }
    ensures { result ≡ end_of carried at frame.now }
{
    match carried {
        Carried::Ip4 => match usize::from(u16_at(frame, at + 2)) {
            total if total < 20 => frame.len(),
            total => at + total,
        },
        Carried::Ip6 => at + 40 + usize::from(u16_at(frame, at + 4)),
        Carried::Other => frame.len(),
    }
}

// Where the two ports begin of what a frame carries from this place on.
fn ports_at(frame: &[u8], carried: Carried, at: usize) -> Option<usize>
    requires at { at ≤ 22 }
    requires whole { IsWhole carried at frame.now }
    ensures value { result ≡ ports_of carried at frame.now }
    ensures small { IfSome result (λ place. place ≤ 90) }
{
    let has = match carried {
        Carried::Ip4 => has_ports(frame[at + 9]) && u16_at(frame, at + 6) % 8192 == 0,
        Carried::Ip6 => has_ports(frame[at + 6]),
        Carried::Other => false,
    };
    if has {
        Some(payload_at(frame, carried, at))
    } else {
        None
    }
}

/// Where the parts of a frame stand.
pub fn layout_of(frame: &[u8]) -> Layout
    ensures value { result ≡ layout_in frame.now }
    ensures small { IsSmall result }
{
    let at = type_at(frame) + 2;
    let carried = kind_of(frame);
    Layout {
        tagged: has_tag_at(frame, 12),
        carried,
        at,
        payload_at: payload_at(frame, carried, at),
        ports_at: ports_at(frame, carried, at),
        end: end(frame, carried, at),
    }
}

/// A frame without its padding: up to the end of its IP datagram.
pub fn front(frame: &[u8]) -> &[u8]
    ensures { result.now ≡ front_of frame.now }
{
    let carried = kind_of(frame);
    let end = end(frame, carried, type_at(frame) + 2);
    &frame[..end.min(frame.len())]
}
