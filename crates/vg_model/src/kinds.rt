//! What the nodes of the graph are and do.
ghost use Rattle.std.specs.Prelude.{◌≡◌, ◌<◌, ◌≤◌, ◌++◌, decimal, length, map, IfSome, option_map, bytes_eq};
ghost use Rattle.std.specs.List.{position_from};
ghost use Rattle.vg_model.specs.Errors.{error_number, error_word};
ghost use Rattle.vg_model.specs.Graph.{kind_entry, slots, is_source as is_source_kind};
ghost use Rattle.vg_model.specs.KindWord.{word_text};
ghost use Rattle.vg_model.specs.Edit.{place_of};

use crate::limits::MOST_INTERFACES;
use crate::names::{Mac, Name};
use crate::vlans::VlanId;

/// Which IPv4 addresses of a frame a flow hash takes.
#[derive(Clone, Copy, Debug, PartialEq, Eq)]
pub enum HashKind {
    /// Both, so that a flow and its answers have one hash.
    Flow,
    /// The source alone.
    Src,
    /// The destination alone.
    Dst,
}

/// What a node does with a packet; the names are those of the VLIB nodes.
#[derive(Clone, Copy, Debug, PartialEq, Eq)]
pub enum Kind {
    /// The packet generator: each packet begins here.
    PgInput,
    /// Each later leg of a packet begins here, on the worker that it was handed to.
    HandoffDequeue,
    /// Hands a packet to the worker that its hash chooses.
    WorkerHandoff(HashKind),
    /// Checks the Ethernet header.
    EthernetInput,
    /// Checks the IPv4 header (RFC 1812, section 5.2.2).
    Ip4Input,
    /// Finds the longest match for the destination (RFC 1812, section 5.2.4.3).
    Ip4Lookup,
    /// Writes the Ethernet header to the neighbor, and lowers the time to live (RFC 1812, section 5.3.1).
    Ip4Rewrite,
    /// Checks that the interface is up.
    InterfaceOutput,
    /// Transmits.
    InterfaceTx,
    /// Drops.
    ErrorDrop,
    /// Lets a packet pass as it is.
    Pass,
    /// Checks the Ethernet header, and parts IPv4 from IPv6.
    EthernetDual,
    /// Checks the IPv6 header (RFC 8200, section 3).
    Ip6Input,
    /// Finds the longest match for an IPv6 destination.
    Ip6Lookup,
    /// Writes the Ethernet header to the neighbor, and lowers the hop limit (RFC 8200, section 3).
    Ip6Rewrite,
    /// Takes the tag with this VLAN id off (IEEE 802.1Q).
    Dot1qMatch(VlanId),
    /// Puts a tag with this VLAN id on.
    Dot1qPush(VlanId),
    /// Gives the tag this VLAN id.
    Dot1qRewrite(VlanId),
    /// Sends what comes out on the interface of this number.
    CrossConnect(u8),
}

/// The text in front of the VLAN id in the word of [`Kind::Dot1qMatch`].
pub const MATCH_TEXT: &str = "dot1q-match-";

/// The text in front of the VLAN id in the word of [`Kind::Dot1qPush`].
pub const PUSH_TEXT: &str = "dot1q-push-";

/// The text in front of the VLAN id in the word of [`Kind::Dot1qRewrite`].
pub const REWRITE_TEXT: &str = "dot1q-rewrite-";

/// The text in front of the interface's number in the word of [`Kind::CrossConnect`].
pub const CONNECT_TEXT: &str = "xconnect-";

/// The name of a kind, by which scripts say it: a text, and the number behind it, where the kind has one.
#[derive(Clone, Copy, Debug, PartialEq, Eq)]
pub struct KindWord {
    pub text: &'static str,
    pub number: Option<u16>,
}

/// How many kinds of [`DropError`] there are.
pub const ERRORS: usize = 19;

/// Why a packet was dropped.
#[derive(Clone, Copy, Debug, PartialEq, Eq)]
pub enum DropError {
    /// No whole Ethernet header, or no whole fixed part of an IPv4 header.
    Short,
    /// More bytes than a packet may have.
    TooLong,
    /// A type other than IPv4.
    UnknownType,
    /// Neither to the interface's address nor to a group, where the interface filters.
    WrongMac,
    /// A version other than 4.
    BadVersion,
    /// A header length below 20 bytes or beyond the frame's end.
    BadHeaderLength,
    /// A total length below the header's or beyond the frame's end.
    BadLength,
    /// A header that does not verify.
    BadChecksum,
    /// A time to live of 0 on arrival.
    TtlZero,
    /// No check of the header came before.
    Unchecked,
    /// No route covers the destination, or no adjacency is chosen.
    NoRoute,
    /// The route says to drop.
    RouteDrop,
    /// The route leads to this host.
    Local,
    /// A time to live that would fall to 0.
    TtlExpired,
    /// A total length above the interface's mtu.
    MtuExceeded,
    /// The interface is down.
    InterfaceDown,
    /// The queue to another worker was full.
    Congestion,
    /// A further handoff after the last leg.
    HandoffLimit,
    /// An arc leads to the node that drops.
    Blackhole,
}

// The place of the first of these names that is this one.
fn place_among(names: &[&str], name: &[u8]) -> Option<usize>
    ensures place { result ≡ position_from (λ other. bytes_eq other.now name.now) 0 names.now }
    ensures within { IfSome result (λ place. place < length names.now) }
{
    names.iter().position(|other| other.as_bytes() == name)
}

// A name without a number.
fn plain(text: &'static str) -> KindWord
    ensures { word_text result.text.now result.number ≡ text.now }
{
    KindWord { text, number: None }
}

// A name with a number.
fn numbered(text: &'static str, number: u16) -> KindWord
    ensures { word_text result.text.now result.number ≡ text.now ++ decimal number }
{
    KindWord {
        text,
        number: Some(number),
    }
}

impl Kind {
    /// The kinds without a number of which scripts make nodes.
    pub const PLAIN: [Kind; 14] = [
        Kind::WorkerHandoff(HashKind::Flow),
        Kind::WorkerHandoff(HashKind::Src),
        Kind::WorkerHandoff(HashKind::Dst),
        Kind::EthernetInput,
        Kind::Ip4Input,
        Kind::Ip4Lookup,
        Kind::Ip4Rewrite,
        Kind::InterfaceOutput,
        Kind::InterfaceTx,
        Kind::Pass,
        Kind::EthernetDual,
        Kind::Ip6Input,
        Kind::Ip6Lookup,
        Kind::Ip6Rewrite,
    ];

    /// The name of the kind.
    pub fn name(self) -> KindWord
        ensures { word_text result.text.now result.number ≡ (kind_entry self).name }
    {
        match self {
            Kind::PgInput => plain("pg-input"),
            Kind::HandoffDequeue => plain("handoff-dequeue"),
            Kind::WorkerHandoff(HashKind::Flow) => plain("handoff-flow"),
            Kind::WorkerHandoff(HashKind::Src) => plain("handoff-src"),
            Kind::WorkerHandoff(HashKind::Dst) => plain("handoff-dst"),
            Kind::EthernetInput => plain("ethernet-input"),
            Kind::Ip4Input => plain("ip4-input"),
            Kind::Ip4Lookup => plain("ip4-lookup"),
            Kind::Ip4Rewrite => plain("ip4-rewrite"),
            Kind::InterfaceOutput => plain("interface-output"),
            Kind::InterfaceTx => plain("interface-tx"),
            Kind::ErrorDrop => plain("error-drop"),
            Kind::Pass => plain("pass"),
            Kind::EthernetDual => plain("ethernet-dual"),
            Kind::Ip6Input => plain("ip6-input"),
            Kind::Ip6Lookup => plain("ip6-lookup"),
            Kind::Ip6Rewrite => plain("ip6-rewrite"),
            Kind::Dot1qMatch(id) => numbered(MATCH_TEXT, id.number),
            Kind::Dot1qPush(id) => numbered(PUSH_TEXT, id.number),
            Kind::Dot1qRewrite(id) => numbered(REWRITE_TEXT, id.number),
            Kind::CrossConnect(interface) => numbered(CONNECT_TEXT, u16::from(interface)),
        }
    }

    /// The word for the kind in scripts, which is its name; `None` for the kinds of which scripts make no nodes: those that the
    /// start graph alone has, and a cross-connect to an interface that no graph can have.
    pub fn word(self) -> Option<KindWord>
        ensures { option_map (λ word. word_text word.text.now word.number) result ≡ (kind_entry self).word }
    {
        match self {
            Kind::PgInput | Kind::HandoffDequeue | Kind::ErrorDrop => None,
            Kind::CrossConnect(interface) if usize::from(interface) >= MOST_INTERFACES => None,
            _ => Some(self.name()),
        }
    }

    /// Whether packets come into nodes of the kind by no arc.
    pub fn is_source(self) -> bool
        ensures { result ≡ is_source_kind self }
    {
        matches!(self, Kind::PgInput | Kind::HandoffDequeue)
    }

    /// The names of the kind's slots, by slot number: at most two.
    pub fn slot_names(self) -> &'static [&'static str]
        ensures names { map (λ name. name.now) result.now ≡ slots self }
        ensures few { length result.now ≤ 2 }
    {
        match self {
            Kind::PgInput
            | Kind::Pass
            | Kind::Dot1qPush(_)
            | Kind::Dot1qRewrite(_)
            | Kind::CrossConnect(_) => &["out"],
            Kind::WorkerHandoff(_) => &["resume"],
            Kind::EthernetInput => &["ip4"],
            Kind::EthernetDual => &["ip4", "ip6"],
            Kind::Ip4Input | Kind::Ip6Input => &["lookup"],
            Kind::Ip4Lookup | Kind::Ip6Lookup => &["rewrite"],
            Kind::Ip4Rewrite | Kind::Ip6Rewrite => &["output"],
            Kind::Dot1qMatch(_) => &["match", "else"],
            Kind::InterfaceOutput => &["tx"],
            Kind::HandoffDequeue | Kind::InterfaceTx | Kind::ErrorDrop => &[],
        }
    }

    /// How many slots the kind has: at most two.
    pub fn slots(self) -> u8
        ensures count { result ≡ length (slots self) }
        ensures few { result ≤ 2 }
    {
        self.slot_names().len() as u8
    }

    /// The number of the slot of this name; `None` where the kind has no such slot.
    pub fn slot(self, name: &[u8]) -> Option<u8>
        ensures { result ≡ place_of (λ slot. slot) name.now (slots self) }
    {
        let place = place_among(self.slot_names(), name)?;
        Some(place as u8)
    }
}

impl DropError {
    /// All errors, in their order.
    pub const ALL: [DropError; ERRORS] = [
        DropError::Short,
        DropError::TooLong,
        DropError::UnknownType,
        DropError::WrongMac,
        DropError::BadVersion,
        DropError::BadHeaderLength,
        DropError::BadLength,
        DropError::BadChecksum,
        DropError::TtlZero,
        DropError::Unchecked,
        DropError::NoRoute,
        DropError::RouteDrop,
        DropError::Local,
        DropError::TtlExpired,
        DropError::MtuExceeded,
        DropError::InterfaceDown,
        DropError::Congestion,
        DropError::HandoffLimit,
        DropError::Blackhole,
    ];

    /// The place of the error in the order, counted from 0.
    pub fn number(self) -> u16
        ensures { result ≡ error_number self }
    {
        self as u16
    }

    /// The word for the error in texts.
    pub fn word(self) -> &'static str
        ensures { result.now ≡ error_word self }
    {
        match self {
            DropError::Short => "short",
            DropError::TooLong => "too-long",
            DropError::UnknownType => "unknown-type",
            DropError::WrongMac => "wrong-mac",
            DropError::BadVersion => "bad-version",
            DropError::BadHeaderLength => "bad-header-length",
            DropError::BadLength => "bad-length",
            DropError::BadChecksum => "bad-checksum",
            DropError::TtlZero => "ttl-zero",
            DropError::Unchecked => "unchecked",
            DropError::NoRoute => "no-route",
            DropError::RouteDrop => "route-drop",
            DropError::Local => "local",
            DropError::TtlExpired => "ttl-expired",
            DropError::MtuExceeded => "mtu-exceeded",
            DropError::InterfaceDown => "interface-down",
            DropError::Congestion => "congestion",
            DropError::HandoffLimit => "handoff-limit",
            DropError::Blackhole => "blackhole",
        }
    }
}

/// What a visit of a node decides for a packet.
#[derive(Clone, Copy, Debug, PartialEq, Eq)]
pub enum Step {
    /// On to the node that this slot of the node leads to.
    Next { slot: u8 },
    /// Out on the interface of this number.
    Tx { interface: u16 },
    /// Dropped by the node.
    Dropped { error: DropError },
    /// To the worker that this hash chooses.
    Hand { hash: u32 },
}

/// An interface of the router.
#[derive(Drop)]
pub struct Interface {
    pub name: Name,
    /// Its own link-layer address.
    pub mac: Mac,
    /// The greatest total length of a datagram that leaves over it, in bytes.
    pub mtu: u16,
    pub up: bool,
    /// Whether frames to foreign addresses are dropped.
    pub filter: bool,
}

/// A neighbor behind an interface.
#[derive(Drop)]
pub struct Adjacency {
    pub name: Name,
    /// The number of the interface.
    pub interface: u16,
    /// The neighbor's link-layer address.
    pub mac: Mac,
}
