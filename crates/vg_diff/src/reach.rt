//! What the kernel's router can have of a graph: over which interfaces it sends, and which routes over several neighbors `ip` takes.
ghost use Rattle.std.specs.Prelude.{◌≡◌, ◌<◌, option_map, IfSome};
ghost use Rattle.std.specs.List.{list_all};
ghost use Rattle.vg_diff.specs.Linux as specs;

use vg_graph::Graph;
use vg_model::{Interface, Mac, Name};

/// Of which of the two a command is.
#[derive(Clone, Copy, PartialEq, Eq)]
pub enum Version {
    Ip4,
    Ip6,
}

impl Version {
    /// The beginning of a command that sets a route.
    pub fn route(self) -> &'static [u8]
        ensures { result.now ≡ specs.route_begin self }
    {
        match self {
            Version::Ip4 => b"ip route replace ",
            Version::Ip6 => b"ip -6 route replace ",
        }
    }
}

// Whether all these bytes are 0.
fn are_zeros(bytes: &[u8]) -> bool
    ensures { result ≡ specs.are_zeros bytes.now }
{
    bytes.iter().all(|byte| *byte == 0)
}

// Whether an interface can have an address: it is no group's, and not all zeros.
fn is_station(mac: Mac) -> bool
    ensures { result ≡ specs.is_station mac }
{
    mac.0[0] % 2 == 0 && !are_zeros(&mac.0)
}

/// Whether `ip` can say an interface: its name has at most 15 letters, and it can have its address.
pub fn is_sayable(interface: &Interface) -> bool
    ensures { result ≡ specs.is_sayable interface.now }
{
    interface.name.bytes().len() <= 15 && is_station(interface.mac)
}

// Whether the kernel sends by this version over an interface: IPv6 wants 1280 bytes (RFC 8200, section 5).
fn carries(version: Version, interface: &Interface) -> bool
    ensures { result ≡ specs.carries version interface.now }
{
    match version {
        Version::Ip4 => true,
        Version::Ip6 => interface.mtu >= 1280,
    }
}

// Whether the kernel sends by this version over an interface, which `ip` can say and which is up.
fn is_open(version: Version, interface: &Interface) -> bool
    ensures { result ≡ specs.is_open version interface.now }
{
    interface.up && is_sayable(interface) && carries(version, interface)
}

// The name of an interface that is open.
fn name_if_open(version: Version, interface: &Interface) -> Option<&Name>
    ensures { option_map (λ name. name.now) result ≡ specs.name_if_open version interface.now }
{
    if is_open(version, interface) {
        Some(&interface.name)
    } else {
        None
    }
}

// The interface of a number, where it is open.
fn open_at(version: Version, graph: &Graph, number: u16) -> Option<&Name>
    ensures { option_map (λ name. name.now) result ≡ specs.open_at version graph.now number }
{
    if number < graph.interfaces() {
        name_if_open(version, graph.interface_at(number))
    } else {
        None
    }
}

/// The interface of the neighbor of a number, where the kernel sends by this version over it.
pub fn interface_of(version: Version, graph: &Graph, number: u16) -> Option<&Name>
    ensures name { option_map (λ name. name.now) result ≡ specs.interface_of version graph.now number }
    ensures few { IfSome result (λ _. number < 65535) }
{
    if number < graph.adjacencies() {
        open_at(version, graph, graph.adjacency_at(number).interface)
    } else {
        None
    }
}

// Whether the interface of the neighbor of a number isn't open.
fn is_closed(version: Version, graph: &Graph, number: u16) -> bool
    ensures { result ≡ specs.is_closed version graph.now number }
{
    interface_of(version, graph, number).is_none()
}

/// Whether the interfaces of all these neighbors aren't open.
pub fn are_closed(version: Version, graph: &Graph, members: &[u16]) -> bool
    ensures { result ≡ list_all (specs.is_closed version graph.now) members.now }
{
    members
        .iter()
        .all(|member| is_closed(version, graph, *member))
}

// Whether a number stands once among these.
fn stands_once(members: &[u16], number: u16) -> bool
    ensures { result ≡ specs.stands_once members.now number }
{
    members.iter().filter(|member| **member == number).count() == 1
}

// Whether each of these numbers stands once.
fn stand_once(members: &[u16]) -> bool
    ensures { result ≡ specs.stand_once members.now }
{
    members.iter().all(|member| stands_once(members, *member))
}

/// Whether `ip` can say a route over these neighbors: one of IPv6 names none twice.
pub fn is_sayable_over(version: Version, members: &[u16]) -> bool
    ensures { result ≡ specs.is_sayable_over version members.now }
{
    match version {
        Version::Ip4 => true,
        Version::Ip6 => stand_once(members),
    }
}
