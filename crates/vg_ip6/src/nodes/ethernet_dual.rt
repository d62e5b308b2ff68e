//! The visit of `ethernet-dual`.
ghost use Rattle.std.specs.Prelude.{◌≡◌, ◌≤◌, length};
ghost use Rattle.vg_ip6.specs.Visit as visits;

use vg_fork::Fork;
use vg_model::{DropError, Step};
use vg_nodes::parts::{FIRST_INTERFACE, dropped, is_foreign_to, is_short, type_of};
use vg_packet::headers::ETHERTYPE_IPV4;
use vg_pool::Buffer;

/// The type of IPv6 (RFC 2464, section 3).
const ETHERTYPE_IPV6: u16 = 0x86dd;

/// The step over the slot of IPv4.
const IP4: Step = Step::Next { slot: 0 };

/// The step over the slot of IPv6.
const IP6: Step = Step::Next { slot: 1 };

// Checks the Ethernet header, and parts IPv4 from IPv6.
#[inline(always)]
pub(crate) fn ethernet_dual(fork: &Fork, buffer: &Buffer) -> Step
    requires { 1 ≤ length fork.now.graph.interfaces }
    ensures { (result, buffer.now.packet) ≡ visits.ethernet_dual fork.now.graph buffer.now.packet }
{
    if is_short(buffer) {
        return dropped(DropError::Short);
    }
    if is_foreign_to(fork.interface(FIRST_INTERFACE), buffer) {
        return dropped(DropError::WrongMac);
    }
    let ethertype = type_of(buffer);
    if ethertype == ETHERTYPE_IPV4 {
        return IP4;
    }
    if ethertype == ETHERTYPE_IPV6 {
        return IP6;
    }
    dropped(DropError::UnknownType)
}
