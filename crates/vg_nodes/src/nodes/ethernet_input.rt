//! The visit of `ethernet-input`.
ghost use Rattle.std.specs.Prelude.{◌≡◌, ◌≤◌, length};
ghost use Rattle.vg_model.specs.Visit as visits;

use crate::heads::{is_foreign_to, is_short, type_of};
use crate::nodes::interfaces::FIRST_INTERFACE;
use crate::nodes::steps::{NEXT, dropped};
use vg_fork::Fork;
use vg_model::{DropError, Step};
use vg_packet::headers::ETHERTYPE_IPV4;
use vg_pool::Buffer;

// Checks the Ethernet header.
#[inline(always)]
pub(crate) fn ethernet_input(fork: &Fork, buffer: &Buffer) -> Step
    requires { 1 ≤ length fork.now.graph.interfaces }
    ensures { (result, buffer.now.packet) ≡ visits.ethernet_input fork.now.graph buffer.now.packet }
{
    if is_short(buffer) {
        return dropped(DropError::Short);
    }
    if is_foreign_to(fork.interface(FIRST_INTERFACE), buffer) {
        return dropped(DropError::WrongMac);
    }
    if type_of(buffer) != ETHERTYPE_IPV4 {
        return dropped(DropError::UnknownType);
    }
    NEXT
}
