//! The visits of `interface-output` and `interface-tx`.
ghost use Rattle.std.specs.Prelude.{◌≡◌, ◌<◌, ◌≤◌, length};
ghost use Rattle.vg_model.specs.Visit as visits;

use crate::nodes::steps::{NEXT, dropped};
use vg_fork::Fork;
use vg_model::{DropError, Step};
use vg_pool::Buffer;

/// The interface that packets come in on, and leave on where none is chosen.
pub const FIRST_INTERFACE: u16 = 0;

/// Nothing happens. A fork has at least one interface.
#[inline]
pub fn know_interfaces(fork: &Fork)
    ensures { 1 ≤ length fork.now.graph.interfaces }
{
    let _ = fork.interfaces();
}

// The interface that the packet is transmitted on: its own, where the graph has it, or else the first.
#[inline(always)]
pub(crate) fn transmit_interface(fork: &Fork, buffer: &Buffer) -> u16
    requires { 1 ≤ length fork.now.graph.interfaces }
    ensures interface { result ≡ visits.transmit_interface fork.now.graph buffer.now.packet }
    ensures within { result < length fork.now.graph.interfaces }
{
    match buffer.interface() {
        Some(interface) if interface < fork.interfaces() => interface,
        _ => FIRST_INTERFACE,
    }
}

// Drops where the interface is down.
#[inline(always)]
pub(crate) fn interface_output(fork: &Fork, buffer: &Buffer) -> Step
    requires { 1 ≤ length fork.now.graph.interfaces }
    ensures { (result, buffer.now.packet) ≡ visits.interface_output fork.now.graph buffer.now.packet }
{
    if fork.interface(transmit_interface(fork, buffer)).up {
        NEXT
    } else {
        dropped(DropError::InterfaceDown)
    }
}

// Transmits.
#[inline(always)]
pub(crate) fn interface_tx(fork: &Fork, buffer: &Buffer) -> Step
    requires { 1 ≤ length fork.now.graph.interfaces }
    ensures { (result, buffer.now.packet) ≡ visits.interface_tx fork.now.graph buffer.now.packet }
{
    Step::Tx {
        interface: transmit_interface(fork, buffer),
    }
}
