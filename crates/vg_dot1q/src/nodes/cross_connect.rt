//! The visit of `xconnect-I`.
ghost use Rattle.std.specs.Prelude.{◌≡◌};
ghost use Rattle.vg_dot1q.specs.Visit as visits;

use vg_fork::Fork;
use vg_model::{DropError, Step};
use vg_nodes::parts::{NEXT, dropped};
use vg_pool::Buffer;

// Sends what comes out on this interface, where the graph has it.
#[inline(always)]
pub(crate) fn cross_connect(interface: u8, fork: &Fork, buffer: &mut Buffer) -> Step
    ensures visited { (result, buffer.new.packet) ≡ visits.cross_connect interface fork.now.graph buffer.old.packet }
    ensures legs { buffer.new.legs ≡ buffer.old.legs }
    ensures chain { buffer.new.pieces ≡ buffer.old.pieces }
{
    let interface = u16::from(interface);
    if interface >= fork.interfaces() {
        return dropped(DropError::InterfaceDown);
    }
    buffer.set_interface(interface);
    NEXT
}
