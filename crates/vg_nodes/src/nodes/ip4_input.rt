//! The visit of `ip4-input` (RFC 1812, section 5.2.2).
ghost use Rattle.std.specs.Prelude.{◌≡◌};
ghost use Rattle.vg_model.specs.Visit as visits;

use crate::heads::fault_of;
use crate::nodes::steps::{NEXT, dropped};
use vg_model::Step;
use vg_pool::Buffer;

// Checks the IPv4 header, and gives the packet the mark.
#[inline(always)]
pub(crate) fn ip4_input(buffer: &mut Buffer) -> Step
    ensures visited { (result, buffer.new.packet) ≡ visits.ip4_input buffer.old.packet }
    ensures legs { buffer.new.legs ≡ buffer.old.legs }
    ensures chain { buffer.new.pieces ≡ buffer.old.pieces }
{
    match fault_of(buffer) {
        Some(error) => dropped(error),
        None => {
            buffer.mark();
            NEXT
        }
    }
}
