//! The visit of `dot1q-rewrite-N`.
ghost use Rattle.std.specs.Prelude.{◌≡◌};
ghost use Rattle.vg_dot1q.specs.Visit as visits;

use crate::tags::{CONTROL, is_tagged, know_tag, renumbered};
use vg_model::{DropError, Step, VlanId};
use vg_nodes::parts::{NEXT, dropped};
use vg_pool::Buffer;

// Gives the tag this VLAN id.
#[inline(always)]
pub(crate) fn dot1q_rewrite(id: VlanId, buffer: &mut Buffer) -> Step
    ensures visited { (result, buffer.new.packet) ≡ visits.dot1q_rewrite id.number buffer.old.packet }
    ensures legs { buffer.new.legs ≡ buffer.old.legs }
    ensures chain { buffer.new.pieces ≡ buffer.old.pieces }
{
    if !is_tagged(buffer) {
        return dropped(DropError::UnknownType);
    }
    know_tag(buffer);
    let control = renumbered(buffer, id.number);
    // First the mark: with it the packet would have to pass the checks of an IPv4 header as it is written.
    buffer.unmark();
    buffer.write(CONTROL as u32, &control);
    NEXT
}
