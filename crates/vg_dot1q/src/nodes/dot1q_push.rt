//! The visit of `dot1q-push-N`.
ghost use Rattle.std.specs.Prelude.{◌≡◌};
ghost use Rattle.vg_dot1q.specs.Visit as visits;

use vg_model::{DropError, Step, VlanId};
use vg_nodes::parts::{NEXT, dropped, is_short};
use vg_pool::Buffer;

/// How many bytes a tag takes.
const TAG_LEN: u32 = 4;

// Puts a tag of this VLAN on.
#[inline(always)]
pub(crate) fn dot1q_push(id: VlanId, buffer: &mut Buffer) -> Step
    ensures visited { (result, buffer.new.packet) ≡ visits.dot1q_push id.number buffer.old.packet }
    ensures legs { buffer.new.legs ≡ buffer.old.legs }
    ensures chain { buffer.new.pieces ≡ buffer.old.pieces }
{
    if is_short(buffer) {
        return dropped(DropError::Short);
    }
    if buffer.room() < TAG_LEN {
        return dropped(DropError::TooLong);
    }
    buffer.tag(id.number);
    NEXT
}
