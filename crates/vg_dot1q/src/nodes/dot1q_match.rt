//! The visit of `dot1q-match-N`.
ghost use Rattle.std.specs.Prelude.{◌≡◌};
ghost use Rattle.vg_dot1q.specs.Visit as visits;

use crate::tags::{is_tagged, vlan_id_of};
use vg_model::{DropError, Step, VlanId};
use vg_nodes::parts::dropped;
use vg_pool::Buffer;

/// The most room of a packet whose tag comes off.
const MOST_ROOM: u32 = 124;

/// The step of a packet whose tag came off.
const MATCH: Step = Step::Next { slot: 0 };

/// The step of every other packet.
const ELSE: Step = Step::Next { slot: 1 };

// Takes the tag of this VLAN off.
#[inline(always)]
pub(crate) fn dot1q_match(id: VlanId, buffer: &mut Buffer) -> Step
    ensures visited { (result, buffer.new.packet) ≡ visits.dot1q_match id.number buffer.old.packet }
    ensures legs { buffer.new.legs ≡ buffer.old.legs }
    ensures chain { buffer.new.pieces ≡ buffer.old.pieces }
{
    if !is_tagged(buffer) || vlan_id_of(buffer) != id.number {
        return ELSE;
    }
    if buffer.room() > MOST_ROOM {
        return dropped(DropError::BadLength);
    }
    buffer.cut();
    MATCH
}
