//! The visits of a frame's packets, one after the other.
ghost use Rattle.std.specs.Prelude.{◌≡◌, ◌≤◌, ◌↔◌, IsTrue, length, nat_eq};
ghost use Rattle.std.specs.List.{AllByRecursion, IsDistinct};
ghost use Rattle.vg_frame.specs.Pending.{frame_size};
ghost use Rattle.vg_frame.specs.Placed.{IsLive};
ghost use Rattle.vg_nodes.specs.Sorting.{nothing_sorted};
ghost use Rattle.vg_nodes.specs.Dispatch.{NodeVisit, IsMeaningOf, IsSortedBy, IsVisitedBy};

use crate::sorted::Sorted;
use vg_frame::BufferMemory;
use vg_model::Step;
use vg_pool::Buffer;

/// Visits the packet of each index in order, and puts the index into the list that the step names. Whatever the visit is known to make of
/// a packet, it has made of each of them.
///
/// It is compiled for each visit by itself, so that a loop has its visit in line and the registers to itself. What a visit captures by
/// `move` is in one, too.
#[inline(never)]
pub fn visit_each<F: Fn(&mut Buffer) -> Step>(
    indexes: &[u32],
    memory: &mut BufferMemory,
    out: &mut Sorted,
    visit: F,
)
    requires callable { F.IsAlwaysCallable visit }
    requires few { length indexes.now ≤ frame_size }
    requires live { AllByRecursion (IsLive memory.old) indexes.now }
    requires distinct { IsDistinct nat_eq indexes.now }
    requires empty { out.old ≡ nothing_sorted }
    ensures sorted { (meaning : NodeVisit) → IsMeaningOf (F.post visit) meaning → IsSortedBy meaning memory.old indexes.now out.new }
    ensures visited { (meaning : NodeVisit) → IsMeaningOf (F.post visit) meaning → IsVisitedBy meaning indexes.now memory.old memory.new }
{
    // The packets from `start` on that are visited go on over `slot`. They are put together.
    let mut start = 0;
    let mut slot = 0;
    for (at, index) in indexes.iter().enumerate() {
        let step = visit(memory.get_mut(*index));
        if is_over(step, slot) {
            continue;
        }
        out.next.push_each(&indexes[start..at], slot);
        out.put(*index, step);
        start = at + 1;
        if let Step::Next { slot: other } = step {
            slot = other;
        }
    }
    out.next.push_each(&indexes[start..], slot);
}

// Whether the packet of a step goes on over this slot.
#[inline]
fn is_over(step: Step, slot: u8) -> bool
    ensures { IsTrue result ↔ (step ≡ Step.Next slot) }
{
    match step {
        Step::Next { slot: other } => other == slot,
        _ => false,
    }
}
