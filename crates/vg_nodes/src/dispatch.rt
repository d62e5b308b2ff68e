//! The dispatch of a frame.
ghost use Rattle.std.specs.Prelude.{◌≡◌, nat_eq};
ghost use Rattle.std.specs.List.{AllByRecursion, IsDistinct};
ghost use Rattle.vg_model.specs.Graph.{kind_at};
ghost use Rattle.vg_model.specs.Valid.{IsTarget};
ghost use Rattle.vg_frame.specs.Placed.{IsLive};
ghost use Rattle.vg_nodes.specs.Sorting.{nothing_sorted};
ghost use Rattle.vg_nodes.specs.Dispatch.{IsSortedBy, IsVisitedBy};

use crate::kinds::KindSet;
use crate::sorted::Sorted;
use vg_fork::Fork;
use vg_frame::{BufferMemory, Frame};

/// Visits the packets of a frame at a node, in order, and puts the index of each into the list that its step names: each index
/// of the frame stands in exactly one list, and in each list they stand in the frame's order.
#[inline(always)]
pub fn dispatch_frame<K: KindSet>(
    kinds: &K,
    fork: &Fork,
    node: u16,
    frame: Frame,
    memory: &mut BufferMemory,
    out: &mut Sorted,
)
    requires target { IsTarget (kind_at fork.now.graph node) }
    requires live { AllByRecursion (IsLive memory.old) frame }
    requires distinct { IsDistinct nat_eq frame }
    requires empty { out.old ≡ nothing_sorted }
    ensures sorted { IsSortedBy (K.meaning fork.now.graph node) memory.old frame out.new }
    ensures visited { IsVisitedBy (K.meaning fork.now.graph node) frame memory.old memory.new }
{
    let kind = fork.kind(node);
    kinds.visit_all(kind, fork, node, frame.as_slice(), memory, out);
}
