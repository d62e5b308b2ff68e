//! What nodes do with packets.
ghost use Rattle.std.specs.Prelude.{◌≡◌, ◌≤◌, Some, length, nat_eq};
ghost use Rattle.std.specs.List.{AllByRecursion, IsDistinct};
ghost use Rattle.vg_model.specs.Graph.{kind_at};
ghost use Rattle.vg_model.specs.Valid.{IsTarget, IsKindSet};
ghost use Rattle.vg_model.specs.Visit.{Visit};
ghost use Rattle.vg_frame.specs.Pending.{frame_size};
ghost use Rattle.vg_frame.specs.Placed.{IsLive};
ghost use Rattle.vg_nodes.specs.Sorting.{nothing_sorted};
ghost use Rattle.vg_nodes.specs.Dispatch.{IsSortedBy, IsVisitedBy};

use crate::sorted::Sorted;
use crate::visiting::visit_each;
use vg_fork::Fork;
use vg_frame::BufferMemory;
use vg_model::{Kind, Step};
use vg_pool::Buffer;

/// What the nodes of each kind do. It has one meaning, which keeps the laws of visits: a slot over which a packet goes on is one of
/// the node's; packets are handed over at nodes of kind `WorkerHandoff` alone; an interface on which one is transmitted is in
/// range; a packet keeps its number; and its length and its room together get no larger. Where these are at most 9,280 and the room is
/// at most 128, the room stays at most 128.
pub trait KindSet: Copy {
    /// What a visit of a node makes of a packet.
    ghost meaning: { Visit };

    /// Visits the packet of a buffer at a node, which is of any kind but `PgInput` and `HandoffDequeue`.
    fn visit(&self, fork: &Fork, node: u16, buffer: &mut Buffer) -> Step
        requires target { IsTarget (kind_at fork.now.graph node) }
        ensures visited { (result, buffer.new.packet) ≡ meaning fork.now.graph node buffer.old.packet }
        ensures legs { buffer.new.legs ≡ buffer.old.legs }
        ensures chain { buffer.new.pieces ≡ buffer.old.pieces };

    /// The same, at a node whose kind the caller has looked up. A set that visits by the kind alone gives it a body of its own, so that the
    /// packets of a frame share one look-up.
    #[inline]
    fn visit_at(&self, kind: Kind, fork: &Fork, node: u16, buffer: &mut Buffer) -> Step
        requires kind { kind_at fork.now.graph node ≡ Some kind }
        requires target { IsTarget (kind_at fork.now.graph node) }
        ensures visited { (result, buffer.new.packet) ≡ meaning fork.now.graph node buffer.old.packet }
        ensures legs { buffer.new.legs ≡ buffer.old.legs }
        ensures chain { buffer.new.pieces ≡ buffer.old.pieces }
    {
        let _ = kind;
        self.visit(fork, node, buffer)
    }

    /// Visits the packets of a frame at a node whose kind the caller has looked up, in order, and puts the index of each into the list that its
    /// step names. A set gives it a body of its own where it has a loop for each of its kinds, so that the kind is matched once a frame.
    fn visit_all(
        &self,
        kind: Kind,
        fork: &Fork,
        node: u16,
        indexes: &[u32],
        memory: &mut BufferMemory,
        out: &mut Sorted,
    )
        requires kind { kind_at fork.now.graph node ≡ Some kind }
        requires target { IsTarget (kind_at fork.now.graph node) }
        requires few { length indexes.now ≤ frame_size }
        requires live { AllByRecursion (IsLive memory.old) indexes.now }
        requires distinct { IsDistinct nat_eq indexes.now }
        requires empty { out.old ≡ nothing_sorted }
        ensures sorted { IsSortedBy (meaning fork.now.graph node) memory.old indexes.now out.new }
        ensures visited { IsVisitedBy (meaning fork.now.graph node) indexes.now memory.old memory.new }
    {
        visit_each(indexes, memory, out, move |buffer| {
            self.visit_at(kind, fork, node, buffer)
        });
    }

    /// The laws of visits.
    ghost lawful: { IsKindSet meaning };
}
