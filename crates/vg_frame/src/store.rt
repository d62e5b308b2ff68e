//! The frames that wait for nodes.
ghost use Rattle.std.specs.Prelude.{◌≡◌, ◌+◌, ◌<◌, ◌≤◌, IfOk, MatchOption, [], ◌∷◌, ◌++◌, length, replicate, slice_set};
ghost use Rattle.vg_frame.specs.Pending.{pending_at, pending_count, most_pending, IsNothingPending, TakesFrame};
ghost use Rattle.vg_frame.specs.Waiting.{most_nodes};

use crate::frames::Frame;
use crate::node_set::NodeSet;
use crate::queues::Queue;
use crate::spares::Spares;
use std::alloc::Global;
use std::marker::Model;
use vg_model::Memory;

/// The frames of a store. That is enough: each node has one that isn't full, and of the indexes of [`MOST_UNDER_WAY`](vg_model::limits::MOST_UNDER_WAY) no more than
/// nine frames get full.
pub const FRAMES: usize = 80;

/// Buffer indexes that wait for nodes, cut into frames: one list for each node, the oldest index first.
#[derive(Drop)]
pub struct FrameStore {
    // By node.
    queues: Vec<Queue>,
    spares: Spares,
    // The nodes for which any index waits.
    busy: NodeSet,
}

impl Model for FrameStore {
    ghost use Rattle.std.specs.Prelude.{List, ℕ};
    ghost use Rattle.vg_frame.specs.Waiting.{pending, IsStore};

    ghost Value = { List (List ℕ) };

    ghost view = { λ s. pending s.queues.items };

    ghost invariant = { λ s. IsStore s.queues.items s.spares s.busy.bits };
}

impl FrameStore {
    /// A store for so many nodes, in which no index waits.
    ///
    /// # Errors
    ///
    /// [`Memory`] where memory runs out.
    pub fn new(alloc: Global, nodes: u16) -> Result<FrameStore, Memory>
        requires { nodes ≤ most_nodes }
        ensures { IfOk result (λ store. store ≡ replicate nodes []) }
    {
        let mut spares = Spares::new(alloc)?;
        let mut queues = Vec::with_capacity(alloc, nodes as usize)?;
        for _ in 0..nodes {
            queues.push(Queue::new(alloc, spares.take())?)?;
        }
        Ok(FrameStore {
            queues,
            spares,
            busy: NodeSet::new(),
        })
    }

    /// The index waits for the node, behind those that wait for it already.
    #[inline]
    pub fn put(&mut self, node: u16, index: u32)
        requires node { node < length self.old }
        requires room { pending_count self.old < most_pending }
        ensures { self.new ≡ slice_set self.old node (pending_at self.old node ++ index ∷ []) }
    {
        self.queues[node as usize].push(index, &mut self.spares);
        self.busy.insert(node);
    }

    /// These indexes wait for the node, in their order, behind those that wait for it already.
    #[inline]
    pub fn put_each(&mut self, node: u16, indexes: &[u32])
        requires node { node < length self.old }
        requires room { pending_count self.old + length indexes.now ≤ most_pending }
        ensures { self.new ≡ slice_set self.old node (pending_at self.old node ++ indexes.now) }
    {
        if indexes.is_empty() {
            return;
        }
        self.queues[node as usize].push_each(indexes, &mut self.spares);
        self.busy.insert(node);
    }

    /// Takes the oldest frame of the lowest node for which any index waits, and says which node: the first 256 indexes, or all
    /// where there are fewer. `None` exactly where no index waits.
    pub fn next_frame(&mut self) -> Option<(u16, Frame)>
        ensures { MatchOption result
            (IsNothingPending self.old × (self.new ≡ self.old))
            (λ taken. TakesFrame self.old taken.0 taken.1 self.new) }
    {
        let node = self.busy.lowest()?;
        let queue = &mut self.queues[node as usize];
        let frame = queue.pop(&mut self.spares);
        if queue.is_empty() {
            self.busy.remove(node);
        }
        Some((node, frame))
    }
}
