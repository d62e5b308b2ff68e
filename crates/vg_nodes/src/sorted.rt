//! A frame's indexes, sorted by what becomes of their packets.
ghost use Rattle.std.specs.Prelude.{◌≡◌, ◌<◌, [], ◌∷◌, ◌++◌, length, IfOk};
ghost use Rattle.vg_frame.specs.Pending.{frame_size};
ghost use Rattle.vg_nodes.specs.Sorting.{HasRoom};

use crate::entries::Entries;
use crate::next_list::NextList;
use std::alloc::Global;
use vg_model::{DropError, Memory, Step};

/// Packets that are transmitted, each with the number of its interface.
pub type TxList = Entries<u16>;

/// Packets that the node drops, each with the error.
pub type DropList = Entries<DropError>;

/// Packets to be handed over, each with the hash that chooses the worker.
pub type HandList = Entries<u32>;

/// The indexes of a frame after a dispatch, each in the list that its packet's step names.
#[derive(Drop)]
pub struct Sorted {
    /// Those whose packets go on.
    pub next: NextList,
    /// Those whose packets are transmitted.
    pub tx: TxList,
    /// Those whose packets the node drops.
    pub drops: DropList,
    /// Those whose packets are to be handed over.
    pub hands: HandList,
}

impl Sorted {
    ghost use Rattle.vg_nodes.specs.Sorting.{put, nothing_sorted};

    /// Empty lists, with room for a whole frame in each.
    ///
    /// # Errors
    ///
    /// [`Memory`] where memory runs out.
    pub fn new(alloc: Global) -> Result<Sorted, Memory>
        ensures { IfOk result (λ sorted. sorted ≡ nothing_sorted) }
    {
        Ok(Sorted {
            next: NextList::new(alloc)?,
            tx: Entries::new(alloc)?,
            drops: Entries::new(alloc)?,
            hands: Entries::new(alloc)?,
        })
    }

    /// Puts an index into the list that the step of its packet names, behind those that are there.
    #[inline]
    pub fn put(&mut self, index: u32, step: Step)
        requires { HasRoom self.old }
        ensures { self.new ≡ put index step self.old }
    {
        match step {
            Step::Next { slot } => self.next.push(index, slot),
            Step::Tx { interface } => self.tx.push(index, interface),
            Step::Dropped { error } => self.put_dropped(index, error),
            Step::Hand { hash } => self.hands.push(index, hash),
        }
    }

    // Puts an index behind those whose packets the node drops. It stands apart, so that the loops over frames are short.
    #[cold]
    #[inline(never)]
    fn put_dropped(&mut self, index: u32, error: DropError)
        requires { length self.old.drops < frame_size }
        ensures { self.new ≡ record self.old { drops = self.old.drops ++ (index, error) ∷ [] } }
    {
        self.drops.push(index, error);
    }

    /// Removes all indexes from the lists. Their room stays.
    pub fn clear(&mut self)
        ensures { self.new ≡ nothing_sorted }
    {
        self.next.clear();
        self.tx.clear();
        self.drops.clear();
        self.hands.clear();
    }
}
