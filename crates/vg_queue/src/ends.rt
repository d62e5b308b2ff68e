//! The two ends of a queue, and their calls.
ghost use Rattle.std.specs.Prelude.{◌≡◌, true, length};
ghost use Rattle.std.specs.Arc.{arc_value};
ghost use Rattle.crossbeam_queue.specs.Passes.{view, IsPassOf};

use crate::logs::{Line, LinePass, Put, Take};
use std::alloc::Global;
use std::sync::{Arc, Wait};

/// The push was refused, since by the answer of the queue below it was full.
#[derive(Debug, Drop, PartialEq, Eq)]
pub struct Full<T> {
    /// How many items this end has had accepted since the queue was made.
    pub accepted: u64,
    /// The item that found no slot.
    pub item: T,
}

/// The producer's end. Contracts see it as `put`, the items that it has had accepted, oldest first.
#[derive(Drop)]
pub struct QueueTx<T: Drop> {
    pub(crate) line: Arc<Line<T>, Global>,
    pub(crate) pass: LinePass<T>,
    pub(crate) accepted: u64,
    ghost seated: { IsPassOf (arc_value line) pass },
    ghost puts: { (view pass).puts ≡ true },
    ghost counted: { accepted ≡ length (view pass).put },
}

/// The consumer's end. Contracts see it as `taken`, the items that it took, oldest first.
#[derive(Drop)]
pub struct QueueRx<T: Drop> {
    pub(crate) line: Arc<Line<T>, Global>,
    pub(crate) pass: LinePass<T>,
    ghost seated: { IsPassOf (arc_value line) pass },
    ghost takes: { (view pass).takes ≡ true },
}

impl<T: Drop> QueueTx<T> {
    ghost use Rattle.std.specs.Prelude.{◌∷◌, ◌++◌, [], ◌^◌, ◌<◌, OnOk, OnErr, IfErr};
    ghost use Rattle.crossbeam_queue.specs.Fifo.{Held};
    ghost use Rattle.vg_queue.specs.Rule.{HoldsLast};
    ghost use Rattle.vg_queue.specs.Ends.{put, tx_slots, IsSameTx};

    /// Puts the item behind all that were accepted.
    ///
    /// `Full` gives the item back. That the queue was full at one moment of the call is the answer of the queue below; the contract
    /// says only that at least as many items were put as the queue has slots, and that this item was not.
    pub fn push<R: Wait>(&mut self, rt: &R, item: T) -> Result<(), Full<T>>
        requires { length (put self.old) < 2 ^ 62 }
        ensures same { IsSameTx self.old self.new }
        ensures ok { OnOk result (put self.new ≡ put self.old ++ item ∷ []) }
        ensures full { IfErr result (λ full. (full.item ≡ item) × (full.accepted ≡ length (put self.old)) × (put self.new ≡ put self.old)) }
        ensures full_at_once { OnErr result (Held (tx_slots self.old) (HoldsLast (put self.old))) }
    {
        match self.line.push_as::<Put, R>(rt, &mut self.pass, item) {
            Ok(()) => {
                self.accepted += 1;
                Ok(())
            }
            Err(item) => Err(Full {
                accepted: self.accepted,
                item,
            }),
        }
    }
}

impl<T: Drop> QueueRx<T> {
    ghost use Rattle.std.specs.Prelude.{◌∷◌, ◌++◌, [], IfNone, IfSome};
    ghost use Rattle.vg_queue.specs.Ends.{taken, IsSameRx};

    /// Takes the oldest item that was not yet taken.
    ///
    /// That the queue was empty at one moment of the call is the answer of the queue below; the contract says only that nothing was
    /// taken.
    pub fn pop<R: Wait>(&mut self, rt: &R) -> Option<T>
        ensures same { IsSameRx self.old self.new }
        ensures item { IfSome result (λ item. taken self.new ≡ taken self.old ++ item ∷ []) }
        ensures none { IfNone result (taken self.new ≡ taken self.old) }
    {
        self.line.pop_as::<Take, R>(rt, &mut self.pass)
    }
}
