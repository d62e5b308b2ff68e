//! What the workers of a run have kept at its end.
ghost use Rattle.std.specs.Prelude.{◌≡◌, ◌∷◌, ◌++◌, [], IfOk, OnOk, map, All};
ghost use Rattle.vg_counters.specs.Tally.{IsWhole};
ghost use Rattle.vg_dispatch.specs.Workers.{IsIdle};
ghost use Rattle.vg_workers.specs.Ended.{HaveKept};

use crate::lists::{push, room_for};
use std::alloc::Global;
use std::sync::ledger::Ledger;
use vg_counters::{Counters, Trace};
use vg_dispatch::{FateList, SentList, Worker, WorkerEnd};
use vg_hands::{HandFrame, Handoff};
use vg_model::Memory;
use vg_nodes::KindSet;
use vg_pool::{Cache, PoolLedger};
use vg_ring::{RingRx, RingTx};

/// What the workers have kept, by number.
#[derive(Drop)]
pub struct Ends<T: Ledger, L: Ledger> {
    pub logs: Vec<FateList>,
    pub sent: Vec<SentList>,
    pub counters: Vec<Counters>,
    pub traces: Vec<Trace>,
    pub caches: Vec<Cache<T, L>>,
    pub inputs: Vec<Vec<RingRx<HandFrame>>>,
    pub outputs: Vec<Vec<RingTx<HandFrame>>>,
}

impl<T: Ledger, L: Ledger> Ends<T, L> {
    /// What no worker has kept, with room for so many workers.
    ///
    /// # Errors
    ///
    /// [`Memory`] where memory runs out.
    pub fn with_room(alloc: Global, workers: usize) -> Result<Ends<T, L>, Memory>
        ensures { IfOk result (HaveKept []) }
    {
        Ok(Ends {
            logs: room_for(alloc, workers)?,
            sent: room_for(alloc, workers)?,
            counters: room_for(alloc, workers)?,
            traces: room_for(alloc, workers)?,
            caches: room_for(alloc, workers)?,
            inputs: room_for(alloc, workers)?,
            outputs: room_for(alloc, workers)?,
        })
    }

    // Takes in what one more worker has kept.
    fn add(&mut self, end: WorkerEnd<T, L>) -> Result<(), Memory>
        ensures logs { OnOk result (self.new.logs.items ≡ self.old.logs.items ++ end.log ∷ []) }
        ensures sent { OnOk result (self.new.sent.items ≡ self.old.sent.items ++ end.sent ∷ []) }
        ensures counters { OnOk result (self.new.counters.items ≡ self.old.counters.items ++ end.counters ∷ []) }
        ensures whole { IsWhole end.counters }
        ensures traces { OnOk result (self.new.traces.items ≡ self.old.traces.items ++ end.trace ∷ []) }
        ensures caches { OnOk result (self.new.caches.items ≡ self.old.caches.items ++ end.cache ∷ []) }
        ensures inputs { OnOk result (self.new.inputs.items ≡ self.old.inputs.items ++ end.inputs ∷ []) }
        ensures outputs { OnOk result (self.new.outputs.items ≡ self.old.outputs.items ++ end.outputs ∷ []) }
    {
        let WorkerEnd {
            log,
            sent,
            counters,
            trace,
            cache,
            inputs,
            outputs,
        } = end;
        // A reader tells what counters keep.
        let _nodes = counters.nodes();
        push(&mut self.logs, log)?;
        push(&mut self.sent, sent)?;
        push(&mut self.counters, counters)?;
        push(&mut self.traces, trace)?;
        push(&mut self.caches, cache)?;
        push(&mut self.inputs, inputs)?;
        push(&mut self.outputs, outputs)
    }
}

/// Ends the workers, of which none has anything on its way. It takes no memory where there is room for what they have kept.
///
/// # Errors
///
/// [`Memory`] where memory runs out.
pub fn end_all<K: KindSet, H: Handoff<HandFrame>, T: PoolLedger, L: Ledger>(
    workers: Vec<Worker<K, H, T, L>>,
    room: Ends<T, L>,
) -> Result<Ends<T, L>, Memory>
    requires idle { All IsIdle workers.items }
    requires room { HaveKept [] room }
    ensures { IfOk result (HaveKept workers.items) }
{
    let mut ends = room;
    for worker in workers {
        ends.add(worker.end())?;
    }
    Ok(ends)
}
