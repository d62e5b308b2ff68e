//! The queues between the workers of a run.
ghost use Rattle.std.specs.Prelude.{◌≡◌, ◌<◌, ◌≤◌, suc, [], IfOk, OnOk, length, replicate};
ghost use Rattle.std.specs.List.{AllByRecursion};
ghost use Rattle.vg_ring.specs.Ends.{put, tx_ring, tx_slots};
ghost use Rattle.vg_workers.specs.Linked.{AreLinked};
ghost use Rattle.vg_workers.specs.Linking.{AreLinkedUpTo};

use crate::lists::push;
use std::alloc::Global;
use vg_dispatch::{Links, WorkerLinks};
use vg_hands::HandFrame;
use vg_model::Memory;
use vg_ring::{RingTx, ring};

// A worker that is linked with no other.
fn unlinked(alloc: Global, workers: usize) -> Result<WorkerLinks<RingTx<HandFrame>>, Memory>
    ensures { IfOk result (λ links. (links.inputs.items ≡ []) × (links.outputs.items ≡ [])) }
{
    let inputs = Vec::with_capacity(alloc, workers)?;
    let outputs = Vec::with_capacity(alloc, workers)?;
    Ok(WorkerLinks { inputs, outputs })
}

// So many of them.
fn all_unlinked(
    alloc: Global,
    workers: usize,
) -> Result<Vec<WorkerLinks<RingTx<HandFrame>>>, Memory>
    ensures count { IfOk result (λ links. length links.items ≡ workers) }
    ensures none { IfOk result (λ links. AllByRecursion (λ l. (l.inputs.items ≡ []) × (l.outputs.items ≡ [])) links.items) }
{
    let mut links = Vec::new(alloc);
    for _i in 0..workers {
        push(&mut links, unlinked(alloc, workers)?)?;
    }
    Ok(links)
}

// Links a worker to each other one, by a queue of so many slots.
fn link_from(
    alloc: Global,
    links: &mut Vec<WorkerLinks<RingTx<HandFrame>>>,
    from: usize,
    slots: u64,
) -> Result<(), Memory>
    requires slots { (0 < slots) × (slots ≤ 256) }
    requires within { from < length links.old.items }
    requires linked { AreLinkedUpTo slots from 0 0 links.old.items }
    ensures count { OnOk result (length links.new.items ≡ length links.old.items) }
    ensures linked { OnOk result (AreLinkedUpTo slots (suc from) 0 0 links.new.items) }
{
    for to in 0..links.len() {
        if to == from {
            continue;
        }
        let (tx, rx) = ring(alloc, slots)?;
        push(&mut links[from].outputs, tx)?;
        push(&mut links[to].inputs, rx)?;
    }
    Ok(())
}

/// A queue of 1 to 256 slots from each of so many workers to each other one.
///
/// # Errors
///
/// [`Memory`] where memory runs out.
pub fn links_of(alloc: Global, workers: u8, slots: u64) -> Result<Links<RingTx<HandFrame>>, Memory>
    requires { (0 < slots) × (slots ≤ 256) }
    ensures { IfOk result (λ links. AreLinked put tx_ring tx_slots workers slots links.workers.items) }
{
    let mut links = all_unlinked(alloc, workers as usize)?;
    for from in 0..links.len() {
        link_from(alloc, &mut links, from, slots)?;
    }
    Ok(Links { workers: links })
}
