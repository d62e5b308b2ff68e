//! The queues of a run that refuses no frame.
ghost use Rattle.std.specs.Prelude.{◌≡◌, map, IfOk};
ghost use Rattle.std.specs.List.{AllByRecursion};
ghost use Rattle.vg_backlog.specs.Books.{empty_behind, accepted_by};
ghost use Rattle.vg_dispatch.specs.Progress.{AreInRange};
ghost use Rattle.vg_engine.specs.Linked.{AreLinked};
ghost use Rattle.vg_top.specs.Lossless.{ring_of, slots_of, HoldsBack};

use std::alloc::Global;
use vg_backlog::{Backlog, backlogs_of};
use vg_dispatch::{Links, WorkerLinks};
use vg_engine::{Options, links_of};
use vg_hands::HandFrame;
use vg_model::Memory;
use vg_model::limits::FRAME_SIZE;
use vg_ring::RingTx;

/// A worker's ends of its queues, with a backlog behind each of its outputs.
fn with_backlogs(
    alloc: Global,
    links: WorkerLinks<RingTx<HandFrame>>,
    slots: u64,
    room: usize,
) -> Result<WorkerLinks<Backlog>, Memory>
    ensures inputs { IfOk result (λ held. held.inputs ≡ links.inputs) }
    ensures outputs { IfOk result (λ held. held.outputs.items ≡ map (empty_behind slots room) links.outputs.items) }
{
    let WorkerLinks { inputs, outputs } = links;
    Ok(WorkerLinks {
        inputs,
        outputs: backlogs_of(alloc, outputs, slots, room)?,
    })
}

/// A queue from each worker of a run to each other one, with a backlog behind each. A backlog closes its gate when it holds as many frames
/// as the queue has slots, and has room for the packets of all buffers and of one more round, so it never lacks room for a round.
///
/// # Errors
///
/// [`Memory`] where memory runs out; all that was taken is given back.
pub fn lossless_links(alloc: Global, options: &Options) -> Result<Links<Backlog>, Memory>
    requires { AreInRange options.now }
    ensures linked { IfOk result (λ links. AreLinked accepted_by ring_of slots_of options.now.workers options.now.queue links.workers.items) }
    ensures held { IfOk result (λ links. AllByRecursion (HoldsBack options.now) links.workers.items) }
{
    let room = options.buffers as usize + FRAME_SIZE * options.workers as usize;
    let rings = links_of(alloc, options.workers, options.queue)?;
    let Ok(mut workers) = Vec::with_capacity(alloc, rings.workers.len()) else {
        return Err(Memory);
    };
    for links in rings.workers {
        workers.push_reserved(with_backlogs(alloc, links, options.queue, room)?);
    }
    Ok(Links { workers })
}
