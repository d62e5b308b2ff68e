//! How the queues between workers are closed.
ghost use Rattle.std.specs.Prelude.{◌≡◌, ◌<◌, ◌++◌, [], suc, length, map, flat_map, OnOk, IfOk};
ghost use Rattle.vg_ring.specs.Ends.{tx_ring};
ghost use Rattle.vg_ring.specs.Rests.{rest_ring};
ghost use Rattle.vg_workers.specs.Closing.{Queues, AreEnds, AreOutputs, AreOpen, IsClosed, closed_pairs};
ghost use Rattle.vg_workers.specs.Places.{AllWith, pairs};

use crate::lists::push;
use vg_hands::HandFrame;
use vg_model::Memory;
use vg_ring::{Rest, RingRx, RingTx, close};

// Closes the queues from one worker, whose ends these are, to each other one.
fn close_from(
    from: usize,
    outputs: Vec<RingTx<HandFrame>>,
    inputs: &mut Vec<Vec<RingRx<HandFrame>>>,
    rests: &mut Vec<Rest<HandFrame>>,
) -> Result<(), Memory>
    requires within { from < length inputs.old.items }
    requires ends { (q : Queues) × AreOutputs q from 0 (length inputs.old.items) outputs.items
        × AreOpen q (length inputs.old.items) from 0 (map (λ i. i.items) inputs.old.items) }
    ensures count { OnOk result (length inputs.new.items ≡ length inputs.old.items) }
    ensures rings { OnOk result (map rest_ring rests.new.items ≡ map rest_ring rests.old.items ++ map tx_ring outputs.items) }
    ensures closed { OnOk result ((q : Queues) → AreOutputs q from 0 (length inputs.old.items) outputs.items
        → AreOpen q (length inputs.old.items) from 0 (map (λ i. i.items) inputs.old.items)
        → AllWith (IsClosed q) (closed_pairs (length inputs.old.items) from 0) rests.old.items
        → AreOpen q (length inputs.old.items) (suc from) 0 (map (λ i. i.items) inputs.new.items)
        × AllWith (IsClosed q) (closed_pairs (length inputs.old.items) (suc from) 0) rests.new.items) }
{
    let mut outputs = outputs;
    for to in 0..inputs.len() {
        if to == from {
            continue;
        }
        let tx = outputs.remove(0);
        let rx = inputs[to].remove(0);
        push(rests, close(tx, rx))?;
    }
    Ok(())
}

/// Closes all queues: those from a worker by its number, and each by the number of the worker to which it leads. What is left of each
/// names the ring whose ends were closed. It takes no memory where there is room for them in the empty list.
///
/// # Errors
///
/// [`Memory`] where memory runs out.
pub fn close_all(
    outputs: Vec<Vec<RingTx<HandFrame>>>,
    inputs: Vec<Vec<RingRx<HandFrame>>>,
    room: Vec<Rest<HandFrame>>,
) -> Result<Vec<Rest<HandFrame>>, Memory>
    requires ends { (q : Queues) × AreEnds q (map (λ o. o.items) outputs.items) (map (λ i. i.items) inputs.items) }
    requires room { room.items ≡ [] }
    ensures closed { IfOk result (λ rests. (q : Queues) → AreEnds q (map (λ o. o.items) outputs.items) (map (λ i. i.items) inputs.items)
        → AllWith (IsClosed q) (pairs (length outputs.items)) rests.items) }
    ensures rings { IfOk result (λ rests. map rest_ring rests.items ≡ flat_map (λ o. map tx_ring o.items) outputs.items) }
{
    let mut inputs = inputs;
    let mut rests = room;
    let mut from = 0;
    for ends in outputs {
        close_from(from, ends, &mut inputs, &mut rests)?;
        from += 1;
    }
    Ok(rests)
}
