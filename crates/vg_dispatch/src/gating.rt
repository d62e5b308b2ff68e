//! When a worker takes frames and draws packets.
ghost use Rattle.std.specs.Prelude.{ℕ, ◌≡◌, ◌≤◌, ◌↔◌, ◌+◌, false, map};
ghost use Rattle.std.specs.Bool.{MatchBool, IsTrue};
ghost use Rattle.std.specs.List.{AllByRecursion};
ghost use Rattle.vg_pool.specs.Moves.{most_kept, wanted};
ghost use Rattle.vg_underway.specs.Outlets.{outlet_of, AreTicked};

use std::sync::Wait;
use std::sync::ledger::Ledger;
use vg_hands::{HandFrame, Handoff};
use vg_pool::{Cache, LockedPool, MOST_KEPT, PoolLedger};

// Lets all handoffs go on.
pub(crate) fn tick_all<H: Handoff<HandFrame>>(outputs: &mut [H])
    ensures accepted { map H.accepted outputs.new ≡ map H.accepted outputs.old }
    ensures rings { map H.ring outputs.new ≡ map H.ring outputs.old }
    ensures slots { map H.slots outputs.new ≡ map H.slots outputs.old }
    ensures ticked { (most : ℕ) → AreTicked H.slots H.LOSSLESS H.accepted (outlet_of H.end H.refusals H.waiting H.free_room H.closes most) outputs.old outputs.new }
{
    'outputs: for output in outputs.iter_mut() {
        output.tick();
    }
}

// Whether a round takes and draws packets: the cache has no more buffers than it may keep, and all handoffs have room for so many
// packets.
pub(crate) fn may_go<H: Handoff<HandFrame>>(outputs: &[H], room: usize, cached: u32) -> bool
    ensures { IsTrue result ↔ ((cached ≤ most_kept) × AllByRecursion (λ output. room ≤ H.free_room output) outputs.now) }
{
    if cached > MOST_KEPT {
        return false;
    }
    'outputs: for output in outputs {
        if !output.fits(room) {
            return false;
        }
    }
    true
}

// Whether a round that takes packets draws some: no gate of a handoff is closed, where the handoff is to have this room.
pub(crate) fn may_draw<H: Handoff<HandFrame>>(goes: bool, outputs: &[H], room: usize) -> bool
    ensures { IsTrue result ↔ (IsTrue goes × AllByRecursion (λ output. H.closes output room ≡ false) outputs.now) }
{
    if !goes {
        return false;
    }
    'outputs: for output in outputs {
        if output.gate_closed(room) {
            return false;
        }
    }
    true
}

// So many where the round goes on, or else none.
pub(crate) fn where_goes(goes: bool, count: u32) -> u32
    ensures { MatchBool goes (result ≡ count) (result ≡ 0) }
{
    if goes { count } else { 0 }
}

// Refills the cache where it may lack buffers for the longest packet, for a round that may draw packets; answers with how many buffers.
pub(crate) fn refill_for<R: Wait, T: PoolLedger, L: Ledger>(
    rt: &R,
    pool: &LockedPool<T, L>,
    cache: &mut Cache<T, L>,
    draws: bool,
) -> u32
    ensures few { result ≤ wanted cache.old }
    ensures cache { cache.new ≡ record cache.old { len = cache.old.len + result; taken = cache.old.taken + result } }
    ensures none { draws ≡ false → result ≡ 0 }
{
    if draws { pool.refill(rt, cache) } else { 0 }
}
