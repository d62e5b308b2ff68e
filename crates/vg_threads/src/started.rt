//! A worker in a thread of its own, or, where none could be made, with main.
ghost use Rattle.std.specs.Prelude.{◌≡◌};
ghost use Rattle.vg_threads.specs.Starts.{started_tie};

use crate::patience::Patience;
use crate::posts::Desk;
use crate::tied::{Same, Tied};
use std::snapshot::Snapshot;
use std::sync::Wait;
use std::sync::ledger::Ledger;
use std::thread::{PromisedHandle, Scope, Threads};
use vg_dispatch::Turn;
use vg_hands::{HandFrame, Handoff};
use vg_nodes::KindSet;
use vg_outside::Gate;
use vg_pool::PoolLedger;

/// A worker with the desk at which it posts how far it is.
#[derive(Drop)]
pub(crate) struct Posted<'a, K: KindSet, H: Handoff<HandFrame>, T: PoolLedger, L: Ledger> {
    pub tied: Tied<'a, K, H, T, L>,
    pub desk: Desk<'a>,
}

/// A worker that was started.
#[derive(Drop)]
pub(crate) enum Started<'a, K: KindSet, H: Handoff<HandFrame>, T: PoolLedger, L: Ledger> {
    /// In a thread of its own.
    There(PromisedHandle<Tied<'a, K, H, T, L>, Same<'a, K, H, T, L>>),
    /// With main, which gives it its turns, since no thread could be made.
    Here(Posted<'a, K, H, T, L>),
}

/// What a turn of a worker came to.
#[derive(Clone, Copy, PartialEq, Eq)]
enum After {
    /// It drew packets, or took or handed over a frame.
    Moved,
    /// It did none of that, and has packets to draw.
    Nothing,
    /// It did none of that, and has drawn its packets below the limit.
    Through,
    /// It is parked.
    Parked,
    /// It has stopped.
    Stopped,
}

/// One turn of a worker, which posts its mark where that moves on, and wakes the others where it has taken a frame of one of them, or handed
/// one over.
fn turn_at<'a, K: KindSet, H: Handoff<HandFrame>, T: PoolLedger, L: Ledger, R: Wait, G: Gate>(
    tied: &mut Tied<'a, K, H, T, L>,
    rt: &R,
    gate: &G,
    desk: Desk<'_>,
) -> After
    ensures { tied.new ≡ tied.old }
{
    let mark = tied.mark();
    let frames = tied.frames();
    match tied.turn(rt, gate) {
        Turn::Stopped => After::Stopped,
        Turn::Parked => After::Parked,
        Turn::Ran => {
            let handed = tied.frames() != frames;
            if handed {
                desk.all.wake_sleepers();
            }
            if tied.mark() != mark {
                desk.own.tell(tied.mark());
                return After::Moved;
            }
            if handed {
                After::Moved
            } else if mark < desk.limit() {
                After::Nothing
            } else {
                After::Through
            }
        }
    }
}

// Whether main may wait for this, after a turn that came to `last`: the worker is through, is parked, or is so no longer.
fn concerns_main(last: After, after: After) -> bool {
    after != last && (matches!(after, After::Through | After::Parked) || last == After::Parked)
}

/// Turns of a worker, until it has stopped, or its start was refused. Between two turns that came to the same, but for those that moved
/// the worker on, it waits.
fn work<'a, K: KindSet, H: Handoff<HandFrame>, T: PoolLedger, L: Ledger, R: Wait, G: Gate>(
    rt: &R,
    mut tied: Tied<'a, K, H, T, L>,
    gate: &G,
    desk: Desk<'_>,
) -> Tied<'a, K, H, T, L>
    ensures { result ≡ tied.entry }
{
    let mut last = After::Moved;
    let mut patience = Patience::new();
    for _ in rt.forever() {
        if desk.own.is_refused() {
            break;
        }
        let after = turn_at(&mut tied, rt, gate, desk);
        if after == After::Stopped {
            break;
        }
        if concerns_main(last, after) {
            desk.wake_main();
        }
        if after == After::Moved || after != last {
            patience = Patience::new();
        } else {
            desk.let_worker_wait(rt, &mut patience);
        }
        last = after;
    }
    desk.wake_main();
    tied
}

/// Starts a worker in a thread of the scope. Where the start is refused the worker stays here: its post says so to the closure that
/// comes back, which then makes no turn.
pub(crate) fn start<
    's,
    'a: 's,
    E,
    K: KindSet + Send + 's,
    H: Handoff<HandFrame> + Send + 's,
    T: PoolLedger + Send + 's,
    L: Ledger + Send + 's,
    R: Wait + Threads + Sync + 's,
    G: Gate + 's,
>(
    rt: &'a R,
    scope: &Scope<'s, E>,
    tied: Tied<'a, K, H, T, L>,
    gate: &'a G,
    desk: Desk<'a>,
) -> Started<'a, K, H, T, L>
    ensures { started_tie result ≡ tied.entry }
{
    let promise = Same {
        given: Snapshot::of(&tied),
    };
    desk.own.tell(tied.mark());
    match scope.spawn_with(promise, move || work(rt, tied, gate, desk)) {
        Ok(handle) => Started::There(handle),
        Err(back) => {
            desk.own.refuse();
            Started::Here(Posted {
                tied: (back.value)(),
                desk,
            })
        }
    }
}

/// One turn of a worker that is with main. Answers whether it has moved on.
pub(crate) fn turn_here<
    'a,
    K: KindSet,
    H: Handoff<HandFrame>,
    T: PoolLedger,
    L: Ledger,
    R: Wait,
    G: Gate,
>(started: &mut Started<'a, K, H, T, L>, rt: &R, gate: &G) -> bool
    ensures { started_tie started.new ≡ started_tie started.old }
{
    match started {
        Started::There(_) => false,
        Started::Here(worker) => {
            turn_at(&mut worker.tied, rt, gate, worker.desk) == After::Moved
        }
    }
}

/// The worker, once its thread has ended.
pub(crate) fn joined<'a, K: KindSet, H: Handoff<HandFrame>, T: PoolLedger, L: Ledger, R: Threads>(
    started: Started<'a, K, H, T, L>,
    rt: &R,
) -> Tied<'a, K, H, T, L>
    ensures { result ≡ started_tie started.entry }
{
    match started {
        Started::There(handle) => handle.join(rt),
        Started::Here(worker) => {
            let Posted { tied, desk: _ } = worker;
            tied
        }
    }
}
