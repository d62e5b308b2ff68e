//! The threads of a run.
ghost use Rattle.std.specs.Prelude.{◌≡◌, ◌≤◌, [], map, vec_len, vec_capacity};
ghost use Rattle.vg_threads.specs.Starts.{started_tie};

use crate::mains::Stage;
use crate::patience::Patience;
use crate::posts::{Desk, Posts};
use crate::started::{Started, joined, start, turn_here};
use crate::teams::{Joined, Team};
use crate::tied::{Tied, TiedMain};
use std::alloc::Global;
use std::sync::Wait;
use std::sync::ledger::Ledger;
use std::thread;
use std::thread::{Scope, Threads};
use vg_hands::{HandFrame, Handoff};
use vg_nodes::KindSet;
use vg_outside::Gate;
use vg_pool::PoolLedger;

/// Starts the workers.
fn start_all<
    's,
    'a: 's,
    E,
    K: KindSet + Send + 's,
    H: Handoff<HandFrame> + Send + 's,
    T: PoolLedger + Send + 's,
    L: Ledger + Send + 's,
    R: Wait + Threads + Sync + 's,
    G: Gate + 's,
>(
    rt: &'a R,
    scope: &Scope<'s, E>,
    workers: Vec<Tied<'a, K, H, T, L>>,
    room: Vec<Started<'a, K, H, T, L>>,
    gate: &'a G,
    posts: &'a Posts,
) -> Vec<Started<'a, K, H, T, L>>
    requires room { (room.items ≡ []) × (vec_len workers ≤ vec_capacity room) }
    requires posts { vec_len posts.now.workers ≡ vec_len workers }
    ensures { map started_tie result.items ≡ workers.entry.items }
{
    let mut started = room;
    for worker in workers {
        let desk = Desk {
            own: &posts.workers[started.len()],
            all: posts,
        };
        started.push_reserved(start(rt, scope, worker, gate, desk));
    }
    started
}

/// One turn of each worker that is with main. Answers whether one has moved on.
fn turn_all_here<'a, K: KindSet, H: Handoff<HandFrame>, T: PoolLedger, L: Ledger, R: Wait, G: Gate>(
    started: &mut Vec<Started<'a, K, H, T, L>>,
    rt: &R,
    gate: &G,
) -> bool
    ensures { map started_tie started.new.items ≡ map started_tie started.old.items }
{
    let mut moved = false;
    for k in 0..started.len() {
        moved = turn_here(&mut started[k], rt, gate) || moved;
    }
    moved
}

/// Main's steps, with turns of the workers that are here, until main has told the workers to stop and all of them have left.
///
/// Since each hold of the barrier stops all workers, main asks for it once they have posted that they have drawn their packets below
/// the limit, or after a pause that is longer the farther they had to go at the last hold. Whenever it asks or releases them, it wakes
/// those that sleep.
fn lead_started<'a, K: KindSet, H: Handoff<HandFrame>, T: PoolLedger, L: Ledger, R: Wait, G: Gate>(
    rt: &R,
    alloc: Global,
    main: TiedMain<'a>,
    started: &mut Vec<Started<'a, K, H, T, L>>,
    gate: &G,
    posts: &Posts,
) -> TiedMain<'a>
    ensures main { result ≡ main.entry }
    ensures workers { map started_tie started.new.items ≡ map started_tie started.old.items }
{
    let mut main = main;
    let mut looks = 0;
    posts.tell_limit(main.way().limit);
    let mut patience = Patience::new();
    for _ in rt.forever() {
        if main.is_over() {
            return main;
        }
        let stage = main.stage();
        let way = main.way();
        if stage == Stage::Idle && looks < way.pause() && !posts.have_drawn(way.limit) {
            looks += 1;
        } else {
            looks = 0;
            main = main.step(alloc);
        }
        let moved = turn_all_here(started, rt, gate);
        if main.stage() != stage {
            posts.tell_limit(main.way().limit);
            posts.wake_workers();
            patience = Patience::new();
        } else if moved {
            patience = Patience::new();
        } else {
            posts.let_main_wait(rt, &mut patience);
        }
    }
    unreachable!()
}

/// The workers, once their threads have ended.
fn join_all<'a, K: KindSet, H: Handoff<HandFrame>, T: PoolLedger, L: Ledger, R: Threads>(
    rt: &R,
    started: Vec<Started<'a, K, H, T, L>>,
    room: Vec<Tied<'a, K, H, T, L>>,
) -> Vec<Tied<'a, K, H, T, L>>
    requires room { (room.items ≡ []) × (vec_len started ≤ vec_capacity room) }
    ensures { result.items ≡ map started_tie started.entry.items }
{
    let mut workers = room;
    for worker in started {
        workers.push_reserved(joined(worker, rt));
    }
    workers
}

/// Starts the workers, leads them, and joins them.
fn drive<
    's,
    'a: 's,
    E,
    K: KindSet + Send + 's,
    H: Handoff<HandFrame> + Send + 's,
    T: PoolLedger + Send + 's,
    L: Ledger + Send + 's,
    R: Wait + Threads + Sync + 's,
    G: Gate + 's,
>(scope: &Scope<'s, E>, team: Team<'a, K, H, T, L, R, G>) -> Joined<'a, K, H, T, L>
    ensures workers { result.workers.items ≡ team.entry.workers.items }
    ensures main { result.main ≡ team.entry.main }
{
    let Team {
        rt,
        alloc,
        gate,
        posts,
        main,
        workers,
        started,
        joined,
    } = team;
    let mut started = start_all(rt, scope, workers, started, gate, posts);
    let main = lead_started(rt, alloc, main, &mut started, gate, posts);
    Joined {
        workers: join_all(rt, started, joined),
        main,
    }
}

/// Runs the workers in threads of their own, while main leads them.
pub(crate) fn run_team<
    'a,
    K: KindSet + Send,
    H: Handoff<HandFrame> + Send,
    T: PoolLedger + Send,
    L: Ledger + Send,
    R: Wait + Threads + Sync,
    G: Gate,
>(team: Team<'a, K, H, T, L, R, G>) -> Joined<'a, K, H, T, L>
    ensures workers { result.workers.items ≡ team.entry.workers.items }
    ensures main { result.main ≡ team.entry.main }
{
    thread::scope(
        thread::scope_env(),
        team.rt,
        move |scope| -> Joined<'_, K, H, T, L>
            ensures workers { result.workers.items ≡ team.entry.workers.items }
            ensures main { result.main ≡ team.entry.main }
        { drive(scope, team) },
    )
}
