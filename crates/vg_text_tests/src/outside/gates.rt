//! The gate that workers pass: open, and where two of them meet.

use std::thread;
use vg_outside::{Gate, MeetGate, OpenGate};

fn enter<G: Gate>(gate: &G, worker: u8, turn: u64) {
    gate.enter(worker, turn);
}

#[test]
fn an_open_gate_lets_a_worker_in(_rt: HostRuntime) {
    enter(&OpenGate, 7, 1 << 62);
}

// Two runs over one gate, each with three turns of the worker.
fn two_runs(gate: &MeetGate, worker: u8) {
    for _ in 0..2 {
        for turn in 0..3 {
            enter(gate, worker, turn);
        }
    }
}

#[test]
fn workers_in_two_threads_meet_in_each_turn_0(rt: HostRuntime) {
    let gate = MeetGate::new();
    thread::join(&rt, || two_runs(&gate, 0), || two_runs(&gate, 1));
    assert_eq!(rt; gate.met(), 4);
    assert_eq!(rt; gate.given_up(), 0);
}

#[test]
fn other_turns_and_workers_are_let_in_at_once(rt: HostRuntime) {
    let gate = MeetGate::new();
    for (worker, turn) in [(0, 1), (1, 1 << 62), (2, 0), (7, 0)] {
        enter(&gate, worker, turn);
    }
    assert_eq!(rt; gate.met(), 0);
    assert_eq!(rt; gate.given_up(), 0);
}

// The first worker finds nobody and gives up; the second finds that the first has been there.
#[test]
fn in_one_thread_the_first_hold_is_given_up(rt: HostRuntime) {
    let gate = MeetGate::new();
    enter(&gate, 1, 0);
    assert_eq!(rt; gate.given_up(), 1);
    assert_eq!(rt; gate.met(), 0);
    enter(&gate, 0, 0);
    assert_eq!(rt; gate.given_up(), 1);
    assert_eq!(rt; gate.met(), 1);
}
