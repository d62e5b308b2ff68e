//! Loads, over sinks in memory.

use crate::memory_runs::run_gated;
use std::num::NonZeroUsize;
use vg_capture::Savefile;
use vg_load::{Load, load_capture};
use vg_outside::{MeetGate, MemorySink, OpenGate, SureFolder};
use vg_top::{run_both, vgd_run};

/// The words of a load.
const LOAD: [&str; 4] = ["load", "0", "1000", "2"];

/// What is printed of it.
const SUMMARY: &str =
    "load 0 1000 2\ncapture 76024\nplain tx 938 drop 62\nhandoff ended 1000\nbuffers 4096\nend\n";

#[test]
fn a_load_runs_two_workers_at_once_and_twice(rt: HostRuntime) {
    let gate = MeetGate::new();
    let ran = run_gated(&rt, &LOAD, &[("t", b"kept")], &gate);
    assert_eq!(rt; ran.printed.as_slice(), SUMMARY.as_bytes());
    assert_eq!(rt; ran.status, 0);
    assert!(rt; ran.ran.is_none());
    assert_eq!(rt;
        ran.tx.expect(&rt, "no file").as_slice(),
        b"kept".as_slice()
    );
    assert_eq!(rt; gate.met(), 4);
    assert_eq!(rt; gate.given_up(), 0);
}

#[test]
fn the_runs_of_a_load_come_to_what_is_told(rt: HostRuntime) {
    for (packets, workers) in [(1_u32, 1_u8), (16, 3), (1000, 2), (5000, 8)] {
        let load = Load {
            seed: 7,
            packets,
            workers,
        };
        let (plain, handoff) = run_both(&rt, rt.alloc(), &load, &OpenGate).expect(&rt, "two runs");
        assert_eq!(rt; plain.ended, packets as usize);
        assert_eq!(rt; plain.sent, (packets - packets / 16) as usize);
        assert_eq!(rt; plain.buffers, 4096);
        assert_eq!(rt; handoff.ended, packets as usize);
        assert_eq!(rt; handoff.buffers, 4096);
    }
}

#[test]
fn the_savefile_of_a_load_is_as_long_as_is_told(rt: HostRuntime) {
    let alloc = rt.alloc();
    let capture = load_capture(alloc, 0, 1000).expect(&rt, "memory");
    let mut file = Savefile::begin(alloc, &capture, 0).expect(&rt, "memory");
    for number in 0..capture.packets.len() {
        let bytes = capture.packets.bytes(number);
        assert_eq!(rt; bytes.len(), 60);
        file.put(&capture, number as u32, bytes)
            .expect(&rt, "memory");
    }
    assert_eq!(rt; file.end().as_slice().len(), 76_024);
}

#[test]
fn a_load_prints_all_or_a_front(rt: HostRuntime) {
    let alloc = rt.alloc();
    let mut folder = SureFolder::new(alloc);
    let mut out = MemorySink::new(
        alloc,
        vec![in alloc; 2_u64].expect(&rt, "memory"),
        NonZeroUsize::new(10),
    );
    let done = vgd_run(&rt, alloc, &LOAD, &mut folder, &mut out, &OpenGate);
    assert_eq!(rt; done.status, 7);
    assert!(rt; done.ran.is_none());
    assert_eq!(rt; Some(out.written()), SUMMARY.as_bytes().get(..20));
}
