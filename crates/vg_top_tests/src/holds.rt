//! Runs that hold frames back, over folders and sinks in memory.

use crate::memory_runs::{RUN, run_over, run_with, savefile};
use crate::workers::{HAND, TO_1, assert_ran, crossing, report, rounds};

#[test]
fn a_frame_that_finds_its_queue_full_is_held_back(rt: HostRuntime) {
    let alloc = rt.alloc();
    let capture = savefile(alloc, &[TO_1, TO_1, TO_1, TO_1, TO_1]).expect(&rt, "memory");
    let words = [
        "run",
        "--workers",
        "2",
        "--queue",
        "1",
        "--burst",
        "1",
        "--hold",
        "--turns",
        "u",
        "c",
        "s",
        "t",
    ];
    let files: [(&str, &[u8]); 3] = [("c", capture.as_slice()), ("s", HAND), ("u", b"0010")];
    let ran = run_with(&rt, &words, &files);
    let lines = "packet 0 0:0,1:0 tx pg0\npacket 1 1:0 tx pg0\n\
        packet 2 0:0,1:0 tx pg0\npacket 3 1:0 tx pg0\n\
        packet 4 0:0,1:0 tx pg0\n";
    let report = report(alloc, [4096, 1, 5], [5, 3, 5, 0, 5, 5], lines).expect(&rt, "memory");
    let alone = run_over(&rt, &RUN, capture.as_slice(), HAND);
    let tx = alone.tx.expect(&rt, "no savefile");
    assert_ran(&rt, ran, report.as_str(), tx.as_slice(), 1);
}

#[test]
fn four_workers_in_threads_that_hold_frames_save_what_one_saves(rt: HostRuntime) {
    let alloc = rt.alloc();
    let macs = ["02fe00000000 020000000001"; 2];
    let capture = rounds(alloc, 300, 64, 0xae, macs).expect(&rt, "memory");
    let script = crossing(alloc).expect(&rt, "memory");
    let script = script.as_str().as_bytes();
    let words = [
        "run",
        "--workers=4",
        "--queue=1",
        "--burst=1",
        "--hold",
        "c",
        "s",
        "t",
    ];
    let held = run_over(&rt, &words, capture.as_slice(), script);
    let alone = run_over(&rt, &RUN, capture.as_slice(), script);
    assert_eq!(rt; held.status, 0);
    assert_eq!(rt; alone.status, 0);
    assert_eq!(rt; held.tx, alone.tx);
}
