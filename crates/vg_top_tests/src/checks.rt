//! Checks of what runs put out, over folders and sinks in memory.

use crate::memory_runs::{Ran, run_over, run_with, savefile};
use crate::workers::{HAND, TO_1, crossing, rounds};
use std::alloc::{AllocError, Global};
use std::process::Abort;
use std::sync::Wait;
use std::thread::Threads;
use vg_report::read_report;

/// The words of a check, where a queue has one slot.
const CHECK_ONE: [&str; 7] = ["check", "--queue", "1", "c", "s", "t", "r"];

/// A savefile and a report, with the capture and the script of the run that they came from.
#[derive(Drop)]
struct Output {
    capture: Vec<u8>,
    script: &'static [u8],
    tx: Vec<u8>,
    report: String,
}

impl Output {
    /// What a run of these words puts out, by these turns where there are some.
    fn of<R: Abort + Wait + Threads + Sync + AllocGlobal>(
        rt: &R,
        words: &[&str],
        capture: Vec<u8>,
        script: &'static [u8],
        turns: &[u8],
    ) -> Output {
        let ran = run_by(rt, words, capture.as_slice(), script, turns);
        assert_eq!(rt; ran.status, 0);
        Output {
            tx: ran.tx.expect(rt, "no savefile"),
            report: String::from_utf8(ran.printed).expect(rt, "text"),
            capture,
            script,
        }
    }
}

/// Calls the program over a capture, a script and turns.
fn run_by<R: Abort + Wait + Threads + Sync + AllocGlobal>(
    rt: &R,
    words: &[&str],
    capture: &[u8],
    script: &[u8],
    turns: &[u8],
) -> Ran {
    run_with(rt, words, &[("c", capture), ("s", script), ("u", turns)])
}

/// The run of five packets by two workers whose queue has one slot, which is full at the third packet.
fn handed<R: Abort + Wait + Threads + Sync + AllocGlobal>(rt: &R) -> Output {
    let words = [
        "run",
        "--workers",
        "2",
        "--queue",
        "1",
        "--burst",
        "1",
        "--turns",
        "u",
        "c",
        "s",
        "t",
    ];
    let capture = savefile(rt.alloc(), &[TO_1, TO_1, TO_1, TO_1, TO_1]).expect(rt, "memory");
    Output::of(rt, &words, capture, HAND, b"0010")
}

/// Bytes of which one has some bits changed.
fn changed(alloc: Global, bytes: &[u8], place: usize, bits: u8) -> Result<Vec<u8>, AllocError> {
    let mut other = Vec::with_capacity(alloc, bytes.len())?;
    for k in 0..bytes.len() {
        let byte = bytes[k];
        other.push(if k == place { byte ^ bits } else { byte })?;
    }
    Ok(other)
}

/// Whether a check of two workers' output with these bytes answers yes.
fn is_accepted<R: Abort + Wait + Threads + Sync + AllocGlobal>(
    rt: &R,
    run: &Output,
    tx: &[u8],
    report: &[u8],
) -> bool {
    let files: [(&str, &[u8]); 4] = [
        ("c", run.capture.as_slice()),
        ("s", run.script),
        ("t", tx),
        ("r", report),
    ];
    run_with(rt, &CHECK_ONE, &files).status == 0
}

/// Whether a second run of the two workers, with as many buffers as a report names, puts this report out beside the same savefile.
fn is_put_out<R: Abort + Wait + Threads + Sync + AllocGlobal>(
    rt: &R,
    run: &Output,
    report: &[u8],
) -> bool {
    let alloc = rt.alloc();
    let Ok(read) = read_report(alloc, report) else {
        return false;
    };
    let buffers = read.buffers;
    if buffers == 4096 {
        return run.report.as_str().as_bytes() == report;
    }
    let buffers = format!(in alloc; "--buffers={buffers}").expect(rt, "memory");
    let words = [
        "run",
        "--workers",
        "2",
        "--queue",
        "1",
        "--burst",
        "1",
        buffers.as_str(),
        "--turns",
        "u",
        "c",
        "s",
        "t",
    ];
    let Ran {
        status: _,
        printed,
        tx,
        ran: _,
    } = run_by(rt, &words, run.capture.as_slice(), run.script, b"0010");
    let Some(tx) = tx else {
        return false;
    };
    printed.as_slice() == report && tx.as_slice() == run.tx.as_slice()
}

// A changed report is accepted where a run puts it out, which is with another number of buffers than the 4,096 of this one. And two
// packets went over the queue, so it may have been full with 2 of them, though no turns of these workers come to that.
#[test]
fn a_changed_byte_is_accepted_where_a_run_puts_it_out(rt: HostRuntime) {
    let alloc = rt.alloc();
    let run = handed(&rt);
    let report = run.report.as_str().as_bytes();
    let tx = run.tx.as_slice();
    let count = run.report.as_str().find("1 drop hand congestion");
    let count = count.expect(&rt, "a count");
    for bits in [1_u8, 3] {
        for place in 0..report.len() {
            let other = changed(alloc, report, place, bits).expect(&rt, "memory");
            let other = other.as_slice();
            let accepted = is_accepted(&rt, &run, tx, other);
            let put_out = is_put_out(&rt, &run, other);
            assert_eq!(rt;
                accepted,
                put_out || (bits == 3 && place == count),
                "{place}"
            );
        }
    }
    for place in 0..tx.len() {
        let other = changed(alloc, tx, place, 1).expect(&rt, "memory");
        assert!(rt;
            !is_accepted(&rt, &run, other.as_slice(), report),
            "{place}"
        );
    }
}

#[test]
fn a_run_of_eight_workers_in_threads_is_accepted(rt: HostRuntime) {
    let alloc = rt.alloc();
    let macs = ["02fe00000000 020000000001"; 2];
    let capture = rounds(alloc, 300, 64, 0xae, macs).expect(&rt, "memory");
    let script = crossing(alloc).expect(&rt, "memory");
    let script = script.as_str().as_bytes();
    let words = [
        "run",
        "--workers",
        "8",
        "--queue",
        "2",
        "--burst",
        "16",
        "--trace",
        "3",
        "c",
        "s",
        "t",
    ];
    let ran = run_over(&rt, &words, capture.as_slice(), script);
    assert_eq!(rt; ran.status, 0);
    let tx = ran.tx.expect(&rt, "no savefile");
    let files: [(&str, &[u8]); 4] = [
        ("c", capture.as_slice()),
        ("s", script),
        ("t", tx.as_slice()),
        ("r", ran.printed.as_slice()),
    ];
    let words = ["check", "--queue", "2", "c", "s", "t", "r"];
    let checked = run_with(&rt, &words, &files);
    assert_eq!(rt; checked.printed.as_slice(), "yes\n".as_bytes());
    assert_eq!(rt; checked.status, 0);
}
