//! Runs of several workers, over folders and sinks in memory.

use crate::memory_runs::{
    Frame, HEADER, RUN, Ran, bytes_of, run_gated, run_over, run_with, savefile, savefile_at,
};
use std::alloc::{AllocError, Global};
use std::num::NonZeroUsize;
use std::process::Abort;
use std::sync::Wait;
use std::thread::Threads;
use vg_outside::{MeetGate, MemoryFolder, MemorySink, OpenGate};
use vg_top::vgd_run;

/// Each packet is handed over by its destination, and then sent straight to the interface.
pub(crate) const HAND: &[u8] = b"node hand kind handoff-dst\narc hand resume ethernet-input\n\
    arc pg-input out hand\narc ethernet-input ip4 interface-tx\n";

/// The same, but from a time on each packet is dropped behind the handoff.
const HAND_UP_TO_1000: &[u8] = b"node hand kind handoff-dst\narc hand resume ethernet-input\n\
    arc pg-input out hand\narc ethernet-input ip4 interface-tx\n\
    at 1000\narc ethernet-input ip4 error-drop\nend\n";

/// A frame from 192.0.2.1 to 10.0.0.1. Of two workers it is handed to worker 1.
pub(crate) const TO_1: Frame<'static> = (
    "02fe00000000 020000000001 0800 4500001400000000 4011aed7 c0000201 0a000001",
    34,
);

/// The report of a run of these packets by two workers, where only these nodes were visited.
pub(crate) fn report(
    alloc: Global,
    head: [u32; 3],
    counts: [u32; 6],
    lines: &str,
) -> Result<String, AllocError> {
    let [buffers, generations, packets] = head;
    let [sent, dequeued, ethernet, dropped, handed, drawn] = counts;
    format!(in alloc;
        "vgd report 1\nworkers 2\nbuffers {buffers}\ngenerations {generations}\npackets {packets}\n\
        interface 0 pg0 tx {sent}\nnode 0 pg-input {drawn}\nnode 1 handoff-dequeue {dequeued}\n\
        node 2 ethernet-input {ethernet}\nnode 3 ip4-input 0\nnode 4 ip4-lookup 0\nnode 5 ip4-rewrite 0\n\
        node 6 interface-output 0\nnode 7 interface-tx {sent}\nnode 8 error-drop {dropped}\n\
        node 9 hand {handed}\n{lines}end\n"
    )
}

/// A run that is done has printed this report and saved this file, and its two queues and its stamp are there.
pub(crate) fn assert_ran<R: Abort + AllocGlobal>(
    rt: &R,
    ran: Ran,
    report: &str,
    tx: &[u8],
    generations: u64,
) {
    assert_eq!(rt; ran.printed.as_slice(), report.as_bytes());
    assert_eq!(rt; ran.status, 0);
    assert_eq!(rt; ran.tx.expect(rt, "no savefile").as_slice(), tx);
    let end = ran.ran.expect(rt, "no end");
    assert_eq!(rt; end.rests.as_slice().len(), 2);
    assert!(rt; end.seat.stamp() >= generations);
}

#[test]
fn packets_are_handed_to_another_worker(rt: HostRuntime) {
    let alloc = rt.alloc();
    let capture = savefile(alloc, &[TO_1, TO_1, TO_1, TO_1]).expect(&rt, "memory");
    let words = ["run", "--workers", "2", "c", "s", "t"];
    let ran = run_over(&rt, &words, capture.as_slice(), HAND);
    let lines = "packet 0 0:0,1:0 tx pg0\npacket 1 1:0 tx pg0\n\
        packet 2 0:0,1:0 tx pg0\npacket 3 1:0 tx pg0\n";
    let report = report(alloc, [4096, 1, 4], [4, 2, 4, 0, 4, 4], lines).expect(&rt, "memory");

    // One worker saves the same.
    let alone = run_over(&rt, &RUN, capture.as_slice(), HAND);
    assert_eq!(rt; alone.status, 0);
    assert_eq!(rt; alone.ran.expect(&rt, "no end").rests.as_slice().len(), 0);
    let tx = alone.tx.expect(&rt, "no savefile");
    assert_eq!(rt; tx, capture);
    assert_ran(&rt, ran, report.as_str(), tx.as_slice(), 1);
}

#[test]
fn a_full_queue_drops_a_packet_with_its_count(rt: HostRuntime) {
    let alloc = rt.alloc();
    let capture = savefile(alloc, &[TO_1, TO_1, TO_1, TO_1, TO_1]).expect(&rt, "memory");
    let words = [
        "run",
        "--workers",
        "2",
        "--queue",
        "1",
        "--burst",
        "1",
        "--turns",
        "u",
        "c",
        "s",
        "t",
    ];
    let files: [(&str, &[u8]); 3] = [("c", capture.as_slice()), ("s", HAND), ("u", b"0010")];
    let ran = run_with(&rt, &words, &files);
    let lines = "error hand congestion 1\n\
        packet 0 0:0,1:0 tx pg0\npacket 1 1:0 tx pg0\n\
        packet 2 0:0 congested 1 drop hand congestion\npacket 3 1:0 tx pg0\n\
        packet 4 0:0,1:0 tx pg0\n";
    let report = report(alloc, [4096, 1, 5], [4, 2, 4, 1, 5, 5], lines).expect(&rt, "memory");
    let tx = savefile(alloc, &[TO_1, TO_1, TO_1, TO_1]).expect(&rt, "memory");
    let end = ran.ran.as_ref().expect(&rt, "no end");
    assert_eq!(rt; end.remarks.expect(&rt, "no remarks").congested, 1);
    assert_ran(&rt, ran, report.as_str(), tx.as_slice(), 1);
}

/// The words of a run by two workers, with a turns file.
const BY_TURNS: [&str; 8] = ["run", "--workers", "2", "--turns", "u", "c", "s", "t"];

/// The turns by which the second worker takes a packet only in the next generation.
const LATE: &[u8] = b"0m01m";

/// What is printed then.
const LATE_REPORT: &str = "vgd report 1\nworkers 2\nbuffers 4096\ngenerations 2\npackets 2\n\
    interface 0 pg0 tx 0\nnode 0 pg-input 2\nnode 1 handoff-dequeue 1\nnode 2 ethernet-input 2\n\
    node 3 ip4-input 0\nnode 4 ip4-lookup 0\nnode 5 ip4-rewrite 0\nnode 6 interface-output 0\n\
    node 7 interface-tx 0\nnode 8 error-drop 2\nnode 9 hand 2\nerror error-drop blackhole 2\n\
    packet 0 0:0,1:1 drop error-drop blackhole\npacket 1 1:1 drop error-drop blackhole\nend\n";

#[test]
fn a_packet_meets_the_generation_of_the_worker_that_takes_it(rt: HostRuntime) {
    let alloc = rt.alloc();
    let capture = savefile_at(alloc, TO_1, &[0, 1000]).expect(&rt, "memory");
    let files: [(&str, &[u8]); 3] = [
        ("c", capture.as_slice()),
        ("s", HAND_UP_TO_1000),
        ("u", LATE),
    ];
    let ran = run_with(&rt, &BY_TURNS, &files);
    assert_ran(&rt, ran, LATE_REPORT, &HEADER, 2);
}

#[test]
fn a_packet_has_four_legs_at_most(rt: HostRuntime) {
    let script = b"node h1 kind handoff-dst\nnode h2 kind handoff-src\nnode h3 kind handoff-dst\n\
        node h4 kind handoff-src\nnode h5 kind handoff-dst\n\
        arc h1 resume h2\narc h2 resume h3\narc h3 resume h4\narc h4 resume h5\n\
        arc h5 resume ethernet-input\narc pg-input out h1\n";
    let frame = (
        "02fe00000000 020000000001 0800 4500001400000000 401166d7 0a000002 0a000001",
        34,
    );
    let capture = savefile(rt.alloc(), &[frame]).expect(&rt, "memory");
    let words = ["run", "--workers", "2", "c", "s", "t"];
    let ran = run_over(&rt, &words, capture.as_slice(), script);
    let report = "vgd report 1\nworkers 2\nbuffers 4096\ngenerations 1\npackets 1\n\
        interface 0 pg0 tx 0\nnode 0 pg-input 1\nnode 1 handoff-dequeue 3\nnode 2 ethernet-input 0\n\
        node 3 ip4-input 0\nnode 4 ip4-lookup 0\nnode 5 ip4-rewrite 0\nnode 6 interface-output 0\n\
        node 7 interface-tx 0\nnode 8 error-drop 1\nnode 9 h1 1\nnode 10 h2 1\nnode 11 h3 1\n\
        node 12 h4 1\nnode 13 h5 0\nerror h4 handoff-limit 1\n\
        packet 0 0:0,1:0,0:0,1:0 drop h4 handoff-limit\nend\n";
    assert_ran(&rt, ran, report, &HEADER, 1);
}

/// The packets of four workers: packet i goes to 10.0.k.9, where k is i mod 12, at i * 100 microseconds.
pub(crate) fn rounds(
    alloc: Global,
    count: u32,
    ttl: u8,
    high: u8,
    macs: [&str; 2],
) -> Result<Vec<u8>, AllocError> {
    let mut file = HEADER.to_vec(alloc)?;
    for number in 0..count {
        let k = (number % 12) as u8;
        file.extend_from_slice(&[0; 4])?;
        file.extend_from_slice(&number.wrapping_mul(100).to_le_bytes())?;
        file.extend_from_slice(&[60, 0, 0, 0, 60, 0, 0, 0])?;
        let mac = if number % 2 == 0 { macs[0] } else { macs[1] };
        file.extend_from_slice(bytes_of(alloc, mac)?.as_slice())?;
        file.extend_from_slice(&[0x08, 0, 0x45, 0, 0, 46, 0, 0, 0, 0, ttl, 17])?;
        file.extend_from_slice(&[high.wrapping_sub(k), 0xb5, 192, 0, 2, 1, 10, 0, k, 9])?;
        file.extend_from_slice(&[0; 26])?;
    }
    Ok(file)
}

/// The script of four workers: each packet is handed over, and then forwarded on one of two interfaces.
pub(crate) fn crossing(alloc: Global) -> Result<String, AllocError> {
    let mut script = String::from_str(
        alloc,
        "interface west mac 02:fe:00:00:00:01 mtu 1500 up\n\
        adjacency e interface pg0 dst 02:00:00:00:00:0e\n\
        adjacency w interface west dst 02:00:00:00:00:0f\n\
        node hand kind handoff-dst\narc hand resume ethernet-input\narc pg-input out hand\n",
    )?;
    for k in 0..12_u32 {
        let name = if k % 2 == 0 { "e" } else { "w" };
        let line = format!(in alloc; "route 10.0.{k}.0/24 via {name}\n")?;
        script.push_str(line.as_str())?;
    }
    Ok(script)
}

/// The report of 300 of these packets, with three traces.
fn crossed(alloc: Global) -> Result<String, AllocError> {
    let mut text = String::from_str(
        alloc,
        "vgd report 1\nworkers 4\nbuffers 4096\ngenerations 1\npackets 300\n\
        interface 0 pg0 tx 150\ninterface 1 west tx 150\n\
        node 0 pg-input 300\nnode 1 handoff-dequeue 300\nnode 2 ethernet-input 300\n\
        node 3 ip4-input 300\nnode 4 ip4-lookup 300\nnode 5 ip4-rewrite 300\n\
        node 6 interface-output 300\nnode 7 interface-tx 300\nnode 8 error-drop 0\n\
        node 9 hand 300\n",
    )?;
    for number in 0..300_u32 {
        let from = number % 4;
        let to = 3 - from;
        let name = if number % 2 == 0 { "pg0" } else { "west" };
        let line = format!(in alloc; "packet {number} {from}:0,{to}:0 tx {name}\n")?;
        text.push_str(line.as_str())?;
    }
    for number in 0..3_u32 {
        let line = format!(in alloc;
            "trace {number} pg-input hand handoff-dequeue ethernet-input ip4-input ip4-lookup \
            ip4-rewrite interface-output interface-tx\n"
        )?;
        text.push_str(line.as_str())?;
    }
    text.push_str("end\n")?;
    Ok(text)
}

#[test]
fn four_workers_hand_over_every_packet(rt: HostRuntime) {
    let alloc = rt.alloc();
    let macs = ["02fe00000000 020000000001"; 2];
    let capture = rounds(alloc, 300, 64, 0xae, macs).expect(&rt, "memory");
    let script = crossing(alloc).expect(&rt, "memory");
    let script = script.as_str().as_bytes();
    let words = ["run", "--workers", "4", "--trace", "3", "c", "s", "t"];
    let ran = run_over(&rt, &words, capture.as_slice(), script);
    let report = crossed(alloc).expect(&rt, "memory");
    let macs = ["02000000000e 02fe00000000", "02000000000f 02fe00000001"];
    let tx = rounds(alloc, 300, 63, 0xaf, macs).expect(&rt, "memory");
    assert_eq!(rt; ran.printed.as_slice(), report.as_str().as_bytes());
    assert_eq!(rt; ran.status, 0);
    assert_eq!(rt; ran.tx.expect(&rt, "no savefile"), tx);
    assert_eq!(rt; ran.ran.expect(&rt, "no end").rests.as_slice().len(), 12);

    // A sink whose third call fails has the first two pieces.
    let mut folder = MemoryFolder::new(alloc, Vec::new(alloc));
    folder.add("c", capture.as_slice()).expect(&rt, "memory");
    folder.add("s", script).expect(&rt, "memory");
    let mut out = MemorySink::new(
        alloc,
        vec![in alloc; 2_u64].expect(&rt, "memory"),
        NonZeroUsize::new(100),
    );
    let done = vgd_run(&rt, alloc, &words, &mut folder, &mut out, &OpenGate);
    assert_eq!(rt; done.status, 7);
    assert_eq!(rt; Some(out.written()), report.as_str().as_bytes().get(..200));
    assert_eq!(rt; folder.file("t"), Some(tx.as_slice()));
}

/// The lines of so many packets, all sent, of which worker 0 hands its own over.
pub(crate) fn all_sent(alloc: Global, count: u32) -> Result<String, AllocError> {
    let mut lines = String::new(alloc);
    for number in 0..count {
        let legs = if number % 2 == 0 { "0:0,1:0" } else { "1:0" };
        let line = format!(in alloc; "packet {number} {legs} tx pg0\n")?;
        lines.push_str(line.as_str())?;
    }
    Ok(lines)
}

/// The savefile of one frame so many times.
fn repeated(alloc: Global, count: u32) -> Result<Vec<u8>, AllocError> {
    let mut file = HEADER.to_vec(alloc)?;
    let record = savefile(alloc, &[TO_1])?;
    for _ in 0..count {
        file.extend_from_slice(record.as_slice().get(HEADER.len()..).unwrap_or(&[]))?;
    }
    Ok(file)
}

#[test]
fn an_empty_pool_leaves_packets_for_later(rt: HostRuntime) {
    let alloc = rt.alloc();
    let file = repeated(alloc, 1600).expect(&rt, "memory");
    let lines = all_sent(alloc, 1600).expect(&rt, "memory");
    let words = [
        "run",
        "--workers",
        "2",
        "--buffers",
        "768",
        "--turns",
        "u",
        "c",
        "s",
        "t",
    ];
    let files: [(&str, &[u8]); 3] = [("c", file.as_slice()), ("s", HAND), ("u", b"0000000")];
    let ran = run_with(&rt, &words, &files);
    let report = report(
        alloc,
        [768, 1, 1600],
        [1600, 800, 1600, 0, 1600, 1600],
        lines.as_str(),
    )
    .expect(&rt, "memory");
    assert_ran(&rt, ran, report.as_str(), file.as_slice(), 1);
}

#[test]
fn a_queue_of_two_slots_refuses_a_third_frame(rt: HostRuntime) {
    let alloc = rt.alloc();
    let capture = savefile(alloc, &[TO_1; 6]).expect(&rt, "memory");
    let words = [
        "run",
        "--workers",
        "2",
        "--queue",
        "2",
        "--burst",
        "1",
        "--turns",
        "u",
        "c",
        "s",
        "t",
    ];
    let files: [(&str, &[u8]); 3] = [("c", capture.as_slice()), ("s", HAND), ("u", b"000")];
    let ran = run_with(&rt, &words, &files);
    let lines = "error hand congestion 1\n\
        packet 0 0:0,1:0 tx pg0\npacket 1 1:0 tx pg0\npacket 2 0:0,1:0 tx pg0\n\
        packet 3 1:0 tx pg0\npacket 4 0:0 congested 2 drop hand congestion\npacket 5 1:0 tx pg0\n";
    let report = report(alloc, [4096, 1, 6], [5, 2, 5, 1, 6, 6], lines).expect(&rt, "memory");
    let tx = savefile(alloc, &[TO_1; 5]).expect(&rt, "memory");
    assert_ran(&rt, ran, report.as_str(), tx.as_slice(), 1);
}

/// The list of a call that is to fail, or of none.
fn calls(alloc: Global, failing: Option<u64>) -> Result<Vec<u64>, AllocError> {
    let mut calls = Vec::new(alloc);
    if let Some(call) = failing {
        calls.push(call)?;
    }
    Ok(calls)
}

/// A run by turns over a folder whose call of this number fails, and a sink that takes so many bytes a call and whose call of this
/// number fails, has this status, has printed this text, and has saved the file or not.
fn assert_faults<R: Abort + Wait + Threads + Sync + AllocGlobal>(
    rt: &R,
    failing_file: Option<u64>,
    most: usize,
    failing_print: Option<u64>,
    status: u8,
    printed: &[u8],
    is_saved: bool,
) {
    let alloc = rt.alloc();
    let faults = calls(alloc, failing_file).expect(rt, "memory");
    let capture = savefile_at(alloc, TO_1, &[0, 1000]).expect(rt, "memory");
    let mut folder = MemoryFolder::new(alloc, faults);
    folder.add("c", capture.as_slice()).expect(rt, "memory");
    folder.add("s", HAND_UP_TO_1000).expect(rt, "memory");
    folder.add("u", LATE).expect(rt, "memory");
    let faults = calls(alloc, failing_print).expect(rt, "memory");
    let mut out = MemorySink::new(alloc, faults, NonZeroUsize::new(most));
    let done = vgd_run(rt, alloc, &BY_TURNS, &mut folder, &mut out, &OpenGate);
    assert_eq!(rt; done.status, status);
    assert_eq!(rt; done.ran.is_some(), status == 0);
    assert_eq!(rt; out.written(), printed);
    assert_eq!(rt; folder.file("t").is_some(), is_saved);
    assert_eq!(rt; folder.file("c"), Some(capture.as_slice()));
}

#[test]
fn faults_of_the_folder_are_told(rt: HostRuntime) {
    assert_faults(&rt, Some(0), 100, None, 3, b"load c\n", false);
    assert_faults(&rt, Some(1), 100, None, 3, b"load s\n", false);
    assert_faults(&rt, Some(2), 100, None, 3, b"load u\n", false);
    assert_faults(&rt, Some(3), 100, None, 6, b"save t\n", false);
    assert_faults(&rt, Some(3), 100, Some(0), 7, b"", false);
}

#[test]
fn faults_of_the_sink_leave_a_front(rt: HostRuntime) {
    let report = LATE_REPORT.as_bytes();
    assert_eq!(rt; report.len(), 405);
    for call in 0..5_u64 {
        let front = report.get(..call as usize * 100).expect(&rt, "too short");
        assert_faults(&rt, None, 100, Some(call), 7, front, true);
    }
    assert_faults(&rt, None, 100, Some(5), 0, report, true);
    assert_faults(&rt, None, 1, None, 0, report, true);
}

#[test]
fn two_workers_run_at_once(rt: HostRuntime) {
    let capture = savefile(rt.alloc(), &[TO_1, TO_1]).expect(&rt, "memory");
    let words = ["run", "--workers", "2", "c", "s", "t"];
    let gate = MeetGate::new();
    let files: [(&str, &[u8]); 2] = [("c", capture.as_slice()), ("s", HAND)];
    let ran = run_gated(&rt, &words, &files, &gate);
    assert_eq!(rt; ran.status, 0);
    assert_eq!(rt; ran.tx.expect(&rt, "no savefile"), capture);
    assert_eq!(rt; gate.met(), 2);
    assert_eq!(rt; gate.given_up(), 0);
}
