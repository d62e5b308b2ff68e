//! Calls that are refused, over folders and sinks in memory.

use crate::memory_runs::{HEADER, RUN, WIRE, run_over};
use std::alloc::{AllocError, Global};
use std::process::Abort;
use std::sync::Wait;
use std::thread::Threads;
use vg_outside::{MemoryFolder, MemorySink, OpenGate};
use vg_top::vgd_run;

/// A refused run has this status and prints this line, and saves nothing.
fn assert_refused<R: Abort + Wait + Threads + Sync + AllocGlobal>(
    rt: &R,
    words: &[&str],
    capture: &[u8],
    script: &[u8],
    status: u8,
    line: &str,
) {
    let ran = run_over(rt, words, capture, script);
    assert_eq!(rt; ran.printed.as_slice(), line.as_bytes());
    assert_eq!(rt; ran.status, status, "{line}");
    assert!(rt; ran.tx.is_none());
    assert!(rt; ran.ran.is_none());
}

/// So many lines, which differ in a number of two parts, by what stands before it, between its parts and behind it.
fn lines(alloc: Global, count: u32, around: [&str; 3]) -> Result<String, AllocError> {
    let [before, between, after] = around;
    let mut text = String::new(alloc);
    for number in 0..count {
        let high = number / 256;
        let low = number % 256;
        let line = format!(in alloc; "{before}{high}{between}{low}{after}\n")?;
        text.push_str(line.as_str())?;
    }
    Ok(text)
}

#[test]
fn one_more_than_may_be_is_refused(rt: HostRuntime) {
    let alloc = rt.alloc();
    let too_many = [
        (56, ["node n", ".", " kind pass"], "script 56 too-many\n"),
        (
            16,
            ["interface i", ".", " mac 02:fe:00:00:00:01 mtu 1500 up"],
            "script 16 too-many\n",
        ),
        (
            257,
            ["adjacency a", ".", " interface pg0 dst 02:00:00:00:00:01"],
            "script 257 too-many\n",
        ),
        (
            4097,
            ["route 10.", ".", ".0/24 drop"],
            "script 4097 too-many\n",
        ),
        (
            4097,
            ["route6 2001:db8:", ":", "::/64 drop"],
            "script 4097 too-many\n",
        ),
    ];
    for (count, around, line) in too_many {
        let script = lines(alloc, count, around).expect(&rt, "memory");
        assert_refused(&rt, &RUN, &HEADER, script.as_str().as_bytes(), 5, line);
    }
    let script = vec![in alloc; b'#'; 262_145].expect(&rt, "memory");
    assert_refused(
        &rt,
        &RUN,
        &HEADER,
        script.as_slice(),
        5,
        "script 0 too-large\n",
    );
}

/// A run over a folder whose call of this number fails has this status and prints this line.
fn assert_fails<R: Abort + Wait + Threads + Sync + AllocGlobal>(
    rt: &R,
    failing: u64,
    status: u8,
    line: &str,
) {
    let alloc = rt.alloc();
    let mut folder = MemoryFolder::new(alloc, vec![in alloc; failing].expect(rt, "memory"));
    folder.add("c", &HEADER).expect(rt, "memory");
    folder.add("s", WIRE).expect(rt, "memory");
    let mut out = MemorySink::new(alloc, Vec::new(alloc), None);
    let answer = vgd_run(rt, alloc, &RUN, &mut folder, &mut out, &OpenGate);
    assert_eq!(rt; answer.status, status, "{line}");
    assert!(rt; answer.ran.is_none());
    assert_eq!(rt; out.written(), line.as_bytes());
    assert_eq!(rt; folder.file("c"), Some(HEADER.as_slice()));
    assert!(rt; folder.file("t").is_none());
}

#[test]
fn failed_loads_and_saves_are_told(rt: HostRuntime) {
    assert_fails(&rt, 0, 3, "load c\n");
    assert_fails(&rt, 1, 3, "load s\n");
    assert_fails(&rt, 2, 6, "save t\n");
}
