//! What the tests run: frames, savefiles, and calls over folders and sinks in memory, with what they save and print.

use std::alloc::{AllocError, Global};
use std::process::Abort;
use std::sync::Wait;
use std::thread::Threads;
use vg_outside::{Gate, OpenGate, SureFolder, SureSink};
use vg_top::{Done, RunEnd, vgd_run};

/// A savefile of no packets: little-endian, microseconds, version 2.4, snaplen 262,144, Ethernet.
pub(crate) const HEADER: [u8; 24] = [
    0xd4, 0xc3, 0xb2, 0xa1, 2, 0, 4, 0, 0, 0, 0, 0, 0, 0, 0, 0, 0, 0, 4, 0, 1, 0, 0, 0,
];

/// The words of a run.
pub(crate) const RUN: [&str; 4] = ["run", "c", "s", "t"];

/// A frame by its first bytes in hexadecimal digits, and its length: zero bytes follow, or it is cut.
pub(crate) type Frame<'a> = (&'a str, u32);

/// A frame from 192.0.2.1 to 10.1.2.3, of a datagram with no data.
pub(crate) const FRAME: Frame<'static> = (
    "02fe00000000 020000000001 0800 4500001400000000 4011acd4 c0000201 0a010203",
    34,
);

/// The script that sends each IPv4 frame straight to the interface.
pub(crate) const WIRE: &[u8] = b"arc ethernet-input ip4 interface-tx\n";

/// The bytes of a text in hexadecimal digits; all else in it says nothing.
pub(crate) fn bytes_of(alloc: Global, text: &str) -> Result<Vec<u8>, AllocError> {
    let mut bytes = Vec::new(alloc);
    let mut high: Option<u8> = None;
    for digit in text.as_bytes() {
        let value = match *digit {
            b'0'..=b'9' => *digit - b'0',
            b'a'..=b'f' => *digit - b'a' + 10,
            _ => continue,
        };
        high = match high {
            Some(high) => {
                bytes.push(high << 4 | value)?;
                None
            }
            None => Some(value),
        };
    }
    Ok(bytes)
}

/// The savefile of these frames, at time 0.
pub(crate) fn savefile(alloc: Global, frames: &[Frame<'_>]) -> Result<Vec<u8>, AllocError> {
    let mut file = HEADER.to_vec(alloc)?;
    for (text, len) in frames {
        let bytes = bytes_of(alloc, text)?;
        file.extend_from_slice(&[0; 8])?;
        file.extend_from_slice(&len.to_le_bytes())?;
        file.extend_from_slice(&len.to_le_bytes())?;
        for place in 0..*len as usize {
            file.push(bytes.get(place).copied().unwrap_or(0))?;
        }
    }
    Ok(file)
}

/// The savefile of a frame, once for each of these times in microseconds, all below a second.
pub(crate) fn savefile_at(
    alloc: Global,
    frame: Frame<'_>,
    times: &[u32],
) -> Result<Vec<u8>, AllocError> {
    let mut file = HEADER.to_vec(alloc)?;
    let (text, len) = frame;
    let bytes = bytes_of(alloc, text)?;
    for time in times {
        file.extend_from_slice(&[0; 4])?;
        file.extend_from_slice(&time.to_le_bytes())?;
        file.extend_from_slice(&len.to_le_bytes())?;
        file.extend_from_slice(&len.to_le_bytes())?;
        for place in 0..len as usize {
            file.push(bytes.get(place).copied().unwrap_or(0))?;
        }
    }
    Ok(file)
}

/// What a call did: its status, what the sink and the folder hold behind it, and the end of the run where there is one.
#[derive(Drop)]
pub(crate) struct Ran {
    pub(crate) status: u8,
    pub(crate) printed: Vec<u8>,
    pub(crate) tx: Option<Vec<u8>>,
    pub(crate) ran: Option<RunEnd>,
}

/// Calls the program over a folder of these files, and a gate.
pub(crate) fn run_gated<R: Abort + Wait + Threads + Sync + AllocGlobal, G: Gate>(
    rt: &R,
    words: &[&str],
    files: &[(&str, &[u8])],
    gate: &G,
) -> Ran {
    let alloc = rt.alloc();
    let mut folder = SureFolder::new(alloc);
    for (name, bytes) in files {
        folder.add(name, bytes).expect(rt, "memory");
    }
    let mut out = SureSink::new(alloc);
    let Done { status, ran, .. } = vgd_run(rt, alloc, words, &mut folder, &mut out, gate);
    Ran {
        status,
        printed: out.written().to_vec(alloc).expect(rt, "memory"),
        tx: match folder.file("t") {
            Some(tx) => Some(tx.to_vec(alloc).expect(rt, "memory")),
            None => None,
        },
        ran,
    }
}

/// Calls the program over a folder of these files.
pub(crate) fn run_with<R: Abort + Wait + Threads + Sync + AllocGlobal>(
    rt: &R,
    words: &[&str],
    files: &[(&str, &[u8])],
) -> Ran {
    run_gated(rt, words, files, &OpenGate)
}

/// Calls the program over a capture and a script.
pub(crate) fn run_over<R: Abort + Wait + Threads + Sync + AllocGlobal>(
    rt: &R,
    words: &[&str],
    capture: &[u8],
    script: &[u8],
) -> Ran {
    run_with(rt, words, &[("c", capture), ("s", script)])
}

/// The words of a check of what a run saved and printed.
const CHECK: [&str; 5] = ["check", "c", "s", "t", "r"];

/// What a check finds of what a run over a capture and a script saved and printed.
pub(crate) fn check_of<'a, R: Abort + Wait + Threads + Sync + AllocGlobal>(
    rt: &R,
    capture: &'a [u8],
    script: &'a [u8],
    saved: &'a [u8],
    printed: &'a [u8],
) -> Ran {
    let files: [(&str, &[u8]); 4] = [("c", capture), ("s", script), ("t", saved), ("r", printed)];
    run_with(rt, &CHECK, &files)
}

/// A run over one capture and one script has saved this and printed that, and a check of both says yes.
pub(crate) fn assert_accepted<R: Abort + Wait + Threads + Sync + AllocGlobal>(
    rt: &R,
    ran: Ran,
    capture: &[u8],
    script: &[u8],
    saved: &[u8],
    printed: &str,
) {
    assert_eq!(rt; ran.printed.as_slice(), printed.as_bytes());
    assert_eq!(rt; ran.status, 0);
    assert_eq!(rt; ran.tx.expect(rt, "no savefile").as_slice(), saved);
    let checked = check_of(rt, capture, script, saved, printed.as_bytes());
    assert_eq!(rt; checked.printed.as_slice(), "yes\n".as_bytes());
    assert_eq!(rt; checked.status, 0);
}

/// So many workers.
pub(crate) const WORKERS: [&str; 8] = ["1", "2", "3", "4", "5", "6", "7", "8"];

/// The words of a run on so many workers, in threads or by the turns of a file.
pub(crate) fn words_of<'a>(
    alloc: Global,
    workers: &'a str,
    in_threads: bool,
) -> Result<Vec<&'a str>, AllocError> {
    let mut words = vec![in alloc; "run", "--workers", workers]?;
    if !in_threads {
        words.extend_from_slice(&["--turns", "u"])?;
    }
    words.extend_from_slice(&["c", "s", "t"])?;
    Ok(words)
}

/// What so many workers save, in threads or with these turns. A check of it and of what they print says yes.
pub(crate) fn saved_by<'a, R: Abort + Wait + Threads + Sync + AllocGlobal>(
    rt: &R,
    capture: &'a [u8],
    script: &'a [u8],
    turns: &'a [u8],
    workers: &'a str,
    in_threads: bool,
) -> Vec<u8> {
    let words = words_of(rt.alloc(), workers, in_threads).expect(rt, "memory");
    let files: [(&str, &[u8]); 3] = [("c", capture), ("s", script), ("u", turns)];
    let Ran {
        status,
        printed,
        tx,
        ran: _,
    } = run_with(rt, words.as_slice(), &files);
    assert_eq!(rt; status, 0);
    let tx = tx.expect(rt, "no savefile");
    let checked = check_of(rt, capture, script, tx.as_slice(), printed.as_slice());
    assert_eq!(rt; checked.printed.as_slice(), "yes\n".as_bytes());
    assert_eq!(rt; checked.status, 0);
    tx
}
