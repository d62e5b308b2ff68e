//! Packets of all lengths, over one buffer to five: on one worker and on several, behind a handoff, where queues are full, and where the pool
//! is empty.

use crate::memory_runs::{HEADER, Ran, assert_accepted, bytes_of, run_with};
use crate::walked::checksum;
use crate::workers::{HAND, TO_1, all_sent, assert_ran, report};
use std::alloc::{AllocError, Global};
use std::process::Abort;
use std::sync::Wait;
use std::thread::Threads;

/// Bytes that differ from their neighbors. Behind the header of packet n stand those from place n on.
fn body(alloc: Global) -> Result<Vec<u8>, AllocError> {
    let mut bytes = Vec::new(alloc);
    for place in 0..9500_u32 {
        bytes.push((place % 251) as u8)?;
    }
    Ok(bytes)
}

/// Adds the record of a frame of so many bytes, which begins with this header of 34 bytes, or is cut within it.
fn add(
    file: &mut Vec<u8>,
    header: &[u8],
    body: &[u8],
    number: u8,
    len: u16,
) -> Result<(), AllocError> {
    let size = u32::from(len).to_le_bytes();
    file.extend_from_slice(&[0; 8])?;
    file.extend_from_slice(&size)?;
    file.extend_from_slice(&size)?;
    let len = usize::from(len);
    file.extend_from_slice(header.get(..len).unwrap_or(header))?;
    let start = usize::from(number);
    let end = start + len.saturating_sub(34);
    file.extend_from_slice(body.get(start..end).unwrap_or(body))
}

/// The lengths of twelve packets: too short for a header, on both sides of a buffer's length, the longest that is forwarded, and one byte more.
const LENGTHS: [u16; 12] = [0, 1, 13, 14, 60, 1984, 2047, 2048, 2049, 4096, 9216, 9217];

/// How many packets there are: eight of each length, in turn.
const COUNT: u8 = 96;

/// The length of a packet.
fn len_of(number: u8) -> u16 {
    LENGTHS[usize::from(number % 12)]
}

/// Datagrams to 10.1.2.0 to 10.1.2.63 leave over an interface whose mtu is the longest that can be forwarded, 9,202 bytes, and those to
/// 10.1.2.64 to 10.1.2.127 over one with mtu 9,000.
const ROUTES: &str = "interface wide mac 02:fe:00:00:00:01 mtu 9202 up\n\
    adjacency w interface wide dst 02:00:00:00:00:0a\n\
    adjacency p interface pg0 dst 02:00:00:00:00:0b\n\
    route 10.1.2.0/24 via w\n\
    route 10.1.2.64/26 via p\n";

/// Each packet is handed over by its destination.
const HANDOFF: &str = "node hand kind handoff-dst\narc hand resume ethernet-input\n\
    arc pg-input out hand\n";

/// Adds the record of a packet: a datagram from 192.0.2.1 to 10.1.2.n, where n is its number, behind these link-layer addresses.
fn add_datagram(
    file: &mut Vec<u8>,
    addresses: &[u8; 12],
    ttl: u8,
    body: &[u8],
    number: u8,
) -> Result<(), AllocError> {
    let len = len_of(number);
    let total = len.saturating_sub(14).max(20);
    let sum = 0x4500 + u32::from(total) + (u32::from(ttl) << 8) + 17;
    let sum = sum + 0xc000 + 0x0201 + 0x0a01 + 0x0200 + u32::from(number);
    let [total_high, total_low] = total.to_be_bytes();
    let [sum_high, sum_low] = checksum(sum);
    let mut header = [
        0, 0, 0, 0, 0, 0, 0, 0, 0, 0, 0, 0, 0x08, 0x00, 0x45, 0, total_high, total_low, 0, 0, 0, 0,
        ttl, 17, sum_high, sum_low, 192, 0, 2, 1, 10, 1, 2, number,
    ];
    header[..12].copy_from_slice(addresses);
    add(file, &header, body, number, len)
}

/// The savefile of all packets as they come in.
fn arriving(alloc: Global, body: &[u8]) -> Result<Vec<u8>, AllocError> {
    let mut file = HEADER.to_vec(alloc)?;
    for number in 0..COUNT {
        let addresses = [0x02, 0xfe, 0, 0, 0, 0, 0x02, 0, 0, 0, 0, 1];
        add_datagram(&mut file, &addresses, 64, body, number)?;
    }
    Ok(file)
}

/// Where a packet ends, as its line in a report has it.
fn end_of(number: u8) -> &'static str {
    let len = len_of(number);
    if len < 14 {
        "drop ethernet-input short"
    } else if len < 34 {
        "drop ip4-input short"
    } else if len > 9216 {
        "drop pg-input too-long"
    } else if number < 64 {
        "tx wide"
    } else if len - 14 > 9000 {
        "drop ip4-rewrite mtu-exceeded"
    } else {
        "tx pg0"
    }
}

/// The savefile of those that leave.
fn leaving(alloc: Global, body: &[u8]) -> Result<Vec<u8>, AllocError> {
    let mut file = HEADER.to_vec(alloc)?;
    for number in 0..COUNT {
        let addresses = match end_of(number) {
            "tx wide" => [0x02, 0, 0, 0, 0, 0x0a, 0x02, 0xfe, 0, 0, 0, 1],
            "tx pg0" => [0x02, 0, 0, 0, 0, 0x0b, 0x02, 0xfe, 0, 0, 0, 0],
            _ => continue,
        };
        add_datagram(&mut file, &addresses, 63, body, number)?;
    }
    Ok(file)
}

/// The worker to which a packet of this worker is handed: of a frame without addresses the hash is 0, and a packet that is too long comes to
/// no handoff. The hash of 10.1.2.n is 0x0a0b0900 and, in the last byte, n xor 9.
fn target_of(number: u8, from: u32, workers: u32) -> u32 {
    match len_of(number) {
        0..=33 => 0,
        34..=9216 => (0x0a0b_0900 + u32::from(number ^ 9)) % workers.max(1),
        _ => from,
    }
}

/// The report's lines of all packets, and how often one was handed over.
fn lines_of(alloc: Global, workers: u32, is_handed: bool) -> Result<(String, u32), AllocError> {
    let mut text = String::new(alloc);
    let mut handed: u32 = 0;
    for number in 0..COUNT {
        let from = u32::from(number) % workers.max(1);
        let to = if is_handed {
            target_of(number, from, workers)
        } else {
            from
        };
        let end = end_of(number);
        let line = if from == to {
            format!(in alloc; "packet {number} {from}:0 {end}\n")?
        } else {
            handed = handed.wrapping_add(1);
            format!(in alloc; "packet {number} {from}:0,{to}:0 {end}\n")?
        };
        text.push_str(line.as_str())?;
    }
    Ok((text, handed))
}

/// The report of all packets. Of the eight of each length, three of the longest come to the interface that has a smaller mtu.
fn lengths_report(alloc: Global, workers: u32, is_handed: bool) -> Result<String, AllocError> {
    let (lines, handed) = lines_of(alloc, workers, is_handed)?;
    let hand = if is_handed { "node 9 hand 88\n" } else { "" };
    format!(in alloc;
        "vgd report 1\nworkers {workers}\nbuffers 4096\ngenerations 1\npackets 96\n\
        interface 0 pg0 tx 18\ninterface 1 wide tx 35\n\
        node 0 pg-input 96\nnode 1 handoff-dequeue {handed}\nnode 2 ethernet-input 88\n\
        node 3 ip4-input 64\nnode 4 ip4-lookup 56\nnode 5 ip4-rewrite 56\n\
        node 6 interface-output 53\nnode 7 interface-tx 53\nnode 8 error-drop 43\n{hand}\
        error pg-input too-long 8\nerror ethernet-input short 24\nerror ip4-input short 8\n\
        error ip4-rewrite mtu-exceeded 3\n{lines}end\n"
    )
}

/// The ways of a run in threads: where a frame is dropped if its queue is full, and where it is held back.
const IN_THREADS: [&[&str]; 2] = [&[], &["--queue=1", "--burst=1", "--hold"]];

/// The words of a run of so many workers in one of the ways.
fn words_in(
    alloc: Global,
    workers: &'static str,
    way: &[&'static str],
) -> Result<Vec<&'static str>, AllocError> {
    let mut words = vec![in alloc; "run", "--workers", workers]?;
    words.extend_from_slice(way)?;
    words.extend_from_slice(&["c", "s", "t"])?;
    Ok(words)
}

/// A run of so many workers in one of the ways, with these turns where it is by turns.
fn run_in<'a, R: Abort + Wait + Threads + Sync + AllocGlobal>(
    rt: &R,
    workers: &'static str,
    way: &[&'static str],
    capture: &'a [u8],
    script: &'a [u8],
    turns: &'a [u8],
) -> Ran {
    let words = words_in(rt.alloc(), workers, way).expect(rt, "memory");
    let files: [(&str, &[u8]); 3] = [("c", capture), ("s", script), ("u", turns)];
    run_with(rt, words.as_slice(), &files)
}

/// On one worker to eight, in both ways, the packets have these ends, and a check of what each run saved and printed says yes.
fn assert_lengths<R: Abort + Wait + Threads + Sync + AllocGlobal>(
    rt: &R,
    front: &str,
    is_handed: bool,
) {
    let alloc = rt.alloc();
    let body = body(alloc).expect(rt, "memory");
    let capture = arriving(alloc, body.as_slice()).expect(rt, "memory");
    let saved = leaving(alloc, body.as_slice()).expect(rt, "memory");
    let script = format!(in alloc; "{front}{ROUTES}").expect(rt, "memory");
    let script = script.as_str().as_bytes();
    let mut count: u32 = 0;
    for workers in ["1", "2", "3", "4", "5", "6", "7", "8"] {
        count = count.wrapping_add(1);
        let printed = lengths_report(alloc, count, is_handed).expect(rt, "memory");
        for way in IN_THREADS {
            let ran = run_in(rt, workers, way, capture.as_slice(), script, b"");
            assert_accepted(
                rt,
                ran,
                capture.as_slice(),
                script,
                saved.as_slice(),
                printed.as_str(),
            );
        }
    }
}

#[test]
fn packets_of_all_lengths_end_alike_on_any_workers(rt: HostRuntime) {
    assert_lengths(&rt, "", false)
}

#[test]
fn packets_of_all_lengths_are_handed_over(rt: HostRuntime) {
    assert_lengths(&rt, HANDOFF, true)
}

/// The savefile of frames of these lengths, which of two workers are handed to worker 1. Where a number is given, it is that of the frames
/// that leave: those that aren't too long, without those of worker 0 from this number on.
fn frames(alloc: Global, lens: &[u16], lost_from: Option<usize>) -> Result<Vec<u8>, AllocError> {
    let header = bytes_of(alloc, TO_1.0)?;
    let body = body(alloc)?;
    let mut file = HEADER.to_vec(alloc)?;
    for (number, len) in lens.iter().enumerate() {
        if let Some(lost_from) = lost_from
            && (*len > 9216 || number % 2 == 0 && number >= lost_from)
        {
            continue;
        }
        let place = (number % 251) as u8;
        add(&mut file, header.as_slice(), body.as_slice(), place, *len)?;
    }
    Ok(file)
}

/// So many lengths of 9,216 bytes.
fn longest(alloc: Global, count: usize) -> Result<Vec<u16>, AllocError> {
    let mut lens = Vec::new(alloc);
    lens.resize(count, 9216)?;
    Ok(lens)
}

// Worker 0 has seven turns first. For six of them it takes 128 buffers of the pool, and draws 25 or 26 packets, which are one frame. In the
// seventh it draws none, since no buffers are left: a seventh frame would be refused.
#[test]
fn an_empty_pool_leaves_long_packets_for_later(rt: HostRuntime) {
    let alloc = rt.alloc();
    let lens = longest(alloc, 1600).expect(&rt, "memory");
    let capture = frames(alloc, lens.as_slice(), None).expect(&rt, "memory");
    let lines = all_sent(alloc, 1600).expect(&rt, "memory");
    let words = [
        "run",
        "--workers=2",
        "--buffers=768",
        "--queue=6",
        "--turns=u",
        "c",
        "s",
        "t",
    ];
    let files: [(&str, &[u8]); 3] = [("c", capture.as_slice()), ("s", HAND), ("u", b"0000000")];
    let ran = run_with(&rt, &words, &files);
    let counts = [1600, 800, 1600, 0, 1600, 1600];
    let report = report(alloc, [768, 1, 1600], counts, lines.as_str()).expect(&rt, "memory");
    assert_ran(&rt, ran, report.as_str(), capture.as_slice(), 1);
}

/// The lines of these errors, and of packets of these lengths, of which worker 0's from a number on are dropped.
fn drawn_lines(
    alloc: Global,
    lens: &[u16],
    lost_from: usize,
    errors: &str,
) -> Result<String, AllocError> {
    let mut lines = String::from_str(alloc, errors)?;
    for (number, len) in lens.iter().enumerate() {
        let end = if number % 2 == 1 {
            "1:0 tx pg0"
        } else if *len > 9216 {
            "0:0 drop pg-input too-long"
        } else if number < lost_from {
            "0:0,1:0 tx pg0"
        } else {
            "0:0 congested 1 drop hand congestion"
        };
        let line = format!(in alloc; "packet {number} {end}\n")?;
        lines.push_str(line.as_str())?;
    }
    Ok(lines)
}

/// Of 102 packets of these lengths, those of worker 1 are sent, and so are those of worker 0 below a number that aren't too long. Worker 0 has two turns
/// first; the frame of the second finds that of the first in the queue, and each of its packets is dropped.
fn assert_drawn<R: Abort + Wait + Threads + Sync + AllocGlobal>(
    rt: &R,
    lens: &[u16],
    lost_from: usize,
    errors: &str,
    counts: [u32; 6],
) {
    let alloc = rt.alloc();
    let capture = frames(alloc, lens, None).expect(rt, "memory");
    let lines = drawn_lines(alloc, lens, lost_from, errors).expect(rt, "memory");
    let words = [
        "run",
        "--workers=2",
        "--queue=1",
        "--turns=u",
        "c",
        "s",
        "t",
    ];
    let files: [(&str, &[u8]); 3] = [("c", capture.as_slice()), ("s", HAND), ("u", b"00")];
    let ran = run_with(rt, &words, &files);
    let report = report(alloc, [4096, 1, 102], counts, lines.as_str()).expect(rt, "memory");
    let saved = frames(alloc, lens, Some(lost_from)).expect(rt, "memory");
    assert_ran(rt, ran, report.as_str(), saved.as_slice(), 1);
}

// For its first turn worker 0 takes 128 buffers, which are enough for 25 packets. Three are left, so it takes 128 more for the second, and draws 26.
#[test]
fn a_turn_draws_as_many_long_packets_as_there_are_buffers_for(rt: HostRuntime) {
    let lens = longest(rt.alloc(), 102).expect(&rt, "memory");
    let counts = [76, 25, 76, 26, 102, 102];
    let errors = "error hand congestion 26\n";
    assert_drawn(&rt, lens.as_slice(), 50, errors, counts);
}

/// The lengths of 102 packets, of which the 51st is too long, and the 53rd shorter than the others.
fn longest_around(alloc: Global) -> Result<Vec<u16>, AllocError> {
    let mut lens = longest(alloc, 50)?;
    lens.extend_from_slice(&[9217, 9216, 6144, 9216])?;
    lens.extend_from_slice(longest(alloc, 48)?.as_slice())?;
    Ok(lens)
}

// Behind 25 packets three buffers are left. A packet that is too long takes one of them and gives it back, so the next packet, of 6,144 bytes, has all three.
#[test]
fn a_packet_that_is_too_long_leaves_its_buffer_to_the_next(rt: HostRuntime) {
    let lens = longest_around(rt.alloc()).expect(&rt, "memory");
    let counts = [77, 26, 77, 25, 101, 102];
    let errors = "error pg-input too-long 1\nerror hand congestion 24\n";
    assert_drawn(&rt, lens.as_slice(), 54, errors, counts);
}
