//! Generated packets, on one worker and on several. A check takes each packet alone through the graph, so it says yes exactly where what a
//! run saved and printed comes of that.

use crate::memory_runs::{HEADER, Ran, run_with};
use std::alloc::{AllocError, Global};
use std::process::Abort;
use std::sync::Wait;
use std::thread::Threads;
use vg_model::{DropError, start};
use vg_report::{Report, read_report};

/// A graph with nodes that pass packets on, handoff nodes, interfaces that are small and down, and routes of every kind, over one neighbor
/// and over several.
const SCRIPT: &[u8] = b"interface lan mac 02:fe:00:00:00:01 mtu 68 up\n\
    interface off mac 02:fe:00:00:00:02 mtu 1500 down\n\
    adjacency a interface pg0 dst 02:00:00:00:00:0a\n\
    adjacency b interface lan dst 02:00:00:00:00:0b\n\
    adjacency c interface off dst 02:00:00:00:00:0c\n\
    node first kind pass\n\
    node flow kind handoff-flow\n\
    node to kind handoff-dst\n\
    node last kind pass\n\
    arc to resume ethernet-input\n\
    arc flow resume to\n\
    arc first out flow\n\
    arc pg-input out first\n\
    arc last out ip4-rewrite\n\
    arc ip4-lookup rewrite last\n\
    route 10.0.0.0/8 via a,b,a\n\
    route 10.128.0.0/9 via b\n\
    route 10.64.0.0/10 drop\n\
    route 10.192.0.0/12 local\n\
    route 10.16.0.0/12 via c\n\
    route 10.32.0.0/11 via a,b\n\
    route 10.1.2.0/24 via b\n";

/// The number of the node at which packets arrive that other workers hand over.
const HANDOFF_DEQUEUE: usize = start::HANDOFF_DEQUEUE as usize;

/// The next of the numbers that packets are made from.
fn next(state: u64) -> u64 {
    state
        .wrapping_mul(6_364_136_223_846_793_005)
        .wrapping_add(1_442_695_040_888_963_407)
}

/// The checksum field of a header of 20 bytes whose sum of all other words, not folded, is this.
pub(crate) fn checksum(sum: u32) -> [u8; 2] {
    let once = (sum & 0xffff) + (sum >> 16);
    let twice = (once & 0xffff) + (once >> 16);
    (!((twice & 0xffff) as u16)).to_be_bytes()
}

/// Adds the record of the packet of a number that was drawn: mostly an IPv4 datagram to 10.0.0.0/8, some of them faulty.
fn add(alloc: Global, file: &mut Vec<u8>, random: u64) -> Result<(), AllocError> {
    let bits = (random >> 32) as u32;
    let fault = (random >> 24 & 0xff) as u8;
    let ttl = if bits % 16 == 3 {
        (bits >> 4 & 1) as u8
    } else {
        64
    };
    let total = 20 + ((bits >> 8) % 64) as u8;
    let [_, b, c, d] = bits.to_be_bytes();
    let sum = 0x4500
        + u32::from(total)
        + (u32::from(ttl) << 8)
        + 17
        + 0xc000
        + 0x0201
        + (10 << 8)
        + u32::from(b)
        + (u32::from(c) << 8)
        + u32::from(d);
    let [high, low] = checksum(sum);
    let mut bytes = Vec::new(alloc);
    bytes.extend_from_slice(&[0x02, 0xfe, 0, 0, 0, 0, 0x02, 0, 0, 0, 0, 1])?;
    bytes.extend_from_slice(if fault < 8 {
        &[0x08, 0x06]
    } else {
        &[0x08, 0x00]
    })?;
    bytes.extend_from_slice(&[0x45, 0, 0, total, 0, 0, 0, 0, ttl, 17])?;
    bytes.extend_from_slice(&[high, if fault < 16 { low ^ 1 } else { low }])?;
    bytes.extend_from_slice(&[192, 0, 2, 1, 10, b, c, d])?;
    let len = match fault {
        16 => 13,
        17 => 33,
        18 => 9217,
        _ => 14 + u32::from(total),
    };
    bytes.resize(len as usize, 0)?;
    file.extend_from_slice(&[0; 8])?;
    file.extend_from_slice(&len.to_le_bytes())?;
    file.extend_from_slice(&len.to_le_bytes())?;
    file.extend_from_slice(bytes.as_slice())
}

/// The savefile of so many packets, at time 0.
fn generated(alloc: Global, count: u32) -> Result<Vec<u8>, AllocError> {
    let mut file = HEADER.to_vec(alloc)?;
    let mut state = 1;
    for _ in 0..count {
        state = next(state);
        add(alloc, &mut file, state)?;
    }
    Ok(file)
}

/// What a run of 2,000 packets saved and printed.
#[derive(Drop)]
struct Saved {
    tx: Vec<u8>,
    report: Report,
}

/// A run of this capture over the script, on so many workers, with so many packets a burst and these turns first.
fn run_of<'a, R: Abort + Wait + Threads + Sync + AllocGlobal>(
    rt: &R,
    workers: &'a str,
    burst: &'a str,
    capture: &'a [u8],
    turns: &'a [u8],
) -> Ran {
    let words = [
        "run",
        "--workers",
        workers,
        "--queue",
        "256",
        "--burst",
        burst,
        "--turns",
        "u",
        "c",
        "s",
        "t",
    ];
    let files: [(&str, &[u8]); 3] = [("c", capture), ("s", SCRIPT), ("u", turns)];
    run_with(rt, &words, &files)
}

/// A check of what such a run saved and printed.
fn check_of<'a, R: Abort + Wait + Threads + Sync + AllocGlobal>(
    rt: &R,
    capture: &'a [u8],
    tx: &'a [u8],
    report: &'a [u8],
) -> Ran {
    let words = ["check", "--queue", "256", "c", "s", "t", "r"];
    let files: [(&str, &[u8]); 4] = [("c", capture), ("s", SCRIPT), ("t", tx), ("r", report)];
    run_with(rt, &words, &files)
}

/// What becomes of 2,000 packets on so many workers, with so many packets a burst and these turns first; a check of it says yes.
fn forwarded<R: Abort + Wait + Threads + Sync + AllocGlobal>(
    rt: &R,
    workers: &str,
    burst: &str,
    turns: &[u8],
) -> Saved {
    let alloc = rt.alloc();
    let capture = generated(alloc, 2000).expect(rt, "memory");
    let Ran {
        status,
        printed,
        tx,
        ran: _,
    } = run_of(rt, workers, burst, capture.as_slice(), turns);
    assert_eq!(rt; status, 0);
    let tx = tx.expect(rt, "no savefile");
    let checked = check_of(rt, capture.as_slice(), tx.as_slice(), printed.as_slice());
    assert_eq!(rt; checked.printed.as_slice(), "yes\n".as_bytes());
    assert_eq!(rt; checked.status, 0);
    let report = read_report(alloc, printed.as_slice()).expect(rt, "a report");
    assert_eq!(rt; report.buffers, 4096);
    assert_eq!(rt; report.packets.len(), 2000);
    Saved { tx, report }
}

/// How often packets were handed over; none was refused by a full queue.
fn handed(rt: &impl Abort, report: &Report) -> u64 {
    let mut count: u64 = 0;
    for number in 0..report.packets.len() {
        let line = report.packets.get(number);
        assert_eq!(rt; line.congested, None);
        count = count.saturating_add(line.legs.as_slice().len() as u64);
        count = count.saturating_sub(1);
    }
    count
}

/// How often a node was visited.
fn visits(report: &Report, node: usize) -> Option<u64> {
    let (_, count) = report.nodes.as_slice().get(node)?;
    Some(*count)
}

/// Whether some node dropped a packet with this error.
fn was_made(report: &Report, error: DropError) -> bool {
    report
        .errors
        .as_slice()
        .iter()
        .any(|entry| entry.1 == error && entry.2 > 0)
}

/// How many packets were transmitted.
fn transmitted(report: &Report) -> u64 {
    let mut count: u64 = 0;
    for (_, sent) in report.interfaces.as_slice() {
        count = count.saturating_add(*sent);
    }
    count
}

#[test]
fn frames_are_like_single_packets(rt: HostRuntime) {
    let alone = forwarded(&rt, "1", "256", b"");
    assert_eq!(rt; handed(&rt, &alone.report), 0);
    assert_eq!(rt; visits(&alone.report, HANDOFF_DEQUEUE), Some(0));

    // The trial has packets of many kinds.
    assert!(rt; transmitted(&alone.report) > 500);
    let mut errors: u32 = 0;
    for error in DropError::ALL.iter() {
        if was_made(&alone.report, *error) {
            errors = errors.saturating_add(1);
        }
    }
    assert!(rt; errors >= 10);
}

/// Whether the interfaces of two reports transmitted as many packets, and the nodes dropped as many with each error.
fn have_same_ends(one: &Report, other: &Report) -> bool {
    let (sends, other_sends) = (one.interfaces.as_slice(), other.interfaces.as_slice());
    let (errors, other_errors) = (one.errors.as_slice(), other.errors.as_slice());
    sends.len() == other_sends.len()
        && sends
            .iter()
            .zip(other_sends)
            .all(|(a, b)| a.0 == b.0 && a.1 == b.1)
        && errors.len() == other_errors.len()
        && errors
            .iter()
            .zip(other_errors)
            .all(|(a, b)| a.0 == b.0 && a.1 == b.1 && a.2 == b.2)
}

/// Several workers, with these turns first, save what one saves alone, and each node but the one at which handed packets arrive has as many visits.
fn assert_alike<R: Abort + Wait + Threads + Sync + AllocGlobal>(
    rt: &R,
    alone: &Saved,
    workers: &str,
    burst: &str,
    turns: &[u8],
) {
    let several = forwarded(rt, workers, burst, turns);
    assert!(rt; several.tx == alone.tx);
    assert!(rt; have_same_ends(&alone.report, &several.report));
    let nodes = alone.report.nodes.as_slice().len();
    assert_eq!(rt; nodes, 13);
    for node in 0..nodes {
        if node != HANDOFF_DEQUEUE {
            assert_eq!(rt; visits(&several.report, node), visits(&alone.report, node));
        }
    }
    let handed = handed(rt, &several.report);
    assert_eq!(rt; visits(&several.report, HANDOFF_DEQUEUE), Some(handed));
    assert!(rt; handed > 1000);
}

#[test]
fn several_workers_send_what_one_sends(rt: HostRuntime) {
    let alone = forwarded(&rt, "1", "256", b"");
    assert_alike(&rt, &alone, "2", "256", b"");
    assert_alike(&rt, &alone, "2", "32", b"00001111m01");
    assert_alike(&rt, &alone, "3", "64", b"2221");
    assert_alike(&rt, &alone, "8", "256", b"");
}
