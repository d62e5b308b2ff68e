//! The savefile of packets sent, whose bytes stand in its order, in another one, or in two lists.
ghost use Rattle.std.specs.Prelude.{ℕ, List, ◌≡◌, ◌<◌, ◌^◌, All, length};
ghost use Rattle.vg_underway.specs.SentEntries.{AreWithin, sent_by};

use crate::checks::holds;
use std::alloc::Global;
use std::process::Abort;
use vg_capture::{Capture, Captured, Packets};
use vg_model::Bytes;
use vg_savefile::savefile_of;
use vg_underway::{SentEntry, SentList};

/// The packet of three bytes, with which the list begins, and the one of one byte behind it.
const LONG: SentEntry = SentEntry {
    number: 1,
    part: 0,
    len: 3,
    start: 0,
};

const SHORT: SentEntry = SentEntry {
    number: 0,
    part: 0,
    len: 1,
    start: 3,
};

/// The bytes of both.
const BYTES: [u8; 4] = [7, 8, 9, 10];

/// Microseconds, version 2.4, snaplen 262,144, Ethernet.
const HEADER: [u8; 24] = [
    0xd4, 0xc3, 0xb2, 0xa1, 2, 0, 4, 0, 0, 0, 0, 0, 0, 0, 0, 0, 0, 0, 4, 0, 1, 0, 0, 0,
];

/// The records: the one of 3 bytes of 70 at 3.000004 seconds, the other of 1 byte of 60 at 1.000002 seconds.
const LONG_RECORD: [u8; 19] = [3, 0, 0, 0, 4, 0, 0, 0, 3, 0, 0, 0, 70, 0, 0, 0, 7, 8, 9];

const SHORT_RECORD: [u8; 17] = [1, 0, 0, 0, 2, 0, 0, 0, 1, 0, 0, 0, 60, 0, 0, 0, 10];

/// Two captured packets: a savefile takes their times and original lengths, and none of their bytes.
fn capture_of_two(rt: &impl Abort, alloc: Global) -> Capture
    ensures { length result.packets ≡ 2 }
{
    let packets = [
        Captured {
            seconds: 1,
            fraction: 2,
            original: 60,
            bytes: Bytes::from_vec(Vec::new(alloc)),
        },
        Captured {
            seconds: 3,
            fraction: 4,
            original: 70,
            bytes: Bytes::from_vec(Vec::new(alloc)),
        },
    ];
    Capture {
        nanos: false,
        snaplen: 262_144,
        packets: Packets::of(alloc, &packets).expect(rt, "memory"),
    }
}

/// The packets with these entries, whose bytes stand in this list.
fn sent(rt: &impl Abort, alloc: Global, entries: &[SentEntry], bytes: &[u8]) -> SentList
    requires { AreWithin entries.now bytes.now }
    ensures { result ≡ sent_by entries.now bytes.now }
{
    SentList::new(
        entries.to_vec(alloc).expect(rt, "memory"),
        bytes.to_vec(alloc).expect(rt, "memory"),
    )
}

/// The savefile is the header and these two records.
fn is_saved(rt: &impl Abort, alloc: Global, sent: SentList, first: &[u8], second: &[u8])
    requires { All (λ (packet : ℕ × List ℕ). (packet.0 < 2) × (length packet.1 < 2 ^ 32)) sent }
{
    let capture = capture_of_two(rt, alloc);
    let file = savefile_of(alloc, &capture, sent)
        .expect(rt, "memory")
        .into_vec();
    let mut expected = HEADER.to_vec(alloc).expect(rt, "memory");
    expected.extend_from_slice(first).expect(rt, "memory");
    expected.extend_from_slice(second).expect(rt, "memory");
    holds(rt, file.as_slice() == expected.as_slice());
}

#[test]
fn bytes_in_order_become_the_savefile(rt: HostRuntime) {
    let sent = sent(&rt, rt.alloc(), &[LONG, SHORT], &BYTES);
    is_saved(&rt, rt.alloc(), sent, &LONG_RECORD, &SHORT_RECORD)
}

#[test]
fn bytes_in_another_order_are_written_anew(rt: HostRuntime) {
    let sent = sent(&rt, rt.alloc(), &[SHORT, LONG], &BYTES);
    is_saved(&rt, rt.alloc(), sent, &SHORT_RECORD, &LONG_RECORD)
}

#[test]
fn bytes_in_two_lists_are_written_anew(rt: HostRuntime) {
    let alloc = rt.alloc();
    let long = sent(&rt, alloc, &[LONG], &BYTES);
    let short = sent(&rt, alloc, &[SHORT], &BYTES);
    let mut lists = Vec::new(alloc);
    lists.push(long).expect(&rt, "memory");
    lists.push(short).expect(&rt, "memory");
    let sent = SentList::joined(alloc, lists).expect(&rt, "memory");
    is_saved(&rt, alloc, sent, &LONG_RECORD, &SHORT_RECORD)
}
