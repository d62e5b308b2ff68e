//! Frames whose ends, bytes and counts were worked out by hand, through runs of one worker.
ghost use Rattle.std.specs.Prelude.{◌≤◌, IfOk, length};
ghost use Rattle.vg_engine.specs.Outcomes.{AreWholeCounts};

use crate::run_tests::have_visits;
use std::alloc::{AllocError, Global};
use std::process::Abort;
use std::sync::Wait;
use std::test::Fail;
use vg_capture::{Capture, Captured, Packets};
use vg_engine::{Input, Options, Outcome, links_of, run_turns};
use vg_model::{Bytes, DropError, End, Leg, Mac};
use vg_nodes::Ip4Kinds;
use vg_outside::OpenGate;
use vg_plan::Plan;
use vg_script::parse_script;

/// The address of `pg0`.
const PG0: Mac = Mac([0x02, 0xfe, 0, 0, 0, 0]);

const SENT: End = End::Tx { interface: 0 };

/// Three routes, of which each covers the next.
const NESTED: &[u8] = b"adjacency a0 interface pg0 dst 02:00:00:00:00:00\n\
    adjacency a8 interface pg0 dst 02:00:00:00:00:08\n\
    adjacency a16 interface pg0 dst 02:00:00:00:00:16\n\
    route 0.0.0.0/0 via a0\nroute 10.0.0.0/8 via a8\nroute 10.1.0.0/16 via a16\n";

/// All packets go to one neighbor.
const EAST: &[u8] =
    b"adjacency east interface pg0 dst 02:00:00:00:00:09\nroute 0.0.0.0/0 via east\n";

/// One interface that filters, and one that is down.
const FILTERED: &[u8] = b"interface pg0 mac 02:fe:00:00:00:00 mtu 100 up filter\n\
    interface lan mac 02:fe:00:00:00:01 mtu 100 down\n\
    adjacency p interface pg0 dst 02:00:00:00:00:05\n\
    adjacency l interface lan dst 02:00:00:00:00:06\n\
    route 10.1.0.0/16 via p\nroute 10.2.0.0/16 via l\n";

/// Each packet goes through five handoff nodes, and IPv4 frames are sent as they are.
const FIVE_HANDOFFS: &[u8] =
    b"node h1 kind handoff-dst\nnode h2 kind handoff-src\nnode h3 kind handoff-dst\n\
    node h4 kind handoff-src\nnode h5 kind handoff-dst\narc h1 resume h2\narc h2 resume h3\narc h3 resume h4\n\
    arc h4 resume h5\narc h5 resume ethernet-input\narc pg-input out h1\narc ethernet-input ip4 interface-tx\n";

/// The other hosts' addresses, by their last byte.
fn host(last: u8) -> Mac {
    Mac([0x02, 0, 0, 0, 0, last])
}

/// A header of 20 bytes from 192.0.2.1, of protocol 17.
fn header(total: u8, ttl: u8, checksum: u16, to: [u8; 4]) -> [u8; 20] {
    let [high, low] = checksum.to_be_bytes();
    let [a, b, c, d] = to;
    [
        0x45, 0, 0, total, 0, 0, 0, 0, ttl, 17, high, low, 192, 0, 2, 1, a, b, c, d,
    ]
}

/// A frame of so many bytes: an Ethernet header, an IPv4 header, and zeros.
fn frame(
    alloc: Global,
    to: Mac,
    from: Mac,
    header: &[u8],
    len: usize,
) -> Result<Vec<u8>, AllocError> {
    let mut bytes = Vec::with_capacity(alloc, len)?;
    bytes.extend_from_slice(&to.0)?;
    bytes.extend_from_slice(&from.0)?;
    bytes.extend_from_slice(&[0x08, 0x00])?;
    bytes.extend_from_slice(header)?;
    bytes.resize(len, 0)?;
    Ok(bytes)
}

/// Adds the packet of such a frame from the first host.
fn add(
    packets: &mut Vec<Captured>,
    alloc: Global,
    to: Mac,
    header: &[u8],
    len: usize,
) -> Result<(), AllocError> {
    packets.push(Captured {
        seconds: 0,
        fraction: 0,
        original: 0,
        bytes: Bytes::from_vec(frame(alloc, to, host(1), header, len)?),
    })?;
    Ok(())
}

/// What becomes of these packets on one worker.
fn run<R: Wait>(rt: &R, alloc: Global, script: &[u8], packets: &[Captured]) -> Result<Outcome, Fail>
    requires { length packets.now ≤ 65536 }
    ensures { IfOk result (λ outcome. AreWholeCounts outcome.counts) }
{
    let capture = Capture {
        nanos: false,
        snaplen: 262_144,
        packets: Packets::of(alloc, packets)?,
    };
    let plan = Plan::new(alloc, parse_script(alloc, script)?)?;
    let options = Options {
        workers: 1,
        buffers: 4096,
        queue: 64,
        burst: 256,
        trace: 0,
    };
    let input = Input {
        plan: &plan,
        capture: &capture,
        options: &options,
    };
    let links = links_of(alloc, 1, 64)?;
    Ok(run_turns(rt, alloc, &input, &Ip4Kinds, links, &OpenGate, b"")?)
}

/// The packets ended so, each with one leg, on this worker and in the one generation.
fn assert_ends(rt: &impl Abort, outcome: &Outcome, ends: &[End]) {
    assert_eq!(rt; outcome.fates.len(), ends.len());
    for (k, end) in ends.iter().enumerate() {
        assert!(rt; k < outcome.fates.len());
        let fate = outcome.fates.get(k);
        assert_eq!(rt; fate.end, *end, "of packet {k}");
        assert_eq!(rt; (fate.number as usize, fate.congested), (k, None));
        assert_eq!(rt;
            fate.legs.as_slice(),
            [Leg {
                worker: 0,
                generation: 0
            }]
            .as_slice()
        );
    }
}

/// The packet transmitted in this place has this number and these bytes.
fn assert_sent(rt: &impl Abort, outcome: &Outcome, place: usize, number: u32, bytes: &[u8]) {
    assert!(rt; place < outcome.sent.len());
    let (sent, sent_bytes) = outcome.sent.get(place);
    assert_eq!(rt; sent, number);
    assert_eq!(rt; sent_bytes, bytes);
}

/// How a packet ends that a node drops.
fn dropped(node: u16, error: DropError) -> End {
    End::Dropped { node, error }
}

#[test]
fn a_packet_goes_over_the_longest_match(rt: HostRuntime) -> Result<(), Fail> {
    let alloc = rt.alloc();
    let mut packets = Vec::new(alloc);
    let received = header(20, 64, 0xacd4, [10, 1, 2, 3]);
    add(&mut packets, alloc, PG0, &received, 34)?;
    assert!(rt; packets.len() == 1);
    let outcome = run(&rt, alloc, NESTED, packets.as_slice())?;
    assert_ends(&rt, &outcome, &[SENT]);
    let sent = header(20, 63, 0xadd4, [10, 1, 2, 3]);
    let left = frame(alloc, host(0x16), PG0, &sent, 34)?;
    assert_sent(&rt, &outcome, 0, 0, left.as_slice());
    assert!(rt; have_visits(&outcome.counts, &[1, 0, 1, 1, 1, 1, 1, 1, 0]));
    assert_eq!(rt; outcome.counts.sends(0), 1);
    Ok(())
}

#[test]
fn a_time_to_live_of_2_leaves_as_1(rt: HostRuntime) -> Result<(), Fail> {
    let alloc = rt.alloc();
    let mut packets = Vec::new(alloc);
    for (ttl, checksum) in [(1, 0xebd4), (2, 0xead4), (0, 0xecd4)] {
        let received = header(20, ttl, checksum, [10, 1, 2, 3]);
        add(&mut packets, alloc, PG0, &received, 34)?;
    }
    assert!(rt; packets.len() == 3);
    let outcome = run(&rt, alloc, EAST, packets.as_slice())?;
    assert_ends(
        &rt,
        &outcome,
        &[
            dropped(5, DropError::TtlExpired),
            SENT,
            dropped(3, DropError::TtlZero),
        ],
    );
    let sent = header(20, 1, 0xebd4, [10, 1, 2, 3]);
    let left = frame(alloc, host(9), PG0, &sent, 34)?;
    assert_sent(&rt, &outcome, 0, 1, left.as_slice());
    assert!(rt; have_visits(&outcome.counts, &[3, 0, 3, 3, 2, 2, 1, 1, 2]));
    assert_eq!(rt; outcome.counts.drops(5, DropError::TtlExpired), 1);
    assert_eq!(rt; outcome.counts.drops(3, DropError::TtlZero), 1);
    assert_eq!(rt; outcome.counts.drops(3, DropError::TtlExpired), 0);
    Ok(())
}

#[test]
fn interfaces_filter_and_go_down(rt: HostRuntime) -> Result<(), Fail> {
    let alloc = rt.alloc();
    let mut packets = Vec::new(alloc);
    let plain = header(20, 64, 0xacd4, [10, 1, 2, 3]);
    add(&mut packets, alloc, host(0x77), &plain, 34)?;
    let full = header(100, 64, 0xac84, [10, 1, 2, 3]);
    add(&mut packets, alloc, Mac([0xff; 6]), &full, 114)?;
    let longer = header(101, 64, 0xac83, [10, 1, 2, 3]);
    add(&mut packets, alloc, PG0, &longer, 115)?;
    let down = header(20, 64, 0xaed5, [10, 2, 0, 1]);
    add(&mut packets, alloc, PG0, &down, 34)?;
    let elsewhere = header(20, 64, 0x0cc7, [172, 16, 0, 1]);
    add(&mut packets, alloc, PG0, &elsewhere, 34)?;
    assert!(rt; packets.len() == 5);
    let outcome = run(&rt, alloc, FILTERED, packets.as_slice())?;
    assert_ends(
        &rt,
        &outcome,
        &[
            dropped(2, DropError::WrongMac),
            SENT,
            dropped(5, DropError::MtuExceeded),
            dropped(6, DropError::InterfaceDown),
            dropped(4, DropError::NoRoute),
        ],
    );
    assert_eq!(rt; outcome.counts.sends(0), 1);
    assert_eq!(rt; outcome.counts.sends(1), 0);
    Ok(())
}

#[test]
fn one_worker_hands_packets_to_itself(rt: HostRuntime) -> Result<(), Fail> {
    let alloc = rt.alloc();
    let plain = header(20, 64, 0xacd4, [10, 1, 2, 3]);
    let mut packets = Vec::new(alloc);
    for len in [13, 14, 9216, 9217] {
        add(&mut packets, alloc, PG0, &plain, len)?;
    }
    assert!(rt; packets.len() == 4);
    let outcome = run(&rt, alloc, FIVE_HANDOFFS, packets.as_slice())?;
    assert_ends(
        &rt,
        &outcome,
        &[
            dropped(2, DropError::Short),
            SENT,
            SENT,
            dropped(0, DropError::TooLong),
        ],
    );
    assert!(rt; have_visits(&outcome.counts, &[4, 0, 3, 0, 0, 0, 0, 2, 2, 3, 3, 3, 3, 3]));
    assert_eq!(rt; outcome.counts.drops(0, DropError::TooLong), 1);
    Ok(())
}
