//! Packets that are taken through choices: over two workers and two generations, and under choices that fit no journey.

use std::alloc::{AllocError, Global};
use std::process::Abort;
use vg_capture::{Capture, read_capture};
use vg_model::{Bytes, DropError, Leg};
use vg_nodes::Ip4Kinds;
use vg_plan::Plan;
use vg_replay::{Input, Outcome, ReplayError, Replayed, copied, replay};
use vg_report::{Report, read_report};
use vg_script::parse_script;

/// A savefile of no packets: little-endian, microseconds, version 2.4, snaplen 262,144, Ethernet.
const HEADER: [u8; 24] = [
    0xd4, 0xc3, 0xb2, 0xa1, 2, 0, 4, 0, 0, 0, 0, 0, 0, 0, 0, 0, 0, 0, 4, 0, 1, 0, 0, 0,
];

/// A frame to 10.0.0.1, whose hash is odd.
const ODD: [u8; 34] = [
    2, 0xfe, 0, 0, 0, 0, 2, 0, 0, 0, 0, 1, 8, 0, 0x45, 0, 0, 20, 0, 0, 0, 0, 0x40, 0x11, 0xae,
    0xd7, 192, 0, 2, 1, 10, 0, 0, 1,
];

/// IPv4 frames are handed over by their destination and sent, and from 1,000 microseconds on dropped.
const TURN: &str = "node hand kind handoff-dst
arc hand resume ethernet-input
arc pg-input out hand
arc ethernet-input ip4 interface-tx
at 1000
arc ethernet-input ip4 error-drop
end
";

/// The least report of two packets with two workers: 0 goes over to worker 1, and meets the second generation there.
const TURNED: &str = "vgd report 1
workers 2
buffers 4096
generations 2
packets 2
interface 0 pg0 tx 0
node 0 pg-input 0
packet 0 0:0,1:1 tx pg0
packet 1 1:1 tx pg0
end
";

/// The same, of which 0 meets the first generation on both workers.
const SENT: &str = "vgd report 1
workers 2
buffers 4096
generations 2
packets 2
interface 0 pg0 tx 0
node 0 pg-input 0
packet 0 0:0,1:0 tx pg0
packet 1 1:1 tx pg0
end
";

/// The same, of which 1 goes on in an earlier generation than that of its time.
const EARLY: &str = "vgd report 1
workers 2
buffers 4096
generations 2
packets 2
interface 0 pg0 tx 0
node 0 pg-input 0
packet 0 0:0,1:1 tx pg0
packet 1 1:0 tx pg0
end
";

/// The same, of which the first push found its queue full.
const FULL: &str = "vgd report 1
workers 2
buffers 4096
generations 2
packets 2
interface 0 pg0 tx 0
node 0 pg-input 0
packet 0 0:0 congested 7 drop pg-input congestion
packet 1 1:1 tx pg0
end
";

/// The same, without the count of the queue.
const TORN: &str = "vgd report 1
workers 2
buffers 4096
generations 2
packets 2
interface 0 pg0 tx 0
node 0 pg-input 0
packet 0 0:0 tx pg0
packet 1 1:1 tx pg0
end
";

/// Two packets, at 0 and at 1,000 microseconds.
fn capture(rt: &impl Abort, alloc: Global) -> Capture {
    let mut file = HEADER.to_vec(alloc).expect(rt, "memory");
    add(&mut file, 0).expect(rt, "memory");
    add(&mut file, 1000).expect(rt, "memory");
    read_capture(alloc, Bytes::from_vec(file)).expect(rt, "a capture")
}

/// Adds the record of a frame at so many microseconds.
fn add(file: &mut Vec<u8>, micros: u16) -> Result<(), AllocError> {
    let [low, high] = micros.to_le_bytes();
    file.extend_from_slice(&[0, 0, 0, 0, low, high, 0, 0])?;
    file.extend_from_slice(&[34, 0, 0, 0, 34, 0, 0, 0])?;
    file.extend_from_slice(&ODD)
}

/// What comes of both packets under the choices that a report names.
fn replayed(rt: &impl Abort, alloc: Global, report: &str) -> Result<Replayed, ReplayError> {
    let capture = capture(rt, alloc);
    let script = parse_script(alloc, TURN.as_bytes()).expect(rt, "a script");
    let plan = Plan::new(alloc, script).expect(rt, "a plan");
    let report: Report = read_report(alloc, report.as_bytes()).expect(rt, "a report");
    assert!(rt; report.workers == 2);
    assert!(rt; report.packets.len() == capture.count() as usize);
    let input = Input {
        plan: &plan,
        capture: &capture,
        workers: report.workers,
        lines: &report.packets,
        traced: 1,
    };
    replay(alloc, &input, &Ip4Kinds)
}

/// The packet with this number was dropped by this node with this error.
fn assert_dropped(rt: &impl Abort, done: &Replayed, number: usize, node: u16, error: DropError) {
    assert!(rt; number < done.trips.len());
    assert_eq!(rt;
        done.trips.get(number).outcome(),
        Outcome::Dropped { node, error }
    );
}

#[test]
fn a_packet_meets_another_generation_on_its_second_worker(rt: HostRuntime) {
    let done = replayed(&rt, rt.alloc(), TURNED).expect(&rt, "journeys");
    assert_dropped(&rt, &done, 0, 8, DropError::Blackhole);
    assert_dropped(&rt, &done, 1, 8, DropError::Blackhole);
    assert!(rt; done.trips.len() > 0);
    let first = done.trips.get(0);
    assert!(rt; first.visits() == [0, 9, 1, 2, 8].as_slice());
    assert!(rt; first.legs().len() == 2);
}

#[test]
fn a_packet_is_sent_by_its_second_worker(rt: HostRuntime) {
    let done = replayed(&rt, rt.alloc(), SENT).expect(&rt, "journeys");
    assert!(rt; done.trips.len() > 0);
    let first = done.trips.get(0);
    assert_eq!(rt; first.outcome(), Outcome::Sent { interface: 0 });
    assert!(rt; first.bytes() == ODD.as_slice());
    assert!(rt; first.visits() == [0, 9, 1, 2, 7].as_slice());
    let legs = copied(first.legs());
    assert!(rt;
        legs.as_slice()
            == [
                Leg {
                    worker: 0,
                    generation: 0
                },
                Leg {
                    worker: 1,
                    generation: 0
                }
            ]
            .as_slice()
    );
}

#[test]
fn a_packet_begins_in_the_generation_of_its_time(rt: HostRuntime) {
    match replayed(&rt, rt.alloc(), EARLY) {
        Ok(_) => assert!(rt; false),
        Err(error) => assert_eq!(rt; error, ReplayError::Choices(1)),
    }
}

#[test]
fn a_full_queue_ends_a_journey(rt: HostRuntime) {
    let done = replayed(&rt, rt.alloc(), FULL).expect(&rt, "journeys");
    assert!(rt; done.trips.len() > 0);
    let first = done.trips.get(0);
    assert_eq!(rt; first.outcome(), Outcome::Handed { node: 9, worker: 1 });
}

#[test]
fn a_packet_without_a_journey_is_named(rt: HostRuntime) {
    match replayed(&rt, rt.alloc(), TORN) {
        Ok(_) => assert!(rt; false),
        Err(error) => assert_eq!(rt; error, ReplayError::Choices(0)),
    }
}
