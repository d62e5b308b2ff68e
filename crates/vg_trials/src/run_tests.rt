//! Runs whose outcomes were worked out by hand.
ghost use Rattle.std.specs.Prelude.{◌≡◌, ◌<◌, ◌≤◌, IfOk, length};
ghost use Rattle.vg_engine.specs.Orders.{AreTurns};
ghost use Rattle.vg_engine.specs.Outcomes.{AreWholeCounts};

use std::alloc::{AllocError, Global};
use std::sync::Wait;
use std::test::Fail;
use vg_capture::{Capture, Captured, Packets};
use vg_counters::Counters;
use vg_engine::{Input, Options, Outcome, Rests, links_of, run_turns};
use vg_model::{Bytes, DropError, End, Fate};
use vg_nodes::Ip4Kinds;
use vg_outside::OpenGate;
use vg_plan::Plan;
use vg_script::parse_script;

/// A frame from 192.0.2.1 to 10.0.0.1, of a datagram with no data. By its destination it goes to worker 1 of two.
pub(crate) const FRAME: [u8; 34] = [
    0x02, 0xfe, 0, 0, 0, 0, 0x02, 0, 0, 0, 0, 0x01, 0x08, 0, 0x45, 0, 0, 0x14, 0, 0, 0, 0, 0x40,
    0x11, 0xae, 0xd7, 192, 0, 2, 1, 10, 0, 0, 1,
];

/// One from 10.0.0.2 to 10.0.0.1. By its source it goes to worker 0 of two.
const BACK_AND_FORTH: [u8; 34] = [
    0x02, 0xfe, 0, 0, 0, 0, 0x02, 0, 0, 0, 0, 0x01, 0x08, 0, 0x45, 0, 0, 0x14, 0, 0, 0, 0, 0x40,
    0x11, 0x66, 0xd7, 10, 0, 0, 2, 10, 0, 0, 1,
];

/// One from 192.0.2.1 to 10.1.2.3.
const ROUTED: [u8; 34] = [
    0x02, 0xfe, 0, 0, 0, 0, 0x02, 0, 0, 0, 0, 0x01, 0x08, 0, 0x45, 0, 0, 0x14, 0, 0, 0, 0, 0x40,
    0x11, 0xac, 0xd4, 192, 0, 2, 1, 10, 1, 2, 3,
];

/// Each packet is handed over by its destination and transmitted as it is.
pub(crate) const HAND: &[u8] = b"node hand kind handoff-dst\narc hand resume ethernet-input\n\
    arc pg-input out hand\narc ethernet-input ip4 interface-tx\n";

/// The same, but that packets are dropped from a time on.
const HAND_UP_TO_1000: &[u8] = b"node hand kind handoff-dst\narc hand resume ethernet-input\n\
    arc pg-input out hand\narc ethernet-input ip4 interface-tx\n\
    at 1000\narc ethernet-input ip4 error-drop\nend\n";

/// Each packet is handed over five times, by its destination and its source in turn.
const FIVE_HANDOFFS: &[u8] =
    b"node h1 kind handoff-dst\nnode h2 kind handoff-src\nnode h3 kind handoff-dst\n\
    node h4 kind handoff-src\nnode h5 kind handoff-dst\narc h1 resume h2\narc h2 resume h3\narc h3 resume h4\n\
    arc h4 resume h5\narc h5 resume ethernet-input\narc pg-input out h1\n";

/// A route that changes four times.
const FLAPPING: &[u8] =
    b"adjacency east interface pg0 dst 02:00:00:00:00:09\nroute 10.0.0.0/8 via east\n\
    process p every 100 count 3\nroute 10.0.0.0/8 drop\nthen\nroute 10.0.0.0/8 via east\nend\n\
    at 100\nroute 10.0.0.0/8 local\nend\n";

pub(crate) const SENT: End = End::Tx { interface: 0 };

/// How a packet ends that a node drops.
fn dropped(node: u16, error: DropError) -> End {
    End::Dropped { node, error }
}

/// What is expected of a packet: the worker and generation of each leg, the count of a full queue, and the end.
#[derive(Drop)]
pub(crate) struct Expected {
    legs: &'static [(u8, u32)],
    congested: Option<u64>,
    end: End,
}

impl Expected {
    /// A packet that no queue refused.
    pub(crate) fn ends(legs: &'static [(u8, u32)], end: End) -> Expected {
        Expected {
            legs,
            congested: None,
            end,
        }
    }
}

/// This frame, captured at this time in microseconds.
pub(crate) fn captured(alloc: Global, frame: &[u8; 34], time: u32) -> Result<Captured, AllocError> {
    Ok(Captured {
        seconds: 0,
        fraction: time,
        original: 34,
        bytes: Bytes::from_vec(frame.to_vec(alloc)?),
    })
}

/// Runs this frame, captured at each of these times, with these options and these turns first.
fn run<R: Wait>(
    rt: &R,
    alloc: Global,
    script: &[u8],
    frame: &[u8; 34],
    times: &[u32],
    options: Options,
    turns: &[u8],
) -> Result<Outcome, Fail>
    requires workers { (1 ≤ options.workers) × (options.workers ≤ 2) }
    requires buffers { options.buffers ≡ 4096 }
    requires queue { (1 ≤ options.queue) × (options.queue ≤ 256) }
    requires burst { (1 ≤ options.burst) × (options.burst ≤ 256) }
    requires trace { options.trace ≤ 256 }
    requires times { length times.now ≤ 8 }
    requires turns { AreTurns options.workers turns.now }
    ensures { IfOk result (λ outcome. AreWholeCounts outcome.counts) }
{
    let mut packets = Vec::new(alloc);
    for time in times {
        packets.push(captured(alloc, frame, *time)?)?;
    }
    let capture = Capture {
        nanos: false,
        snaplen: 262_144,
        packets: Packets::of(alloc, packets.as_slice())?,
    };
    let plan = Plan::new(alloc, parse_script(alloc, script)?)?;
    let input = Input {
        plan: &plan,
        capture: &capture,
        options: &options,
    };
    let links = links_of(alloc, options.workers, options.queue)?;
    Ok(run_turns(rt, alloc, &input, &Ip4Kinds, links, &OpenGate, turns)?)
}

/// Whether a fate is the one expected of the packet with this number.
fn is_expected(fate: &Fate, number: u32, expected: &Expected) -> bool {
    let legs = fate.legs.as_slice();
    if fate.number != number || fate.congested != expected.congested || fate.end != expected.end {
        return false;
    }
    legs.len() == expected.legs.len()
        && legs.iter().zip(expected.legs).all(|(leg, (worker, generation))| {
            leg.worker == *worker && leg.generation == *generation
        })
}

/// Whether the fates are those expected, by number.
pub(crate) fn are_expected(outcome: &Outcome, all: &[Expected]) -> bool {
    let fates = &outcome.fates;
    if fates.len() != all.len() {
        return false;
    }
    let mut number = 0_u32;
    for (k, expected) in all.iter().enumerate() {
        if !is_expected(&fates.get(k), number, expected) {
            return false;
        }
        number = number.wrapping_add(1);
    }
    true
}

/// Whether the first nodes were visited so often.
pub(crate) fn have_visits(counts: &Counters, visits: &[u64]) -> bool
    requires nodes { length visits.now ≤ 64 }
    requires counts { AreWholeCounts counts.now }
{
    for node in 0..visits.len() {
        if counts.visits(node as u16) != visits[node] {
            return false;
        }
    }
    true
}

/// Whether two runs sent the same packets, by number.
fn sent_alike(one: &Outcome, other: &Outcome) -> bool {
    if one.sent.len() != other.sent.len() {
        return false;
    }
    for k in 0..one.sent.len() {
        let (number, bytes) = one.sent.get(k);
        let (other_number, other_bytes) = other.sent.get(k);
        if number != other_number || bytes != other_bytes {
            return false;
        }
    }
    true
}

/// Two workers, with the first packet traced.
pub(crate) const TWO: Options = Options {
    workers: 2,
    buffers: 4096,
    queue: 64,
    burst: 256,
    trace: 1,
};

/// A packet of worker 0 that goes over to worker 1, and one of worker 1.
pub(crate) const HANDED: &[(u8, u32)] = &[(0, 0), (1, 0)];

pub(crate) const KEPT: &[(u8, u32)] = &[(1, 0)];

#[test]
fn packets_of_worker_0_are_handed_to_worker_1(rt: HostRuntime) -> Result<(), Fail> {
    let times = [0, 0, 0, 0];
    let outcome = run(&rt, rt.alloc(), HAND, &FRAME, &times, TWO, b"")?;
    assert!(rt;
        are_expected(
            &outcome,
            &[
                Expected::ends(HANDED, SENT),
                Expected::ends(KEPT, SENT),
                Expected::ends(HANDED, SENT),
                Expected::ends(KEPT, SENT),
            ]
        )
    );
    assert!(rt; have_visits(&outcome.counts, &[4, 2, 4, 0, 0, 0, 0, 4, 0, 4]));
    assert_eq!(rt; outcome.counts.sends(0), 4);
    let traces = outcome.trace.as_slice();
    assert_eq!(rt; traces.len(), 1);
    assert!(rt; traces[0].as_slice() == [0_u16, 9, 1, 2, 7].as_slice());
    Ok(())
}

#[test]
fn buffers_come_back_and_queues_are_closed(rt: HostRuntime) -> Result<(), Fail> {
    let times = [0, 0, 0, 0];
    let outcome = run(&rt, rt.alloc(), HAND, &FRAME, &times, TWO, b"")?;
    assert_eq!(rt; outcome.last.nodes(), 10);
    assert!(rt; outcome.seat.stamp() >= 1);

    // As many buffers as there are, and one was given out for each packet.
    assert_eq!(rt; outcome.buffers, 4096);
    assert_eq!(rt; outcome.settled.len(), 4096);
    assert_eq!(rt; outcome.settled.total(), 4096);
    assert_eq!(rt; outcome.settled.allocated(), 4);

    // Each worker's cache gave out two of them. All packets ended on worker 1, whose cache took their buffers in.
    let caches = outcome.settled.caches();
    assert_eq!(rt; caches.len(), 2);
    assert_eq!(rt; (caches[0].allocated, caches[0].freed), (2, 0));
    assert_eq!(rt; (caches[1].allocated, caches[1].freed), (2, 4));

    // A worker alone sends the same.
    let alone = Options {
        workers: 1,
        buffers: 4096,
        queue: 64,
        burst: 256,
        trace: 1,
    };
    let other = run(&rt, rt.alloc(), HAND, &FRAME, &times, alone, b"")?;
    assert_eq!(rt; outcome.sent.len(), 4);
    assert!(rt; sent_alike(&outcome, &other));
    assert_eq!(rt; other.rests.as_slice().len(), 0);

    // There is a queue in each direction.
    let rests = Rests::from_vec(outcome.rests.into_vec());
    assert_eq!(rt; rests.as_slice().len(), 2);
    Ok(())
}

#[test]
fn a_full_queue_refuses_a_packet_with_its_count(rt: HostRuntime) -> Result<(), Fail> {
    let options = Options {
        workers: 2,
        buffers: 4096,
        queue: 1,
        burst: 1,
        trace: 0,
    };
    let outcome = run(
        &rt,
        rt.alloc(),
        HAND,
        &FRAME,
        &[0, 0, 0, 0, 0],
        options,
        b"0010",
    )?;
    let refused = Expected {
        legs: &[(0, 0)],
        congested: Some(1),
        end: dropped(9, DropError::Congestion),
    };
    assert!(rt;
        are_expected(
            &outcome,
            &[
                Expected::ends(HANDED, SENT),
                Expected::ends(KEPT, SENT),
                refused,
                Expected::ends(KEPT, SENT),
                Expected::ends(HANDED, SENT),
            ]
        )
    );
    assert!(rt; have_visits(&outcome.counts, &[5, 2, 4, 0, 0, 0, 0, 4, 1, 5]));
    assert_eq!(rt; outcome.counts.drops(9, DropError::Congestion), 1);
    assert_eq!(rt; outcome.counts.sends(0), 4);
    assert_eq!(rt; outcome.sent.len(), 4);
    assert_eq!(rt; outcome.buffers, 4096);
    Ok(())
}

#[test]
fn a_handed_packet_meets_the_generation_of_the_worker_that_takes_it(
    rt: HostRuntime,
) -> Result<(), Fail> {
    let outcome = run(
        &rt,
        rt.alloc(),
        HAND_UP_TO_1000,
        &FRAME,
        &[0, 1000],
        TWO,
        b" 0m\t01m\r\n",
    )?;
    let blackhole = dropped(8, DropError::Blackhole);
    assert!(rt;
        are_expected(
            &outcome,
            &[
                Expected::ends(&[(0, 0), (1, 1)], blackhole),
                Expected::ends(&[(1, 1)], blackhole),
            ]
        )
    );
    assert!(rt; have_visits(&outcome.counts, &[2, 1, 2, 0, 0, 0, 0, 0, 2, 2]));
    assert_eq!(rt; outcome.counts.drops(8, DropError::Blackhole), 2);
    assert_eq!(rt; outcome.sent.len(), 0);
    assert!(rt; outcome.seat.stamp() >= 2);
    Ok(())
}

#[test]
fn a_packet_is_handed_over_three_times_at_most(rt: HostRuntime) -> Result<(), Fail> {
    let outcome = run(
        &rt,
        rt.alloc(),
        FIVE_HANDOFFS,
        &BACK_AND_FORTH,
        &[0],
        TWO,
        b"",
    )?;
    assert!(rt;
        are_expected(
            &outcome,
            &[Expected::ends(
                &[(0, 0), (1, 0), (0, 0), (1, 0)],
                dropped(12, DropError::HandoffLimit)
            ),]
        )
    );
    assert!(rt; have_visits(&outcome.counts, &[1, 3, 0, 0, 0, 0, 0, 0, 1, 1, 1, 1, 1, 0]));
    assert_eq!(rt; outcome.counts.drops(12, DropError::HandoffLimit), 1);
    Ok(())
}

#[test]
fn each_generation_has_its_routes(rt: HostRuntime) -> Result<(), Fail> {
    let outcome = run(
        &rt,
        rt.alloc(),
        FLAPPING,
        &ROUTED,
        &[0, 100, 200, 300],
        TWO,
        b"",
    )?;
    assert!(rt;
        are_expected(
            &outcome,
            &[
                Expected::ends(&[(0, 0)], SENT),
                Expected::ends(&[(1, 2)], dropped(4, DropError::Local)),
                Expected::ends(&[(0, 3)], SENT),
                Expected::ends(&[(1, 4)], dropped(4, DropError::RouteDrop)),
            ]
        )
    );
    assert_eq!(rt; outcome.sent.len(), 2);
    assert!(rt; outcome.seat.stamp() >= 5);
    Ok(())
}
