//! Packets that are visited and dispatched at the nodes of small graphs.
ghost use Rattle.std.specs.Prelude.{◌≡◌, ◌+◌, ◌<◌, ℕ, Some, []};
ghost use Rattle.std.specs.Bool.{OnTrue};
ghost use Rattle.vg_model.specs.Valid.{IsTarget};
ghost use Rattle.vg_frame.specs.Placed.{IsLive, count};

use crate::checks::{differ, has_length, holds, same};
use std::alloc::Global;
use std::marker::Brand;
use std::process::Abort;
use std::sync::ledger::{Blank, Ledger};
use vg_fib::{Fib, Fib6};
use vg_fork::Fork;
use vg_frame::{BufferMemory, Frame};
use vg_graph::Graph;
use vg_model::{
    DropError, Edit, HashKind, Kind, Leg, Mac, Members, Name, Prefix, RouteTo, Step, VlanId,
};
use vg_nodes::{Ip4Kinds, KindSet, Sorted, dispatch_frame};
use vg_pool::{Buffer, Pool, PoolLedger};

const PG0: Mac = Mac([0x02, 0xfe, 0, 0, 0, 0]);

const EVERYWHERE: Prefix = Prefix { addr: 0, len: 0 };

// 10.1.0.0/16.
const TEN_ONE: Prefix = Prefix {
    addr: 0x0a01_0000,
    len: 16,
};

const LEG: Leg = Leg {
    worker: 0,
    generation: 0,
};

// The other hosts' addresses, by their last byte.
fn host(last: u8) -> Mac {
    Mac([0x02, 0, 0, 0, 0, last])
}

// A header of 20 bytes from 192.0.2.1, of protocol 17.
fn header(total: u8, ttl: u8, checksum: u16, to: [u8; 4]) -> [u8; 20] {
    let [high, low] = checksum.to_be_bytes();
    let [a, b, c, d] = to;
    [
        0x45, 0, 0, total, 0, 0, 0, 0, ttl, 17, high, low, 192, 0, 2, 1, a, b, c, d,
    ]
}

// A frame of so many bytes: an Ethernet header, an IPv4 header, and zeros.
fn frame(rt: &impl Abort, alloc: Global, to: Mac, from: Mac, header: &[u8], len: usize) -> Vec<u8> {
    let mut bytes = Vec::with_capacity(alloc, len).expect(rt, "memory");
    bytes.extend_from_slice(&to.0).expect(rt, "memory");
    bytes.extend_from_slice(&from.0).expect(rt, "memory");
    bytes.extend_from_slice(&[0x08, 0x00]).expect(rt, "memory");
    bytes.extend_from_slice(header).expect(rt, "memory");
    bytes.resize(len, 0).expect(rt, "memory");
    bytes
}

fn name(rt: &impl Abort, text: &str) -> Name {
    Name::of(text.as_bytes()).expect(rt, "a name")
}

// Whether arcs may lead to a node of this kind.
fn is_target(kind: Kind) -> bool
    ensures { OnTrue result (IsTarget (Some kind)) }
{
    !matches!(kind, Kind::PgInput | Kind::HandoffDequeue)
}

// The step of a visit at a node.
fn visit(rt: &impl Abort, fork: &Fork, node: u16, buffer: &mut Buffer) -> Step {
    holds(rt, node < fork.nodes());
    holds(rt, is_target(fork.kind(node)));
    Ip4Kinds.visit(fork, node, buffer)
}

// Where a packet is dropped.
fn dropped(node: u16, error: DropError) -> (u16, Step) {
    (node, Step::Dropped { error })
}

const SENT: (u16, Step) = (7, Step::Tx { interface: 0 });

// A buffer of a pool of its own.
fn taken_out<T: PoolLedger, G: Ledger, R: Abort>(
    rt: &R,
    alloc: Global,
    taken: Blank,
    given: Blank,
) -> Buffer
    requires total { T.total ≡ 1 }
    requires taken { (taken.name ≡ T.name) × (taken.parts ≡ T.parts) × (taken.parts ≡ 1) }
    requires given { (given.name ≡ G.name) × (given.parts ≡ G.parts) × (given.parts ≡ 1) }
{
    let (mut pool, mut caches) = Pool::<T, G>::new(alloc, 1, 1, taken, given).expect(rt, "memory");
    let mut cache = caches.pop().expect(rt, "a cache");
    pool.take(1, &mut cache);
    cache.alloc(60).expect(rt, "a buffer")
}

fn buffer<R: Abort>(rt: &R, alloc: Global) -> Buffer {
    taken_out::<Brand, Brand, R>(rt, alloc, Blank::new(1), Blank::new(1))
}

// The packet of this number and frame, in a buffer of its own.
fn received(rt: &impl Abort, alloc: Global, number: u32, frame: &[u8]) -> Buffer
    ensures { result.legs ≡ [] }
{
    holds(rt, frame.len() <= 2048);
    let mut buffer = buffer(rt, alloc);
    buffer.fill(number, frame);
    buffer
}

// Where a packet of this frame ends that goes from `ethernet-input` on: the node, and its last step; and the packet.
fn end(rt: &impl Abort, alloc: Global, fork: &Fork, frame: &[u8]) -> ((u16, Step), Buffer) {
    let mut buffer = received(rt, alloc, 7, frame);
    buffer.add_leg(LEG);
    for node in 2..7 {
        let step = visit(rt, fork, node, &mut buffer);
        if step != (Step::Next { slot: 0 }) {
            return ((node, step), buffer);
        }
    }
    let step = visit(rt, fork, 7, &mut buffer);
    ((7, step), buffer)
}

// Over one neighbor.
fn via(number: u16) -> RouteTo {
    RouteTo::Via(Members::one(number))
}

// The whole graph that a run starts from, with these routes.
fn fork(rt: &impl Abort, alloc: Global, graph: &Graph, routes: &[(Prefix, RouteTo)]) -> Fork {
    let mut fib = Fib::new(alloc).expect(rt, "memory");
    for (prefix, to) in routes {
        fib.set(*prefix, *to).expect(rt, "a route");
    }
    let fib6 = Fib6::new(alloc).expect(rt, "memory");
    Fork::of(alloc, graph, &fib, &fib6, 0).expect(rt, "memory")
}

fn set_adjacency(rt: &impl Abort, graph: &mut Graph, text: &str, interface: &str, mac: Mac) {
    graph
        .apply(&Edit::Adjacency {
            name: name(rt, text),
            interface: name(rt, interface),
            mac,
        })
        .expect(rt, "no refusal");
}

#[test]
fn a_packet_leaves_over_the_longest_match(rt: HostRuntime) {
    let alloc = rt.alloc();
    let mut graph = Graph::start(alloc).expect(&rt, "memory");
    for (text, last) in [("a0", 0x00), ("a8", 0x08), ("a16", 0x16)] {
        set_adjacency(&rt, &mut graph, text, "pg0", host(last));
    }
    let fork = fork(
        &rt,
        alloc,
        &graph,
        &[
            (EVERYWHERE, via(0)),
            (
                Prefix {
                    addr: 0x0a00_0000,
                    len: 8,
                },
                via(1),
            ),
            (TEN_ONE, via(2)),
        ],
    );
    let came = header(20, 64, 0xacd4, [10, 1, 2, 3]);
    let frame_in = frame(&rt, alloc, PG0, host(1), &came, 34);
    let (end, buffer) = end(&rt, alloc, &fork, frame_in.as_slice());
    same(&rt, end, SENT);
    let sent = header(20, 63, 0xadd4, [10, 1, 2, 3]);
    let frame_out = frame(&rt, alloc, host(0x16), PG0, &sent, 34);
    same(&rt, buffer.head(), frame_out.as_slice());
    same(&rt, buffer.adjacency(), Some(2));
    same(&rt, buffer.interface(), Some(0));
    same(&rt, buffer.legs(), [LEG].as_slice());
}

// The graph of two neighbors, whose addresses end in 0x10 and 0x11.
fn two_neighbors(rt: &impl Abort, alloc: Global) -> Graph {
    let mut graph = Graph::start(alloc).expect(rt, "memory");
    for (text, last) in [("e0", 0x10), ("e1", 0x11)] {
        set_adjacency(rt, &mut graph, text, "pg0", host(last));
    }
    graph
}

#[test]
fn a_hash_picks_one_of_the_neighbors_of_a_route(rt: HostRuntime) {
    let alloc = rt.alloc();
    let graph = two_neighbors(&rt, alloc);
    let mut tenth = [0; 16];
    tenth[9] = 1;
    // To 10.1.2.3 the hash is 0xcacbcbc9, whose eighth is 425294201, and to 10.1.2.11 the eighth is one less: their remainders
    // are 1 and 0 of two, 2 and 1 of three, 9 and 8 of sixteen.
    for (members, third, eleventh) in [
        ([0, 1].as_slice(), 0x11, 0x10),
        ([1, 0].as_slice(), 0x10, 0x11),
        ([1, 1, 0].as_slice(), 0x10, 0x11),
        ([0, 0, 1].as_slice(), 0x11, 0x10),
        (tenth.as_slice(), 0x11, 0x10),
        ([0].as_slice(), 0x10, 0x10),
        ([1].as_slice(), 0x11, 0x11),
    ] {
        let members = Members::of(members).expect(&rt, "1 to 16");
        let fork = fork(&rt, alloc, &graph, &[(TEN_ONE, RouteTo::Via(members))]);
        for (last, checksum, lowered, neighbor) in [
            (3, 0xacd4, 0xadd4, third),
            (11, 0xaccc, 0xadcc, eleventh),
        ] {
            let came = header(20, 64, checksum, [10, 1, 2, last]);
            let frame_in = frame(&rt, alloc, PG0, host(1), &came, 34);
            let (end, buffer) = end(&rt, alloc, &fork, frame_in.as_slice());
            same(&rt, end, SENT);
            let sent = header(20, 63, lowered, [10, 1, 2, last]);
            let frame_out = frame(&rt, alloc, host(neighbor), PG0, &sent, 34);
            same(
                &rt,
                (members, buffer.head()),
                (members, frame_out.as_slice()),
            );
        }
    }
}

#[test]
fn kinds_of_other_sets_drop_what_comes(rt: HostRuntime) {
    let alloc = rt.alloc();
    let id = VlanId { number: 100 };
    let came = header(20, 64, 0xacd4, [10, 1, 2, 3]);
    let frame_in = frame(&rt, alloc, PG0, host(1), &came, 34);
    for kind in [
        Kind::EthernetDual,
        Kind::Ip6Input,
        Kind::Ip6Lookup,
        Kind::Ip6Rewrite,
        Kind::Dot1qMatch(id),
        Kind::Dot1qPush(id),
        Kind::Dot1qRewrite(id),
        Kind::CrossConnect(0),
    ] {
        let mut graph = Graph::start(alloc).expect(&rt, "memory");
        graph
            .apply(&Edit::Node {
                name: name(&rt, "other"),
                kind,
            })
            .expect(&rt, "no refusal");
        let fork = fork(&rt, alloc, &graph, &[]);
        let mut buffer = received(&rt, alloc, 7, frame_in.as_slice());
        let step = visit(&rt, &fork, 9, &mut buffer);
        same(
            &rt,
            (kind, (9, step)),
            (kind, dropped(9, DropError::Blackhole)),
        );
        same(&rt, (kind, buffer.head()), (kind, frame_in.as_slice()));
        same(&rt, (buffer.adjacency(), buffer.interface()), (None, None));
    }
}

// The fork by which all packets go to one neighbor.
fn east(rt: &impl Abort, alloc: Global) -> Fork {
    let mut graph = Graph::start(alloc).expect(rt, "memory");
    set_adjacency(rt, &mut graph, "east", "pg0", host(9));
    fork(rt, alloc, &graph, &[(EVERYWHERE, via(0))])
}

#[test]
fn a_time_to_live_of_2_leaves_as_1(rt: HostRuntime) {
    let alloc = rt.alloc();
    let fork = east(&rt, alloc);
    for (ttl, checksum, expected) in [
        (1, 0xebd4, dropped(5, DropError::TtlExpired)),
        (0, 0xecd4, dropped(3, DropError::TtlZero)),
    ] {
        let came = header(20, ttl, checksum, [10, 1, 2, 3]);
        let frame_in = frame(&rt, alloc, PG0, host(1), &came, 34);
        let (end, _) = end(&rt, alloc, &fork, frame_in.as_slice());
        same(&rt, end, expected);
    }
    let came = header(20, 2, 0xead4, [10, 1, 2, 3]);
    let sent = header(20, 1, 0xebd4, [10, 1, 2, 3]);
    assert_sent(&rt, alloc, &fork, &came, &sent, 34)
}

// A frame of so many bytes with the first header leaves with the second.
fn assert_sent(rt: &impl Abort, alloc: Global, fork: &Fork, came: &[u8], sent: &[u8], len: usize) {
    let frame_in = frame(rt, alloc, PG0, host(1), came, len);
    let (end, buffer) = end(rt, alloc, fork, frame_in.as_slice());
    same(rt, end, SENT);
    let frame_out = frame(rt, alloc, host(9), PG0, sent, len);
    same(rt, buffer.head(), frame_out.as_slice());
}

#[test]
fn checksums_padding_and_options_are_kept_right(rt: HostRuntime) {
    let alloc = rt.alloc();
    let fork = east(&rt, alloc);
    let mut full = header(20, 64, 0xffff, [10, 1, 2, 3]);
    full[4] = 0xac;
    full[5] = 0xd4;
    let mut full_sent = full;
    full_sent[8] = 63;
    full_sent[10] = 0x01;
    full_sent[11] = 0x00;
    assert_sent(&rt, alloc, &fork, &full, &full_sent, 34);
    let padded = header(40, 64, 0xacc0, [10, 1, 2, 3]);
    let padded_sent = header(40, 63, 0xadc0, [10, 1, 2, 3]);
    assert_sent(&rt, alloc, &fork, &padded, &padded_sent, 60);
    let with_options = [
        0x46, 0, 0, 24, 0, 0, 0, 0, 64, 17, 0xa9, 0xcf, 192, 0, 2, 1, 10, 1, 2, 3, 1, 1, 1, 0,
    ];
    let mut options_sent = with_options;
    options_sent[8] = 63;
    options_sent[10] = 0xaa;
    assert_sent(&rt, alloc, &fork, &with_options, &options_sent, 38);

    // A datagram that is longer than its frame.
    let long = header(21, 64, 0xacd3, [10, 1, 2, 3]);
    let frame_in = frame(&rt, alloc, PG0, host(1), &long, 34);
    let (end, _) = end(&rt, alloc, &fork, frame_in.as_slice());
    same(&rt, end, dropped(3, DropError::BadLength));
}

#[test]
fn interfaces_filter_and_go_down(rt: HostRuntime) {
    let alloc = rt.alloc();
    let mut graph = Graph::start(alloc).expect(&rt, "memory");
    for (text, last, up) in [("pg0", 0, true), ("lan", 1, false)] {
        graph
            .apply(&Edit::Interface {
                name: name(&rt, text),
                mac: Mac([0x02, 0xfe, 0, 0, 0, last]),
                mtu: 100,
                up,
                filter: up,
            })
            .expect(&rt, "no refusal");
    }
    set_adjacency(&rt, &mut graph, "p", "pg0", host(5));
    set_adjacency(&rt, &mut graph, "l", "lan", host(6));
    let fork = fork(
        &rt,
        alloc,
        &graph,
        &[
            (TEN_ONE, via(0)),
            (
                Prefix {
                    addr: 0x0a02_0000,
                    len: 16,
                },
                via(1),
            ),
        ],
    );
    for (to, header, len, expected) in [
        (
            host(0x77),
            header(20, 64, 0xacd4, [10, 1, 2, 3]),
            34,
            dropped(2, DropError::WrongMac),
        ),
        (
            Mac([0xff; 6]),
            header(100, 64, 0xac84, [10, 1, 2, 3]),
            114,
            SENT,
        ),
        (
            PG0,
            header(101, 64, 0xac83, [10, 1, 2, 3]),
            115,
            dropped(5, DropError::MtuExceeded),
        ),
        (
            PG0,
            header(20, 64, 0xaed5, [10, 2, 0, 1]),
            34,
            dropped(6, DropError::InterfaceDown),
        ),
        (
            PG0,
            header(20, 64, 0x0cc7, [172, 16, 0, 1]),
            34,
            dropped(4, DropError::NoRoute),
        ),
    ] {
        let frame_in = frame(&rt, alloc, to, host(1), &header, len);
        let (end, _) = end(&rt, alloc, &fork, frame_in.as_slice());
        same(&rt, end, expected);
    }
}

// Places a packet of this frame.
fn place(rt: &impl Abort, alloc: Global, memory: &mut BufferMemory, frame: &[u8]) -> u32
    requires { count memory.old < 3 }
    ensures placed { IsLive memory.new result }
    ensures kept { (other : ℕ) → IsLive memory.old other → IsLive memory.new other }
    ensures one { count memory.new ≡ count memory.old + 1 }
{
    memory.place(received(rt, alloc, 0, frame))
}

// The three packets of these frames, dispatched at a node: their indexes, and the lists.
fn dispatched(
    rt: &impl Abort,
    alloc: Global,
    fork: &Fork,
    node: u16,
    frames: [&[u8]; 3],
) -> ([u32; 3], Sorted) {
    holds(rt, node < fork.nodes());
    holds(rt, is_target(fork.kind(node)));
    let mut memory = BufferMemory::new(alloc).expect(rt, "memory");
    let [first, second, third] = frames;
    let first = place(rt, alloc, &mut memory, first);
    let second = place(rt, alloc, &mut memory, second);
    let third = place(rt, alloc, &mut memory, third);
    differ(rt, first, second);
    differ(rt, first, third);
    differ(rt, second, third);
    let mut frame = Frame::new();
    frame.push(first);
    frame.push(second);
    frame.push(third);
    let mut out = Sorted::new(alloc).expect(rt, "memory");
    dispatch_frame(&Ip4Kinds, fork, node, frame, &mut memory, &mut out);
    ([first, second, third], out)
}

// The graph that a run starts from, with a node that hands packets over by their flow.
fn with_handoff(rt: &impl Abort, alloc: Global) -> Fork {
    let mut graph = Graph::start(alloc).expect(rt, "memory");
    graph
        .apply(&Edit::Node {
            name: name(rt, "h"),
            kind: Kind::WorkerHandoff(HashKind::Flow),
        })
        .expect(rt, "no refusal");
    fork(rt, alloc, &graph, &[])
}

// The frame of a datagram.
fn whole(rt: &impl Abort, alloc: Global) -> Vec<u8> {
    frame(
        rt,
        alloc,
        PG0,
        host(1),
        &header(20, 64, 0xacd4, [10, 1, 2, 3]),
        34,
    )
}

// A frame that is shorter than its header.
const SHORT: &[u8] = &[0x02, 0xfe, 0, 0, 0, 0];

#[test]
fn packets_go_on_or_are_dropped_in_the_order_of_their_frame(rt: HostRuntime) {
    let alloc = rt.alloc();
    let fork = with_handoff(&rt, alloc);
    let whole = whole(&rt, alloc);
    let whole = whole.as_slice();
    let ([first, second, third], out) = dispatched(&rt, alloc, &fork, 2, [whole, SHORT, whole]);
    let mut runs = out.next.runs();
    let (slot, run) = runs.next().expect(&rt, "a run");
    same(&rt, slot, 0);
    same(&rt, run, [first, third].as_slice());
    holds(&rt, runs.next().is_none());
    same(
        &rt,
        out.drops.as_slice(),
        [(second, DropError::Short)].as_slice(),
    );
    holds(&rt, out.tx.is_empty() && out.hands.is_empty());
}

#[test]
fn packets_are_sent_in_the_order_of_their_frame(rt: HostRuntime) {
    let alloc = rt.alloc();
    let fork = with_handoff(&rt, alloc);
    let frames = [SHORT, SHORT, SHORT];
    let ([first, second, third], out) = dispatched(&rt, alloc, &fork, 7, frames);
    same(
        &rt,
        out.tx.as_slice(),
        [(first, 0), (second, 0), (third, 0)].as_slice(),
    );
}

#[test]
fn packets_are_handed_over_by_their_hashes(rt: HostRuntime) {
    let alloc = rt.alloc();
    let fork = with_handoff(&rt, alloc);
    let whole = whole(&rt, alloc);
    let frames = [SHORT, whole.as_slice(), SHORT];
    let ([first, second, third], out) = dispatched(&rt, alloc, &fork, 9, frames);
    same(
        &rt,
        out.hands.as_slice(),
        [(first, 0), (second, 0xcacb_cbc9), (third, 0)].as_slice(),
    );
    has_length(&rt, out.hands.len(), 3);
}

#[test]
fn lists_are_emptied_and_filled_again(rt: HostRuntime) {
    let mut out = Sorted::new(rt.alloc()).expect(&rt, "memory");
    out.put(5, Step::Hand { hash: 6 });
    same(&rt, out.hands.as_slice(), [(5, 6)].as_slice());
    out.clear();
    holds(&rt, out.hands.is_empty());
    out.hands.push(7, 8);
    same(&rt, out.hands.as_slice(), [(7, 8)].as_slice());
    out.hands.clear();
    holds(&rt, out.hands.is_empty());
}
