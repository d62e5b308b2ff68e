//! Packets that are taken through the nodes of a small graph, shown as pieces and as text.
ghost use Rattle.vg_model.specs.Route.{ip4, ip6};
ghost use Rattle.vg_story.specs.Matches.{HasOneLineEach};

use crate::checks::{holds, same};
use std::alloc::Global;
use std::process::Abort;
use std::str;
use vg_dot1q::Dot1qKinds;
use vg_fib::{Fib, Fib6};
use vg_fork::Fork;
use vg_graph::Graph;
use vg_ip6::Ip6Kinds;
use vg_model::{
    DropError, Edit, HashKind, Kind, Mac, Members, Name, Prefix, Prefix6, RouteTo, VlanId,
};
use vg_nodes::Ip4Kinds;
use vg_story::{
    Chain, Fact, Field, Piece, RouteIndex, RouteIndex6, Stage, Value, Word, laws, matched4,
    matched6, put, put_decimal, put_interface, put_node, put_pieces, put_value, put_visits,
};

// All kinds of nodes.
const KINDS: Dot1qKinds<Ip6Kinds<Ip4Kinds>> = Dot1qKinds(Ip6Kinds(Ip4Kinds));

const EVERYWHERE: Prefix = Prefix { addr: 0, len: 0 };

// 10.0.0.0/8.
const TEN: Prefix = Prefix {
    addr: 0x0a00_0000,
    len: 8,
};

// 10.1.0.0/16.
const TEN_ONE: Prefix = Prefix {
    addr: 0x0a01_0000,
    len: 16,
};

const EVERYWHERE6: Prefix6 = Prefix6 { addr: 0, len: 0 };

// 2001:db8::/32.
const SITE: Prefix6 = Prefix6 {
    addr: 0x2001_0db8_0000_0000_0000_0000_0000_0000,
    len: 32,
};

// 2001:db8::a.
const HOST: u128 = 0x2001_0db8_0000_0000_0000_0000_0000_000a;

/// A frame with a datagram from 192.0.2.1 to 10.1.2.3, whose time to live is 64.
const FRAME: [u8; 34] = [
    0x02, 0xfe, 0, 0, 0, 0, 0x02, 0, 0, 0, 0, 1, 0x08, 0x00, // frame
    0x45, 0, 0, 20, 0, 0, 0, 0, 64, 17, 0xac, 0xd4, 192, 0, 2, 1, 10, 1, 2, 3, // IPv4
];

/// A frame with a datagram from 2001:db8::1 to 2001:db8::a, whose hop limit is 64.
const FRAME6: [u8; 62] = [
    0x02, 0xfe, 0, 0, 0, 0, 0x02, 0, 0, 0, 0, 1, 0x86, 0xdd, // frame
    0x60, 0, 0, 0, 0, 8, 17, 64, // IPv6
    0x20, 0x01, 0x0d, 0xb8, 0, 0, 0, 0, 0, 0, 0, 0, 0, 0, 0, 1, // from
    0x20, 0x01, 0x0d, 0xb8, 0, 0, 0, 0, 0, 0, 0, 0, 0, 0, 0, 10, // to
    0, 1, 0, 2, 0, 8, 0, 0, // UDP
];

fn name(rt: &impl Abort, text: &str) -> Name {
    Name::of(text.as_bytes()).expect(rt, "a name")
}

// Adds a neighbor on the first interface, by the last byte of its address.
fn add_neighbor(rt: &impl Abort, graph: &mut Graph, text: &str, last: u8) {
    graph
        .apply(&Edit::Adjacency {
            name: name(rt, text),
            interface: name(rt, "pg0"),
            mac: Mac([0x02, 0, 0, 0, 0, last]),
        })
        .expect(rt, "an interface");
}

// Adds a node.
fn add_node(rt: &impl Abort, graph: &mut Graph, text: &str, kind: Kind) {
    graph
        .apply(&Edit::Node {
            name: name(rt, text),
            kind,
        })
        .expect(rt, "a new name");
}

// The graph that scripts begin with, whose interface filters and takes 1,500 bytes, with two neighbors, and from 9 on nodes of the other kinds.
fn graph_of(rt: &impl Abort, alloc: Global) -> Graph {
    let mut graph = Graph::start(alloc).expect(rt, "memory");
    graph
        .apply(&Edit::Interface {
            name: name(rt, "pg0"),
            mac: Mac([0x02, 0xfe, 0, 0, 0, 0]),
            mtu: 1500,
            up: true,
            filter: true,
        })
        .expect(rt, "an interface");
    add_neighbor(rt, &mut graph, "e0", 0x10);
    add_neighbor(rt, &mut graph, "e1", 0x11);
    let seven = VlanId { number: 7 };
    let nine = VlanId { number: 9 };
    add_node(rt, &mut graph, "dual", Kind::EthernetDual);
    add_node(rt, &mut graph, "six", Kind::Ip6Input);
    add_node(rt, &mut graph, "find", Kind::Ip6Lookup);
    add_node(rt, &mut graph, "write", Kind::Ip6Rewrite);
    add_node(rt, &mut graph, "hand", Kind::WorkerHandoff(HashKind::Src));
    add_node(rt, &mut graph, "tag", Kind::Dot1qPush(seven));
    add_node(rt, &mut graph, "turn", Kind::Dot1qRewrite(nine));
    add_node(rt, &mut graph, "cut", Kind::Dot1qMatch(nine));
    add_node(rt, &mut graph, "cross", Kind::CrossConnect(0));
    add_node(rt, &mut graph, "far", Kind::CrossConnect(5));
    graph
}

// Over both neighbors.
fn via_both(rt: &impl Abort) -> RouteTo {
    RouteTo::Via(Members::of(&[0, 1]).expect(rt, "two"))
}

// The fork of a graph, in which routes to 10.1.0.0/16 and to 2001:db8::/32 lead over both neighbors, and all other IPv6 packets are dropped.
fn fork_of(rt: &impl Abort, alloc: Global, graph: &Graph) -> Fork {
    let mut fib = Fib::new(alloc).expect(rt, "memory");
    fib.set(TEN_ONE, via_both(rt)).expect(rt, "a route");
    let mut fib6 = Fib6::new(alloc).expect(rt, "memory");
    fib6.set(EVERYWHERE6, RouteTo::Drop).expect(rt, "a route");
    fib6.set(SITE, via_both(rt)).expect(rt, "a route");
    Fork::of(alloc, graph, &fib, &fib6, 0).expect(rt, "memory")
}

// These routes, to be searched.
fn index_of(rt: &impl Abort, alloc: Global, routes: &[(Prefix, u32)]) -> RouteIndex
    requires { HasOneLineEach ip4 routes.now }
{
    let routes = Vec::from_slice(alloc, routes).expect(rt, "memory");
    RouteIndex::of(alloc, routes).expect(rt, "memory")
}

// The same for IPv6.
fn index6_of(rt: &impl Abort, alloc: Global, routes: &[(Prefix6, u32)]) -> RouteIndex6
    requires { HasOneLineEach ip6 routes.now }
{
    let routes = Vec::from_slice(alloc, routes).expect(rt, "memory");
    RouteIndex6::of(alloc, routes).expect(rt, "memory")
}

// Its generation: the routes were set in the lines 7, 8 and 9.
fn stage_of(rt: &impl Abort, alloc: Global, graph: &Graph) -> Stage {
    Stage {
        fork: fork_of(rt, alloc, graph),
        routes: index_of(rt, alloc, &[(TEN_ONE, 7)]),
        routes6: index6_of(rt, alloc, &[(EVERYWHERE6, 8), (SITE, 9)]),
    }
}

// What is shown of a frame at these nodes, of three workers.
fn shown(rt: &impl Abort, alloc: Global, graph: &Graph, frame: &[u8], nodes: &[u16]) -> Vec<Piece> {
    holds(rt, frame.len() <= 9216);
    let stage = stage_of(rt, alloc, graph);
    let mut chain = Chain::new(alloc).expect(rt, "memory");
    chain.fill(0, frame);
    let mut pieces = Vec::new(alloc);
    put_visits(&mut pieces, &KINDS, &stage, 3, nodes, &mut chain).expect(rt, "memory");
    pieces
}

// These pieces are shown of a frame at these nodes.
fn shows(rt: &impl Abort, alloc: Global, frame: &[u8], nodes: &[u16], wanted: &[Piece]) {
    let graph = graph_of(rt, alloc);
    let pieces = shown(rt, alloc, &graph, frame, nodes);
    same(rt, pieces.as_slice(), wanted);
}

// A frame of so many bytes: cut off, or filled up with zeros, and with other bytes at some places.
fn changed(
    rt: &impl Abort,
    alloc: Global,
    frame: &[u8],
    len: usize,
    changes: &[(usize, u8)],
) -> Vec<u8> {
    let mut bytes = Vec::from_slice(alloc, frame).expect(rt, "memory");
    bytes.resize(len, 0).expect(rt, "memory");
    for (place, byte) in changes {
        if *place < bytes.len() {
            bytes[*place] = *byte;
        }
    }
    bytes
}

// This text is shown of a frame that is changed so, at these nodes.
fn says(
    rt: &impl Abort,
    alloc: Global,
    frame: &[u8],
    len: usize,
    changes: &[(usize, u8)],
    nodes: &[u16],
    wanted: &str,
) {
    let graph = graph_of(rt, alloc);
    let frame = changed(rt, alloc, frame, len, changes);
    let pieces = shown(rt, alloc, &graph, frame.as_slice(), nodes);
    let mut out = Vec::new(alloc);
    put_pieces(&mut out, &graph, pieces.as_slice()).expect(rt, "memory");
    same(
        rt,
        str::from_utf8(out.as_slice()).expect(rt, "text"),
        wanted,
    );
}

// This is the text of a value.
fn is_written(rt: &impl Abort, alloc: Global, graph: &Graph, value: Value, wanted: &str) {
    let mut out = Vec::new(alloc);
    put_value(&mut out, graph, value).expect(rt, "memory");
    same(
        rt,
        str::from_utf8(out.as_slice()).expect(rt, "text"),
        wanted,
    );
}

// A fact, as a piece.
fn because(word: Word, value: Value) -> Piece {
    Piece::Because(Fact { word, value })
}

#[test]
fn the_longest_prefix_matches_with_its_line(rt: HostRuntime) {
    let alloc = rt.alloc();
    let routes = index_of(&rt, alloc, &[(EVERYWHERE, 5), (TEN_ONE, 7), (TEN, 6)]);
    same(&rt, matched4(&routes, 0x0a01_0203), Some((TEN_ONE, 7)));
    same(&rt, matched4(&routes, 0x0a02_0203), Some((TEN, 6)));
    same(&rt, matched4(&routes, 0xc000_0201), Some((EVERYWHERE, 5)));
    same(
        &rt,
        routes.as_slice().first().copied(),
        Some((EVERYWHERE, 5)),
    );
    let inner = index_of(&rt, alloc, &[(TEN_ONE, 7), (TEN, 6)]);
    same(&rt, matched4(&inner, 0xc000_0201), None);
    let routes6 = index6_of(&rt, alloc, &[(SITE, 3), (EVERYWHERE6, 2)]);
    same(&rt, matched6(&routes6, HOST), Some((SITE, 3)));
    same(&rt, matched6(&routes6, 1), Some((EVERYWHERE6, 2)));
    same(&rt, routes6.as_slice().first().copied(), Some((SITE, 3)));
    let inner6 = index6_of(&rt, alloc, &[(SITE, 3)]);
    same(&rt, matched6(&inner6, 1), None);
}

#[test]
fn a_rewrite_names_the_neighbor_and_the_fields(rt: HostRuntime) {
    let wanted = [
        Piece::Visit { node: 2 },
        because(Word::Type, Value::Hex(0x0800)),
        Piece::Visit { node: 3 },
        Piece::Visit { node: 4 },
        because(Word::To, Value::Address(0x0a01_0203)),
        because(Word::Route, Value::Prefix(TEN_ONE)),
        because(Word::Line, Value::Number(7)),
        because(Word::Via, Value::Neighbor(1)),
        because(Word::Hash, Value::Number(0xcacb_cbc9)),
        because(Word::Place, Value::Number(1)),
        because(Word::Of, Value::Number(2)),
        Piece::Visit { node: 5 },
        because(Word::Via, Value::Neighbor(1)),
        because(Word::On, Value::Interface(0)),
        because(Word::Mtu, Value::Number(1500)),
        Piece::Change {
            field: Field::Destination,
            before: 0x02fe_0000_0000,
            after: 0x0200_0000_0011,
        },
        Piece::Change {
            field: Field::Source,
            before: 0x0200_0000_0001,
            after: 0x02fe_0000_0000,
        },
        Piece::Change {
            field: Field::Ttl,
            before: 64,
            after: 63,
        },
        Piece::Change {
            field: Field::Checksum,
            before: 0xacd4,
            after: 0xadd4,
        },
    ];
    shows(&rt, rt.alloc(), &FRAME, &[2, 3, 4, 5], &wanted);
    laws::shown_hashes_are_the_packets();
    laws::shown_places_are_the_neighbors();
    laws::unshown_fields_stay();
}

// Packets come into node 0 by no arc, and the graph has no node 40: both leave the packet as it is.
#[test]
fn a_failed_check_says_the_value_found(rt: HostRuntime) {
    let alloc = rt.alloc();
    let damaged = changed(&rt, alloc, &FRAME, 34, &[(24, 0x12), (25, 0x34)]);
    let wanted = [
        Piece::Visit { node: 0 },
        Piece::Visit { node: 40 },
        Piece::Visit { node: 2 },
        because(Word::Type, Value::Hex(0x0800)),
        Piece::Visit { node: 3 },
        because(Word::Checksum, Value::Hex(0x1234)),
        because(Word::Drop, Value::Error(DropError::BadChecksum)),
    ];
    shows(&rt, alloc, damaged.as_slice(), &[0, 40, 2, 3], &wanted);
}

#[test]
fn each_check_of_an_ethernet_header_says_what_it_found(rt: HostRuntime) {
    let alloc = rt.alloc();
    let text = "\n    visit ethernet-input ethernet-input bytes 13 drop short";
    says(&rt, alloc, &FRAME, 13, &[], &[2], text);
    let text =
        "\n    visit ethernet-input ethernet-input frame-to 02:ff:00:00:00:00 drop wrong-mac";
    says(&rt, alloc, &FRAME, 34, &[(1, 0xff)], &[2], text);
    let text = "\n    visit dual ethernet-dual type 0x0806 drop unknown-type";
    says(&rt, alloc, &FRAME, 34, &[(13, 0x06)], &[9], text);
}

#[test]
fn each_check_of_an_ip4_header_says_what_it_found(rt: HostRuntime) {
    let alloc = rt.alloc();
    let text = "\n    visit ip4-input ip4-input bytes 19 drop short";
    says(&rt, alloc, &FRAME, 33, &[], &[3], text);
    let text = "\n    visit ip4-input ip4-input version 5 drop bad-version";
    says(&rt, alloc, &FRAME, 34, &[(14, 0x55)], &[3], text);
    let text = "\n    visit ip4-input ip4-input header 24 bytes 20 drop bad-header-length";
    says(&rt, alloc, &FRAME, 34, &[(14, 0x46)], &[3], text);
    let text = "\n    visit ip4-input ip4-input length 19 header 20 bytes 20 drop bad-length";
    says(&rt, alloc, &FRAME, 34, &[(17, 19)], &[3], text);
    let text = "\n    visit ip4-input ip4-input ttl 0 drop ttl-zero";
    says(&rt, alloc, &FRAME, 34, &[(22, 0), (24, 0xec)], &[3], text);
}

#[test]
fn look_ups_and_rewrites_say_why_they_drop(rt: HostRuntime) {
    let alloc = rt.alloc();
    let text = "\n    visit ip4-lookup ip4-lookup drop unchecked";
    says(&rt, alloc, &FRAME, 34, &[], &[4], text);
    let text =
        "\n    visit ip4-input ip4-input\n    visit ip4-lookup ip4-lookup to 11.1.2.3 drop no-route";
    says(
        &rt,
        alloc,
        &FRAME,
        34,
        &[(24, 0xab), (30, 11)],
        &[3, 4],
        text,
    );
    let text = "
    visit ip4-input ip4-input
    visit ip4-lookup ip4-lookup to 10.1.2.3 route 10.1.0.0/16 line 7 via e1 hash 3402353609 place 1 of 2
    visit ip4-rewrite ip4-rewrite via e1 on pg0 mtu 1500 ttl 1 drop ttl-expired";
    says(
        &rt,
        alloc,
        &FRAME,
        34,
        &[(22, 1), (24, 0xeb)],
        &[3, 4, 5],
        text,
    );
    let text = "
    visit ip4-input ip4-input
    visit ip4-lookup ip4-lookup to 10.1.2.3 route 10.1.0.0/16 line 7 via e1 hash 3402353609 place 1 of 2
    visit ip4-rewrite ip4-rewrite via e1 on pg0 mtu 1500 length 1501 drop mtu-exceeded";
    let long = [(16, 5), (17, 0xdd), (24, 0xa7), (25, 0x0b)];
    says(&rt, alloc, &FRAME, 1515, &long, &[3, 4, 5], text);
}

#[test]
fn ip6_is_shown_as_ip4_is(rt: HostRuntime) {
    let alloc = rt.alloc();
    let text = "
    visit dual ethernet-dual type 0x86dd
    visit six ip6-input
    visit find ip6-lookup to 2001:db8:0:0:0:0:0:a route 2001:db8:0:0:0:0:0:0/32 line 9 via e1 hash 11 place 1 of 2
    visit write ip6-rewrite via e1 on pg0 mtu 1500
      change dst 02:fe:00:00:00:00 02:00:00:00:00:11
      change src 02:00:00:00:00:01 02:fe:00:00:00:00
      change hop-limit 64 63";
    says(&rt, alloc, &FRAME6, 62, &[], &[9, 10, 11, 12], text);
    let text = "\n    visit six ip6-input bytes 39 drop short";
    says(&rt, alloc, &FRAME6, 53, &[], &[10], text);
    let text = "\n    visit six ip6-input version 5 drop bad-version";
    says(&rt, alloc, &FRAME6, 62, &[(14, 0x50)], &[10], text);
    let text = "\n    visit six ip6-input length 9 bytes 48 drop bad-length";
    says(&rt, alloc, &FRAME6, 62, &[(19, 9)], &[10], text);
    let text = "\n    visit six ip6-input ttl 0 drop ttl-zero";
    says(&rt, alloc, &FRAME6, 62, &[(21, 0)], &[10], text);
    let text = "
    visit find ip6-lookup to 2101:db8:0:0:0:0:0:a route 0:0:0:0:0:0:0:0/0 line 8 drop route-drop";
    says(&rt, alloc, &FRAME6, 62, &[(38, 0x21)], &[11], text);
    let text = "
    visit find ip6-lookup to 2001:db8:0:0:0:0:0:2 route 2001:db8:0:0:0:0:0:0/32 line 9 via e0 hash 3 place 0 of 2
    visit write ip6-rewrite via e0 on pg0 mtu 1500 ttl 1 drop ttl-expired";
    says(
        &rt,
        alloc,
        &FRAME6,
        62,
        &[(21, 1), (53, 2)],
        &[11, 12],
        text,
    );
    let text = "
    visit find ip6-lookup to 2001:db8:0:0:0:0:0:2 route 2001:db8:0:0:0:0:0:0/32 line 9 via e0 hash 3 place 0 of 2
    visit write ip6-rewrite via e0 on pg0 mtu 1500 length 1501 drop mtu-exceeded";
    let long = [(18, 5), (19, 0xb5), (53, 2)];
    says(&rt, alloc, &FRAME6, 1515, &long, &[11, 12], text);
}

#[test]
fn handoffs_tags_and_interfaces_are_shown(rt: HostRuntime) {
    let alloc = rt.alloc();
    let text = "\n    visit hand handoff-src hash 3233858243 worker 2";
    says(&rt, alloc, &FRAME, 34, &[], &[13], text);
    let text = "
    visit tag dot1q-push-7
      change length 34 38
      change vlan 0 7
    visit cut dot1q-match-9 vlan 7
    visit turn dot1q-rewrite-9 vlan 7
      change vlan 7 9
    visit cut dot1q-match-9 vlan 9
      change length 38 34
      change vlan 9 0
    visit turn dot1q-rewrite-9 drop unknown-type";
    says(&rt, alloc, &FRAME, 34, &[], &[14, 16, 15, 16, 15], text);
    let text = "
    visit cross xconnect-0 on pg0
    visit interface-output interface-output on pg0
    visit interface-tx interface-tx on pg0
    visit error-drop error-drop drop blackhole";
    says(&rt, alloc, &FRAME, 34, &[], &[17, 6, 7, 8], text);
    let text = "\n    visit far xconnect-5 drop interface-down";
    says(&rt, alloc, &FRAME, 34, &[], &[18], text);
    laws::shown_values_have_texts();
}

// A tag is whole with the type behind it, 18 bytes, and its id may be 0. A second tag of the same id changes the length alone.
#[test]
fn tags_are_shown_where_nodes_take_them_for_tags(rt: HostRuntime) {
    let alloc = rt.alloc();
    let text = "\n    visit tag dot1q-push-7 bytes 13 drop short";
    says(&rt, alloc, &FRAME, 13, &[], &[14], text);
    let tagged = [(12, 0x81), (13, 0), (14, 0), (15, 0)];
    let text = "
    visit cut dot1q-match-9 vlan 0
    visit turn dot1q-rewrite-9 vlan 0
      change vlan 0 9";
    says(&rt, alloc, &FRAME, 18, &tagged, &[16, 15], text);
    let text = "
    visit cut dot1q-match-9
    visit turn dot1q-rewrite-9 drop unknown-type";
    says(&rt, alloc, &FRAME, 17, &tagged, &[16, 15], text);
    let text = "
    visit tag dot1q-push-7
      change length 34 38
      change vlan 0 7
    visit tag dot1q-push-7 vlan 7
      change length 38 42";
    says(&rt, alloc, &FRAME, 34, &[], &[14, 14], text);
    laws::shown_tags_are_the_packets();
}

#[test]
fn pieces_are_lines_with_the_names_of_the_graph(rt: HostRuntime) {
    let alloc = rt.alloc();
    let graph = graph_of(&rt, alloc);
    let pieces = [
        Piece::Leg {
            worker: 3,
            generation: 12,
        },
        Piece::Visit { node: 5 },
        because(Word::Via, Value::Neighbor(1)),
        because(Word::On, Value::Interface(0)),
        because(Word::Ttl, Value::Number(1)),
        because(Word::Drop, Value::Error(DropError::TtlExpired)),
        Piece::Change {
            field: Field::Destination,
            before: 0x02fe_0000_0000,
            after: 0x0200_0000_0011,
        },
        Piece::Change {
            field: Field::Checksum,
            before: 0xacd4,
            after: 0xadd4,
        },
        Piece::Change {
            field: Field::HopLimit,
            before: 64,
            after: 63,
        },
    ];
    let mut out = Vec::new(alloc);
    put_pieces(&mut out, &graph, &pieces).expect(&rt, "memory");
    let wanted = "
  leg worker 3 generation 12
    visit ip4-rewrite ip4-rewrite via e1 on pg0 ttl 1 drop ttl-expired
      change dst 02:fe:00:00:00:00 02:00:00:00:00:11
      change checksum 0xacd4 0xadd4
      change hop-limit 64 63";
    same(
        &rt,
        str::from_utf8(out.as_slice()).expect(&rt, "text"),
        wanted,
    );
}

#[test]
fn values_are_written_as_scripts_have_them(rt: HostRuntime) {
    let alloc = rt.alloc();
    let graph = graph_of(&rt, alloc);
    for (value, wanted) in [
        (Value::Number(65_535), "65535"),
        (Value::Hex(0x06dd), "0x06dd"),
        (Value::Address(0x0a01_0203), "10.1.2.3"),
        (Value::Address6(HOST), "2001:db8:0:0:0:0:0:a"),
        (Value::Prefix(TEN), "10.0.0.0/8"),
        (Value::Prefix6(SITE), "2001:db8:0:0:0:0:0:0/32"),
        (Value::Link(0x02fe_0000_000a), "02:fe:00:00:00:0a"),
        (Value::Neighbor(0), "e0"),
        (Value::Neighbor(2), ""),
        (Value::Interface(0), "pg0"),
        (Value::Error(DropError::NoRoute), "no-route"),
    ] {
        is_written(&rt, alloc, &graph, value, wanted);
    }
}

#[test]
fn names_numbers_and_words_are_appended(rt: HostRuntime) {
    let alloc = rt.alloc();
    let graph = graph_of(&rt, alloc);
    let mut out = Vec::new(alloc);
    put(&mut out, b"node ").expect(&rt, "memory");
    put_decimal(&mut out, 3).expect(&rt, "memory");
    put(&mut out, b" ").expect(&rt, "memory");
    put_node(&mut out, &graph, 3).expect(&rt, "memory");
    put(&mut out, b" ").expect(&rt, "memory");
    put_interface(&mut out, &graph, 0).expect(&rt, "memory");
    same(&rt, out.as_slice(), b"node 3 ip4-input pg0".as_slice());
    same(&rt, Word::Frame.text(), "frame-to");
    same(&rt, Field::Length.text(), "length");
    same(&rt, Field::HopLimit.text(), "hop-limit");
}
