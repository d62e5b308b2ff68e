//! Tests of the graph: where it starts, its edits, and their refusals.

use crate::checks::{holds, same};
use std::alloc::Global;
use std::process::Abort;
use vg_graph::*;
use vg_model::{Edit, Interface, Kind, Mac, Name, VlanId};

fn started(rt: &impl Abort, alloc: Global) -> Graph {
    Graph::start(alloc).expect(rt, "memory")
}

fn name(rt: &impl Abort, text: &str) -> Name {
    Name::of(text.as_bytes()).expect(rt, "a name")
}

/// The last digit of a number.
fn digit(i: u16) -> u8 {
    b'0' + (i % 10) as u8
}

/// The name `n` with three digits.
fn numbered(rt: &impl Abort, i: u16) -> Name {
    let bytes = [b'n', digit(i / 100), digit(i / 10), digit(i)];
    Name::of(&bytes).expect(rt, "a name")
}

fn add_pass(graph: &mut Graph, name: Name) -> Result<(), GraphError> {
    graph.apply(&Edit::Node {
        name,
        kind: Kind::Pass,
    })
}

fn add_node(rt: &impl Abort, graph: &mut Graph, text: &str, kind: Kind) {
    let name = name(rt, text);
    graph.apply(&Edit::Node { name, kind }).expect(rt, "a node");
}

fn set_interface(graph: &mut Graph, name: Name, mtu: u16) -> Result<(), GraphError> {
    graph.apply(&Edit::Interface {
        name,
        mac: Mac([2, 0, 0, 0, 0, 1]),
        mtu,
        up: true,
        filter: true,
    })
}

/// What a graph answers to the edit of an adjacency.
fn set_adjacency(
    rt: &impl Abort,
    graph: &mut Graph,
    i: u16,
    interface: &str,
    last: u8,
) -> Result<(), GraphError> {
    let edit = Edit::Adjacency {
        name: numbered(rt, i),
        interface: name(rt, interface),
        mac: Mac([2, 0, 0, 0, 0, last]),
    };
    graph.apply(&edit)
}

/// What a graph answers to the edit of an arc.
fn set_arc(
    rt: &impl Abort,
    graph: &mut Graph,
    from: &str,
    slot: &str,
    to: &str,
) -> Result<(), GraphError> {
    let edit = Edit::Arc {
        from: name(rt, from),
        slot: name(rt, slot),
        to: name(rt, to),
    };
    graph.apply(&edit)
}

/// The node that the first slot of a node leads to.
fn next_of(graph: &Graph, name: &Name) -> Option<u16> {
    let n = graph.node(name)?;
    if graph.kind(n).slots() == 0 {
        return None;
    }
    Some(graph.arc(n, 0))
}

fn is_node(graph: &Graph, n: u16, name: &Name, kind: Kind) -> bool {
    n < graph.nodes() && graph.node_name(n) == name && graph.kind(n) == kind
}

fn is_interface(graph: &Graph, n: u16, name: &Name, mac: Mac, mtu: u16, filter: bool) -> bool {
    if n >= graph.interfaces() {
        return false;
    }
    let interface: &Interface = graph.interface_at(n);
    interface.name == *name
        && interface.mac == mac
        && interface.mtu == mtu
        && interface.up
        && interface.filter == filter
}

fn is_adjacency(graph: &Graph, n: u16, name: &Name, interface: u16, last: u8) -> bool {
    if n >= graph.adjacencies() {
        return false;
    }
    let adjacency = graph.adjacency_at(n);
    adjacency.name == *name
        && adjacency.interface == interface
        && adjacency.mac == Mac([2, 0, 0, 0, 0, last])
}

#[test]
fn the_start_graph_is_a_row_of_nine_nodes(rt: HostRuntime) {
    let graph = started(&rt, rt.alloc());
    let rows = [
        (0, "pg-input", Kind::PgInput, Some(2)),
        (1, "handoff-dequeue", Kind::HandoffDequeue, None),
        (2, "ethernet-input", Kind::EthernetInput, Some(3)),
        (3, "ip4-input", Kind::Ip4Input, Some(4)),
        (4, "ip4-lookup", Kind::Ip4Lookup, Some(5)),
        (5, "ip4-rewrite", Kind::Ip4Rewrite, Some(6)),
        (6, "interface-output", Kind::InterfaceOutput, Some(7)),
        (7, "interface-tx", Kind::InterfaceTx, None),
        (8, "error-drop", Kind::ErrorDrop, None),
    ];
    for (n, text, kind, next) in rows {
        let name = name(&rt, text);
        same(&rt, (text, is_node(&graph, n, &name, kind)), (text, true));
        same(&rt, graph.node(&name), Some(n));
        same(&rt, (text, next_of(&graph, &name)), (text, next));
    }
    same(
        &rt,
        (graph.nodes(), graph.interfaces(), graph.adjacencies()),
        (9, 1, 0),
    );
    let mac = Mac([0x02, 0xfe, 0, 0, 0, 0]);
    holds(
        &rt,
        is_interface(&graph, 0, &name(&rt, "pg0"), mac, 9000, false),
    );
}

/// What the edits of arcs answer, in their order, after the nodes `a`, `b` and `c` were added.
const ARCS: [(&str, &str, &str, Result<(), GraphError>); 17] = [
    // A node in front of the row, and an arc back to it.
    ("a", "out", "ethernet-input", Ok(())),
    ("pg-input", "out", "a", Ok(())),
    ("ethernet-input", "ip4", "a", Err(GraphError::Cycle)),
    // A node that leads to itself, and one that leads far back.
    ("b", "out", "b", Err(GraphError::Cycle)),
    (
        "interface-output",
        "tx",
        "ip4-input",
        Err(GraphError::Cycle),
    ),
    // Three nodes in a circle; then one arc is moved away, and back.
    ("b", "out", "c", Ok(())),
    ("a", "out", "b", Ok(())),
    ("c", "out", "a", Err(GraphError::Cycle)),
    ("a", "out", "ethernet-input", Ok(())),
    ("c", "out", "a", Ok(())),
    ("a", "out", "b", Err(GraphError::Cycle)),
    // Each check comes before the next.
    ("nobody", "no-slot", "nobody", Err(GraphError::UnknownNode)),
    ("a", "no-slot", "nobody", Err(GraphError::UnknownSlot)),
    ("error-drop", "out", "a", Err(GraphError::UnknownSlot)),
    ("a", "out", "nobody", Err(GraphError::UnknownNode)),
    ("pg-input", "out", "pg-input", Err(GraphError::BadTarget)),
    ("a", "out", "handoff-dequeue", Err(GraphError::BadTarget)),
];

#[test]
fn arcs_are_set_and_refused(rt: HostRuntime) {
    let mut graph = started(&rt, rt.alloc());
    for text in ["a", "b", "c"] {
        same(&rt, add_pass(&mut graph, name(&rt, text)), Ok(()));
        same(&rt, next_of(&graph, &name(&rt, text)), Some(8));
    }
    for (from, slot, to, answer) in ARCS {
        let is = set_arc(&rt, &mut graph, from, slot, to);
        same(&rt, (from, slot, to, is), (from, slot, to, answer));
    }
    let copy = graph.copy(rt.alloc()).expect(&rt, "memory");
    same(
        &rt,
        set_arc(&rt, &mut graph, "a", "out", "error-drop"),
        Ok(()),
    );
    for (text, next) in [("pg-input", 9), ("a", 2), ("b", 11), ("c", 9)] {
        same(
            &rt,
            (text, next_of(&copy, &name(&rt, text))),
            (text, Some(next)),
        );
    }
}

#[test]
fn at_most_64_nodes_are_added(rt: HostRuntime) {
    let mut graph = started(&rt, rt.alloc());
    for i in 9..64u16 {
        same(&rt, add_pass(&mut graph, numbered(&rt, i)), Ok(()));
    }
    same(
        &rt,
        add_pass(&mut graph, numbered(&rt, 9)),
        Err(GraphError::DoubleName),
    );
    same(
        &rt,
        add_pass(&mut graph, numbered(&rt, 64)),
        Err(GraphError::TooMany),
    );
    holds(&rt, is_node(&graph, 63, &numbered(&rt, 63), Kind::Pass));
    same(
        &rt,
        (graph.nodes(), graph.node(&numbered(&rt, 64))),
        (64, None),
    );
}

#[test]
fn at_most_16_interfaces_are_added(rt: HostRuntime) {
    let mut graph = started(&rt, rt.alloc());
    for i in 1..16u16 {
        same(
            &rt,
            set_interface(&mut graph, numbered(&rt, i), 1500 + i),
            Ok(()),
        );
    }
    same(
        &rt,
        set_interface(&mut graph, numbered(&rt, 16), 1500),
        Err(GraphError::TooMany),
    );
    same(&rt, set_interface(&mut graph, numbered(&rt, 3), 68), Ok(()));
    let mac = Mac([2, 0, 0, 0, 0, 1]);
    for (i, mtu) in [(2, 1502), (3, 68), (4, 1504)] {
        holds(
            &rt,
            is_interface(&graph, i, &numbered(&rt, i), mac, mtu, true),
        );
        same(&rt, graph.interface(&numbered(&rt, i)), Some(i));
    }
    same(
        &rt,
        (graph.interfaces(), graph.interface(&numbered(&rt, 16))),
        (16, None),
    );
}

#[test]
fn at_most_256_adjacencies_are_added(rt: HostRuntime) {
    let mut graph = started(&rt, rt.alloc());
    same(
        &rt,
        set_interface(&mut graph, name(&rt, "lan"), 1500),
        Ok(()),
    );
    for i in 0..256u16 {
        same(&rt, set_adjacency(&rt, &mut graph, i, "pg0", 1), Ok(()));
    }
    same(
        &rt,
        set_adjacency(&rt, &mut graph, 256, "nowhere", 1),
        Err(GraphError::UnknownInterface),
    );
    same(
        &rt,
        set_adjacency(&rt, &mut graph, 256, "lan", 1),
        Err(GraphError::TooMany),
    );
    same(&rt, set_adjacency(&rt, &mut graph, 7, "lan", 99), Ok(()));
    for (i, interface, last) in [(6, 0, 1), (7, 1, 99), (8, 0, 1)] {
        holds(
            &rt,
            is_adjacency(&graph, i, &numbered(&rt, i), interface, last),
        );
        same(&rt, graph.adjacency(&numbered(&rt, i)), Some(i));
    }
    same(
        &rt,
        (graph.adjacencies(), graph.adjacency(&numbered(&rt, 256))),
        (256, None),
    );
}

#[test]
fn a_new_node_of_two_slots_drops_over_both(rt: HostRuntime) {
    let mut graph = started(&rt, rt.alloc());
    let kind = Kind::Dot1qMatch(VlanId { number: 100 });
    add_node(&rt, &mut graph, "cut", kind);
    let n = graph.node(&name(&rt, "cut")).expect(&rt, "the node");
    holds(&rt, graph.kind(n) == kind);
    holds(&rt, graph.kind(n).slots() == 2);
    same(&rt, (graph.arc(n, 0), graph.arc(n, 1)), (8, 8));
    // The second slot is led away, and the first stays.
    same(
        &rt,
        set_arc(&rt, &mut graph, "cut", "else", "ethernet-input"),
        Ok(()),
    );
    holds(&rt, n < graph.nodes() && graph.kind(n) == kind);
    same(&rt, (graph.arc(n, 0), graph.arc(n, 1)), (8, 2));
    // A walk over the second slot is one too.
    same(
        &rt,
        set_arc(&rt, &mut graph, "ip4-rewrite", "output", "cut"),
        Err(GraphError::Cycle),
    );
    same(
        &rt,
        set_arc(&rt, &mut graph, "cut", "match", "interface-tx"),
        Ok(()),
    );
    same(
        &rt,
        set_arc(&rt, &mut graph, "cut", "out", "interface-tx"),
        Err(GraphError::UnknownSlot),
    );
}
