//! Whole reports as text.
ghost use Rattle.std.specs.Prelude.{◌≡◌, ◌≤◌, length};
ghost use Rattle.vg_report.specs.Examples.{two_of_three_sent, every_kind_of_line};

use crate::checks::{has_length, holds, same};
use std::alloc::Global;
use std::process::Abort;
use vg_model::{DropError, Leg, Legs, Name};
use vg_report::laws::{read_is_lawful, texts_differ, written_is_read_back};
use vg_report::{
    EndRef, ErrorCounts, NameCounts, Names, PacketEnd, PacketLine, PacketLines, Report,
    ReportCause, ReportError, TraceLines, read_report, write_report,
};

// The report of one worker and three packets, of which two are transmitted and one isn't IPv4.
const THREE_PACKETS: &[u8] = b"vgd report 1
workers 1
buffers 4096
generations 1
packets 3
interface 0 pg0 tx 2
node 0 pg-input 3
node 1 handoff-dequeue 0
node 2 ethernet-input 3
node 3 ip4-input 0
node 4 ip4-lookup 0
node 5 ip4-rewrite 0
node 6 interface-output 0
node 7 interface-tx 2
node 8 error-drop 1
error ethernet-input unknown-type 1
packet 0 0:0 tx pg0
packet 1 0:0 tx pg0
packet 2 0:0 drop ethernet-input unknown-type
end
";

fn name(rt: &impl Abort, text: &[u8]) -> Name
    ensures { result ≡ text.now }
{
    Name::of(text).expect(rt, "a name")
}

fn legs(way: &[Leg]) -> Legs
    requires { length way.now ≤ 4 }
    ensures { result ≡ way.now }
{
    let mut legs = Legs::new();
    for leg in way {
        legs.push(*leg);
    }
    legs
}

// Two packets that are transmitted, and one that isn't IPv4.
fn three_packets(alloc: Global, rt: &impl Abort) -> PacketLines
    ensures { result ≡ two_of_three_sent.packets }
{
    let first = Leg {
        worker: 0,
        generation: 0,
    };
    let packets = vec![in alloc;
        PacketLine {
            legs: legs(&[first]),
            congested: None,
            end: PacketEnd::Tx {
                interface: name(rt, b"pg0")
            },
        },
        PacketLine {
            legs: legs(&[first]),
            congested: None,
            end: PacketEnd::Tx {
                interface: name(rt, b"pg0")
            },
        },
        PacketLine {
            legs: legs(&[first]),
            congested: None,
            end: PacketEnd::Dropped {
                node: name(rt, b"ethernet-input"),
                error: DropError::UnknownType
            },
        },
    ]
    .expect(rt, "memory");
    PacketLines::from_vec(packets)
}

// One worker, three packets: two are transmitted, and one isn't IPv4.
fn two_of_three(alloc: Global, rt: &impl Abort) -> Report
    ensures { result ≡ two_of_three_sent }
{
    let Ok(interfaces) = vec![in alloc; (name(rt, b"pg0"), 2)] else {
        panic!(rt; "no memory")
    };
    let Ok(nodes) = vec![in alloc;
        (name(rt, b"pg-input"), 3),
        (name(rt, b"handoff-dequeue"), 0),
        (name(rt, b"ethernet-input"), 3),
        (name(rt, b"ip4-input"), 0),
        (name(rt, b"ip4-lookup"), 0),
        (name(rt, b"ip4-rewrite"), 0),
        (name(rt, b"interface-output"), 0),
        (name(rt, b"interface-tx"), 2),
        (name(rt, b"error-drop"), 1),
    ] else {
        panic!(rt; "no memory")
    };
    let Ok(errors) = vec![in alloc; (name(rt, b"ethernet-input"), DropError::UnknownType, 1)] else {
        panic!(rt; "no memory")
    };
    let packets = three_packets(alloc, rt);
    Report {
        workers: 1,
        buffers: 4096,
        generations: 1,
        interfaces: NameCounts::from_vec(interfaces),
        nodes: NameCounts::from_vec(nodes),
        errors: ErrorCounts::from_vec(errors),
        packets,
        traces: TraceLines::from_vec(Vec::new(alloc)),
    }
}

#[test]
fn a_report_of_three_packets(rt: HostRuntime) {
    let report = two_of_three(rt.alloc(), &rt);
    let text = write_report(rt.alloc(), &report).expect(&rt, "memory");
    same(&rt, text.as_slice(), THREE_PACKETS);
}

// Two workers, two generations and two interfaces: a packet is transmitted after a handoff, one finds a
// queue full, and one has too many legs.
fn every_kind(alloc: Global, rt: &impl Abort) -> Report
    ensures { result ≡ every_kind_of_line }
{
    let Ok(interfaces) = vec![in alloc; (name(rt, b"pg0"), 0), (name(rt, b"west"), 1)] else {
        panic!(rt; "no memory")
    };
    let Ok(nodes) = vec![in alloc;
        (name(rt, b"pg-input"), 3),
        (name(rt, b"error-drop"), 2),
        (name(rt, b"hand"), 6),
    ] else {
        panic!(rt; "no memory")
    };
    let Ok(errors) = vec![in alloc;
        (name(rt, b"hand"), DropError::Congestion, 1),
        (name(rt, b"hand"), DropError::HandoffLimit, 1),
    ] else {
        panic!(rt; "no memory")
    };
    let old = Leg {
        worker: 0,
        generation: 0,
    };
    let new = Leg {
        worker: 0,
        generation: 1,
    };
    let new_elsewhere = Leg {
        worker: 1,
        generation: 1,
    };
    let old_elsewhere = Leg {
        worker: 1,
        generation: 0,
    };
    let Ok(packets) = vec![in alloc;
        PacketLine {
            legs: legs(&[old, new_elsewhere]),
            congested: None,
            end: PacketEnd::Tx {
                interface: name(rt, b"west")
            },
        },
        PacketLine {
            legs: legs(&[old_elsewhere]),
            congested: Some(64),
            end: PacketEnd::Dropped {
                node: name(rt, b"hand"),
                error: DropError::Congestion
            },
        },
        PacketLine {
            legs: legs(&[new, new_elsewhere, new, new_elsewhere]),
            congested: None,
            end: PacketEnd::Dropped {
                node: name(rt, b"hand"),
                error: DropError::HandoffLimit
            },
        },
    ] else {
        panic!(rt; "no memory")
    };
    let packets = PacketLines::from_vec(packets);
    let Ok(short) = vec![in alloc; name(rt, b"pg-input"), name(rt, b"hand")] else {
        panic!(rt; "no memory")
    };
    let Ok(long) = vec![in alloc;
        name(rt, b"pg-input"),
        name(rt, b"hand"),
        name(rt, b"error-drop"),
    ] else {
        panic!(rt; "no memory")
    };
    let Ok(traces) = vec![in alloc; Names::from_vec(short), Names::from_vec(long)] else {
        panic!(rt; "no memory")
    };
    Report {
        workers: 2,
        buffers: 768,
        generations: 2,
        interfaces: NameCounts::from_vec(interfaces),
        nodes: NameCounts::from_vec(nodes),
        errors: ErrorCounts::from_vec(errors),
        packets,
        traces: TraceLines::from_vec(traces),
    }
}

#[test]
fn a_report_with_every_kind_of_line(rt: HostRuntime) {
    let report = every_kind(rt.alloc(), &rt);
    let text = write_report(rt.alloc(), &report).expect(&rt, "memory");
    let expected = b"vgd report 1
workers 2
buffers 768
generations 2
packets 3
interface 0 pg0 tx 0
interface 1 west tx 1
node 0 pg-input 3
node 1 error-drop 2
node 2 hand 6
error hand congestion 1
error hand handoff-limit 1
packet 0 0:0,1:1 tx west
packet 1 1:0 congested 64 drop hand congestion
packet 2 0:1,1:1,0:1,1:1 drop hand handoff-limit
trace 0 pg-input hand
trace 1 pg-input hand error-drop
end
";
    same(&rt, text.as_slice(), expected.as_slice());
    has_length(&rt, report.interfaces.into_vec().len(), 2);
    has_length(&rt, report.nodes.into_vec().len(), 3);
    has_length(&rt, report.errors.into_vec().len(), 2);
    has_length(&rt, report.packets.len(), 3);
    same(&rt, report.packets.is_congested(0), false);
    same(&rt, report.packets.is_congested(1), true);
    let mut traces = report.traces.into_vec();
    has_length(&rt, traces.len(), 2);
    let last = traces.pop().expect(&rt, "a trace");
    has_length(&rt, last.into_vec().len(), 3);
}

// Whether the names and the counts are the same.
fn same_counts(one: &[(Name, u64)], other: &[(Name, u64)]) -> bool {
    one.len() == other.len()
        && one
            .iter()
            .zip(other)
            .all(|(a, b)| a.0.bytes() == b.0.bytes() && a.1 == b.1)
}

// Whether the nodes, the errors and the counts are the same.
fn same_errors(one: &[(Name, DropError, u64)], other: &[(Name, DropError, u64)]) -> bool {
    one.len() == other.len()
        && one.iter().zip(other).all(|(a, b)| a.0.bytes() == b.0.bytes()
            && a.1 == b.1
            && a.2 == b.2)
}

// Whether two packets ended the same way.
fn same_end(one: EndRef<'_>, other: EndRef<'_>) -> bool {
    match (one, other) {
        (EndRef::Tx { interface: a }, EndRef::Tx { interface: b }) => a.bytes() == b.bytes(),
        (EndRef::Dropped { node: a, error: e }, EndRef::Dropped { node: b, error: f }) => {
            a.bytes() == b.bytes() && e == f
        }
        _ => false,
    }
}

// Whether the same became of all packets.
fn same_packets(one: &PacketLines, other: &PacketLines) -> bool {
    if one.len() != other.len() {
        return false;
    }
    for number in 0..one.len() {
        if number >= other.len() {
            return false;
        }
        let (a, b) = (one.get(number), other.get(number));
        if a.legs.as_slice() != b.legs.as_slice()
            || a.congested != b.congested
            || !same_end(a.end, b.end)
        {
            return false;
        }
    }
    true
}

#[test]
fn a_report_of_three_packets_is_read(rt: HostRuntime) {
    let expected = two_of_three(rt.alloc(), &rt);
    let report = read_report(rt.alloc(), THREE_PACKETS).expect(&rt, "a report");
    same(
        &rt,
        (report.workers, report.buffers, report.generations),
        (1, 4096, 1),
    );
    holds(
        &rt,
        same_counts(report.interfaces.as_slice(), expected.interfaces.as_slice()),
    );
    holds(
        &rt,
        same_counts(report.nodes.as_slice(), expected.nodes.as_slice()),
    );
    holds(
        &rt,
        same_errors(report.errors.as_slice(), expected.errors.as_slice()),
    );
    holds(&rt, same_packets(&report.packets, &expected.packets));
    holds(&rt, report.traces.as_slice().is_empty());
}

// The line and the cause of a text's refusal.
fn refusal(alloc: Global, text: &[u8]) -> Option<(u32, ReportCause)> {
    match read_report(alloc, text) {
        Ok(_) => None,
        Err(error) => Some((error.line, error.cause)),
    }
}

#[test]
fn a_text_is_refused_at_its_first_faulty_line(rt: HostRuntime) {
    let form = b"vgd report 1
workers  1
";
    same(&rt, refusal(rt.alloc(), form), Some((2, ReportCause::Form)));
    let number = b"vgd report 1
workers 1
buffers 16385
";
    same(
        &rt,
        refusal(rt.alloc(), number),
        Some((3, ReportCause::Number)),
    );
    let unknown = b"vgd report 1
workers 1
buffers 0
generations 1
packets 0
interface 0 pg0 tx 0
interface 1 pg0 tx 0
";
    same(
        &rt,
        refusal(rt.alloc(), unknown),
        Some((7, ReportCause::Unknown)),
    );
    let order = b"vgd report 1
workers 1
buffers 0
generations 1
packets 0
interface 0 pg0 tx 0
node 1 pg-input 0
";
    same(
        &rt,
        refusal(rt.alloc(), order),
        Some((7, ReportCause::Order)),
    );
}

#[test]
fn the_laws_hold() {
    written_is_read_back();
    read_is_lawful();
    texts_differ();
}

#[test]
fn a_refusal_is_told_in_words(rt: HostRuntime) {
    let order = ReportError {
        line: 7,
        cause: ReportCause::Order,
    };
    let text = format!(in rt.alloc(); "{order}").expect(&rt, "memory");
    same(
        &rt,
        text.as_str(),
        "line 7: a running number or an error isn't the next",
    );
    let memory = ReportError {
        line: 0,
        cause: ReportCause::Memory,
    };
    let text = format!(in rt.alloc(); "{memory}").expect(&rt, "memory");
    same(&rt, text.as_str(), "memory ran out");
}
