//! What is remarked of a run: each remark on both sides of its condition.
ghost use Rattle.std.specs.Prelude.{◌≤◌};

use std::alloc::Global;
use std::process::Abort;
use vg_capture::{Capture, Captured, Packets};
use vg_model::Bytes;
use vg_remarks::{Class, LateEvent, Remarks, Unforwarded, remarks_on};
use vg_report::read_report;
use vg_script::parse_script;

/// The lines of a report that stand before those of its packets, which are two.
const HEAD: &[u8] =
    b"vgd report 1\nworkers 2\nbuffers 4096\ngenerations 1\npackets 2\ninterface 0 pg0 tx 0\nnode 0 hand 0\n";

/// Both packets are transmitted.
const BOTH: &[u8] = b"packet 0 0:0 tx pg0\npacket 1 1:0 tx pg0\nend\n";

/// An address as four numbers.
const fn address(a: u8, b: u8, c: u8, d: u8) -> [u8; 4] {
    [a, b, c, d]
}

/// A frame of an IPv4 header to an address, behind its type or behind a VLAN tag more.
fn frame(rt: &impl Abort, alloc: Global, to: [u8; 4], tagged: bool) -> Bytes {
    let mut bytes = Vec::from_slice(alloc, &[0; 12]).expect(rt, "memory");
    let kind: &[u8] = if tagged {
        &[0x81, 0, 0, 1, 8, 0]
    } else {
        &[8, 0]
    };
    bytes.extend_from_slice(kind).expect(rt, "memory");
    bytes.extend_from_slice(&[0; 16]).expect(rt, "memory");
    bytes.extend_from_slice(&to).expect(rt, "memory");
    Bytes::from_vec(bytes)
}

/// A packet so many microseconds behind the first.
fn packet(time: u32, bytes: Bytes) -> Captured
    requires { time ≤ 2000 }
{
    Captured {
        seconds: 7,
        fraction: 5 + time,
        original: 0,
        bytes,
    }
}

/// A capture of two packets, 0 and 2000 microseconds from the first.
fn capture_of(rt: &impl Abort, alloc: Global, first: Bytes, second: Bytes) -> Capture {
    let packets = [packet(0, first), packet(2000, second)];
    Capture {
        nanos: false,
        snaplen: 262_144,
        packets: Packets::of(alloc, packets.as_slice()).expect(rt, "memory"),
    }
}

/// What is remarked of a run of two packets to these addresses.
fn remarked(
    rt: &impl Abort,
    alloc: Global,
    script: &[u8],
    to: [[u8; 4]; 2],
    lines: &[u8],
    tagged: bool,
) -> Remarks {
    let first = frame(rt, alloc, to[0], tagged);
    let second = frame(rt, alloc, to[1], tagged);
    let capture = capture_of(rt, alloc, first, second);
    let script = parse_script(alloc, script).expect(rt, "a script");
    let mut text = Vec::from_slice(alloc, HEAD).expect(rt, "memory");
    text.extend_from_slice(lines).expect(rt, "memory");
    let report = read_report(alloc, text.as_slice()).expect(rt, "a report");
    assert!(rt; report.packets.len() == capture.packets.len());
    remarks_on(alloc, &capture, &script, &report).expect(rt, "memory")
}

/// An address as a number.
fn number(to: [u8; 4]) -> u32 {
    u32::from_be_bytes(to)
}

/// The class of the one remark on a packet to this address, where there is one.
fn class_of(rt: &impl Abort, alloc: Global, script: &[u8], to: [u8; 4]) -> Option<Class> {
    let found = remarked(rt, alloc, script, [address(10, 0, 0, 1), to], BOTH, false);
    let one = found.unforwarded.first?;
    assert!(rt; found.unforwarded.count == 1);
    assert!(rt; one.number == 1 && one.address == number(to));
    Some(one.class)
}

/// A router's script.
const ROUTES: &[u8] =
    b"adjacency east interface pg0 dst 02:00:00:00:00:09\nroute 0.0.0.0/0 via east\nroute 10.0.0.0/24 via east\nroute 10.1.0.0/16 drop\nroute 10.2.0.0/31 via east\nroute 239.1.0.0/16 via east\n";

/// A script whose routes lead some addresses.
const NARROW: &[u8] =
    b"adjacency east interface pg0 dst 02:00:00:00:00:09\nroute 127.0.0.0/16 via east\nroute 192.0.0.0/2 via east\nroute 239.1.0.0/16 via east\nroute 0.0.0.0/8 drop\n";

#[test]
fn addresses_have_their_classes(rt: HostRuntime) {
    let alloc = rt.alloc();
    assert!(rt;
        class_of(&rt, alloc, ROUTES, address(255, 255, 255, 255)) == Some(Class::LimitedBroadcast)
    );
    assert!(rt; class_of(&rt, alloc, ROUTES, address(0, 0, 0, 1)) == Some(Class::ThisNetwork));
    assert!(rt; class_of(&rt, alloc, ROUTES, address(127, 0, 0, 1)) == Some(Class::Loopback));
    assert!(rt; class_of(&rt, alloc, ROUTES, address(240, 0, 0, 1)) == Some(Class::Reserved));
    assert!(rt; class_of(&rt, alloc, ROUTES, address(224, 0, 0, 1)) == Some(Class::Multicast));
    assert!(rt; class_of(&rt, alloc, ROUTES, address(239, 1, 2, 3)).is_none());
    assert!(rt;
        class_of(&rt, alloc, ROUTES, address(10, 0, 0, 255)) == Some(Class::DirectedBroadcast)
    );
    assert!(rt; class_of(&rt, alloc, ROUTES, address(10, 0, 0, 254)).is_none());
    assert!(rt; class_of(&rt, alloc, ROUTES, address(10, 1, 255, 255)).is_none());
    assert!(rt; class_of(&rt, alloc, ROUTES, address(10, 2, 0, 1)).is_none());
    assert!(rt; class_of(&rt, alloc, ROUTES, address(1, 0, 0, 0)).is_none());
    assert!(rt; class_of(&rt, alloc, ROUTES, address(223, 255, 255, 254)).is_none());
}

#[test]
fn addresses_that_no_route_leads_are_not_remarked_on(rt: HostRuntime) {
    let alloc = rt.alloc();
    let wire = b"arc ethernet-input ip4 interface-tx\n";
    assert!(rt; class_of(&rt, alloc, wire, address(255, 255, 255, 255)).is_none());
    assert!(rt; class_of(&rt, alloc, wire, address(224, 0, 0, 1)).is_none());
    assert!(rt; class_of(&rt, alloc, NARROW, address(0, 0, 0, 1)).is_none());
    assert!(rt; class_of(&rt, alloc, NARROW, address(127, 0, 0, 1)) == Some(Class::Loopback));
    assert!(rt; class_of(&rt, alloc, NARROW, address(127, 1, 0, 1)).is_none());
    assert!(rt; class_of(&rt, alloc, NARROW, address(224, 0, 0, 1)) == Some(Class::Multicast));
    assert!(rt; class_of(&rt, alloc, NARROW, address(239, 1, 2, 3)).is_none());
    assert!(rt;
        class_of(&rt, alloc, NARROW, address(255, 255, 255, 255)) == Some(Class::LimitedBroadcast)
    );
    assert!(rt; class_of(&rt, alloc, NARROW, address(127, 0, 255, 255)) == Some(Class::Loopback));
}

#[test]
fn only_transmitted_packets_are_remarked_on(rt: HostRuntime) {
    let alloc = rt.alloc();
    let lost = address(127, 0, 0, 1);
    let lines = b"packet 0 0:0 drop hand local\npacket 1 0:0 tx pg0\nend\n";
    let found = remarked(&rt, alloc, ROUTES, [lost, lost], lines, false);
    let wanted = Unforwarded {
        number: 1,
        address: number(lost),
        class: Class::Loopback,
    };
    assert!(rt; found.unforwarded.count == 1 && found.unforwarded.first == Some(wanted));
    let found = remarked(&rt, alloc, ROUTES, [lost, lost], BOTH, true);
    assert!(rt; found.unforwarded.count == 2);
    assert!(rt;
        found.unforwarded.first
            == Some(Unforwarded {
                number: 0,
                ..wanted
            })
    );
}

#[test]
fn congested_packets_are_counted(rt: HostRuntime) {
    let alloc = rt.alloc();
    let to = [address(10, 0, 0, 1), address(10, 0, 0, 1)];
    let lines =
        b"packet 0 0:0 congested 1 drop hand congestion\npacket 1 0:0 drop hand handoff-limit\nend\n";
    let found = remarked(&rt, alloc, ROUTES, to, lines, false);
    assert!(rt; found.congested == 1);
    assert!(rt; remarked(&rt, alloc, ROUTES, to, BOTH, false).congested == 0);
}

#[test]
fn late_events_are_those_behind_the_last_packet(rt: HostRuntime) {
    let alloc = rt.alloc();
    let to = [address(10, 0, 0, 1), address(10, 0, 0, 1)];
    let script = b"at 2000\nend\nprocess p every 1001 count 2\nend\nat 2001\nend\n";
    let found = remarked(&rt, alloc, script, to, BOTH, false);
    let wanted = LateEvent {
        line: 5,
        time: 2001,
        last: Some(2000),
    };
    assert!(rt; found.late.count == 2 && found.late.first == Some(wanted));
    let found = remarked(&rt, alloc, b"at 2000\nend\n", to, BOTH, false);
    assert!(rt; found.late.count == 0 && found.late.first.is_none());
}

#[test]
fn filters_do_nothing_where_no_packet_comes(rt: HostRuntime) {
    let alloc = rt.alloc();
    let to = [address(10, 0, 0, 1), address(10, 0, 0, 1)];
    let script =
        b"interface pg0 mac 02:fe:00:00:00:00 mtu 1500 up filter\nprocess p every 1 count 1\ninterface two mac 02:fe:00:00:00:02 mtu 1500 up filter\nthen\ninterface two mac 02:fe:00:00:00:02 mtu 1500 up\nend\ninterface one mac 02:fe:00:00:00:01 mtu 1500 down filter\n";
    let found = remarked(&rt, alloc, script, to, BOTH, false);
    assert!(rt; found.filters.count == 2 && found.filters.first == Some(7));
}

/// A script of 4,096 routes: each leads 16 addresses of class E to a neighbor, the first of them 240.0.1.0, and each begins 256 behind the one before.
fn many_routes(rt: &impl Abort, alloc: Global) -> Vec<u8> {
    let neighbor = b"adjacency east interface pg0 dst 02:00:00:00:00:09\n";
    let mut text = Vec::from_slice(alloc, neighbor).expect(rt, "memory");
    for number in 0..4096_u16 {
        let [high, low] = (4096 - number).to_be_bytes();
        let line = format!(in alloc; "route 240.{high}.{low}.0/28 via east\n").expect(rt, "memory");
        text.extend_from_slice(line.as_str().as_bytes())
            .expect(rt, "memory");
    }
    text
}

/// As many packets as may be, each to the address 16 behind that of the one before, the first to 240.0.0.8.
fn many_packets(rt: &impl Abort, alloc: Global) -> Packets {
    let mut packets = Vec::new(alloc);
    for number in 0..65_536_u32 {
        let to = 0xf000_0008 + 16 * number;
        packets
            .push(packet(0, frame(rt, alloc, to.to_be_bytes(), false)))
            .expect(rt, "memory");
    }
    assert!(rt; packets.len() == 65_536);
    Packets::of(alloc, packets.as_slice()).expect(rt, "memory")
}

/// The report of a run that transmits all of them.
fn many_lines(rt: &impl Abort, alloc: Global) -> Vec<u8> {
    let head =
        b"vgd report 1\nworkers 1\nbuffers 4096\ngenerations 1\npackets 65536\ninterface 0 pg0 tx 0\nnode 0 hand 0\n";
    let mut text = Vec::from_slice(alloc, head).expect(rt, "memory");
    for number in 0..65_536_u32 {
        let line = format!(in alloc; "packet {number} 0:0 tx pg0\n").expect(rt, "memory");
        text.extend_from_slice(line.as_str().as_bytes())
            .expect(rt, "memory");
    }
    text.extend_from_slice(b"end\n").expect(rt, "memory");
    text
}

// Of 16 packets one has a destination that a route covers, from the 17th packet on.
#[test]
fn many_destinations_are_looked_up_in_many_routes(rt: HostRuntime) {
    let alloc = rt.alloc();
    let capture = Capture {
        nanos: false,
        snaplen: 262_144,
        packets: many_packets(&rt, alloc),
    };
    let script = parse_script(alloc, many_routes(&rt, alloc).as_slice()).expect(&rt, "a script");
    let report = read_report(alloc, many_lines(&rt, alloc).as_slice()).expect(&rt, "a report");
    assert!(rt; report.packets.len() == capture.packets.len());
    let found = remarks_on(alloc, &capture, &script, &report).expect(&rt, "memory");
    let wanted = Unforwarded {
        number: 16,
        address: number(address(240, 0, 1, 8)),
        class: Class::Reserved,
    };
    assert!(rt; found.unforwarded.count == 4095 && found.unforwarded.first == Some(wanted));
}
