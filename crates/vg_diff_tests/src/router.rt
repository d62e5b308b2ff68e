//! The commands for the kernel's router of a script, over a folder in memory. The lines are written out by hand.
use std::process::Abort;
use std::thread::Threads;
use vg_diff::diff_run;
use vg_outside::{SureFolder, SureSink};

/// A script with a neighbor, a route over it, one that drops, and an edit which the kernel doesn't know.
const SCRIPT: &[u8] = b"interface pg1 mac 02:fe:00:00:00:01 mtu 1400 down
adjacency near interface pg0 dst 02:00:00:00:00:0a
adjacency far interface pg1 dst 02:00:00:00:00:0b
route 10.0.0.0/8 via near
route 10.1.0.0/16 via near,far
route 10.2.0.0/16 via far
route 10.3.0.0/16 drop
route6 2001:db8::/32 local
node more kind ip4-input
";

/// The commands for it.
const COMMANDS: &[u8] = b"# sysctl -w net.ipv4.ip_forward=1 net.ipv6.conf.all.forwarding=1
# the kernel's router answers a packet whose time to live expires by an ICMP error of its own
# it forwards nothing to addresses as 127.0.0.1, 224.0.0.1 and 255.255.255.255, whatever the routes say
# it chooses among several neighbors of a route by a hash of its own
ip link set dev pg0 address 02:fe:00:00:00:00 mtu 9000 up
# pg0 takes frames to every address; the kernel's router takes those to its own
ip link set dev pg1 address 02:fe:00:00:00:01 mtu 1400 down
# pg1 takes frames to every address; the kernel's router takes those to its own
ip neighbor replace 198.18.0.1 lladdr 02:00:00:00:00:0a dev pg0 nud permanent
ip neighbor replace fe80::1 lladdr 02:00:00:00:00:0a dev pg0 nud permanent
# far is behind an interface which isn't up
# far has no IPv6: its interface isn't up, or has an mtu below 1280
ip route replace 10.0.0.0/8 via 198.18.0.1 dev pg0 onlink
ip route replace 10.1.0.0/16 nexthop via 198.18.0.1 dev pg0 onlink
ip route replace blackhole 10.2.0.0/16
ip route replace blackhole 10.3.0.0/16
ip -6 route replace local 2001:db8:0:0:0:0:0:0/32 dev lo table main
# line 9 of the script has a node, which ip can't say
";

/// A script with what the kernel can't have: interfaces with a name of 16 letters, with the address of a group and with none, IPv6 where an
/// interface takes 1279 bytes, and IPv6 routes that name a neighbor twice.
const UNSAYABLE: &[u8] = b"interface low mac 02:fe:00:00:00:01 mtu 1279 up filter
interface fifteen-letters mac 02:fe:00:00:00:02 mtu 1280 up filter
interface sixteen-letters- mac 02:fe:00:00:00:03 mtu 1500 up filter
interface group mac 03:fe:00:00:00:04 mtu 1500 up filter
interface zeros mac 00:00:00:00:00:00 mtu 1500 up filter
interface pg0 mac 02:fe:00:00:00:00 mtu 9000 up filter
adjacency a interface low dst 02:00:00:00:00:0a
adjacency b interface fifteen-letters dst 02:00:00:00:00:0b
adjacency c interface sixteen-letters- dst 02:00:00:00:00:0c
adjacency d interface group dst 02:00:00:00:00:0d
route 10.0.0.0/8 via a,b,c
route 10.1.0.0/16 via b,b
route 10.2.0.0/16 via c,d
route 10.3.0.0/16 local
route6 2001:db8::/32 via a,b
route6 2001:db8:1::/48 via a
route6 2001:db8:2::/48 via b,b
route6 2001:db8:3::/48 via b,a,b
";

/// The commands for it, behind those lines that all have.
const SAYABLE: &[u8] = b"ip link set dev pg0 address 02:fe:00:00:00:00 mtu 9000 up
ip link set dev low address 02:fe:00:00:00:01 mtu 1279 up
ip link set dev fifteen-letters address 02:fe:00:00:00:02 mtu 1280 up
# sixteen-letters- has a name of more than 15 letters or an address of no station, which ip can't say
# group has a name of more than 15 letters or an address of no station, which ip can't say
# zeros has a name of more than 15 letters or an address of no station, which ip can't say
ip neighbor replace 198.18.0.1 lladdr 02:00:00:00:00:0a dev low nud permanent
# a has no IPv6: its interface isn't up, or has an mtu below 1280
ip neighbor replace 198.18.0.2 lladdr 02:00:00:00:00:0b dev fifteen-letters nud permanent
ip neighbor replace fe80::2 lladdr 02:00:00:00:00:0b dev fifteen-letters nud permanent
# c is behind an interface which isn't up
# c has no IPv6: its interface isn't up, or has an mtu below 1280
# d is behind an interface which isn't up
# d has no IPv6: its interface isn't up, or has an mtu below 1280
ip route replace 10.0.0.0/8 nexthop via 198.18.0.1 dev low onlink nexthop via 198.18.0.2 dev fifteen-letters onlink
ip route replace 10.1.0.0/16 nexthop via 198.18.0.2 dev fifteen-letters onlink nexthop via 198.18.0.2 dev fifteen-letters onlink
ip route replace blackhole 10.2.0.0/16
ip route replace local 10.3.0.0/16 dev lo table main
ip -6 route replace 2001:db8:0:0:0:0:0:0/32 nexthop via fe80::2 dev fifteen-letters onlink
ip -6 route replace blackhole 2001:db8:1:0:0:0:0:0/48
# 2001:db8:2:0:0:0:0:0/48 has a neighbor twice, which ip can't say
# 2001:db8:3:0:0:0:0:0/48 has a neighbor twice, which ip can't say
";

/// What is printed for a script, with status 0.
fn commands_for<R: Abort + AllocGlobal + Threads + Sync>(rt: &R, script: &[u8]) -> Vec<u8> {
    let alloc = rt.alloc();
    let mut folder = SureFolder::new(alloc);
    folder.add("s", script).expect(rt, "memory");
    let mut out = SureSink::new(alloc);
    let status = diff_run(rt, alloc, &["--linux", "s"], &mut folder, &mut out);
    assert_eq!(rt; status, 0);
    out.written().to_vec(alloc).expect(rt, "memory")
}

#[test]
fn the_kernels_router_is_set_up_by_commands(rt: HostRuntime) {
    let found = commands_for(&rt, SCRIPT);
    assert!(rt; found.as_slice() == COMMANDS);
}

#[test]
fn what_ip_cannot_say_is_a_comment(rt: HostRuntime) {
    let found = commands_for(&rt, UNSAYABLE);
    assert!(rt; found.as_slice().ends_with(SAYABLE));
}

#[test]
fn scripts_are_refused_by_their_first_fault(rt: HostRuntime) {
    let alloc = rt.alloc();
    let mut folder = SureFolder::new(alloc);
    folder
        .add("word", b"route 10.0.0.0/8 drop\nroutes\n")
        .expect(&rt, "memory");
    folder
        .add(
            "edit",
            b"route 10.0.0.0/8 drop\nroute 10.1.0.0/16 via near\n",
        )
        .expect(&rt, "memory");
    for (script, status, line) in [
        ("word", 5, "script 2 word\n"),
        ("edit", 5, "script 2 unknown-adjacency\n"),
        ("nowhere", 3, "load nowhere\n"),
    ] {
        let mut out = SureSink::new(alloc);
        let found = diff_run(&rt, alloc, &["--linux", script], &mut folder, &mut out);
        assert_eq!(rt; found, status, "{line}");
        assert!(rt; out.written() == line.as_bytes(), "{line}");
    }
}
