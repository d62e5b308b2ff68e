//! Calls over folders in memory: seven packets that two workers hand to one another, while a block changes their routes.

use std::num::NonZeroUsize;
use std::process::Abort;
use std::str;
use vg_outside::{MemorySink, SureFolder, SureSink};
use vg_why::{laws, why_run};

/// A savefile of no packets: little-endian, microseconds, version 2.4, snaplen 262,144, Ethernet.
const HEADER: [u8; 24] = [
    0xd4, 0xc3, 0xb2, 0xa1, 2, 0, 4, 0, 0, 0, 0, 0, 0, 0, 0, 0, 0, 0, 4, 0, 1, 0, 0, 0,
];

/// A frame to 10.0.0.1, which is for worker 1: 0x0a00_0001 is mixed to 0x0a0a_0a0b, an odd number.
const ODD: [u8; 34] = [
    0x02, 0xfe, 0, 0, 0, 0, 0x02, 0, 0, 0, 0, 1, 0x08, 0x00, // frame
    0x45, 0, 0, 20, 0, 0, 0, 0, 64, 17, 0xae, 0xd7, 192, 0, 2, 1, 10, 0, 0, 1, // IPv4
];

/// A frame to 10.0.0.2, which is for worker 0: 0x0a00_0002 is mixed to 0x0a0a_0a08, an even number.
const EVEN: [u8; 34] = [
    0x02, 0xfe, 0, 0, 0, 0, 0x02, 0, 0, 0, 0, 1, 0x08, 0x00, // frame
    0x45, 0, 0, 20, 0, 0, 0, 0, 64, 17, 0xae, 0xd6, 192, 0, 2, 1, 10, 0, 0, 2, // IPv4
];

/// Packets are handed over by their destination. From 1,000 microseconds on their route leads to another neighbor, and no destination is left out.
const SCRIPT: &[u8] = b"node hand kind handoff-dst
arc hand resume ethernet-input
arc pg-input out hand
adjacency east interface pg0 dst 02:00:00:00:00:09
adjacency west interface pg0 dst 02:00:00:00:00:0a
route 0.0.0.0/0 via east
route 10.0.0.0/8 via east
route 10.0.0.2/32 drop
at 1000
route 10.0.0.0/8 via west
unroute 10.0.0.2/32
end
";

/// A frame with a header of IPv6 alone, from 2001:db8::1 to 2001:db8::a.
const FRAME6: [u8; 54] = [
    0x02, 0xfe, 0, 0, 0, 0, 0x02, 0, 0, 0, 0, 1, 0x86, 0xdd, // frame
    0x60, 0, 0, 0, 0, 0, 59, 64, // IPv6
    0x20, 0x01, 0x0d, 0xb8, 0, 0, 0, 0, 0, 0, 0, 0, 0, 0, 0, 1, // from
    0x20, 0x01, 0x0d, 0xb8, 0, 0, 0, 0, 0, 0, 0, 0, 0, 0, 0, 10, // to
];

const SCRIPT6: &[u8] = b"node dual kind ethernet-dual
node six kind ip6-input
node find kind ip6-lookup
arc pg-input out dual
arc dual ip6 six
arc six lookup find
route6 2001:db8::/32 local
";

const REPORT6: &[u8] = b"vgd report 1
workers 1
buffers 4096
generations 1
packets 1
interface 0 pg0 tx 0
node 0 pg-input 0
packet 0 0:0 tx pg0
end
";

/// A script of one generation.
const WIRE: &[u8] = b"arc ethernet-input ip4 interface-tx\n";

/// The choices of a run: packet 2 finds its queue full, and packet 4 is taken up after the block. All else here is wrong, and isn't read.
const REPORT: &[u8] = b"vgd report 1
workers 2
buffers 4096
generations 2
packets 7
interface 0 pg0 tx 0
node 0 pg-input 0
packet 0 0:0,1:0 tx pg0
packet 1 1:0,0:0 tx pg0
packet 2 0:0 congested 1 drop pg-input congestion
packet 3 1:0 tx pg0
packet 4 0:0,1:1 tx pg0
packet 5 1:1,0:1 tx pg0
packet 6 0:1,1:1 tx pg0
end
";

/// The same, but that packet 5 begins before the block, though it comes after it.
const EARLY: &[u8] = b"vgd report 1
workers 2
buffers 4096
generations 2
packets 7
interface 0 pg0 tx 0
node 0 pg-input 0
packet 0 0:0,1:0 tx pg0
packet 1 1:0,0:0 tx pg0
packet 2 0:0 congested 1 drop pg-input congestion
packet 3 1:0 tx pg0
packet 4 0:0,1:1 tx pg0
packet 5 1:0,0:1 tx pg0
packet 6 0:1,1:1 tx pg0
end
";

/// The way of packet 1, which the longer of two routes drops.
const ONE: &str = "packet 1 frame 2 time 0 generation 0
  leg worker 1 generation 0
    visit pg-input pg-input
    visit hand handoff-dst hash 168430088 worker 0
  leg worker 0 generation 0
    visit handoff-dequeue handoff-dequeue
    visit ethernet-input ethernet-input type 0x0800
    visit ip4-input ip4-input
    visit ip4-lookup ip4-lookup to 10.0.0.2 route 10.0.0.2/32 line 8 drop route-drop
    visit error-drop error-drop
  end drop ip4-lookup route-drop
";

const TWO: &str = "packet 2 frame 3 time 0 generation 0
  leg worker 0 generation 0
    visit pg-input pg-input
    visit hand handoff-dst hash 168430091 worker 1
    visit error-drop error-drop
  end congested 1 drop hand congestion
";

/// The way of packet 3, before which one packet was transmitted.
const THREE: &str = "packet 3 frame 4 time 0 generation 0
  leg worker 1 generation 0
    visit pg-input pg-input
    visit hand handoff-dst hash 168430091 worker 1
    visit ethernet-input ethernet-input type 0x0800
    visit ip4-input ip4-input
    visit ip4-lookup ip4-lookup to 10.0.0.1 route 10.0.0.0/8 line 7 via east
    visit ip4-rewrite ip4-rewrite via east on pg0 mtu 9000
      change dst 02:fe:00:00:00:00 02:00:00:00:00:09
      change src 02:00:00:00:00:01 02:fe:00:00:00:00
      change ttl 64 63
      change checksum 0xaed7 0xafd7
    visit interface-output interface-output on pg0
    visit interface-tx interface-tx on pg0
  end tx pg0 record 1 frame 2
";

/// The way of packet 4, which is to the same address: its second worker meets the second generation.
const FOUR: &str = "packet 4 frame 5 time 999 generation 0
  leg worker 0 generation 0
    visit pg-input pg-input
    visit hand handoff-dst hash 168430091 worker 1
  leg worker 1 generation 1
    visit handoff-dequeue handoff-dequeue
    visit ethernet-input ethernet-input type 0x0800
    visit ip4-input ip4-input
    visit ip4-lookup ip4-lookup to 10.0.0.1 route 10.0.0.0/8 line 10 via west
    visit ip4-rewrite ip4-rewrite via west on pg0 mtu 9000
      change dst 02:fe:00:00:00:00 02:00:00:00:00:0a
      change src 02:00:00:00:00:01 02:fe:00:00:00:00
      change ttl 64 63
      change checksum 0xaed7 0xafd7
    visit interface-output interface-output on pg0
    visit interface-tx interface-tx on pg0
  end tx pg0 record 2 frame 3
";

/// The way of packet 6, whose time stamp is earlier than that of the packet before it.
const SIX: &str = "packet 6 frame 7 time 1000 generation 1 line 9
  leg worker 0 generation 1
    visit pg-input pg-input
    visit hand handoff-dst hash 168430091 worker 1
  leg worker 1 generation 1
    visit handoff-dequeue handoff-dequeue
    visit ethernet-input ethernet-input type 0x0800
    visit ip4-input ip4-input
    visit ip4-lookup ip4-lookup to 10.0.0.1 route 10.0.0.0/8 line 10 via west
    visit ip4-rewrite ip4-rewrite via west on pg0 mtu 9000
      change dst 02:fe:00:00:00:00 02:00:00:00:00:0a
      change src 02:00:00:00:00:01 02:fe:00:00:00:00
      change ttl 64 63
      change checksum 0xaed7 0xafd7
    visit interface-output interface-output on pg0
    visit interface-tx interface-tx on pg0
  end tx pg0 record 4 frame 5
";

const LOCAL6: &str = "packet 0 frame 1 time 0 generation 0
  leg worker 0 generation 0
    visit pg-input pg-input
    visit dual ethernet-dual type 0x86dd
    visit six ip6-input
    visit find ip6-lookup to 2001:db8:0:0:0:0:0:a route 2001:db8:0:0:0:0:0:0/32 line 7 drop local
    visit error-drop error-drop
  end drop find local
";

/// The counts: what stands under both generations adds up to what stands under all.
const COUNTS: &str = "generation 0 time 0 packets 5
  route 0.0.0.0/0 line 6 matched 0
  route 10.0.0.0/8 line 7 matched 2
  route 10.0.0.2/32 line 8 matched 1
  neighbor east left 2
  neighbor west left 0
  interface pg0 tx 2
  drop ip4-lookup route-drop 1
  drop hand congestion 1
generation 1 time 1000 line 9 packets 2
  route 0.0.0.0/0 line 6 matched 0
  route 10.0.0.0/8 line 10 matched 3
  neighbor east left 0
  neighbor west left 3
  interface pg0 tx 3
all packets 7
  route 0.0.0.0/0 matched 0
  route 10.0.0.0/8 matched 5
  route 10.0.0.2/32 matched 1
  neighbor east left 2
  neighbor west left 3
  interface pg0 tx 5
  drop ip4-lookup route-drop 1
  drop hand congestion 1
end
";

/// Adds a record of a frame at so many microseconds.
fn put_record(rt: &impl Abort, file: &mut Vec<u8>, micros: u16, frame: &[u8]) {
    let [low, high] = micros.to_le_bytes();
    let len = frame.len().min(255) as u8;
    file.extend_from_slice(&[0, 0, 0, 0, low, high, 0, 0, len, 0, 0, 0, len, 0, 0, 0])
        .expect(rt, "memory");
    file.extend_from_slice(frame).expect(rt, "memory");
}

/// A savefile of frames with their times in microseconds.
fn savefile<R: Abort + AllocGlobal>(rt: &R, packets: &[(u16, &[u8])]) -> Vec<u8> {
    let mut file = HEADER.to_vec(rt.alloc()).expect(rt, "memory");
    for (micros, frame) in packets {
        put_record(rt, &mut file, *micros, frame);
    }
    file
}

/// The capture: the packets 1 and 5 are to 10.0.0.2, and all others to 10.0.0.1.
fn capture<R: Abort + AllocGlobal>(rt: &R) -> Vec<u8> {
    let packets: &[(u16, &[u8])] = &[
        (0, &ODD),
        (0, &EVEN),
        (0, &ODD),
        (0, &ODD),
        (999, &ODD),
        (1000, &EVEN),
        (500, &ODD),
    ];
    savefile(rt, packets)
}

/// A folder with a capture `c`, the scripts `s` and `wire`, and the reports `r` and `early`; and `c6`, `s6` and `r6`.
fn files<R: Abort + AllocGlobal>(rt: &R) -> SureFolder {
    let mut folder = SureFolder::new(rt.alloc());
    folder.add("c", capture(rt).as_slice()).expect(rt, "memory");
    folder.add("s", SCRIPT).expect(rt, "memory");
    folder.add("wire", WIRE).expect(rt, "memory");
    folder.add("r", REPORT).expect(rt, "memory");
    folder.add("early", EARLY).expect(rt, "memory");
    let capture6 = savefile(rt, &[(0, FRAME6.as_slice())]);
    folder.add("c6", capture6.as_slice()).expect(rt, "memory");
    folder.add("s6", SCRIPT6).expect(rt, "memory");
    folder.add("r6", REPORT6).expect(rt, "memory");
    folder
}

/// A call ends with this status, and prints this text.
fn gives<R: Abort + AllocGlobal>(rt: &R, words: &[&str], status: u8, text: &str) {
    let mut folder = files(rt);
    let mut out = SureSink::new(rt.alloc());
    let found = why_run(rt.alloc(), words, &mut folder, &mut out);
    let printed = str::from_utf8(out.written()).expect(rt, "text");
    assert_eq!(rt; (found, printed), (status, text));
}

/// These words in front of the files choose the packets of which this text shows the ways.
fn choose<R: Abort + AllocGlobal>(rt: &R, options: &[&str], text: &str) {
    let mut words = options.to_vec(rt.alloc()).expect(rt, "memory");
    words
        .extend_from_slice(&["c", "s", "r"])
        .expect(rt, "memory");
    gives(rt, words.as_slice(), 0, text);
}

#[test]
fn packets_are_shown_in_their_order(rt: HostRuntime) {
    let both = format!(in rt.alloc(); "{}{}", ONE, TWO).expect(&rt, "memory");
    gives(&rt, &["c", "s", "r", "2", "1", "2"], 0, both.as_str());
    gives(&rt, &["c", "s", "r", "4"], 0, FOUR);
}

#[test]
fn conditions_choose_packets(rt: HostRuntime) {
    choose(&rt, &["--all", "--drop", "route-drop"], ONE);
    choose(&rt, &["--all", "--drop", "congestion"], TWO);
    choose(&rt, &["--all", "--route", "10.0.0.2/32"], ONE);
    choose(&rt, &["--all", "--via", "east", "--from", "1"], THREE);
    choose(&rt, &["--all", "--via", "west", "--to", "4"], FOUR);
    choose(
        &rt,
        &[
            "--all",
            "--node",
            "handoff-dequeue",
            "--from",
            "2",
            "--to",
            "4",
        ],
        FOUR,
    );
    choose(&rt, &["--all", "--from", "0", "--from", "6"], SIX);
}

#[test]
fn packets_meet_each_condition(rt: HostRuntime) {
    choose(
        &rt,
        &[
            "--all",
            "--via",
            "west",
            "--route",
            "10.0.0.0/8",
            "--node",
            "hand",
            "--to",
            "4",
        ],
        FOUR,
    );
    choose(&rt, &["--all", "--drop", "route-drop", "--via", "east"], "");
    choose(&rt, &["--all", "--route", "0.0.0.0/0"], "");
    choose(&rt, &["--all", "--node", "error-drop", "--from", "2"], TWO);
    choose(&rt, &["--all", "--node", "nowhere"], "");
    choose(&rt, &["--all", "--via", "-north"], "");
    choose(&rt, &["--all", "--from", "5", "--to", "4"], "");
    choose(&rt, &["--all", "--from", "7"], "");
}

#[test]
fn routes_are_said_as_scripts_say_them(rt: HostRuntime) {
    for (route, text) in [
        ("2001:db8::/32", LOCAL6),
        ("2001:0DB8:0:0:0:0:0:0/32", LOCAL6),
        ("2001:db8::/33", ""),
        ("0.0.0.0/0", ""),
    ] {
        gives(&rt, &["--all", "--route", route, "c6", "s6", "r6"], 0, text);
    }
}

#[test]
fn counts_add_up_over_generations(rt: HostRuntime) {
    gives(&rt, &["--counts", "c", "s", "r"], 0, COUNTS);
    laws::counts_are_reported();
}

#[test]
fn words_that_ask_for_nothing_are_refused(rt: HostRuntime) {
    let refused: &[&[&str]] = &[
        &[],
        &["--help"],
        &["c", "s", "r"],
        &["", "s", "r", "0"],
        &["c", "-s", "r", "0"],
        &["c", "s", "r", "-1"],
        &["c", "s", "r", "01"],
        &["c", "s", "r", "0", ""],
        &["c", "s", "r", "0", "65536"],
        &["c", "s", "r", "0", "7"],
        &["--counts", "c", "s"],
        &["--counts", "c", "s", "r", "0"],
        &["--all", "c", "s"],
        &["--all", "c", "s", "r", "0"],
        &["--all", "--drop", "c", "s", "r"],
        &["--all", "--drop", "thirst", "c", "s", "r"],
        &["--all", "--via", "", "c", "s", "r"],
        &["--all", "--route", "-", "c", "s", "r"],
        &["--all", "--route", "10.0.0.1/8", "c", "s", "r"],
        &["--all", "--node", "a,b", "c", "s", "r"],
        &["--all", "--from", "65536", "c", "s", "r"],
        &["--all", "--to", "1x", "c", "s", "r"],
        &["--all", "--mtu", "9000", "c", "s", "r"],
        &["--via", "east", "--all", "c", "s", "r"],
    ];
    for words in refused {
        gives(&rt, words, 2, "usage\n");
    }
}

// The loads come first, then the capture, the script, the report, its head, the numbers and the choices.
#[test]
fn files_that_give_nothing_have_their_status_and_their_line(rt: HostRuntime) {
    for (words, status, line) in [
        (["x", "y", "z", "0"], 3, "load x\n"),
        (["s", "y", "z", "0"], 3, "load y\n"),
        (["s", "r", "z", "0"], 3, "load z\n"),
        (["s", "r", "s", "0"], 4, "capture not-pcap 0\n"),
        (["c", "r", "s", "0"], 5, "script 1 word\n"),
        (["c", "wire", "s", "7"], 9, "no report 1 form\n"),
        (["c", "wire", "r", "7"], 9, "no head\n"),
        (["c", "s", "early", "7"], 2, "usage\n"),
        (["c", "s", "early", "0"], 9, "no choices 5\n"),
        (["--counts", "c", "s", "early"], 9, "no choices 5\n"),
    ] {
        gives(&rt, words.as_slice(), status, line);
    }
}

#[test]
fn a_sink_that_fails_has_a_front_of_the_text(rt: HostRuntime) {
    let alloc = rt.alloc();
    let mut folder = files(&rt);
    let failing = Vec::from_slice(alloc, &[2]).expect(&rt, "memory");
    let mut out = MemorySink::new(alloc, failing, NonZeroUsize::new(7));
    let words = ["--counts", "c", "s", "r"];
    let status = why_run(alloc, words.as_slice(), &mut folder, &mut out);
    let printed = str::from_utf8(out.written()).expect(&rt, "text");
    assert_eq!(rt; (status, printed), (7, "generation 0 t"));
}
