//! The ways of packets over two workers and through three generations: shown, written and counted.
ghost use Rattle.std.specs.Prelude.{◌≡◌, ◌<◌, [], ◌∷◌, length};
ghost use Rattle.std.specs.List.{AllByRecursion};

use crate::checks::{holds, same};
use std::alloc::Global;
use std::process::Abort;
use std::str;
use vg_capture::{Capture, Captured, Packets};
use vg_graph::Graph;
use vg_model::{Bytes, DropError, End, Leg};
use vg_nodes::Ip4Kinds;
use vg_plan::{Generations, Plan};
use vg_script::parse_script;
use vg_story::{Chain, Piece};
use vg_ways::{
    Clock, Entry, Place, Stages, Went, laws, put_counts, put_entries, put_story, put_way,
};

/// Packets are handed over by their destination. Their route leads to one neighbor, from 1,000 microseconds on to another, and from 2,000 on to none.
const SCRIPT: &[u8] = b"node hand kind handoff-dst
arc hand resume ethernet-input
arc pg-input out hand
adjacency east interface pg0 dst 02:00:00:00:00:09
adjacency west interface pg0 dst 02:00:00:00:00:0a
route 0.0.0.0/0 via east
route6 2001:db8::/32 local
at 1000
route 0.0.0.0/0 via west
end
at 2000
route 0.0.0.0/0 drop
unroute6 2001:db8::/32
end
";

/// A frame to 10.1.2.3, which is for worker 0: 0x0a01_0203 is mixed to 0x0a0b_090a, an even number.
const EVEN: [u8; 34] = [
    0x02, 0xfe, 0, 0, 0, 0, 0x02, 0, 0, 0, 0, 1, 0x08, 0x00, // frame
    0x45, 0, 0, 20, 0, 0, 0, 0, 64, 17, 0xac, 0xd4, 192, 0, 2, 1, 10, 1, 2, 3, // IPv4
];

/// A frame to 10.1.2.2, which is for worker 1: 0x0a01_0202 is mixed to 0x0a0b_090b, an odd number.
const ODD: [u8; 34] = [
    0x02, 0xfe, 0, 0, 0, 0, 0x02, 0, 0, 0, 0, 1, 0x08, 0x00, // frame
    0x45, 0, 0, 20, 0, 0, 0, 0, 64, 17, 0xac, 0xd5, 192, 0, 2, 1, 10, 1, 2, 2, // IPv4
];

// A packet that is transmitted by the worker where it came in.
fn sent<'a>() -> Went<'a>
    ensures { result.legs.now ≡ (record { worker = 0; generation = 0 }) ∷ [] }
{
    Went {
        number: 0,
        bytes: &EVEN,
        legs: &[Leg {
            worker: 0,
            generation: 0,
        }],
        visits: &[0, 9, 2, 3, 4, 5, 6, 7],
        end: End::Tx { interface: 0 },
        accepted: None,
    }
}

// A packet that is handed over, and meets the second generation there.
fn handed<'a>() -> Went<'a>
    ensures { result.legs.now ≡ (record { worker = 0; generation = 0 }) ∷ (record { worker = 1; generation = 1 }) ∷ [] }
{
    Went {
        number: 2,
        bytes: &ODD,
        legs: &[
            Leg {
                worker: 0,
                generation: 0,
            },
            Leg {
                worker: 1,
                generation: 1,
            },
        ],
        visits: &[0, 9, 1, 2, 3, 4, 5, 6, 7],
        end: End::Tx { interface: 0 },
        accepted: None,
    }
}

// A packet that finds its queue full.
fn refused<'a>() -> Went<'a>
    ensures { result.legs.now ≡ (record { worker = 0; generation = 0 }) ∷ [] }
{
    Went {
        number: 4,
        bytes: &ODD,
        legs: &[Leg {
            worker: 0,
            generation: 0,
        }],
        visits: &[0, 9],
        end: End::Dropped {
            node: 9,
            error: DropError::Congestion,
        },
        accepted: Some(3),
    }
}

// A packet that goes out past all routes, under the second generation.
fn led_past<'a>() -> Went<'a>
    ensures { result.legs.now ≡ (record { worker = 1; generation = 1 }) ∷ [] }
{
    Went {
        number: 5,
        bytes: &EVEN,
        legs: &[Leg {
            worker: 1,
            generation: 1,
        }],
        visits: &[0, 6, 7],
        end: End::Tx { interface: 0 },
        accepted: None,
    }
}

// A packet that its route drops, under the third generation.
fn dropped<'a>() -> Went<'a>
    ensures { result.legs.now ≡ (record { worker = 1; generation = 2 }) ∷ [] }
{
    Went {
        number: 7,
        bytes: &ODD,
        legs: &[Leg {
            worker: 1,
            generation: 2,
        }],
        visits: &[0, 9, 2, 3, 4],
        end: End::Dropped {
            node: 4,
            error: DropError::RouteDrop,
        },
        accepted: None,
    }
}

// The plan of the script.
fn plan_of(rt: &impl Abort, alloc: Global) -> Plan
    ensures { length result.graphs ≡ 3 }
{
    let script = parse_script(alloc, SCRIPT).expect(rt, "a script");
    let plan = Plan::new(alloc, script).expect(rt, "a plan");
    holds(rt, plan.generations() == 3);
    plan
}

// The names of nodes, interfaces and neighbors.
fn names_of(rt: &impl Abort, alloc: Global, plan: &Plan) -> Graph {
    let generations = Generations::of(alloc, plan).expect(rt, "memory");
    let names = generations.master().graph();
    names.copy(alloc).expect(rt, "memory")
}

// Makes the pieces of a packet's way, under these generations.
fn tell(
    rt: &impl Abort,
    alloc: Global,
    stages: &mut Stages<'_>,
    went: &Went<'_>,
    pieces: &mut Vec<Piece>,
)
    requires { AllByRecursion (λ leg. leg.generation < length stages.old.plan.graphs) went.now.legs.now }
{
    let mut chain = Chain::new(alloc).expect(rt, "memory");
    put_story(pieces, &Ip4Kinds, 2, stages, went, &mut chain).expect(rt, "memory");
}

// The pieces of a packet's way.
fn told(rt: &impl Abort, alloc: Global, plan: &Plan, went: &Went<'_>) -> Vec<Piece>
    requires { AllByRecursion (λ leg. leg.generation < length plan.now.graphs) went.now.legs.now }
{
    let mut stages = Stages::new(alloc, plan).expect(rt, "memory");
    let mut pieces = Vec::new(alloc);
    tell(rt, alloc, &mut stages, went, &mut pieces);
    pieces
}

// A text was written.
fn is_text(rt: &impl Abort, out: &[u8], wanted: &str) {
    same(rt, str::from_utf8(out).expect(rt, "text"), wanted);
}

// This is the text of the way of a packet, so many microseconds from the first and with so many transmitted before it.
fn is_way(
    rt: &impl Abort,
    alloc: Global,
    plan: &Plan,
    time: u64,
    index: u32,
    went: &Went<'_>,
    wanted: &str,
)
    requires { AllByRecursion (λ leg. leg.generation < length plan.now.graphs) went.now.legs.now }
{
    let pieces = told(rt, alloc, plan, went);
    let names = names_of(rt, alloc, plan);
    let stages = Stages::new(alloc, plan).expect(rt, "memory");
    let place = Place { time, index };
    let mut out = Vec::new(alloc);
    put_way(&mut out, &stages, &names, place, went, pieces.as_slice()).expect(rt, "memory");
    is_text(rt, out.as_slice(), wanted);
}

// Counts a packet.
fn count(
    rt: &impl Abort,
    alloc: Global,
    plan: &Plan,
    went: &Went<'_>,
    entries: &mut Vec<(u32, Entry)>,
)
    requires { AllByRecursion (λ leg. leg.generation < length plan.now.graphs) went.now.legs.now }
{
    let pieces = told(rt, alloc, plan, went);
    put_entries(entries, went, pieces.as_slice()).expect(rt, "memory");
}

// Writes the counts of what was counted.
fn write_counts(
    rt: &impl Abort,
    alloc: Global,
    stages: &mut Stages<'_>,
    names: &Graph,
    entries: &[(u32, Entry)],
    out: &mut Vec<u8>,
)
    requires { length stages.old.plan.graphs ≡ 3 }
{
    put_counts(out, alloc, stages, names, entries).expect(rt, "memory");
}

// These are the counts of what was counted.
fn are_counts(rt: &impl Abort, alloc: Global, plan: &Plan, entries: &[(u32, Entry)], wanted: &str)
    requires { length plan.now.graphs ≡ 3 }
{
    let names = names_of(rt, alloc, plan);
    let mut stages = Stages::new(alloc, plan).expect(rt, "memory");
    let mut out = Vec::new(alloc);
    write_counts(rt, alloc, &mut stages, &names, entries, &mut out);
    is_text(rt, out.as_slice(), wanted);
}

#[test]
fn a_way_has_its_visits_and_its_record(rt: HostRuntime) {
    let alloc = rt.alloc();
    let plan = plan_of(&rt, alloc);
    let wanted = "packet 0 frame 1 time 5 generation 0
  leg worker 0 generation 0
    visit pg-input pg-input
    visit hand handoff-dst hash 168495370 worker 0
    visit ethernet-input ethernet-input type 0x0800
    visit ip4-input ip4-input
    visit ip4-lookup ip4-lookup to 10.1.2.3 route 0.0.0.0/0 line 6 via east
    visit ip4-rewrite ip4-rewrite via east on pg0 mtu 9000
      change dst 02:fe:00:00:00:00 02:00:00:00:00:09
      change src 02:00:00:00:00:01 02:fe:00:00:00:00
      change ttl 64 63
      change checksum 0xacd4 0xadd4
    visit interface-output interface-output on pg0
    visit interface-tx interface-tx on pg0
  end tx pg0 record 0 frame 1
";
    is_way(&rt, alloc, &plan, 5, 0, &sent(), wanted);
    let wanted = "packet 4 frame 5 time 9 generation 0
  leg worker 0 generation 0
    visit pg-input pg-input
    visit hand handoff-dst hash 168495371 worker 1
    visit error-drop error-drop
  end congested 3 drop hand congestion
";
    is_way(&rt, alloc, &plan, 9, 2, &refused(), wanted);
    let wanted = "packet 7 frame 8 time 2000 generation 2 line 11
  leg worker 1 generation 2
    visit pg-input pg-input
    visit hand handoff-dst hash 168495371 worker 1
    visit ethernet-input ethernet-input type 0x0800
    visit ip4-input ip4-input
    visit ip4-lookup ip4-lookup to 10.1.2.2 route 0.0.0.0/0 line 12 drop route-drop
    visit error-drop error-drop
  end drop ip4-lookup route-drop
";
    is_way(&rt, alloc, &plan, 2000, 3, &dropped(), wanted);
}

#[test]
fn each_leg_meets_its_generation(rt: HostRuntime) {
    let alloc = rt.alloc();
    let plan = plan_of(&rt, alloc);
    let wanted = "packet 2 frame 3 time 7 generation 0
  leg worker 0 generation 0
    visit pg-input pg-input
    visit hand handoff-dst hash 168495371 worker 1
  leg worker 1 generation 1
    visit handoff-dequeue handoff-dequeue
    visit ethernet-input ethernet-input type 0x0800
    visit ip4-input ip4-input
    visit ip4-lookup ip4-lookup to 10.1.2.2 route 0.0.0.0/0 line 9 via west
    visit ip4-rewrite ip4-rewrite via west on pg0 mtu 9000
      change dst 02:fe:00:00:00:00 02:00:00:00:00:0a
      change src 02:00:00:00:00:01 02:fe:00:00:00:00
      change ttl 64 63
      change checksum 0xacd5 0xadd5
    visit interface-output interface-output on pg0
    visit interface-tx interface-tx on pg0
  end tx pg0 record 1 frame 2
";
    is_way(&rt, alloc, &plan, 7, 1, &handed(), wanted);
}

#[test]
fn counts_stand_under_their_generations(rt: HostRuntime) {
    let alloc = rt.alloc();
    let plan = plan_of(&rt, alloc);
    let mut entries = Vec::new(alloc);
    count(&rt, alloc, &plan, &sent(), &mut entries);
    count(&rt, alloc, &plan, &handed(), &mut entries);
    count(&rt, alloc, &plan, &refused(), &mut entries);
    count(&rt, alloc, &plan, &led_past(), &mut entries);
    count(&rt, alloc, &plan, &dropped(), &mut entries);
    let wanted = "generation 0 time 0 packets 3
  route 0.0.0.0/0 line 6 matched 1
  route 2001:db8:0:0:0:0:0:0/32 line 7 matched 0
  neighbor east left 1
  neighbor west left 0
  interface pg0 tx 1
  drop hand congestion 1
generation 1 time 1000 line 8 packets 1
  route 0.0.0.0/0 line 9 matched 1
  route 2001:db8:0:0:0:0:0:0/32 line 7 matched 0
  neighbor east left 0
  neighbor west left 1
  no-neighbor left 1
  interface pg0 tx 2
generation 2 time 2000 line 11 packets 1
  route 0.0.0.0/0 line 12 matched 1
  neighbor east left 0
  neighbor west left 0
  interface pg0 tx 0
  drop ip4-lookup route-drop 1
all packets 5
  route 0.0.0.0/0 matched 3
  route 2001:db8:0:0:0:0:0:0/32 matched 0
  neighbor east left 1
  neighbor west left 1
  no-neighbor left 1
  interface pg0 tx 3
  drop ip4-lookup route-drop 1
  drop hand congestion 1
end
";
    are_counts(&rt, alloc, &plan, entries.as_slice(), wanted);
    laws::counts_add_up();
    laws::left_are_sent();
}

// Which of the first four generations are kept.
fn kept(stages: &Stages<'_>) -> [bool; 4] {
    [
        stages.get(0).is_some(),
        stages.get(1).is_some(),
        stages.get(2).is_some(),
        stages.get(3).is_some(),
    ]
}

// The line and the time of the event that began a generation.
fn begin(stages: &Stages<'_>, generation: u32) -> (Option<u32>, u64) {
    (stages.line(generation), stages.time(generation))
}

// After a generation is reached these are kept.
fn reaches(rt: &impl Abort, stages: &mut Stages<'_>, generation: u32, wanted: [bool; 4])
    requires { generation < length stages.old.plan.graphs }
    ensures { stages.new.plan ≡ stages.old.plan }
{
    stages.reach(generation).expect(rt, "memory");
    same(rt, kept(stages), wanted);
}

// After the generations are advanced to one these are kept.
fn advances(rt: &impl Abort, stages: &mut Stages<'_>, generation: u32, wanted: [bool; 4])
    requires { generation < length stages.old.plan.graphs }
    ensures { stages.new.plan ≡ stages.old.plan }
{
    stages.advance_to(generation).expect(rt, "memory");
    same(rt, kept(stages), wanted);
}

#[test]
fn generations_are_made_and_forgotten(rt: HostRuntime) {
    let alloc = rt.alloc();
    let plan = plan_of(&rt, alloc);
    let mut stages = Stages::new(alloc, &plan).expect(&rt, "memory");
    same(&rt, begin(&stages, 0), (None, 0));
    same(&rt, begin(&stages, 2), (Some(11), 2000));
    same(&rt, kept(&stages), [true, false, false, false]);
    reaches(&rt, &mut stages, 2, [true, true, true, false]);
    stages.forget(1);
    same(&rt, kept(&stages), [false, true, true, false]);
    reaches(&rt, &mut stages, 0, [true, false, false, false]);
    advances(&rt, &mut stages, 2, [false, false, true, false]);
    advances(&rt, &mut stages, 1, [false, true, false, false]);
    same(&rt, stages.made(), 2);
    laws::journeys_are_shown();
}

// A capture of empty packets with these time stamps in microseconds.
fn capture_at(rt: &impl Abort, alloc: Global, stamps: &[u32]) -> Capture {
    let mut packets = Vec::new(alloc);
    for stamp in stamps {
        packets
            .push(Captured {
                seconds: 7,
                fraction: *stamp,
                original: 0,
                bytes: Bytes::from_vec(Vec::new(alloc)),
            })
            .expect(rt, "memory");
    }
    holds(rt, packets.len() < 100);
    Capture {
        nanos: false,
        snaplen: 262_144,
        packets: Packets::of(alloc, packets.as_slice()).expect(rt, "memory"),
    }
}

#[test]
fn a_clock_never_goes_back(rt: HostRuntime) {
    let capture = capture_at(&rt, rt.alloc(), &[5000, 4000, 7000, 6000]);
    let mut clock = Clock::new(&capture);
    same(&rt, clock.time(&capture, 0), 0);
    same(&rt, clock.time(&capture, 1), 0);
    same(&rt, clock.time(&capture, 2), 2000);
    same(&rt, clock.time(&capture, 3), 2000);
}
