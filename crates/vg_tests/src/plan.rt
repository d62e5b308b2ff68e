//! Tests of plans: the generations of a script, their limits, and its refusals.

use crate::checks::{holds, same};
use std::alloc::Global;
use std::process::Abort;
use vg_capture::{Capture, Captured, Packets};
use vg_model::{Bytes, Edits, Members, RouteTo};
use vg_plan::*;
use vg_script::{Block, Groups, ScriptCause, ScriptError, parse_script};

/// A neighbor to which all goes.
const EAST: &[u8] =
    b"adjacency east interface pg0 dst 02:00:00:00:00:09\nroute 0.0.0.0/0 via east\nat 1000\nroute 0.0.0.0/0 drop\nend\n";

/// A route that goes away and comes back, and another change of it at the time of the first.
const FLAP: &[u8] =
    b"adjacency east interface pg0 dst 02:00:00:00:00:09\nroute 10.0.0.0/8 via east\nprocess p every 100 count 3\nroute 10.0.0.0/8 drop\nthen\nroute 10.0.0.0/8 via east\nend\nat 100\nroute 10.0.0.0/8 local\nend\n";

/// Two changes that are fine, and a third that would let packets go round.
const CYCLE: &[u8] =
    b"node a kind pass\narc a out ethernet-input\nat 10\nend\nat 20\narc pg-input out a\nend\nat 30\narc ethernet-input ip4 a\nend\n";

/// An address in 10.0.0.0/8.
const ADDRESS: u32 = 0x0a01_0203;

/// The plan of a text, or its refusal.
fn planned(alloc: Global, text: &[u8]) -> Result<Plan, ScriptError> {
    Plan::new(alloc, parse_script(alloc, text)?)
}

/// A capture of empty packets at these times in microseconds.
fn capture_at(rt: &impl Abort, alloc: Global, times: &[u32]) -> Capture {
    let mut packets = Vec::new(alloc);
    for time in times {
        packets
            .push(Captured {
                seconds: 7,
                fraction: *time,
                original: 0,
                bytes: Bytes::from_vec(Vec::new(alloc)),
            })
            .expect(rt, "memory");
    }
    holds(rt, packets.len() < 100);
    Capture {
        nanos: false,
        snaplen: 262_144,
        packets: Packets::of(alloc, packets.as_slice()).expect(rt, "memory"),
    }
}

/// Whether these are the limits of the generations.
fn has_limits(plan: &Plan, capture: &Capture, limits: &[u32]) -> bool {
    for generation in 0..plan.generations() {
        if limits.get(generation as usize).copied() != Some(plan.limit(generation, capture)) {
            return false;
        }
    }
    limits.len() == plan.generations() as usize
}

/// Whether these are the limits in a book.
fn holds_limits(book: &Book, limits: &[u32]) -> bool {
    for generation in 0..book.generations() {
        if limits.get(generation as usize).copied() != Some(book.limit(generation)) {
            return false;
        }
    }
    limits.len() == book.generations() as usize
}

/// The limits of the generations are these, by the plan and in its book.
fn assert_limits(rt: &impl Abort, alloc: Global, plan: &Plan, times: &[u32], limits: &[u32]) {
    let capture = capture_at(rt, alloc, times);
    holds(rt, has_limits(plan, &capture, limits));
    let book = plan.book(alloc, &capture).expect(rt, "memory");
    holds(rt, holds_limits(&book, limits));
}

/// The plan of a text that is accepted. It is expected here and by the tests, as masters are: where a `?` stands, the drop of each master and plan
/// that is there is proved, which takes minutes.
fn plan_of(rt: &impl Abort, alloc: Global, text: &[u8]) -> Plan {
    planned(alloc, text).expect(rt, "a plan")
}

/// The master of a plan.
fn master_of(rt: &impl Abort, alloc: Global, plan: &Plan) -> Master {
    Master::new(alloc, plan).expect(rt, "memory")
}

/// Whether the route of an address leads there.
fn leads(master: &Master, to: Option<RouteTo>) -> bool {
    master.fib().find(ADDRESS) == to
}

/// The only neighbor.
fn via_east() -> Option<RouteTo> {
    Some(RouteTo::Via(Members::one(0)))
}

/// The groups of a process.
fn groups_of<'a>(plan: &'a Plan, block: usize) -> Option<&'a Groups> {
    match plan.script().blocks.as_slice().get(block)? {
        Block::Process { groups, .. } => Some(groups),
        Block::At { .. } => None,
    }
}

/// The edits of a block at one time.
fn edits_of<'a>(plan: &'a Plan, block: usize) -> Option<&'a Edits> {
    match plan.script().blocks.as_slice().get(block)? {
        Block::At { edits, .. } => Some(edits),
        Block::Process { .. } => None,
    }
}

/// The edits of a group of the process that is the first block.
fn group_of<'a>(plan: &'a Plan, group: usize) -> Option<&'a Edits> {
    groups_of(plan, 0)?.as_slice().get(group)
}

/// Makes these edits.
fn make(rt: &impl Abort, alloc: Global, master: &mut Master, edits: Option<&Edits>) {
    let edits = edits.expect(rt, "edits");
    master.apply(alloc, edits).expect(rt, "no refusal");
}

/// Whether these generations are in force at these times.
fn are_in_force(plan: &Plan, generations: &[(u64, u32)]) -> bool {
    generations.iter().all(|(time, generation)| plan.generation_of(*time) == *generation)
}

#[test]
fn a_change_comes_at_its_time(rt: HostRuntime) {
    let plan = plan_of(&rt, rt.alloc(), EAST);
    same(&rt, plan.generations(), 2);
    holds(
        &rt,
        are_in_force(&plan, &[(0, 0), (999, 0), (1000, 1), (u64::MAX, 1)]),
    );

    // The last packet is stamped before the change, and comes after it.
    assert_limits(&rt, rt.alloc(), &plan, &[0, 999, 1000, 500], &[2, 4]);
    assert_limits(&rt, rt.alloc(), &plan, &[], &[0, 0])
}

#[test]
fn events_at_one_time_come_by_line(rt: HostRuntime) {
    let plan = plan_of(&rt, rt.alloc(), FLAP);
    same(&rt, plan.generations(), 5);
    holds(
        &rt,
        are_in_force(&plan, &[(99, 0), (100, 2), (299, 3), (300, 4)]),
    );
    assert_limits(
        &rt,
        rt.alloc(),
        &plan,
        &[0, 100, 200, 300],
        &[1, 1, 2, 3, 4],
    )
}

#[test]
fn a_route_flaps(rt: HostRuntime) {
    let alloc = rt.alloc();
    let plan = plan_of(&rt, alloc, FLAP);
    let mut master = master_of(&rt, alloc, &plan);
    holds(&rt, leads(&master, via_east()));
    make(&rt, alloc, &mut master, group_of(&plan, 0));
    holds(&rt, leads(&master, Some(RouteTo::Drop)));
    make(&rt, alloc, &mut master, edits_of(&plan, 1));
    holds(&rt, leads(&master, Some(RouteTo::Local)));
    make(&rt, alloc, &mut master, group_of(&plan, 1));
    holds(&rt, leads(&master, via_east()));
}

/// Why a text is refused, where it is.
fn refusal(alloc: Global, text: &[u8]) -> Option<ScriptError> {
    planned(alloc, text).err()
}

#[test]
fn an_edit_of_an_event_is_refused(rt: HostRuntime) {
    let error = refusal(rt.alloc(), CYCLE).expect(&rt, "a refusal");
    same(&rt, (error.line, error.cause), (9, ScriptCause::Cycle));
    let text = b"at 5\nunroute 10.0.0.0/8\nend\nroute 0.0.0.0/0 via x\n";
    let error = refusal(rt.alloc(), text).expect(&rt, "a refusal");
    same(
        &rt,
        (error.line, error.cause),
        (4, ScriptCause::UnknownAdjacency),
    );
}

/// Whether a master refuses the edits of a script on this line, for this cause.
fn is_refused(
    rt: &impl Abort,
    alloc: Global,
    master: &mut Master,
    text: &[u8],
    line: u32,
    cause: ScriptCause,
) -> bool {
    let script = parse_script(alloc, text).expect(rt, "a script");
    match master.apply(alloc, &script.start) {
        Ok(()) => false,
        Err(error) => error.line == line && error.cause == cause,
    }
}

#[test]
fn a_refused_group_changes_nothing(rt: HostRuntime) {
    let alloc = rt.alloc();
    let plan = plan_of(&rt, alloc, b"");
    holds(&rt, plan.generations() == 1);
    let mut master = master_of(&rt, alloc, &plan);
    let text = b"node a kind pass\nroute 10.0.0.0/8 drop\nunroute 11.0.0.0/8\n";
    holds(
        &rt,
        is_refused(&rt, alloc, &mut master, text, 3, ScriptCause::NoRoute),
    );
    holds(&rt, master.graph().nodes() == 9);
    holds(&rt, master.fib().routes().is_empty());
}

#[test]
fn generations_come_one_after_the_other(rt: HostRuntime) {
    let plan = plan_of(&rt, rt.alloc(), FLAP);
    let generations = Generations::of(rt.alloc(), &plan).expect(&rt, "memory");
    holds(&rt, leads(generations.master(), via_east()));
    holds(&rt, plan.generations() == 5);
    let later = generations.advance().expect(&rt, "memory");
    holds(&rt, leads(later.master(), Some(RouteTo::Drop)));
}
