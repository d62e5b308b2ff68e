//! Tests of routes over several adjacencies and of IPv6 routes, in plans.

use crate::checks::{holds, same};
use std::alloc::Global;
use std::process::Abort;
use vg_model::{Members, Prefix6, RouteTo};
use vg_plan::*;
use vg_script::{ScriptCause, ScriptError, parse_script};

// Two neighbors, routes over both, and changes of the IPv6 routes.
const BOTH: &[u8] =
    b"adjacency e0 interface pg0 dst 02:00:00:00:00:10\nadjacency e1 interface pg0 dst 02:00:00:00:00:11\nroute 10.1.0.0/16 via e1,e1,e0\nroute6 2001:db8::/32 via e0,e1\nat 10\nroute6 ::/0 local\nend\nat 20\nunroute6 2001:db8::/32\nroute6 ::/0 via e1\nend\n";

// 2001:db8::1
const ADDRESS: u128 = 0x2001_0db8_0000_0000_0000_0000_0000_0001;

// The plan of a text, or its refusal.
fn planned(alloc: Global, text: &[u8]) -> Result<Plan, ScriptError> {
    Plan::new(alloc, parse_script(alloc, text)?)
}

// Over these adjacencies.
fn via(numbers: &[u16]) -> Option<RouteTo> {
    Members::of(numbers).map(RouteTo::Via)
}

// Whether these are the routes of 10.1.2.3, of 2001:db8::1 and of ::.
fn finds(
    master: &Master,
    ten: Option<RouteTo>,
    site: Option<RouteTo>,
    everywhere: Option<RouteTo>,
) -> bool {
    master.fib().find(0x0a01_0203) == ten
        && master.fib6().find(ADDRESS) == site
        && master.fib6().find(0) == everywhere
}

#[test]
fn routes_lead_over_several_adjacencies(rt: HostRuntime) {
    let alloc = rt.alloc();
    let plan = planned(alloc, BOTH).expect(&rt, "a plan");
    let mut generations = Generations::of(alloc, &plan).expect(&rt, "memory");
    holds(
        &rt,
        finds(generations.master(), via(&[1, 1, 0]), via(&[0, 1]), None),
    );
    holds(&rt, plan.generations() == 3);
    generations = generations.advance().expect(&rt, "memory");
    let local = Some(RouteTo::Local);
    holds(
        &rt,
        finds(generations.master(), via(&[1, 1, 0]), via(&[0, 1]), local),
    );
    generations = generations.advance().expect(&rt, "memory");
    holds(
        &rt,
        finds(generations.master(), via(&[1, 1, 0]), via(&[1]), via(&[1])),
    );
}

// A plan is refused on this line, for this cause.
fn assert_refused(rt: &impl Abort, alloc: Global, text: &[u8], line: u32, cause: ScriptCause) {
    let error = planned(alloc, text).err().expect(rt, "a refusal");
    same(rt, (error.line, error.cause), (line, cause));
}

#[test]
fn unknown_adjacencies_and_prefixes_are_refused(rt: HostRuntime) {
    let alloc = rt.alloc();
    assert_refused(
        &rt,
        alloc,
        b"adjacency e0 interface pg0 dst 02:00:00:00:00:10\nroute 10.0.0.0/8 via e0,e0,e1\n",
        2,
        ScriptCause::UnknownAdjacency,
    );
    assert_refused(
        &rt,
        alloc,
        b"route6 ::/0 via e0\n",
        1,
        ScriptCause::UnknownAdjacency,
    );
    assert_refused(
        &rt,
        alloc,
        b"route 0.0.0.0/0 local\nunroute6 ::/0\n",
        2,
        ScriptCause::NoRoute,
    )
}

// 2001:db8::/32.
const SITE: Prefix6 = Prefix6 {
    addr: 0x2001_0db8_0000_0000_0000_0000_0000_0000,
    len: 32,
};

// Whether this is the only IPv6 route, to the router itself.
fn has_the_site_alone(master: &Master) -> bool {
    match master.fib6().routes() {
        [(prefix, to)] => *prefix == SITE && *to == RouteTo::Local,
        _ => false,
    }
}

#[test]
fn a_refused_group_changes_no_ip6_route(rt: HostRuntime) {
    let alloc = rt.alloc();
    let plan = planned(alloc, b"route6 2001:db8::/32 local\n").expect(&rt, "a plan");
    let text = b"route6 ::/0 drop\nunroute6 ::1/128\n";
    let script = parse_script(alloc, text).expect(&rt, "a script");
    let mut master = Master::new(alloc, &plan).expect(&rt, "memory");
    let error = master
        .apply(alloc, &script.start)
        .err()
        .expect(&rt, "a refusal");
    holds(&rt, error.line == 2 && error.cause == ScriptCause::NoRoute);
    holds(&rt, has_the_site_alone(&master));
}
