//! Each call once, with values that were worked out by hand.
ghost use Rattle.std.specs.Prelude.{◌≡◌};
ghost use Rattle.vg_counters.specs.Notes.{nothing_noted};
ghost use Rattle.vg_counters.specs.Tally.{nothing_counted};

use crate::checks::{has_length, same};
use std::alloc::Global;
use std::process::Abort;
use vg_counters::{Counters, MOST_NOTED, Trace, TraceLists, merge, total};
use vg_model::DropError;

// Counters of so many nodes and interfaces.
fn counters_of(rt: &impl Abort, alloc: Global, nodes: u16, interfaces: u16) -> Counters
    ensures { result ≡ nothing_counted nodes interfaces }
{
    Counters::new(alloc, nodes, interfaces).expect(rt, "memory")
}

// A trace of so many packets.
fn trace_of(rt: &impl Abort, alloc: Global, packets: u32) -> Trace
    ensures { result ≡ nothing_noted packets }
{
    Trace::new(alloc, packets).expect(rt, "memory")
}

#[test]
fn each_count_stands_at_its_own_place(rt: HostRuntime) {
    let mut counters = counters_of(&rt, rt.alloc(), 3, 2);
    counters.visit(1, 40);
    counters.visit(1, 2);
    counters.dropped(2, DropError::WrongMac);
    counters.sent(1);
    same(&rt, counters.visits(1), 42);
    same(&rt, counters.visits(2), 0);
    same(&rt, counters.drops(2, DropError::WrongMac), 1);
    same(&rt, counters.drops(2, DropError::BadVersion), 0);
    same(&rt, counters.drops(1, DropError::WrongMac), 0);
    same(&rt, counters.sends(1), 1);
    same(&rt, counters.sends(0), 0);
}

#[test]
fn two_workers_are_summed_by_place(rt: HostRuntime) {
    let mut first = counters_of(&rt, rt.alloc(), 2, 1);
    first.visit(0, 3);
    first.sent(0);
    let mut second = counters_of(&rt, rt.alloc(), 2, 1);
    second.visit(0, 4);
    second.visit(1, 5);
    second.dropped(1, DropError::Short);
    let Ok(whole) = total(rt.alloc(), &[first, second]) else {
        panic!(rt; "no memory")
    };
    same(&rt, whole.visits(0), 7);
    same(&rt, whole.visits(1), 5);
    same(&rt, whole.drops(1, DropError::Short), 1);
    same(&rt, whole.sends(0), 1);
}

#[test]
fn nodes_of_two_workers_stand_leg_by_leg(rt: HostRuntime) {
    let mut first = trace_of(&rt, rt.alloc(), 2);
    let mut second = trace_of(&rt, rt.alloc(), 2);
    // The first packet begins on the first worker and is handed to the second; the other goes the other way.
    first.note(0, 1, 0);
    first.note(0, 1, 2);
    second.note(0, 2, 1);
    second.note(0, 2, 7);
    second.note(1, 1, 0);
    second.note(1, 1, 9);
    first.note(1, 2, 1);
    first.note(1, 2, 8);
    // A third packet is not traced.
    first.note(2, 1, 5);
    let lists = merge(rt.alloc(), &[first, second])
        .expect(&rt, "memory")
        .into_vec();
    has_length(&rt, lists.len(), 2);
    same(&rt, lists[0].as_slice(), [0, 2, 1, 7].as_slice());
    same(&rt, lists[1].as_slice(), [0, 9, 1, 8].as_slice());
}

#[test]
fn the_69th_node_of_a_leg_is_not_noted(rt: HostRuntime) {
    let mut trace = trace_of(&rt, rt.alloc(), 1);
    same(&rt, trace.packets(), 1);
    for node in 0..69 {
        trace.note(0, 4, node);
    }
    let lists = merge(rt.alloc(), &[trace]).expect(&rt, "memory");
    let lists = lists.as_slice();
    has_length(&rt, lists.len(), 1);
    same(&rt, lists[0].len(), MOST_NOTED);
    same(&rt, lists[0].last().copied(), Some(67));
}

#[test]
fn lists_are_given_back(rt: HostRuntime) {
    let nodes = [4, 5].to_vec(rt.alloc()).expect(&rt, "memory");
    let lists = vec![in rt.alloc(); nodes].expect(&rt, "memory");
    let lists = TraceLists::from_vec(lists).into_vec();
    has_length(&rt, lists.len(), 1);
    same(&rt, lists[0].as_slice(), [4, 5].as_slice());
}
