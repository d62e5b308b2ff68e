//! Tests of forks.

use crate::checks::{has_length, holds, same};
use std::alloc::Global;
use std::process::Abort;
use vg_fib::{Fib, Fib6};
use vg_fork::Fork;
use vg_graph::Graph;
use vg_model::{Edit, Kind, Mac, Members, Name, Prefix, Prefix6, RouteTo};

fn name(rt: &impl Abort, text: &str) -> Name {
    Name::of(text.as_bytes()).expect(rt, "a name")
}

// The prefixes 2001:db8::/32 and 10.0.0.0/8, and those of all addresses.
const SITE: Prefix6 = Prefix6 {
    addr: 0x2001_0db8_0000_0000_0000_0000_0000_0000,
    len: 32,
};

const TEN: Prefix = Prefix {
    addr: 0x0a00_0000,
    len: 8,
};

const ALL: Prefix = Prefix { addr: 0, len: 0 };

const ALL6: Prefix6 = Prefix6 { addr: 0, len: 0 };

// What forks are made of.
#[derive(Drop)]
struct Tables {
    graph: Graph,
    fib: Fib,
    fib6: Fib6,
}

impl Tables {
    // The graph that a run starts from, with no routes.
    fn start(rt: &impl Abort, alloc: Global) -> Tables {
        Tables {
            graph: Graph::start(alloc).expect(rt, "memory"),
            fib: Fib::new(alloc).expect(rt, "memory"),
            fib6: Fib6::new(alloc).expect(rt, "memory"),
        }
    }

    // The same with one neighbor.
    fn with_neighbor(rt: &impl Abort, alloc: Global) -> Tables {
        let mut tables = Tables::start(rt, alloc);
        tables
            .graph
            .apply(&Edit::Adjacency {
                name: name(rt, "east"),
                interface: name(rt, "pg0"),
                mac: Mac([0x02, 0, 0, 0, 0, 9]),
            })
            .expect(rt, "no refusal");
        tables
    }

    fn set(&mut self, rt: &impl Abort, prefix: Prefix, to: RouteTo) {
        self.fib.set(prefix, to).expect(rt, "a route");
    }

    fn set6(&mut self, rt: &impl Abort, prefix: Prefix6, to: RouteTo) {
        self.fib6.set(prefix, to).expect(rt, "a route");
    }

    fn fork(&self, rt: &impl Abort, alloc: Global, generation: u32) -> Fork {
        Fork::of(alloc, &self.graph, &self.fib, &self.fib6, generation).expect(rt, "memory")
    }

    // The fork of a later generation, made from another one.
    fn renewed(&self, rt: &impl Abort, alloc: Global, fork: Fork, generation: u32) -> Fork {
        fork.renewed(alloc, &self.graph, &self.fib, &self.fib6, generation)
            .expect(rt, "memory")
    }
}

#[test]
fn a_fork_reads_as_its_graph(rt: HostRuntime) {
    let tables = Tables::with_neighbor(&rt, rt.alloc());
    let fork = tables.fork(&rt, rt.alloc(), 3);
    same(&rt, fork.generation(), 3);
    has_length(&rt, usize::from(fork.nodes()), 9);
    has_length(&rt, usize::from(fork.interfaces()), 1);
    has_length(&rt, usize::from(fork.adjacencies()), 1);
    same(&rt, fork.kind(7), Kind::InterfaceTx);
    holds(&rt, fork.kind(5).slots() > 0);
    same(&rt, fork.arc(5, 0), 6);
    same(&rt, fork.interface(0).mac, Mac([0x02, 0xfe, 0, 0, 0, 0]));
    same(&rt, fork.adjacency(0).mac, Mac([0x02, 0, 0, 0, 0, 9]));
}

// Whether these are found for 10.1.2.3 and 192.0.2.1, for copies and for what lies in the fork.
fn finds(fork: &Fork, near: Option<RouteTo>, far: Option<RouteTo>) -> bool {
    fork.find(0x0a01_0203) == near
        && fork.target(0x0a01_0203).copied() == near
        && fork.find(0xc000_0201) == far
        && fork.target(0xc000_0201).copied() == far
}

// The same for 2001:db8:: and the last IPv6 address.
fn finds6(fork: &Fork, near: Option<RouteTo>, far: Option<RouteTo>) -> bool {
    fork.find6(SITE.addr) == near
        && fork.target6(SITE.addr).copied() == near
        && fork.find6(u128::MAX) == far
        && fork.target6(u128::MAX).copied() == far
}

// A route over these adjacencies.
fn via(rt: &impl Abort, numbers: &[u16]) -> RouteTo {
    RouteTo::Via(Members::of(numbers).expect(rt, "1 to 16 adjacencies"))
}

#[test]
fn a_fork_finds_the_routes_of_its_tables(rt: HostRuntime) {
    let mut tables = Tables::with_neighbor(&rt, rt.alloc());
    tables.set(&rt, ALL, via(&rt, &[0]));
    tables.set(&rt, TEN, RouteTo::Drop);
    tables.set6(&rt, SITE, via(&rt, &[0, 0]));
    let fork = tables.fork(&rt, rt.alloc(), 0);
    let far = Some(via(&rt, &[0]));
    holds(&rt, finds(&fork, Some(RouteTo::Drop), far));
    let near = Some(via(&rt, &[0, 0]));
    holds(&rt, finds6(&fork, near, None));
}

#[test]
fn a_shared_trie_is_not_changed(rt: HostRuntime) {
    let alloc = rt.alloc();
    let mut tables = Tables::start(&rt, alloc);
    tables.set(&rt, TEN, RouteTo::Drop);
    let first = tables.fork(&rt, alloc, 0);
    let other = first.shared(alloc).expect(&rt, "memory");
    // While another fork of its generation is there a fork leaves the trie to it.
    tables.set(&rt, TEN, RouteTo::Local);
    let second = tables.renewed(&rt, alloc, first, 1);
    same(&rt, (other.generation(), second.generation()), (0, 1));
    holds(&rt, finds(&other, Some(RouteTo::Drop), None));
    holds(&rt, finds(&second, Some(RouteTo::Local), None));
    // The last fork of a generation has the trie alone.
    tables.set(&rt, ALL, RouteTo::Drop);
    let third = tables.renewed(&rt, alloc, other, 2);
    same(&rt, (third.generation(), third.nodes()), (2, 9));
    let dropped = Some(RouteTo::Drop);
    holds(&rt, finds(&third, Some(RouteTo::Local), dropped));
    holds(&rt, finds(&second, Some(RouteTo::Local), None));
}

#[test]
fn shared_spans_are_not_changed(rt: HostRuntime) {
    let alloc = rt.alloc();
    let mut tables = Tables::start(&rt, alloc);
    tables.set6(&rt, SITE, RouteTo::Drop);
    let first = tables.fork(&rt, alloc, 0);
    let other = first.shared(alloc).expect(&rt, "memory");
    tables.set6(&rt, SITE, RouteTo::Local);
    let second = tables.renewed(&rt, alloc, first, 1);
    holds(&rt, finds6(&other, Some(RouteTo::Drop), None));
    holds(&rt, finds6(&second, Some(RouteTo::Local), None));
    tables.set6(&rt, ALL6, RouteTo::Drop);
    let third = tables.renewed(&rt, alloc, other, 2);
    let dropped = Some(RouteTo::Drop);
    holds(&rt, finds6(&third, Some(RouteTo::Local), dropped));
    holds(&rt, finds6(&second, Some(RouteTo::Local), None));
}

// Forks go from one thread to another.
fn is_sent<T: Send + Sync>(_value: &T) {}

#[test]
fn a_fork_can_go_to_another_thread(rt: HostRuntime) {
    let fork = Tables::start(&rt, rt.alloc()).fork(&rt, rt.alloc(), 0);
    is_sent(&fork);
}
