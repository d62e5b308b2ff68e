//! Tests of the table of routes.

ghost use Rattle.std.specs.Prelude.{◌≤◌};

use crate::checks::{has_length, holds, same};
use std::alloc::Global;
use std::process::Abort;
use vg_fib::{Fib, FibError, Mtrie, NoSuchRoute, laws};
use vg_model::limits::MOST_ROUTES;
use vg_model::{Members, Prefix, RouteTo};

// 0.0.0.0/0, 10.0.0.0/8 and 10.1.0.0/16.
const EVERYWHERE: Prefix = Prefix { addr: 0, len: 0 };

const TEN: Prefix = Prefix {
    addr: 0x0a00_0000,
    len: 8,
};

const TEN_ONE: Prefix = Prefix {
    addr: 0x0a01_0000,
    len: 16,
};

// Over one adjacency.
fn via(number: u16) -> RouteTo {
    RouteTo::Via(Members::one(number))
}

// The prefix that covers one address alone.
fn host(address: u32) -> Prefix {
    Prefix {
        addr: address,
        len: 32,
    }
}

// These routes in this order of their places.
fn in_order(
    rt: &impl Abort,
    alloc: Global,
    routes: &[(Prefix, RouteTo)],
    order: &[usize],
) -> Vec<(Prefix, RouteTo)> {
    let mut ordered = Vec::new(alloc);
    for place in order {
        ordered
            .push(*routes.get(*place).expect(rt, "a place"))
            .expect(rt, "memory");
    }
    ordered
}

// Sets these routes in their order, and looks up three addresses in the table and in its copy.
fn find_in_order(rt: &impl Abort, alloc: Global, routes: &[(Prefix, RouteTo)]) {
    let mut fib = Fib::new(alloc).expect(rt, "memory");
    for (prefix, to) in routes {
        fib.set(*prefix, *to).expect(rt, "a route");
    }
    holds(rt, fib.routes() == routes);
    find_longest(rt, &fib);
    let copy = fib.copy().expect(rt, "memory");
    holds(rt, copy.routes() == routes);
    find_longest(rt, &copy);
}

fn find_longest(rt: &impl Abort, fib: &Fib) {
    same(rt, fib.find(0x0a01_0203), Some(via(16)));
    same(rt, fib.find(0x0a02_0001), Some(via(8)));
    same(rt, fib.find(0xc000_0201), Some(via(0)));
}

#[test]
fn the_longest_prefix_wins_in_any_order(rt: HostRuntime) {
    let alloc = rt.alloc();
    let routes = [(EVERYWHERE, via(0)), (TEN, via(8)), (TEN_ONE, via(16))];
    for order in [
        [0, 1, 2],
        [0, 2, 1],
        [1, 0, 2],
        [1, 2, 0],
        [2, 0, 1],
        [2, 1, 0],
    ] {
        find_in_order(&rt, alloc, &in_order(&rt, alloc, &routes, &order));
    }
}

#[test]
fn a_prefix_covers_from_its_first_address_to_its_last(rt: HostRuntime) {
    let mut fib = Fib::new(rt.alloc()).expect(&rt, "memory");
    same(&rt, fib.find(0x0a01_0000), None);
    fib.set(TEN_ONE, RouteTo::Local).expect(&rt, "a route");
    same(&rt, fib.find(0x0a00_ffff), None);
    same(&rt, fib.find(0x0a01_0000), Some(RouteTo::Local));
    same(&rt, fib.find(0x0a01_ffff), Some(RouteTo::Local));
    same(&rt, fib.find(0x0a02_0000), None);

    fib.set(host(0xffff_ffff), via(1)).expect(&rt, "a route");
    same(&rt, fib.find(0xffff_fffe), None);
    same(&rt, fib.find(0xffff_ffff), Some(via(1)));

    fib.set(EVERYWHERE, RouteTo::Drop).expect(&rt, "a route");
    same(&rt, fib.find(0), Some(RouteTo::Drop));
    same(&rt, fib.find(0x0a02_0000), Some(RouteTo::Drop));
    same(&rt, fib.find(0xffff_ffff), Some(via(1)));
}

#[test]
fn a_prefix_has_one_route_until_it_is_removed(rt: HostRuntime) {
    let mut fib = Fib::new(rt.alloc()).expect(&rt, "memory");
    same(&rt, fib.remove(TEN), Err(NoSuchRoute));
    fib.set(TEN, via(1)).expect(&rt, "a route");
    fib.set(TEN_ONE, via(2)).expect(&rt, "a route");
    fib.set(TEN, via(3)).expect(&rt, "a route");
    holds(
        &rt,
        fib.routes() == [(TEN, via(3)), (TEN_ONE, via(2))].as_slice(),
    );
    same(&rt, fib.find(0x0a01_0203), Some(via(2)));

    same(&rt, fib.remove(TEN_ONE), Ok(()));
    same(&rt, fib.remove(TEN_ONE), Err(NoSuchRoute));
    same(&rt, fib.find(0x0a01_0203), Some(via(3)));
    same(&rt, fib.remove(TEN), Ok(()));
    same(&rt, fib.find(0x0a01_0203), None);
    holds(&rt, fib.routes().is_empty());
}

#[test]
fn a_full_table_takes_known_prefixes_alone(rt: HostRuntime) {
    let mut fib = Fib::new(rt.alloc()).expect(&rt, "memory");
    for address in 0..4096 {
        fib.set(host(address), RouteTo::Local)
            .expect(&rt, "a route");
    }
    has_length(&rt, fib.routes().len(), MOST_ROUTES);
    same(
        &rt,
        fib.set(host(4096), RouteTo::Local),
        Err(FibError::TooMany),
    );
    has_length(&rt, fib.routes().len(), MOST_ROUTES);
    same(&rt, fib.find(4096), None);
    fib.set(host(4095), RouteTo::Drop).expect(&rt, "a route");
    same(&rt, fib.find(4095), Some(RouteTo::Drop));
    fib.remove(host(0)).expect(&rt, "a route");
    fib.set(host(4096), via(7)).expect(&rt, "a route");
    same(&rt, fib.find(4096), Some(via(7)));
}

#[test]
fn the_laws_are_called() {
    laws::covering_prefix_is_unique();
    laws::best_route_is_the_longest_match();
    laws::order_is_free();
    laws::set_route_is_found();
    laws::set_changes_only_covered();
    laws::remove_changes_only_covered();
}

// 10.1.0.0/17, 10.1.2.0/24, 10.1.2.128/25 and 10.1.2.3/32.
const HALF: Prefix = Prefix {
    addr: 0x0a01_0000,
    len: 17,
};

const NET: Prefix = Prefix {
    addr: 0x0a01_0200,
    len: 24,
};

const UPPER: Prefix = Prefix {
    addr: 0x0a01_0280,
    len: 25,
};

const HOST: Prefix = Prefix {
    addr: 0x0a01_0203,
    len: 32,
};

// Builds the trie of these routes, set in their order, and looks up an address on each level; where no prefix
// but the default route's covers it, this is the target.
fn build_in_order(
    rt: &impl Abort,
    alloc: Global,
    routes: &[(Prefix, RouteTo)],
    default: Option<RouteTo>,
) {
    let mut fib = Fib::new(alloc).expect(rt, "memory");
    for (prefix, to) in routes {
        fib.set(*prefix, *to).expect(rt, "a route");
    }
    let trie = Mtrie::build(alloc, &fib).expect(rt, "memory");
    same(rt, trie.find(0x0a01_0203), Some(RouteTo::Drop));
    same(rt, trie.find(0x0a01_0204), Some(via(1)));
    same(rt, trie.find(0x0a01_0280), Some(via(2)));
    same(rt, trie.find(0x0a01_7fff), Some(via(0)));
    holds(rt, trie.find(0x0a01_8000) == default);
    holds(rt, trie.find(0xffff_ffff) == default);
}

#[test]
fn a_trie_finds_the_longest_prefix_on_each_level(rt: HostRuntime) {
    let alloc = rt.alloc();
    let routes = [
        (HALF, via(0)),
        (NET, via(1)),
        (UPPER, via(2)),
        (HOST, RouteTo::Drop),
        (EVERYWHERE, RouteTo::Local),
    ];
    for (order, default) in [
        ([0, 1, 2, 3, 4].as_slice(), Some(RouteTo::Local)),
        ([4, 3, 2, 1, 0].as_slice(), Some(RouteTo::Local)),
        ([0, 1, 2, 3].as_slice(), None),
        ([3, 2, 1, 0].as_slice(), None),
    ] {
        build_in_order(&rt, alloc, &in_order(&rt, alloc, &routes, order), default);
    }
}

// The prefix of so many bits that covers an address.
fn prefix_of(address: u32, len: u8) -> Prefix
    requires { len ≤ 32 }
{
    let host_bits = 32 - len;
    Prefix {
        addr: ((u64::from(address) >> host_bits) << host_bits) as u32,
        len,
    }
}

#[test]
fn a_hash_picks_one_of_several_adjacencies(rt: HostRuntime) {
    let alloc = rt.alloc();
    let mut fib = Fib::new(alloc).expect(&rt, "memory");
    let two = Members::of(&[0, 1]).expect(&rt, "two");
    let three = Members::of(&[1, 1, 0]).expect(&rt, "three");
    fib.set(TEN_ONE, RouteTo::Via(two)).expect(&rt, "a route");
    let trie = Mtrie::build(alloc, &fib).expect(&rt, "memory");
    holds(&rt, picked(&trie, 0x0a01_0203, 0xcacb_cbc9) == Some(1));
    holds(&rt, picked(&trie, 0x0a01_020b, 0xcacb_cbc1) == Some(0));
    holds(&rt, picked(&trie, 0x0a02_0001, 0xcacb_cbc1).is_none());
    fib.set(TEN_ONE, RouteTo::Via(three)).expect(&rt, "a route");
    let trie = trie.renewed(alloc, &fib).expect(&rt, "memory");
    holds(&rt, picked(&trie, 0x0a01_0203, 0xcacb_cbc9) == Some(0));
    same(&rt, trie.find(0x0a01_0203), Some(RouteTo::Via(three)));
}

// The adjacency that a packet with this hash takes to an address.
fn picked(trie: &Mtrie, address: u32, hash: u32) -> Option<u16> {
    match trie.target(address) {
        Some(RouteTo::Via(members)) => Some(members.member(hash)),
        _ => None,
    }
}

// Whether trie and table answer the same.
fn agree(rt: &impl Abort, fib: &Fib, trie: &Mtrie, address: u32) {
    holds(rt, trie.find(address) == fib.find(address));
}

// Whether trie and table answer the same at the first and the last address of a prefix, and beside them.
fn agree_around(rt: &impl Abort, fib: &Fib, trie: &Mtrie, prefix: Prefix) {
    let first = prefix.addr;
    let last = first | (u64::from(u32::MAX) >> prefix.len) as u32;
    agree(rt, fib, trie, first);
    agree(rt, fib, trie, last);
    agree(rt, fib, trie, first.wrapping_sub(1));
    agree(rt, fib, trie, last.wrapping_add(1));
}

// The same for each prefix of the table.
fn agree_at_ends(rt: &impl Abort, fib: &Fib, trie: &Mtrie) {
    for (prefix, _) in fib.routes() {
        agree_around(rt, fib, trie, *prefix);
    }
}

#[test]
fn trie_and_table_agree_at_the_ends_of_each_prefix(rt: HostRuntime) {
    let alloc = rt.alloc();
    let mut fib = Fib::new(alloc).expect(&rt, "memory");
    // In each turn the next address of a generator and the next length; every second one lies in 10.1.0.0/16.
    let mut address: u32 = 0x0a01_0203;
    for turn in 0..8192_u32 {
        address = address.wrapping_mul(0x9e37_79b1).wrapping_add(0x7f4a_7c15);
        let near = if turn % 2 == 0 {
            address
        } else {
            0x0a01_0000 | (address >> 16)
        };
        if fib.routes().len() < MOST_ROUTES {
            fib.set(prefix_of(near, (turn % 33) as u8), via(turn as u16))
                .expect(&rt, "a route");
        }
    }
    has_length(&rt, fib.routes().len(), MOST_ROUTES);
    let trie = Mtrie::build(alloc, &fib).expect(&rt, "memory");
    agree_at_ends(&rt, &fib, &trie);
}

#[test]
fn a_trie_follows_its_table(rt: HostRuntime) {
    let alloc = rt.alloc();
    let mut fib = Fib::new(alloc).expect(&rt, "memory");
    fib.set(HOST, RouteTo::Drop).expect(&rt, "a route");
    fib.set(NET, via(1)).expect(&rt, "a route");
    let trie = Mtrie::build(alloc, &fib).expect(&rt, "memory");
    // A target changes, and prefixes come that lie under and over those that are there.
    fib.set(NET, via(5)).expect(&rt, "a route");
    fib.set(HALF, via(0)).expect(&rt, "a route");
    fib.set(UPPER, via(2)).expect(&rt, "a route");
    fib.set(EVERYWHERE, RouteTo::Local).expect(&rt, "a route");
    let trie = trie.renewed(alloc, &fib).expect(&rt, "memory");
    same(&rt, trie.find(0x0a01_0203), Some(RouteTo::Drop));
    same(&rt, trie.find(0x0a01_0204), Some(via(5)));
    same(&rt, trie.find(0x0a01_0280), Some(via(2)));
    same(&rt, trie.find(0x0a01_7fff), Some(via(0)));
    same(&rt, trie.find(0x0a01_8000), Some(RouteTo::Local));
    same(&rt, trie.find(0xffff_ffff), Some(RouteTo::Local));
    agree_at_ends(&rt, &fib, &trie);
    // Prefixes go.
    fib.remove(HOST).expect(&rt, "a route");
    fib.remove(EVERYWHERE).expect(&rt, "a route");
    let trie = trie.renewed(alloc, &fib).expect(&rt, "memory");
    same(&rt, trie.find(0x0a01_0203), Some(via(5)));
    same(&rt, trie.find(0x0a01_0280), Some(via(2)));
    same(&rt, trie.find(0x0a01_8000), None);
    agree_at_ends(&rt, &fib, &trie);
}

// The prefix of so many bits, modulo 33, around 10.1.2.3.
fn nested(bits: u32) -> Prefix {
    prefix_of(0x0a01_0203, (bits % 33) as u8)
}

// Sets the prefixes of 0 to 32 bits around an address, then removes them in the order of the multiples of this step.
fn remove_nested(rt: &impl Abort, alloc: Global, step: u32) {
    let mut fib = Fib::new(alloc).expect(rt, "memory");
    for bits in 0..33 {
        fib.set(nested(bits), via(bits as u16))
            .expect(rt, "a route");
    }
    let mut trie = Mtrie::build(alloc, &fib).expect(rt, "memory");
    for turn in 0..33_u32 {
        let prefix = nested(turn.wrapping_mul(step));
        fib.remove(prefix).expect(rt, "a route");
        trie = trie.renewed(alloc, &fib).expect(rt, "memory");
        let anew = Mtrie::build(alloc, &fib).expect(rt, "memory");
        agree_around(rt, &fib, &trie, prefix);
        agree_at_ends(rt, &fib, &trie);
        same(rt, trie.find(0x0a01_0203), anew.find(0x0a01_0203));
    }
}

#[test]
fn nested_prefixes_are_removed_from_the_shortest_on(rt: HostRuntime) {
    remove_nested(&rt, rt.alloc(), 1)
}

#[test]
fn nested_prefixes_are_removed_from_the_longest_on(rt: HostRuntime) {
    remove_nested(&rt, rt.alloc(), 32)
}

#[test]
fn nested_prefixes_are_removed_here_and_there(rt: HostRuntime) {
    remove_nested(&rt, rt.alloc(), 7);
    remove_nested(&rt, rt.alloc(), 20)
}

// Removes these routes in the order of their places, one a turn.
fn remove_in_order(rt: &impl Abort, alloc: Global, routes: &[(Prefix, RouteTo)], order: &[usize]) {
    let mut fib = Fib::new(alloc).expect(rt, "memory");
    for (prefix, to) in routes {
        fib.set(*prefix, *to).expect(rt, "a route");
    }
    let mut trie = Mtrie::build(alloc, &fib).expect(rt, "memory");
    for (prefix, _) in &in_order(rt, alloc, routes, order) {
        fib.remove(*prefix).expect(rt, "a route");
        trie = trie.renewed(alloc, &fib).expect(rt, "memory");
        for (other, _) in routes {
            agree_around(rt, &fib, &trie, *other);
        }
    }
}

#[test]
fn routes_are_removed_in_any_order(rt: HostRuntime) {
    let alloc = rt.alloc();
    let routes = [(EVERYWHERE, via(0)), (HALF, via(1)), (NET, via(2))];
    for order in [
        [0, 1, 2],
        [0, 2, 1],
        [1, 0, 2],
        [1, 2, 0],
        [2, 0, 1],
        [2, 1, 0],
    ] {
        remove_in_order(&rt, alloc, &routes, &order);
    }
}

#[test]
fn many_routes_are_removed_at_once(rt: HostRuntime) {
    let alloc = rt.alloc();
    let mut fib = Fib::new(alloc).expect(&rt, "memory");
    fib.set(EVERYWHERE, RouteTo::Local).expect(&rt, "a route");
    for address in 0..40 {
        fib.set(host(address), via(address as u16))
            .expect(&rt, "a route");
    }
    let trie = Mtrie::build(alloc, &fib).expect(&rt, "memory");
    // 16 are taken out in place; 17 more are too many for that.
    for address in 0..16 {
        fib.remove(host(address)).expect(&rt, "a route");
    }
    let trie = trie.renewed(alloc, &fib).expect(&rt, "memory");
    same(&rt, trie.find(15), Some(RouteTo::Local));
    agree_at_ends(&rt, &fib, &trie);
    for address in 16..33 {
        fib.remove(host(address)).expect(&rt, "a route");
    }
    let trie = trie.renewed(alloc, &fib).expect(&rt, "memory");
    same(&rt, trie.find(32), Some(RouteTo::Local));
    same(&rt, trie.find(33), Some(via(33)));
    agree_at_ends(&rt, &fib, &trie);
}

#[test]
fn a_removed_prefix_comes_again(rt: HostRuntime) {
    let alloc = rt.alloc();
    let mut fib = Fib::new(alloc).expect(&rt, "memory");
    fib.set(TEN, via(1)).expect(&rt, "a route");
    fib.set(NET, via(2)).expect(&rt, "a route");
    fib.set(HOST, via(3)).expect(&rt, "a route");
    let mut trie = Mtrie::build(alloc, &fib).expect(&rt, "memory");
    for turn in 4..8 {
        fib.remove(NET).expect(&rt, "a route");
        fib.set(NET, via(turn)).expect(&rt, "a route");
        trie = trie.renewed(alloc, &fib).expect(&rt, "memory");
        same(&rt, trie.find(0x0a01_0204), Some(via(turn)));
        same(&rt, trie.find(0x0a01_0203), Some(via(3)));
        agree_at_ends(&rt, &fib, &trie);
    }
}

#[test]
fn a_table_is_renewed_from_another(rt: HostRuntime) {
    let alloc = rt.alloc();
    let mut fib = Fib::new(alloc).expect(&rt, "memory");
    fib.set(TEN, via(1)).expect(&rt, "a route");
    fib.set(TEN_ONE, via(2)).expect(&rt, "a route");
    let mut other = Fib::new(alloc).expect(&rt, "memory");
    other.set(HOST, RouteTo::Drop).expect(&rt, "a route");
    let mut other = other.renewed(&fib).expect(&rt, "memory");
    holds(&rt, other.routes() == fib.routes());
    other.set(TEN, RouteTo::Local).expect(&rt, "a route");
    same(&rt, other.find(0x0a02_0001), Some(RouteTo::Local));
    same(&rt, fib.find(0x0a02_0001), Some(via(1)));
}

#[test]
fn errors_say_what_is_wrong(rt: HostRuntime) {
    let alloc = rt.alloc();
    let full = format!(in alloc; "{}", FibError::TooMany).expect(&rt, "memory");
    same(&rt, full.as_str(), "the table has 4096 routes");
    let memory = format!(in alloc; "{}", FibError::Memory).expect(&rt, "memory");
    same(&rt, memory.as_str(), "memory ran out");
    let missing = format!(in alloc; "{}", NoSuchRoute).expect(&rt, "memory");
    same(&rt, missing.as_str(), "the prefix has no route");
}
