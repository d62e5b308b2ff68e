//! Tests of the table of IPv6 routes, and of its spans.

ghost use Rattle.std.specs.Prelude.{◌≤◌};

use crate::checks::{has_length, holds, same};
use std::alloc::Global;
use std::process::Abort;
use vg_fib::{Fib6, FibError, NoSuchRoute, Spans6};
use vg_model::limits::MOST_ROUTES;
use vg_model::{Members, Prefix6, RouteTo};

// ::/0, 2001:db8::/32, 2001:db8:1::/48, 2001:db8:1:2::/64, 2001:db8:1:2::8/127 and 2001:db8:1:2::8/128.
const EVERYWHERE: Prefix6 = Prefix6 { addr: 0, len: 0 };

const SITE: Prefix6 = Prefix6 {
    addr: 0x2001_0db8_0000_0000_0000_0000_0000_0000,
    len: 32,
};

const NET: Prefix6 = Prefix6 {
    addr: 0x2001_0db8_0001_0000_0000_0000_0000_0000,
    len: 48,
};

const LINK: Prefix6 = Prefix6 {
    addr: 0x2001_0db8_0001_0002_0000_0000_0000_0000,
    len: 64,
};

const PAIR: Prefix6 = Prefix6 {
    addr: 0x2001_0db8_0001_0002_0000_0000_0000_0008,
    len: 127,
};

const HOST: Prefix6 = Prefix6 {
    addr: 0x2001_0db8_0001_0002_0000_0000_0000_0008,
    len: 128,
};

// Over one adjacency.
fn via(number: u16) -> RouteTo {
    RouteTo::Via(Members::one(number))
}

// The prefix that covers one address alone.
fn host(address: u128) -> Prefix6 {
    Prefix6 {
        addr: address,
        len: 128,
    }
}

// The longest match by a plain scan, which counts the bits that an address has in common with each prefix.
fn scan(routes: &[(Prefix6, RouteTo)], address: u128) -> Option<RouteTo> {
    let mut best: Option<(u8, RouteTo)> = None;
    for (prefix, to) in routes {
        let common = (prefix.addr ^ address).leading_zeros();
        let longer = match best {
            Some((len, _)) => prefix.len > len,
            None => true,
        };
        if common >= u32::from(prefix.len) && longer {
            best = Some((prefix.len, *to));
        }
    }
    best.map(|best| best.1)
}

// The routes of the six prefixes, in the order of this number.
fn in_order(rt: &impl Abort, alloc: Global, number: usize) -> Vec<(Prefix6, RouteTo)> {
    let mut left = vec![in alloc;
        (EVERYWHERE, via(0)),
        (SITE, via(1)),
        (NET, RouteTo::Drop),
        (LINK, via(3)),
        (PAIR, RouteTo::Local),
        (HOST, via(5)),
    ]
    .expect(rt, "memory");
    let mut routes = Vec::new(alloc);
    let mut number = number;
    for _ in 0..6 {
        let len = left.len();
        if len > 0 {
            routes.push(left.remove(number % len)).expect(rt, "memory");
            number /= len;
        }
    }
    routes
}

// Whether table, spans and scan answer the same.
fn agree(rt: &impl Abort, fib: &Fib6, spans: &Spans6, address: u128) {
    let plain = scan(fib.routes(), address);
    holds(rt, fib.find(address) == plain);
    holds(rt, spans.find(address) == plain);
    holds(rt, spans.target(address).copied() == plain);
}

// Whether spans and table answer the same at the first and the last address of a prefix, and beside them.
fn agree_around(rt: &impl Abort, fib: &Fib6, spans: &Spans6, prefix: Prefix6) {
    let first = prefix.addr;
    let last = if prefix.len == 128 {
        first
    } else {
        first | (u128::MAX >> prefix.len)
    };
    agree(rt, fib, spans, first);
    agree(rt, fib, spans, last);
    agree(rt, fib, spans, first.wrapping_sub(1));
    agree(rt, fib, spans, last.wrapping_add(1));
}

// Whether they answer the same at the first and the last address of each prefix, and beside them.
fn agree_at_ends(rt: &impl Abort, fib: &Fib6, spans: &Spans6) {
    for (prefix, _) in fib.routes() {
        agree_around(rt, fib, spans, *prefix);
    }
    agree(rt, fib, spans, 0);
    agree(rt, fib, spans, u128::MAX);
}

#[test]
fn the_longest_prefix_wins_in_any_order(rt: HostRuntime) {
    let alloc = rt.alloc();
    for number in 0..720 {
        let routes = in_order(&rt, alloc, number);
        let mut fib = Fib6::new(alloc).expect(&rt, "memory");
        for (prefix, to) in &routes {
            fib.set(*prefix, *to).expect(&rt, "a route");
        }
        holds(&rt, fib.routes() == routes.as_slice());
        let copy = fib.copy().expect(&rt, "memory");
        holds(&rt, copy.routes() == routes.as_slice());
        let spans = Spans6::build(alloc, &copy).expect(&rt, "memory");
        agree_at_ends(&rt, &fib, &spans);
        same(&rt, spans.find(HOST.addr), Some(via(5)));
        same(&rt, spans.find(HOST.addr + 1), Some(RouteTo::Local));
        same(&rt, spans.find(HOST.addr + 2), Some(via(3)));
        same(&rt, spans.find(NET.addr), Some(RouteTo::Drop));
        same(&rt, spans.find(SITE.addr), Some(via(1)));
        same(&rt, spans.find(u128::MAX), Some(via(0)));
    }
}

#[test]
fn prefixes_end_with_the_addresses(rt: HostRuntime) {
    let alloc = rt.alloc();
    let mut fib = Fib6::new(alloc).expect(&rt, "memory");
    let spans = Spans6::build(alloc, &fib).expect(&rt, "memory");
    same(&rt, spans.find(0), None);
    same(&rt, spans.find(u128::MAX), None);
    fib.set(host(u128::MAX), via(1)).expect(&rt, "a route");
    fib.set(host(0), via(2)).expect(&rt, "a route");
    // The upper half of all addresses.
    let half = Prefix6 {
        addr: 1 << 127,
        len: 1,
    };
    fib.set(half, via(3)).expect(&rt, "a route");
    let spans = spans.renewed(&fib).expect(&rt, "memory");
    same(&rt, spans.find(u128::MAX), Some(via(1)));
    same(&rt, spans.find(u128::MAX - 1), Some(via(3)));
    same(&rt, spans.find(1 << 127), Some(via(3)));
    same(&rt, spans.find((1 << 127) - 1), None);
    same(&rt, spans.find(1), None);
    same(&rt, spans.find(0), Some(via(2)));
    agree_at_ends(&rt, &fib, &spans);
    fib.set(EVERYWHERE, RouteTo::Drop).expect(&rt, "a route");
    let spans = spans.renewed(&fib).expect(&rt, "memory");
    same(&rt, spans.find(1), Some(RouteTo::Drop));
    same(&rt, spans.find((1 << 127) - 1), Some(RouteTo::Drop));
    agree_at_ends(&rt, &fib, &spans);
}

#[test]
fn a_prefix_has_one_route_until_it_is_removed(rt: HostRuntime) {
    let mut fib = Fib6::new(rt.alloc()).expect(&rt, "memory");
    same(&rt, fib.remove(SITE), Err(NoSuchRoute));
    fib.set(SITE, via(1)).expect(&rt, "a route");
    fib.set(NET, via(2)).expect(&rt, "a route");
    fib.set(SITE, via(3)).expect(&rt, "a route");
    holds(
        &rt,
        fib.routes() == [(SITE, via(3)), (NET, via(2))].as_slice(),
    );
    same(&rt, fib.find(LINK.addr), Some(via(2)));
    same(&rt, fib.remove(NET), Ok(()));
    same(&rt, fib.remove(NET), Err(NoSuchRoute));
    same(&rt, fib.find(LINK.addr), Some(via(3)));
    same(&rt, fib.remove(SITE), Ok(()));
    same(&rt, fib.find(LINK.addr), None);
    holds(&rt, fib.routes().is_empty());
}

#[test]
fn a_full_table_takes_known_prefixes_alone(rt: HostRuntime) {
    let mut fib = Fib6::new(rt.alloc()).expect(&rt, "memory");
    for number in 0..4096_u32 {
        fib.set(host(u128::from(number) << 64), RouteTo::Local)
            .expect(&rt, "a route");
    }
    has_length(&rt, fib.routes().len(), MOST_ROUTES);
    same(&rt, fib.set(SITE, RouteTo::Local), Err(FibError::TooMany));
    has_length(&rt, fib.routes().len(), MOST_ROUTES);
    same(&rt, fib.find(SITE.addr), None);
    fib.set(host(0), RouteTo::Drop).expect(&rt, "a route");
    same(&rt, fib.find(0), Some(RouteTo::Drop));
    fib.remove(host(0)).expect(&rt, "a route");
    fib.set(SITE, via(7)).expect(&rt, "a route");
    same(&rt, fib.find(LINK.addr), Some(via(7)));
}

#[test]
fn spans_follow_their_table(rt: HostRuntime) {
    let alloc = rt.alloc();
    let mut fib = Fib6::new(alloc).expect(&rt, "memory");
    fib.set(HOST, RouteTo::Drop).expect(&rt, "a route");
    fib.set(LINK, via(1)).expect(&rt, "a route");
    let spans = Spans6::build(alloc, &fib).expect(&rt, "memory");
    // A target changes, and prefixes come that lie under and over those that are there.
    fib.set(LINK, via(5)).expect(&rt, "a route");
    fib.set(NET, via(0)).expect(&rt, "a route");
    fib.set(PAIR, via(2)).expect(&rt, "a route");
    fib.set(EVERYWHERE, RouteTo::Local).expect(&rt, "a route");
    let spans = spans.renewed(&fib).expect(&rt, "memory");
    same(&rt, spans.find(HOST.addr), Some(RouteTo::Drop));
    same(&rt, spans.find(HOST.addr + 1), Some(via(2)));
    same(&rt, spans.find(LINK.addr), Some(via(5)));
    same(&rt, spans.find(NET.addr), Some(via(0)));
    same(&rt, spans.find(SITE.addr), Some(RouteTo::Local));
    agree_at_ends(&rt, &fib, &spans);
    // Prefixes go.
    fib.remove(HOST).expect(&rt, "a route");
    fib.remove(EVERYWHERE).expect(&rt, "a route");
    let spans = spans.renewed(&fib).expect(&rt, "memory");
    same(&rt, spans.find(HOST.addr), Some(via(2)));
    same(&rt, spans.find(SITE.addr), None);
    agree_at_ends(&rt, &fib, &spans);
}

// The prefix of so many bits that covers an address.
fn prefix_of(address: u128, len: u8) -> Prefix6
    requires { len ≤ 128 }
{
    if len == 0 {
        return EVERYWHERE;
    }
    let host_bits = 128 - len;
    Prefix6 {
        addr: (address >> host_bits) << host_bits,
        len,
    }
}

#[test]
fn spans_and_table_agree_at_the_ends_of_each_prefix(rt: HostRuntime) {
    let alloc = rt.alloc();
    let mut fib = Fib6::new(alloc).expect(&rt, "memory");
    // In each turn the next address of a generator and the next length; every second one lies in 2001:db8::/32.
    let mut low: u64 = 0x0a01_0203;
    for turn in 0..1024_u32 {
        low = low
            .wrapping_mul(0x9e37_79b9_7f4a_7c15)
            .wrapping_add(0x7f4a_7c15);
        let high = low.wrapping_mul(0xbf58_476d_1ce4_e5b9);
        let address = (u128::from(high) << 64) | u128::from(low);
        let near = if turn % 2 == 0 {
            address
        } else {
            SITE.addr | (address >> 32)
        };
        fib.set(prefix_of(near, (turn % 129) as u8), via(turn as u16))
            .expect(&rt, "a route");
    }
    let spans = Spans6::build(alloc, &fib).expect(&rt, "memory");
    agree_at_ends(&rt, &fib, &spans);
}

// The prefix of so many bits, modulo 129, around the one host.
fn nested(bits: u32) -> Prefix6 {
    prefix_of(HOST.addr, (bits % 129) as u8)
}

// Sets the prefixes of 0 to 128 bits around an address, then removes them in the order of the multiples of this step.
fn remove_nested(rt: &impl Abort, alloc: Global, step: u32) {
    let mut fib = Fib6::new(alloc).expect(rt, "memory");
    for bits in 0..129 {
        fib.set(nested(bits), via(bits as u16))
            .expect(rt, "a route");
    }
    let mut spans = Spans6::build(alloc, &fib).expect(rt, "memory");
    for turn in 0..129_u32 {
        let prefix = nested(turn.wrapping_mul(step));
        fib.remove(prefix).expect(rt, "a route");
        spans = spans.renewed(&fib).expect(rt, "memory");
        agree_around(rt, &fib, &spans, prefix);
        agree(rt, &fib, &spans, HOST.addr);
    }
    let anew = Spans6::build(alloc, &fib).expect(rt, "memory");
    same(rt, spans.find(HOST.addr), anew.find(HOST.addr));
}

#[test]
fn nested_prefixes_are_removed_from_the_shortest_on(rt: HostRuntime) {
    remove_nested(&rt, rt.alloc(), 1)
}

#[test]
fn nested_prefixes_are_removed_from_the_longest_on(rt: HostRuntime) {
    remove_nested(&rt, rt.alloc(), 128)
}

#[test]
fn nested_prefixes_are_removed_here_and_there(rt: HostRuntime) {
    remove_nested(&rt, rt.alloc(), 50)
}

// Sets six routes, removes them in this order of their places, one a turn, and sets the first one again.
fn remove_in_order(rt: &impl Abort, alloc: Global, number: usize) {
    let routes = in_order(rt, alloc, 0);
    let mut fib = Fib6::new(alloc).expect(rt, "memory");
    for (prefix, to) in &routes {
        fib.set(*prefix, *to).expect(rt, "a route");
    }
    let mut spans = Spans6::build(alloc, &fib).expect(rt, "memory");
    for (prefix, _) in &in_order(rt, alloc, number) {
        fib.remove(*prefix).expect(rt, "a route");
        spans = spans.renewed(&fib).expect(rt, "memory");
        for (other, _) in &routes {
            agree_around(rt, &fib, &spans, *other);
        }
    }
    fib.set(HOST, via(9)).expect(rt, "a route");
    let spans = spans.renewed(&fib).expect(rt, "memory");
    agree_around(rt, &fib, &spans, HOST);
}

#[test]
fn routes_are_removed_in_any_order(rt: HostRuntime) {
    let alloc = rt.alloc();
    for number in 0..720 {
        remove_in_order(&rt, alloc, number);
    }
}

#[test]
fn many_routes_are_removed_at_once(rt: HostRuntime) {
    let alloc = rt.alloc();
    let mut fib = Fib6::new(alloc).expect(&rt, "memory");
    fib.set(EVERYWHERE, RouteTo::Local).expect(&rt, "a route");
    for address in 0..40_u16 {
        fib.set(host(u128::from(address)), via(address))
            .expect(&rt, "a route");
    }
    let spans = Spans6::build(alloc, &fib).expect(&rt, "memory");
    // 16 are taken out in place; 17 more are too many for that.
    for address in 0..16_u16 {
        fib.remove(host(u128::from(address))).expect(&rt, "a route");
    }
    let spans = spans.renewed(&fib).expect(&rt, "memory");
    same(&rt, spans.find(15), Some(RouteTo::Local));
    agree_at_ends(&rt, &fib, &spans);
    for address in 16..33_u16 {
        fib.remove(host(u128::from(address))).expect(&rt, "a route");
    }
    let spans = spans.renewed(&fib).expect(&rt, "memory");
    same(&rt, spans.find(32), Some(RouteTo::Local));
    same(&rt, spans.find(33), Some(via(33)));
    agree_at_ends(&rt, &fib, &spans);
}
