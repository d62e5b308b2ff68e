//! The table of IPv6 routes.
ghost use Rattle.std.specs.Prelude.{◌≡◌, ◌↔◌, ◌<◌, ◌≤◌, ◌∷◌, ◌++◌, [], length, remove, slice_index, IfErr, IfOk, IsErr, IsOk, IsTrue, MatchOption, MatchResult, Some, None, Ok, Err};
ghost use Rattle.vg_model.specs.Route.{best_route6, covers as covers_address, ip6};
ghost use Rattle.vg_model.specs.Edit.{most_routes, placed, route6_place};
ghost use Rattle.vg_fib.specs.Table.{HasOneEach, longer_behind};
ghost use Rattle.vg_fib.specs.Order.{IsGap, IsOrder, rank, ranks};

use crate::table::{FibError, NoSuchRoute, add, close_gap, overwrite};
use std::alloc::Global;
use std::marker::Model;
use vg_model::limits::MOST_ROUTES;
use vg_model::{Memory, Prefix6, RouteTo};

/// A forwarding information base of IPv6: a list of routes, at most [`MOST_ROUTES`], in which no prefix stands twice.
#[derive(Drop)]
pub struct Fib6 {
    routes: Vec<(Prefix6, RouteTo)>,
    // The places of the routes in the order of their prefixes, by which a prefix is found.
    order: Vec<u16>,
}

impl Model for Fib6 {
    ghost use Rattle.vg_model.specs.Route.{ip6};
    ghost use Rattle.vg_fib.specs.Table.{Routes6, IsTable};
    ghost use Rattle.vg_fib.specs.Order.{IsOrder, ranks};

    ghost Value = { Routes6 };

    ghost view = { λ fib. fib.routes.items };

    ghost invariant = { λ fib. IsTable ip6 fib.routes.items × IsOrder (ranks ip6 fib.routes.items) fib.order.items };
}

impl Fib6 {
    /// A table with no route.
    ///
    /// # Errors
    ///
    /// [`Memory`] where memory runs out.
    pub fn new(alloc: Global) -> Result<Fib6, Memory>
        ensures { IfOk result (λ fib. fib ≡ []) }
    {
        Ok(Fib6 {
            routes: Vec::new(alloc),
            order: Vec::new(alloc),
        })
    }

    /// The routes: a new one stands behind those that were set before it.
    pub fn routes(&self) -> &[(Prefix6, RouteTo)]
        ensures routes { result.now ≡ self.now }
        ensures one_route_each { HasOneEach ip6 self.now }
        ensures few { length self.now ≤ MOST_ROUTES }
    {
        self.routes.as_slice()
    }

    // The places of the routes, by rising prefixes.
    pub(crate) fn order(&self) -> &[u16]
        ensures { IsOrder (ranks ip6 self.now) result.now }
    {
        self.order.as_slice()
    }

    /// Sets the route of a prefix: the target of a known prefix changes in its place, and a new prefix
    /// goes to the end.
    ///
    /// # Errors
    ///
    /// The table stays as it was. [`FibError::TooMany`] comes exactly where the prefix is new and the
    /// table has [`MOST_ROUTES`] routes, [`FibError::Memory`] where memory runs out.
    pub fn set(&mut self, prefix: Prefix6, to: RouteTo) -> Result<(), FibError>
        ensures set { IfOk result (λ _. placed most_routes (route6_place prefix self.old) (prefix, to) self.old ≡ Ok self.new) }
        ensures full { (result ≡ Err FibError.TooMany) ↔ ((route6_place prefix self.old ≡ None) × (MOST_ROUTES ≤ length self.old)) }
        ensures refused { IfErr result (λ _. self.new ≡ self.old) }
    {
        match place_in_order(self.routes.as_slice(), self.order.as_slice(), prefix) {
            Ok(at) => {
                let place = usize::from(self.order[at]);
                self.routes[place] = (prefix, to);
                Ok(())
            }
            Err(_) if self.is_full() => Err(FibError::TooMany),
            Err(at) => Ok(add(&mut self.routes, &mut self.order, at, (prefix, to))?),
        }
    }

    // Whether no new prefix may be set.
    fn is_full(&self) -> bool
        ensures { IsTrue result ↔ (MOST_ROUTES ≤ length self.now) }
    {
        self.routes.len() >= MOST_ROUTES
    }

    /// Takes the route of a prefix out; the others stay in their order. It takes no memory.
    ///
    /// # Errors
    ///
    /// [`NoSuchRoute`] exactly where the prefix has no route; the table stays as it was.
    pub fn remove(&mut self, prefix: Prefix6) -> Result<(), NoSuchRoute>
        ensures { MatchOption (route6_place prefix self.old)
            (IsErr result × (self.new ≡ self.old))
            (λ place. IsOk result × (self.new ≡ remove self.old place)) }
    {
        let found = place_in_order(self.routes.as_slice(), self.order.as_slice(), prefix);
        let Ok(at) = found else {
            return Err(NoSuchRoute);
        };
        let place = self.order.remove(at);
        self.routes.remove(usize::from(place));
        close_gap(self.order.as_mut_slice(), place);
        Ok(())
    }

    /// The target of the longest prefix that covers an address, which is in the host's order; `None`
    /// exactly where no prefix covers it. It takes no memory.
    pub fn find(&self, address: u128) -> Option<RouteTo>
        ensures { result ≡ best_route6 self.now address }
    {
        let mut longest: Option<(Prefix6, RouteTo)> = None;
        for route in &self.routes {
            if covers(route.0, address) {
                longest = Some(longer(longest, *route));
            }
        }
        longest.map(|route| route.1)
    }

    /// An equal table.
    ///
    /// # Errors
    ///
    /// [`Memory`] where memory runs out.
    pub fn copy(&self) -> Result<Fib6, Memory>
        ensures { IfOk result (λ fib. fib ≡ self.now) }
    {
        Fib6::new(*self.routes.allocator())?.renewed(self)
    }

    /// A table that is equal to another, in the memory of this one as far as it is enough.
    ///
    /// # Errors
    ///
    /// [`Memory`] where memory runs out.
    pub fn renewed(self, other: &Fib6) -> Result<Fib6, Memory>
        ensures { IfOk result (λ fib. fib ≡ other.now) }
    {
        let Fib6 {
            mut routes,
            mut order,
        } = self;
        overwrite(&mut routes, other.routes.as_slice()).map_err(|_| Memory)?;
        overwrite(&mut order, other.order.as_slice()).map_err(|_| Memory)?;
        Ok(Fib6 { routes, order })
    }
}

// What is known of each table.
pub(crate) fn know_few(fib: &Fib6)
    ensures { length fib.now ≤ most_routes }
{
    let _ = fib.routes();
}

// Whether a prefix comes before another in the order: by its address, then by its length.
fn comes_before(one: Prefix6, other: Prefix6) -> bool
    ensures { IsTrue result ↔ (rank ip6 one < rank ip6 other) }
{
    if one.addr == other.addr {
        one.len < other.len
    } else {
        one.addr < other.addr
    }
}

// Where the place of a prefix stands in the order, or where it would have to be put.
fn place_in_order(
    routes: &[(Prefix6, RouteTo)],
    order: &[u16],
    prefix: Prefix6,
) -> Result<usize, usize>
    requires { IsOrder (ranks ip6 routes.now) order.now }
    ensures { MatchResult result
        (λ at. (at < length order.now) × (route6_place prefix routes.now ≡ Some (slice_index order.now at)))
        (λ at. (route6_place prefix routes.now ≡ None) × IsGap (ranks ip6 routes.now) order.now (rank ip6 prefix) at) }
{
    let mut from = 0;
    let mut to = order.len();
    while from < to {
        let middle = from + (to - from) / 2;
        let here = routes[usize::from(order[middle])].0;
        if comes_before(here, prefix) {
            from = middle + 1;
        } else if comes_before(prefix, here) {
            to = middle;
        } else {
            return Ok(middle);
        }
    }
    Err(from)
}

// Whether the bits of a prefix are the first bits of an address.
pub(crate) fn covers(prefix: Prefix6, address: u128) -> bool
    ensures { result ≡ covers_address 128 prefix.addr prefix.len address }
{
    // A prefix of no bits covers all addresses; 128 bits can't be shifted by 128.
    if prefix.len == 0 {
        return true;
    }
    let host_bits = 128 - prefix.len;
    prefix.addr >> host_bits == address >> host_bits
}

// The longer of the longest route so far and one behind it; the first of two that are as long.
fn longer(longest: Option<(Prefix6, RouteTo)>, route: (Prefix6, RouteTo)) -> (Prefix6, RouteTo)
    ensures { result ≡ longer_behind (λ prefix. prefix.len) longest route }
{
    match longest {
        Some(other) if other.0.len >= route.0.len => other,
        _ => route,
    }
}
