//! The table of IPv4 routes.
ghost use Rattle.std.specs.Prelude.{◌≡◌, ◌↔◌, true, ℕ, ◌<◌, ◌≤◌, ◌∷◌, ◌++◌, [], length, map, remove, slice_index, IfErr, IfOk, IsErr, IsOk, IsTrue, OnErr, OnOk, MatchOption, MatchResult};
ghost use Rattle.std.specs.List.{insert};
ghost use Rattle.vg_model.specs.Route.{best_route, covers as covers_address, ip4};
ghost use Rattle.vg_model.specs.Edit.{most_routes, placed, route_place};
ghost use Rattle.vg_fib.specs.Table.{HasOneRouteEach, longer_behind};
ghost use Rattle.vg_fib.specs.declared.table.FibError.TheVariants.{Memory as OutOfMemory};
ghost use Rattle.vg_fib.specs.Order.{IsGap, IsOrder, moved_down, rank as rank_of, ranks};

use std::alloc::{AllocError, Global};
use std::error::Error;
use std::fmt;
use std::marker::Model;
use vg_model::limits::MOST_ROUTES;
use vg_model::{Memory, Prefix, RouteTo};

/// Why a route is not set.
#[derive(Clone, Copy, Debug, PartialEq, Eq)]
pub enum FibError {
    /// The prefix is new, and the table has [`MOST_ROUTES`] routes.
    TooMany,
    /// Memory ran out.
    Memory,
}

impl fmt::Display for FibError {
    fn fmt<W: fmt::Write>(&self, f: &mut fmt::Formatter<W>) -> fmt::Result {
        match self {
            FibError::TooMany => write!(f, "the table has {MOST_ROUTES} routes"),
            FibError::Memory => f.write_str("memory ran out"),
        }
    }
}

impl Error for FibError {}

impl From<AllocError> for FibError {
    ghost from_gives = { λ _ error. error ≡ OutOfMemory };

    fn from(_error: AllocError) -> FibError {
        FibError::Memory
    }
}

/// The table has no route for this prefix.
#[derive(Clone, Copy, Debug, PartialEq, Eq)]
pub struct NoSuchRoute;

impl fmt::Display for NoSuchRoute {
    fn fmt<W: fmt::Write>(&self, f: &mut fmt::Formatter<W>) -> fmt::Result {
        f.write_str("the prefix has no route")
    }
}

impl Error for NoSuchRoute {}

/// A forwarding information base of IPv4: a list of routes, at most [`MOST_ROUTES`], in which no prefix stands twice.
#[derive(Drop)]
pub struct Fib {
    routes: Vec<(Prefix, RouteTo)>,
    // The places of the routes in the order of their prefixes, by which a prefix is found.
    order: Vec<u16>,
}

impl Model for Fib {
    ghost use Rattle.vg_model.specs.Route.{ip4};
    ghost use Rattle.vg_fib.specs.Table.{Routes, IsTable};
    ghost use Rattle.vg_fib.specs.Order.{IsOrder, ranks};

    ghost Value = { Routes };

    ghost view = { λ fib. fib.routes.items };

    ghost invariant = { λ fib. IsTable ip4 fib.routes.items × IsOrder (ranks ip4 fib.routes.items) fib.order.items };
}

impl Fib {
    /// A table with no route.
    ///
    /// # Errors
    ///
    /// [`Memory`] where memory runs out.
    pub fn new(alloc: Global) -> Result<Fib, Memory>
        ensures { IfOk result (λ fib. fib ≡ []) }
    {
        Ok(Fib {
            routes: Vec::new(alloc),
            order: Vec::new(alloc),
        })
    }

    /// The routes: a new one stands behind those that were set before it.
    pub fn routes(&self) -> &[(Prefix, RouteTo)]
        ensures routes { result.now ≡ self.now }
        ensures one_route_each { HasOneRouteEach self.now }
        ensures few { length self.now ≤ MOST_ROUTES }
    {
        self.routes.as_slice()
    }

    /// Sets the route of a prefix: the target of a known prefix changes in its place, and a new prefix
    /// goes to the end.
    ///
    /// # Errors
    ///
    /// The table stays as it was. [`FibError::TooMany`] comes exactly where the prefix is new and the
    /// table has [`MOST_ROUTES`] routes, [`FibError::Memory`] where memory runs out.
    pub fn set(&mut self, prefix: Prefix, to: RouteTo) -> Result<(), FibError>
        ensures set { IfOk result (λ _. placed most_routes (route_place prefix self.old) (prefix, to) self.old ≡ Ok self.new) }
        ensures full { (result ≡ Err FibError.TooMany) ↔ ((route_place prefix self.old ≡ None) × (MOST_ROUTES ≤ length self.old)) }
        ensures refused { IfErr result (λ _. self.new ≡ self.old) }
    {
        match place_in_order(self.routes.as_slice(), self.order.as_slice(), prefix) {
            Ok(at) => {
                let place = usize::from(self.order[at]);
                self.routes[place] = (prefix, to);
                Ok(())
            }
            Err(_) if self.is_full() => Err(FibError::TooMany),
            Err(at) => Ok(add(&mut self.routes, &mut self.order, at, (prefix, to))?),
        }
    }

    // Whether no new prefix may be set.
    fn is_full(&self) -> bool
        ensures { IsTrue result ↔ (MOST_ROUTES ≤ length self.now) }
    {
        self.routes.len() >= MOST_ROUTES
    }

    /// Takes the route of a prefix out; the others stay in their order. It takes no memory.
    ///
    /// # Errors
    ///
    /// [`NoSuchRoute`] exactly where the prefix has no route; the table stays as it was.
    pub fn remove(&mut self, prefix: Prefix) -> Result<(), NoSuchRoute>
        ensures { MatchOption (route_place prefix self.old)
            (IsErr result × (self.new ≡ self.old))
            (λ place. IsOk result × (self.new ≡ remove self.old place)) }
    {
        let found = place_in_order(self.routes.as_slice(), self.order.as_slice(), prefix);
        let Ok(at) = found else {
            return Err(NoSuchRoute);
        };
        let place = self.order.remove(at);
        self.routes.remove(usize::from(place));
        close_gap(self.order.as_mut_slice(), place);
        Ok(())
    }

    /// The target of the longest prefix that covers an address, which is in the host's order; `None`
    /// exactly where no prefix covers it. It takes no memory.
    pub fn find(&self, address: u32) -> Option<RouteTo>
        ensures { result ≡ best_route self.now address }
    {
        let mut longest: Option<(Prefix, RouteTo)> = None;
        for route in &self.routes {
            if covers(route.0, address) {
                longest = Some(longer(longest, *route));
            }
        }
        longest.map(|route| route.1)
    }

    /// An equal table.
    ///
    /// # Errors
    ///
    /// [`Memory`] where memory runs out.
    pub fn copy(&self) -> Result<Fib, Memory>
        ensures { IfOk result (λ fib. fib ≡ self.now) }
    {
        Fib::new(*self.routes.allocator())?.renewed(self)
    }

    /// A table that is equal to another, in the memory of this one as far as it is enough.
    ///
    /// # Errors
    ///
    /// [`Memory`] where memory runs out.
    pub fn renewed(self, other: &Fib) -> Result<Fib, Memory>
        ensures { IfOk result (λ fib. fib ≡ other.now) }
    {
        let Fib {
            mut routes,
            mut order,
        } = self;
        overwrite(&mut routes, other.routes.as_slice())?;
        overwrite(&mut order, other.order.as_slice())?;
        Ok(Fib { routes, order })
    }
}

// What is known of each table.
pub(crate) fn know_few(fib: &Fib)
    ensures { length fib.now ≤ most_routes }
{
    let _ = fib.routes();
}

// A number by which prefixes are in order, and no two have the same.
fn rank(prefix: Prefix) -> u64
    ensures { result ≡ rank_of ip4 prefix }
{
    256 * u64::from(prefix.addr) + u64::from(prefix.len)
}

// Whether all prefixes in the order come before one of this rank.
fn come_before(routes: &[(Prefix, RouteTo)], order: &[u16], wanted: u64) -> bool
    requires { IsOrder (ranks ip4 routes.now) order.now }
    ensures { result ≡ true → IsGap (ranks ip4 routes.now) order.now wanted (length order.now) }
{
    if order.is_empty() {
        return true;
    }
    let last = order.len() - 1;
    rank(routes[usize::from(order[last])].0) < wanted
}

// Where the place of a prefix stands in the order, or where it would have to be put. Routes are often set in the order of their prefixes,
// so the last one is looked at first.
fn place_in_order(
    routes: &[(Prefix, RouteTo)],
    order: &[u16],
    prefix: Prefix,
) -> Result<usize, usize>
    requires { IsOrder (ranks ip4 routes.now) order.now }
    ensures { MatchResult result
        (λ at. (at < length order.now) × (route_place prefix routes.now ≡ Some (slice_index order.now at)))
        (λ at. (route_place prefix routes.now ≡ None) × IsGap (ranks ip4 routes.now) order.now (rank_of ip4 prefix) at) }
{
    let wanted = rank(prefix);
    if come_before(routes, order, wanted) {
        return Err(order.len());
    }
    let mut from = 0;
    let mut to = order.len();
    while from < to {
        let middle = from + (to - from) / 2;
        let here = rank(routes[usize::from(order[middle])].0);
        if here == wanted {
            return Ok(middle);
        }
        if here < wanted {
            from = middle + 1;
        } else {
            to = middle;
        }
    }
    Err(from)
}

// Adds a route behind the others, and its place to the order. Without memory both stay as they were.
pub(crate) fn add<R: Copy + Drop>(
    routes: &mut Vec<R>,
    order: &mut Vec<u16>,
    at: usize,
    route: R,
) -> Result<(), AllocError>
    requires few { length routes.old.items < MOST_ROUTES }
    requires at { at ≤ length order.old.items }
    ensures routes { OnOk result (routes.new.items ≡ routes.old.items ++ route ∷ []) }
    ensures order { OnOk result (order.new.items ≡ insert order.old.items at (length routes.old.items)) }
    ensures same_routes { OnErr result (routes.new.items ≡ routes.old.items) }
    ensures same_order { OnErr result (order.new.items ≡ order.old.items) }
{
    routes.reserve(1)?;
    order.insert(at, routes.len() as u16)?;
    routes.push_reserved(route);
    Ok(())
}

// Puts these values in place of those of a list, in its memory as far as it is enough.
pub(crate) fn overwrite<T: Copy + Drop>(list: &mut Vec<T>, values: &[T]) -> Result<(), AllocError>
    ensures { OnOk result (list.new.items ≡ values.now) }
{
    list.clear();
    list.extend_from_slice(values)
}

// Where a place stands once this one is taken out.
#[inline]
fn place_without(gone: u16, place: u16) -> u16
    ensures { result ≡ moved_down gone place }
{
    if place > gone { place - 1 } else { place }
}

// The places behind one that was taken out are one less. All are written, so that they go many at a time.
pub(crate) fn close_gap(order: &mut [u16], place: u16)
    ensures { order.new ≡ map (moved_down place) order.old }
{
    for other in order.iter_mut() {
        *other = place_without(place, *other);
    }
}

// Whether the bits of a prefix are the first bits of an address. They are shifted as 64 bits, since a prefix
// of no bits leaves 32 host bits.
pub(crate) fn covers(prefix: Prefix, address: u32) -> bool
    ensures { result ≡ covers_address 32 prefix.addr prefix.len address }
{
    let host_bits = 32 - prefix.len;
    u64::from(prefix.addr) >> host_bits == u64::from(address) >> host_bits
}

// The longer of the longest route so far and one behind it; the first of two that are as long.
fn longer(longest: Option<(Prefix, RouteTo)>, route: (Prefix, RouteTo)) -> (Prefix, RouteTo)
    ensures { result ≡ longer_behind (λ prefix. prefix.len) longest route }
{
    match longest {
        Some(other) if other.0.len >= route.0.len => other,
        _ => route,
    }
}
