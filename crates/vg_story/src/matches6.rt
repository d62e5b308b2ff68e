//! The longest prefix that covers an IPv6 address, among prefixes with the lines that set them. It is searched as in `matches`.
ghost use Rattle.std.specs.Prelude.{◌≡◌, IfOk, length};
ghost use Rattle.vg_model.specs.Route.{covers as covers_address, ip6};
ghost use Rattle.vg_story.specs.Matches.{matched6_in, AreAround, AreByRank, HasOneLineEach, IsBegun, IsNearest, IsSearched};

use std::alloc::{AllocError, Global};
use std::marker::Model;
use vg_model::Prefix6;

/// The prefixes of IPv6 routes in the order of their table, each with the line that set it, and in a form that is searched. It is seen as
/// the list of them.
#[derive(Drop)]
pub struct RouteIndex6 {
    listed: Vec<(Prefix6, u32)>,
    // The same by their addresses, and of one address by their lengths: a prefix stands behind those that it lies in.
    sorted: Vec<(Prefix6, u32)>,
    // Of each sorted one, the number of the last before it whose prefix covers its address, counted from 1; 0 where none does.
    around: Vec<usize>,
}

impl Model for RouteIndex6 {
    ghost use Rattle.std.specs.Prelude.{ℕ, List};
    ghost use Rattle.vg_model.specs.declared.routes.Prefix6.{Prefix6};
    ghost use Rattle.vg_model.specs.Route.{ip6};
    ghost use Rattle.vg_story.specs.Matches.{AreIndexed};

    ghost Value = { List (Prefix6 × ℕ) };

    ghost view = { λ index. index.listed.items };

    ghost invariant = { λ index. AreIndexed ip6 index.listed.items index.sorted.items index.around.items };
}

impl RouteIndex6 {
    /// These routes, in this order.
    ///
    /// # Errors
    ///
    /// [`AllocError`] where memory runs out.
    pub fn of(alloc: Global, listed: Vec<(Prefix6, u32)>) -> Result<RouteIndex6, AllocError>
        requires { HasOneLineEach ip6 listed.items }
        ensures { IfOk result (λ index. index ≡ listed.items) }
    {
        let mut sorted = Vec::from_slice(alloc, listed.as_slice())?;
        sorted.sort_unstable_by_key(|route| (route.0.addr, route.0.len));
        let around = around6(alloc, sorted.as_slice())?;
        Ok(RouteIndex6 {
            listed,
            sorted,
            around,
        })
    }

    /// The routes in the order of their table.
    pub fn as_slice(&self) -> &[(Prefix6, u32)]
        ensures { result.now ≡ self.now }
    {
        self.listed.as_slice()
    }

    // The longest prefix that covers an address, with its line.
    fn longest(&self, address: u128) -> Option<(Prefix6, u32)>
        ensures { result ≡ matched6_in self.now address }
    {
        let sorted = self.sorted.as_slice();
        let begun = begun6(sorted, address);
        match nearest6(sorted, self.around.as_slice(), begun, address) {
            0 => None,
            number => Some(sorted[number - 1]),
        }
    }
}

/// The longest of these IPv6 prefixes that covers an address, with its line.
pub fn matched6(routes: &RouteIndex6, address: u128) -> Option<(Prefix6, u32)>
    ensures { result ≡ matched6_in routes.now address }
{
    routes.longest(address)
}

// How many of these routes begin no later than an address.
fn begun6(sorted: &[(Prefix6, u32)], address: u128) -> usize
    requires { AreByRank ip6 sorted.now }
    ensures { IsBegun ip6 sorted.now address result }
{
    sorted.partition_point(|route| route.0.addr <= address)
}

// Of each of these routes, the number of the last before it whose prefix covers its address.
fn around6(alloc: Global, sorted: &[(Prefix6, u32)]) -> Result<Vec<usize>, AllocError>
    requires { AreByRank ip6 sorted.now }
    ensures around { IfOk result (λ around. AreAround ip6 sorted.now around.items) }
    ensures all { IfOk result (λ around. length around.items ≡ length sorted.now) }
{
    let mut around = Vec::with_capacity(alloc, sorted.len())?;
    for route in sorted {
        let number = nearest6(sorted, around.as_slice(), around.len(), route.0.addr);
        around.push(number)?;
    }
    Ok(around)
}

// The number of the last of the first so many routes whose prefix covers an address; none of them begins behind it.
fn nearest6(sorted: &[(Prefix6, u32)], around: &[usize], begun: usize, address: u128) -> usize
    requires { IsSearched ip6 sorted.now around.now begun address }
    ensures { IsNearest ip6 sorted.now address begun result }
{
    let mut number = begun;
    while number > 0 {
        if covers6(sorted[number - 1].0, address) {
            return number;
        }
        number = around[number - 1];
    }
    0
}

// Whether the bits of a prefix are the first bits of an address.
fn covers6(prefix: Prefix6, address: u128) -> bool
    ensures { result ≡ covers_address 128 prefix.addr prefix.len address }
{
    // A prefix of no bits covers all addresses; 128 bits can't be shifted by 128.
    if prefix.len == 0 {
        return true;
    }
    let host_bits = 128 - prefix.len;
    prefix.addr >> host_bits == address >> host_bits
}
